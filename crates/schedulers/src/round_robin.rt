//! A weighted round robin.
ghost use Rattle.std.specs.Prelude.{◌≡◌};
ghost use Rattle.schedulers.specs.Sound.{Sound};

use crate::state::RoundRobinState;

mod methods;

/// A weighted round robin over N places, in a state that its own calls can lead to.
///
/// The places that wait are picked in turn, upward and round, each as many times in a row as its weight says.
/// N may be 0: then no place can ever wait, and a pick answers `None`.
#[derive(Clone, Copy)]
pub struct RoundRobin<const N: usize> {
    state: RoundRobinState<N>,
    ghost sound: { Sound N state },
}

impl<const N: usize> RoundRobin<N> {
    /// A copy of the plain state.
    pub fn state(&self) -> RoundRobinState<N>
        ensures { result ≡ self.now.state }
    {
        self.state
    }
}
