//! The plain state of a round robin.

/// The state of a weighted round robin over N places.
#[derive(Clone, Copy)]
pub struct RoundRobinState<const N: usize> {
    /// The place whose turn it is; N - 1 at first.
    pub turn: usize,
    /// How many more picks in a row the turn's place has; 0 at first.
    pub credit: u64,
    /// The weight of each place, 0 where it does not wait.
    pub weights: [u64; N],
}
