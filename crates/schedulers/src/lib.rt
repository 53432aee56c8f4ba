//! The weighted round robin, over any number of places.
#![tactic(auto)]

mod flat;
mod round_robin;
mod state;
mod worked;

pub use round_robin::RoundRobin;
pub use state::RoundRobinState;
pub use worked::two_to_one;

#[cfg(test)]
mod tests {
    use super::*;

    #[test]
    fn worked_values(rt: HostRuntime) {
        assert_eq!(rt;
            two_to_one(),
            [Some(0), Some(0), Some(1), Some(0), Some(0), Some(1)]
        );
        assert_eq!(rt; RoundRobin::<0>::new().pick(), None, "no place");
    }
}
