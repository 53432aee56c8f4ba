//! The class tree: four classes of eight slots each.
#![tactic(auto)]

mod class_tree;
mod scheduler;
mod state;
mod worked;

pub use class_tree::ClassTree;
pub use state::ClassTreeState;
pub use worked::eight_to_four;

#[cfg(test)]
mod tests {
    use super::*;

    #[test]
    fn worked_values(rt: HostRuntime) {
        let mut expected = [Some(0); 12];
        expected[8..].fill(Some(8));
        assert_eq!(rt; eight_to_four(), expected);
    }
}
