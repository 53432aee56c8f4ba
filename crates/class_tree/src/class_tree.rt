//! A class tree.
ghost use Rattle.std.specs.Prelude.{◌≡◌};
ghost use Rattle.class_tree.specs.Rule.{Sound};
ghost use Rattle.class_tree.specs.RoundRobins.{round_robins, tree_of};

use crate::state::ClassTreeState;

mod methods;

/// A class tree, in a state that its own calls can lead to: a class waits exactly while one of its slots does.
///
/// Classes 0 to 3 have the weights 8, 4, 2 and 1 among each other; within a class the slots have their own weights.
#[derive(Clone, Copy)]
pub struct ClassTree {
    state: ClassTreeState,
    ghost sound: { Sound round_robins (tree_of state) },
}

impl ClassTree {
    /// A copy of the plain state.
    pub fn state(&self) -> ClassTreeState
        ensures { result ≡ self.now.state }
    {
        self.state
    }
}
