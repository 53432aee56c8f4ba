//! The class tree as a scheduler of 32 slots.
ghost use Rattle.class_tree.specs.Scheduling.{class_tree};
ghost use Rattle.class_tree.specs.Lawful.{class_tree_laws};

use crate::class_tree::ClassTree;
use meaning::Scheduler;

/// Each method is the class tree's own, which is there for callers without the trait.
///
/// A slot sees at most 25 × 56 + 24 = 1,424 picks of others before its own.
impl Scheduler for ClassTree {
    ghost scheduling = { class_tree };

    ghost lawful = { class_tree_laws };

    fn is_waiting(&self, slot: usize) -> bool {
        self.is_waiting(slot)
    }

    fn raise(&mut self, slot: usize, weight: u64) {
        self.raise(slot, weight);
    }

    fn lower(&mut self, slot: usize) {
        self.lower(slot);
    }

    fn pick(&mut self) -> Option<usize> {
        self.pick()
    }
}
