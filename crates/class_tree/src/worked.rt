//! Worked values of the class tree.
ghost use Rattle.std.specs.Prelude.{◌≡◌};
ghost use Rattle.meaning.specs.Scheduling.{picks};
ghost use Rattle.class_tree.specs.Scheduling.{class_tree};
ghost use Rattle.class_tree.specs.Examples.{two_waiting, EightToFour, Bound1424};

use crate::class_tree::ClassTree;
use meaning::{Scheduler, next_picks};

/// Slot 0 of class 0 and slot 8 of class 1 wait with weight 1: the picks are slot 0 eight times, then slot 8 four times.
/// The bound is 1,424.
pub fn eight_to_four() -> [Option<usize>; 12]
    ensures rule { EightToFour }
    ensures bound { Bound1424 }
    ensures carried_out { result ≡ picks class_tree 12 two_waiting }
{
    let mut scheduler = ClassTree::new();
    scheduler.raise(0, 1);
    scheduler.raise(8, 1);
    next_picks(&mut scheduler)
}
