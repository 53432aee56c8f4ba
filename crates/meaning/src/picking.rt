//! Picks in a row.
ghost use Rattle.std.specs.Prelude.{◌≡◌};
ghost use Rattle.meaning.specs.Scheduling.{picks, turned_by};

use crate::scheduler::Scheduler;

/// The answers of the next K picks.
pub fn next_picks<S: Scheduler, const K: usize>(scheduler: &mut S) -> [Option<usize>; K]
    ensures answers { result ≡ picks S.scheduling K scheduler.old }
    ensures after { scheduler.new ≡ turned_by S.scheduling K scheduler.old }
{
    let mut answers = [None; K];
    // By index: after a loop over `&mut answers` a proof knows their number, and not what was written,
    // and of a closure that changes the scheduler, as for `array::from_fn`, it knows no answer.
    for i in 0..K {
        answers[i] = scheduler.pick();
    }
    answers
}
