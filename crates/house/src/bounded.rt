//! Runs with schedulers whose bound never passes a number.
ghost use Rattle.std.specs.Prelude.{◌≡◌, ◌≤◌, ℕ, length, IfOk};
ghost use Rattle.law.specs.Law.{Promises, BoundedBy};
ghost use Rattle.law.specs.Runs.{lent, held_with, run_of};
ghost use Rattle.runs.specs.Ended.{Ended};

use manager::Call;
use meaning::{Controller, Scheduler};
use runs::{Outcome, RunError, run};
use std::alloc::Global;
use tables::Row;

/// A scheduler whose bound is at most one number, `most`, in every state.
pub trait Bounded: Scheduler {
    ghost most: { ℕ };

    ghost bound_most: { (s : Self) → Self.scheduling.bound s ≤ most };
}

/// A run with such a scheduler for each macroflow: a stream that waits in a macroflow and gets no
/// grant sees at most that number of grants to others there.
///
/// The first three clauses are those of `run`, said again, so that they are read here whole.
pub fn run_bounded<C: Controller, S: Bounded>(
    heap: Global,
    macroflows: usize,
    controllers: &mut [C],
    schedulers: &mut [S],
    rows: &mut [Row],
    calls: &[Call],
) -> Result<Outcome, RunError>
    ensures plain { Ended C.control S.scheduling macroflows (lent controllers.old schedulers.old rows.old) calls.now result (lent controllers.new schedulers.new rows.new) }
    ensures held { IfOk result (λ o. (run_of C.control S.scheduling macroflows (lent controllers.old schedulers.old rows.old) calls.now o.answers.items).held (length calls.now) ≡ held_with o.manager.core (lent controllers.new schedulers.new rows.new)) }
    ensures promises { IfOk result (λ o. Promises C.control S.scheduling (run_of C.control S.scheduling macroflows (lent controllers.old schedulers.old rows.old) calls.now o.answers.items)) }
    ensures bounded { IfOk result (λ o. BoundedBy (λ _. S.most) (run_of C.control S.scheduling macroflows (lent controllers.old schedulers.old rows.old) calls.now o.answers.items)) }
{
    run(heap, macroflows, controllers, schedulers, rows, calls)
}
