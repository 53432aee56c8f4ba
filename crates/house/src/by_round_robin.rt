//! Runs with weighted round robins.
ghost use Rattle.std.specs.Prelude.{◌≡◌, length, IfOk};
ghost use Rattle.std.proofs.Common.{rules};
ghost use Rattle.schedulers.specs.Scheduling.{round_robin};
ghost use Rattle.law.specs.Law.{Promises, BoundedBy};
ghost use Rattle.law.specs.Runs.{lent, held_with, run_of};
ghost use Rattle.runs.specs.Ended.{Ended};

use crate::bounded::{Bounded, run_bounded};
use manager::Call;
use meaning::Controller;
use runs::{Outcome, RunError};
use schedulers::RoundRobin;
use std::alloc::Global;
use tables::Row;

impl Bounded for RoundRobin<32> {
    ghost most = { 248 };

    ghost bound_most = { Prim.search rules };
}

/// A run with a weighted round robin for each macroflow: a stream that waits in a macroflow and gets no
/// grant sees at most 248 grants to others there.
///
/// It is `run_bounded` for this scheduler. The clauses are written out, so that the number stands in them.
pub fn run_round_robin<C: Controller>(
    heap: Global,
    macroflows: usize,
    controllers: &mut [C],
    schedulers: &mut [RoundRobin<32>],
    rows: &mut [Row],
    calls: &[Call],
) -> Result<Outcome, RunError>
    ensures plain { Ended C.control (round_robin 32) macroflows (lent controllers.old schedulers.old rows.old) calls.now result (lent controllers.new schedulers.new rows.new) }
    ensures held { IfOk result (λ o. (run_of C.control (round_robin 32) macroflows (lent controllers.old schedulers.old rows.old) calls.now o.answers.items).held (length calls.now) ≡ held_with o.manager.core (lent controllers.new schedulers.new rows.new)) }
    ensures promises { IfOk result (λ o. Promises C.control (round_robin 32) (run_of C.control (round_robin 32) macroflows (lent controllers.old schedulers.old rows.old) calls.now o.answers.items)) }
    ensures bounded { IfOk result (λ o. BoundedBy (λ _. 248) (run_of C.control (round_robin 32) macroflows (lent controllers.old schedulers.old rows.old) calls.now o.answers.items)) }
{
    run_bounded(heap, macroflows, controllers, schedulers, rows, calls)
}
