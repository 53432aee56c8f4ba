//! Runs with class trees.
ghost use Rattle.std.specs.Prelude.{◌≡◌, length, IfOk};
ghost use Rattle.std.proofs.Common.{rules};
ghost use Rattle.class_tree.specs.Scheduling.{class_tree};
ghost use Rattle.law.specs.Law.{Promises, BoundedBy};
ghost use Rattle.law.specs.Runs.{lent, held_with, run_of};
ghost use Rattle.runs.specs.Ended.{Ended};

use crate::bounded::{Bounded, run_bounded};
use class_tree::ClassTree;
use manager::Call;
use meaning::Controller;
use runs::{Outcome, RunError};
use std::alloc::Global;
use tables::Row;

impl Bounded for ClassTree {
    ghost most = { 1424 };

    ghost bound_most = { Prim.search rules };
}

/// A run with a class tree for each macroflow: a stream that waits in a macroflow and gets no grant
/// sees at most 1,424 grants to others there.
///
/// It is `run_bounded` for this scheduler. The clauses are written out, so that the number stands in them.
pub fn run_class_tree<C: Controller>(
    heap: Global,
    macroflows: usize,
    controllers: &mut [C],
    schedulers: &mut [ClassTree],
    rows: &mut [Row],
    calls: &[Call],
) -> Result<Outcome, RunError>
    ensures plain { Ended C.control class_tree macroflows (lent controllers.old schedulers.old rows.old) calls.now result (lent controllers.new schedulers.new rows.new) }
    ensures held { IfOk result (λ o. (run_of C.control class_tree macroflows (lent controllers.old schedulers.old rows.old) calls.now o.answers.items).held (length calls.now) ≡ held_with o.manager.core (lent controllers.new schedulers.new rows.new)) }
    ensures promises { IfOk result (λ o. Promises C.control class_tree (run_of C.control class_tree macroflows (lent controllers.old schedulers.old rows.old) calls.now o.answers.items)) }
    ensures bounded { IfOk result (λ o. BoundedBy (λ _. 1424) (run_of C.control class_tree macroflows (lent controllers.old schedulers.old rows.old) calls.now o.answers.items)) }
{
    run_bounded(heap, macroflows, controllers, schedulers, rows, calls)
}
