//! A list of calls, carried out from a fresh manager.
ghost use Rattle.std.specs.Prelude.{◌≡◌, ◌≤◌, [], length, IfOk, vec_len, vec_capacity};
ghost use Rattle.manager.specs.State.{state};
ghost use Rattle.manager.specs.Steps.{after, answers};
ghost use Rattle.law.specs.Law.{Promises};
ghost use Rattle.law.specs.Runs.{lent, held_with, run_of};
ghost use Rattle.runs.specs.Ended.{Ended};

use crate::outcome::{Outcome, RunError};
use manager::{Answer, Call, Manager};
use meaning::{Controller, Scheduler};
use std::alloc::Global;
use tables::Row;

/// Carries out the calls, and puts the answers into memory that was reserved for them.
fn carry_out<C: Controller, S: Scheduler>(
    manager: &mut Manager,
    controllers: &mut [C],
    schedulers: &mut [S],
    rows: &mut [Row],
    calls: &[Call],
    given: &mut Vec<Answer>,
)
    requires empty { (given.old.items ≡ []) × (vec_len given.old ≡ 0) }
    requires room { length calls.now ≤ vec_capacity given.old }
    ensures answers { given.new.items ≡ answers C.control S.scheduling (state manager.old.core controllers.old schedulers.old rows.old) calls.now }
    ensures state { state manager.new.core controllers.new schedulers.new rows.new ≡ after C.control S.scheduling (state manager.old.core controllers.old schedulers.old rows.old) calls.now }
{
    for call in calls {
        given.push_reserved(manager.carry_out(controllers, schedulers, rows, *call));
    }
}

/// Makes a manager of what the host lends, and carries out the calls in their order, each finding all
/// as the last one left it. Without memory for the answers, or where no manager can be made, nothing
/// has changed.
///
/// The answers and all tables are those of the plain manager (`plain`), and so at the last moment of
/// the run (`held`). Whatever the controllers, the schedulers and the calls are, the run keeps every
/// sentence of `Promises`: polls issue exactly when they should, the books balance, a grant ends once
/// and its row stays, who waits is served within the scheduler's bound, no table is ever found at
/// odds, and a refused call changes nothing. The clauses are written out, and not put into one word,
/// so that they are read here whole.
pub fn run<C: Controller, S: Scheduler>(
    heap: Global,
    macroflows: usize,
    controllers: &mut [C],
    schedulers: &mut [S],
    rows: &mut [Row],
    calls: &[Call],
) -> Result<Outcome, RunError>
    ensures plain { Ended C.control S.scheduling macroflows (lent controllers.old schedulers.old rows.old) calls.now result (lent controllers.new schedulers.new rows.new) }
    ensures held { IfOk result (λ o. (run_of C.control S.scheduling macroflows (lent controllers.old schedulers.old rows.old) calls.now o.answers.items).held (length calls.now) ≡ held_with o.manager.core (lent controllers.new schedulers.new rows.new)) }
    ensures promises { IfOk result (λ o. Promises C.control S.scheduling (run_of C.control S.scheduling macroflows (lent controllers.old schedulers.old rows.old) calls.now o.answers.items)) }
{
    let mut manager = Manager::new(macroflows, controllers, schedulers, rows)?;
    let mut answers = Vec::with_capacity(heap, calls.len())?;
    carry_out(
        &mut manager,
        controllers,
        schedulers,
        rows,
        calls,
        &mut answers,
    );
    Ok(Outcome { manager, answers })
}
