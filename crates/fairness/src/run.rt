//! Carries out a list of events.
ghost use Rattle.std.specs.Prelude.{◌≡◌, ◌≤◌, [], length, IfOk, vec_len, vec_capacity};
ghost use Rattle.fairness.specs.Events.{state_after, answers, Ended};
ghost use Rattle.fairness.specs.Fair.{Fair};

use crate::event::Event;
use meaning::Scheduler;
use std::alloc::{AllocError, Global};

/// Carries out the events in their order, and returns the answers of the picks among them.
///
/// Through any stretch of the events in which a slot waits and is not picked, at most as many picks go to other slots
/// as the scheduler's bound says. Where there is no memory for the answers, the result is an `AllocError`, and the
/// scheduler is as it was.
pub fn carry_out<S: Scheduler>(
    heap: Global,
    scheduler: &mut S,
    events: &[Event],
) -> Result<Vec<Option<usize>>, AllocError>
    ensures ended { Ended S.scheduling scheduler.old events.now result scheduler.new }
    ensures fair { IfOk result (λ v. Fair S.scheduling scheduler.old events.now v.items) }
{
    let mut picked = Vec::with_capacity(heap, events.len())?;
    apply(scheduler, events, &mut picked);
    Ok(picked)
}

/// Carries out the events, and puts the answers into memory that was reserved for them.
#[tactic(auto, using(folds::proofs::Folding::leads_more))]
fn apply<S: Scheduler>(scheduler: &mut S, events: &[Event], picked: &mut Vec<Option<usize>>)
    requires empty { (picked.old.items ≡ []) × (vec_len picked.old ≡ 0) }
    requires room { length events.now ≤ vec_capacity picked.old }
    ensures answers { picked.new.items ≡ answers S.scheduling scheduler.old events.now }
    ensures state { scheduler.new ≡ state_after S.scheduling scheduler.old events.now }
{
    // A `match` and no closures: the events are the caller's data, and a contract can speak of them.
    for event in events {
        match *event {
            Event::Raise { slot, weight } => scheduler.raise(slot, weight),
            Event::Lower { slot } => scheduler.lower(slot),
            Event::Pick => picked.push_reserved(scheduler.pick()),
        }
    }
}
