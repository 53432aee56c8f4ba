//! A stream asks for a grant.
ghost use Rattle.std.specs.Prelude.{◌≡◌, OnErr};
ghost use Rattle.tables.specs.Replies.{reply};
ghost use Rattle.stream_calls.specs.Calls.{request as request_call};

use crate::telling::raise;
use meaning::{Reason, Refusal, Scheduler};
use tables::{Core, SLOTS};

/// The most requests of one stream that can wait.
const MAX_WAITING: u64 = 255;

/// Adds a request of a stream; with the first one the slot begins to wait in its scheduler.
pub fn request<S: Scheduler>(
    core: &mut Core,
    schedulers: &mut [S],
    time: u64,
    slot: usize,
) -> Result<(), Refusal>
    ensures plain { reply result core.new schedulers.new ≡ request_call S.scheduling core.old schedulers.old time slot }
    ensures refused { OnErr result ((core.new ≡ core.old) × (schedulers.new ≡ schedulers.old)) }
{
    if schedulers.len() != core.macroflows {
        return Err(core.slot_refusal(slot, Reason::TablesDisagree));
    }
    if !core.is_timely(time) {
        return Err(core.slot_refusal(slot, Reason::NotTimely));
    }
    if slot >= SLOTS {
        return Err(core.slot_refusal(slot, Reason::NoSuchSlot));
    }
    let stream = core.streams[slot];
    if !stream.opened {
        return Err(core.slot_refusal(slot, Reason::NotOpen));
    }
    if stream.waiting >= MAX_WAITING {
        return Err(core.slot_refusal(slot, Reason::TooManyWaiting));
    }
    if stream.macroflow >= core.macroflows {
        return Err(core.slot_refusal(slot, Reason::TablesDisagree));
    }
    if stream.waiting == 0 {
        raise(schedulers, stream.macroflow, slot, stream.weight);
    }
    let s = &mut core.streams[slot];
    s.waiting += 1;
    s.quiet = time;
    core.last = time;
    Ok(())
}
