//! A stream is closed.
ghost use Rattle.std.specs.Prelude.{◌≡◌, OnErr};
ghost use Rattle.tables.specs.Replies.{reply};
ghost use Rattle.stream_calls.specs.Calls.{close as close_call};

use crate::telling::lower;
use meaning::{Reason, Refusal, Scheduler};
use tables::{Core, SLOTS, sum_fits};

/// Closes a stream: its waiting requests are dropped, and what is outstanding counts as abandoned.
pub fn close<S: Scheduler>(
    core: &mut Core,
    schedulers: &mut [S],
    time: u64,
    slot: usize,
) -> Result<(), Refusal>
    ensures plain { reply result core.new schedulers.new ≡ close_call S.scheduling core.old schedulers.old time slot }
    ensures refused { OnErr result ((core.new ≡ core.old) × (schedulers.new ≡ schedulers.old)) }
{
    if schedulers.len() != core.macroflows {
        return Err(core.slot_refusal(slot, Reason::TablesDisagree));
    }
    if !core.is_timely(time) {
        return Err(core.slot_refusal(slot, Reason::NotTimely));
    }
    if slot >= SLOTS {
        return Err(core.slot_refusal(slot, Reason::NoSuchSlot));
    }
    let stream = core.streams[slot];
    if !stream.opened {
        return Err(core.slot_refusal(slot, Reason::NotOpen));
    }
    if stream.reserved != 0 {
        return Err(core.slot_refusal(slot, Reason::OpenBytes));
    }
    if stream.macroflow >= core.macroflows {
        return Err(core.slot_refusal(slot, Reason::TablesDisagree));
    }
    if !sum_fits(stream.abandoned, stream.outstanding) {
        return Err(core.slot_refusal(slot, Reason::TablesDisagree));
    }
    lower(schedulers, stream.macroflow, slot);
    let s = &mut core.streams[slot];
    s.opened = false;
    s.waiting = 0;
    s.abandoned += s.outstanding;
    s.outstanding = 0;
    core.last = time;
    Ok(())
}
