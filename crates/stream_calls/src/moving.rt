//! A stream goes to another macroflow.
ghost use Rattle.std.specs.Prelude.{◌≡◌, ◌<◌, length, OnErr};
ghost use Rattle.tables.specs.Replies.{reply};
ghost use Rattle.stream_calls.specs.Calls.{passed_on, move_to as move_call};

use crate::telling::{lower, raise};
use meaning::{Reason, Refusal, Scheduler};
use tables::{Core, SLOTS, Stream};

/// A slot that waits is lowered in the scheduler of its macroflow, and raised in that of another.
pub(crate) fn pass_on<S: Scheduler>(
    schedulers: &mut [S],
    slot: usize,
    macroflow: usize,
    stream: Stream,
)
    requires from { stream.macroflow < length schedulers.old }
    requires into { macroflow < length schedulers.old }
    ensures { schedulers.new ≡ passed_on S.scheduling schedulers.old slot macroflow stream }
{
    if stream.waiting > 0 {
        lower(schedulers, stream.macroflow, slot);
        raise(schedulers, macroflow, slot, stream.weight);
    }
}

/// Moves a stream to another macroflow, with all its numbers: its outstanding and open bytes count
/// there from now on.
pub fn move_to<S: Scheduler>(
    core: &mut Core,
    schedulers: &mut [S],
    time: u64,
    slot: usize,
    macroflow: usize,
) -> Result<(), Refusal>
    ensures plain { reply result core.new schedulers.new ≡ move_call S.scheduling core.old schedulers.old time slot macroflow }
    ensures refused { OnErr result ((core.new ≡ core.old) × (schedulers.new ≡ schedulers.old)) }
{
    if schedulers.len() != core.macroflows {
        return Err(core.macroflow_refusal(Some(slot), macroflow, Reason::TablesDisagree));
    }
    if !core.is_timely(time) {
        return Err(core.macroflow_refusal(Some(slot), macroflow, Reason::NotTimely));
    }
    if slot >= SLOTS {
        return Err(core.macroflow_refusal(Some(slot), macroflow, Reason::NoSuchSlot));
    }
    if macroflow >= core.macroflows {
        return Err(core.macroflow_refusal(Some(slot), macroflow, Reason::NoSuchMacroflow));
    }
    let stream = core.streams[slot];
    if !stream.opened {
        return Err(core.macroflow_refusal(Some(slot), macroflow, Reason::NotOpen));
    }
    if stream.macroflow == macroflow {
        return Err(core.macroflow_refusal(Some(slot), macroflow, Reason::SameMacroflow));
    }
    if stream.macroflow >= core.macroflows {
        return Err(core.macroflow_refusal(Some(slot), macroflow, Reason::TablesDisagree));
    }
    pass_on(schedulers, slot, macroflow, stream);
    core.streams[slot].macroflow = macroflow;
    core.last = time;
    Ok(())
}
