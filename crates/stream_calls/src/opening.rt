//! A stream is opened in a slot.
ghost use Rattle.std.specs.Prelude.{◌≡◌, OnErr};
ghost use Rattle.tables.specs.Replies.{reply};
ghost use Rattle.stream_calls.specs.Calls.{«open» as open_call};

use meaning::{Reason, Refusal};
use tables::{Core, SLOTS};

/// The largest weight of a stream.
const MAX_WEIGHT: u64 = 8;

/// The longest life of a grant in microseconds.
const MAX_LIFE: u64 = 60_000_000;

/// Opens a stream in a slot: nothing waits, nothing is open or outstanding, and the slot's totals
/// stay.
pub fn open(
    core: &mut Core,
    time: u64,
    slot: usize,
    macroflow: usize,
    weight: u64,
    life: u64,
) -> Result<(), Refusal>
    ensures plain { reply result core.new tt ≡ open_call core.old time slot macroflow weight life }
    ensures refused { OnErr result (core.new ≡ core.old) }
{
    if !core.is_timely(time) {
        return Err(core.macroflow_refusal(Some(slot), macroflow, Reason::NotTimely));
    }
    if slot >= SLOTS {
        return Err(core.macroflow_refusal(Some(slot), macroflow, Reason::NoSuchSlot));
    }
    if macroflow >= core.macroflows {
        return Err(core.macroflow_refusal(Some(slot), macroflow, Reason::NoSuchMacroflow));
    }
    if core.streams[slot].opened {
        return Err(core.macroflow_refusal(Some(slot), macroflow, Reason::AlreadyOpen));
    }
    if !(1..=MAX_WEIGHT).contains(&weight) || !(1..=MAX_LIFE).contains(&life) {
        return Err(core.macroflow_refusal(Some(slot), macroflow, Reason::WeightOrLife));
    }
    core.streams[slot].open(macroflow, weight, life, time);
    core.last = time;
    Ok(())
}
