//! All streams of a macroflow go to another.
ghost use Rattle.std.specs.Prelude.{◌≡◌, ◌<◌, length, OnErr};
ghost use Rattle.tables.specs.Replies.{reply};
ghost use Rattle.stream_calls.specs.Merges.{placed, moved_from, moved_below, merge as merge_call};

use crate::moving::pass_on;
use meaning::{Reason, Refusal, Scheduler};
use tables::{Core, SLOTS};

/// The stream of a slot goes from one macroflow to another, if it is open there.
fn move_from<S: Scheduler>(
    core: &mut Core,
    schedulers: &mut [S],
    slot: usize,
    from: usize,
    into: usize,
)
    requires exists { slot < 32 }
    requires from { from < length schedulers.old }
    requires into { into < length schedulers.old }
    ensures { placed core.new schedulers.new ≡ moved_from S.scheduling from into slot (placed core.old schedulers.old) }
{
    let stream = core.streams[slot];
    if stream.opened && stream.macroflow == from {
        pass_on(schedulers, slot, into, stream);
        core.streams[slot].macroflow = into;
    }
}

/// Every open slot of a macroflow goes to another, the lowest first.
fn move_all<S: Scheduler>(core: &mut Core, schedulers: &mut [S], from: usize, into: usize)
    requires from { from < length schedulers.old }
    requires into { into < length schedulers.old }
    ensures { placed core.new schedulers.new ≡ moved_below S.scheduling from into 32 (placed core.old schedulers.old) }
{
    // By slot: each step changes the core, which an iterator over its records would hold.
    for slot in 0..SLOTS {
        move_from(core, schedulers, slot, from, into);
    }
}

/// Merges a macroflow into another: every stream that is open in the first moves, the lowest slot
/// first.
pub fn merge<S: Scheduler>(
    core: &mut Core,
    schedulers: &mut [S],
    time: u64,
    from: usize,
    into: usize,
) -> Result<(), Refusal>
    ensures plain { reply result core.new schedulers.new ≡ merge_call S.scheduling core.old schedulers.old time from into }
    ensures refused { OnErr result ((core.new ≡ core.old) × (schedulers.new ≡ schedulers.old)) }
{
    if schedulers.len() != core.macroflows {
        return Err(core.macroflow_refusal(None, from, Reason::TablesDisagree));
    }
    if !core.is_timely(time) {
        return Err(core.macroflow_refusal(None, from, Reason::NotTimely));
    }
    if from >= core.macroflows || into >= core.macroflows {
        return Err(core.macroflow_refusal(None, from, Reason::NoSuchMacroflow));
    }
    if from == into {
        return Err(core.macroflow_refusal(None, from, Reason::SameMacroflow));
    }
    move_all(core, schedulers, from, into);
    core.last = time;
    Ok(())
}
