//! What can be asked of the records.
ghost use Rattle.std.specs.Prelude.{◌≡◌};
ghost use Rattle.stream_calls.specs.Calls.{standing as standing_call, quietest as quietest_call};

use least::least;
use meaning::{Reason, Refusal};
use tables::{Core, Quiet, SLOTS, Stream};

/// The record of a slot, whether a stream is open there or not.
pub fn standing(core: &Core, slot: usize) -> Result<Stream, Refusal>
    ensures { result ≡ standing_call core.now slot }
{
    if slot >= SLOTS {
        return Err(core.slot_refusal(slot, Reason::NoSuchSlot));
    }
    Ok(core.streams[slot])
}

/// The open slot with the earliest quiet-since time, and of those with the same the lowest.
pub fn quietest(core: &Core) -> Option<usize>
    ensures { result ≡ quietest_call core.now }
{
    least(&Quiet, &core.streams)
}
