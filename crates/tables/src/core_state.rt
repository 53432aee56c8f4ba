//! The plain core of a manager.
ghost use Rattle.std.specs.Prelude.{◌≡◌};
ghost use Rattle.tables.specs.Core.{stream as stream_at, named_slot, named_macroflow, macroflow_of, about_slot, about_macroflow, timely};

use crate::stream::Stream;
use meaning::{Reason, Refusal};

/// The number of slots.
pub const SLOTS: usize = 32;

/// The latest time, in microseconds.
pub const MAX_TIME: u64 = 1_000_000_000_000_000;

/// The records of all slots, and the manager's counts.
#[derive(Clone, Copy)]
pub struct Core {
    /// The stream records, one for each slot.
    pub streams: [Stream; SLOTS],
    /// The number of macroflows.
    pub macroflows: usize,
    /// The number of rows in the ledger. It and the next stand here and not with the rows, since these
    /// are the host's: the manager takes no memory of its own.
    pub capacity: usize,
    /// The number of grants issued.
    pub issued: usize,
    /// The time of the last call that was accepted.
    pub last: u64,
}

impl Core {
    /// A slot as a refusal names it: absent where there is no such slot.
    fn named_slot(slot: usize) -> Option<usize>
        ensures { result ≡ named_slot slot }
    {
        (slot < SLOTS).then_some(slot)
    }

    /// A macroflow as a refusal names it: absent where it does not exist.
    fn named_macroflow(&self, macroflow: usize) -> Option<usize>
        ensures { result ≡ named_macroflow self.now macroflow }
    {
        (macroflow < self.macroflows).then_some(macroflow)
    }

    /// The macroflow of the stream that is open in a slot, as a refusal names it.
    fn macroflow_of(&self, slot: usize) -> Option<usize>
        ensures { result ≡ macroflow_of self.now slot }
    {
        let stream = self.streams.get(slot).filter(|stream| stream.opened)?;
        self.named_macroflow(stream.macroflow)
    }

    /// A refusal that is about a slot, and about the macroflow of the stream that is open there.
    pub fn slot_refusal(&self, slot: usize, reason: Reason) -> Refusal
        ensures { result ≡ about_slot self.now slot reason }
    {
        Refusal {
            reason,
            slot: Core::named_slot(slot),
            macroflow: self.macroflow_of(slot),
        }
    }

    /// A refusal that is about a macroflow by its number, and perhaps a slot.
    pub fn macroflow_refusal(
        &self,
        slot: Option<usize>,
        macroflow: usize,
        reason: Reason,
    ) -> Refusal
        ensures { result ≡ about_macroflow self.now slot macroflow reason }
    {
        Refusal {
            reason,
            slot: slot.and_then(Core::named_slot),
            macroflow: self.named_macroflow(macroflow),
        }
    }

    /// Whether a time is not before the last one, and not too late.
    pub fn is_timely(&self, time: u64) -> bool
        ensures { result ≡ timely self.now time }
    {
        (self.last..=MAX_TIME).contains(&time)
    }
}
