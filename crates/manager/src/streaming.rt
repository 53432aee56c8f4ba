//! The calls about streams: those of `stream_calls` on the manager's own core. Each contract is said
//! again, since nobody else can reach the core.
ghost use Rattle.std.specs.Prelude.{◌≡◌, OnErr};
ghost use Rattle.tables.specs.Replies.{reply};
ghost use Rattle.stream_calls.specs.Calls.{«open» as open_call, request as request_call, report as report_call, move_to as move_call, close as close_call, standing as standing_call, quietest as quietest_call};
ghost use Rattle.stream_calls.specs.Merges.{merge as merge_call};

use crate::manager_state::Manager;
use meaning::{Controller, Refusal, Scheduler};
use stream_calls::Feedback;
use tables::Stream;

impl Manager {
    /// Opens a stream in a slot, with nothing waiting, open or outstanding; the slot's totals stay.
    pub fn open(
        &mut self,
        time: u64,
        slot: usize,
        macroflow: usize,
        weight: u64,
        life: u64,
    ) -> Result<(), Refusal>
        ensures plain { reply result self.new.core tt ≡ open_call self.old.core time slot macroflow weight life }
        ensures refused { OnErr result (self.new ≡ self.old) }
    {
        stream_calls::open(&mut self.core, time, slot, macroflow, weight, life)
    }

    /// Adds a request of a stream for a grant.
    pub fn request<S: Scheduler>(
        &mut self,
        schedulers: &mut [S],
        time: u64,
        slot: usize,
    ) -> Result<(), Refusal>
        ensures plain { reply result self.new.core schedulers.new ≡ request_call S.scheduling self.old.core schedulers.old time slot }
        ensures refused { OnErr result ((self.new ≡ self.old) × (schedulers.new ≡ schedulers.old)) }
    {
        stream_calls::request(&mut self.core, schedulers, time, slot)
    }

    /// Takes a stream's report, and hands it to the controller of its macroflow.
    pub fn report<C: Controller>(
        &mut self,
        controllers: &mut [C],
        time: u64,
        slot: usize,
        feedback: Feedback,
    ) -> Result<(), Refusal>
        ensures plain { reply result self.new.core controllers.new ≡ report_call C.control self.old.core controllers.old time slot feedback }
        ensures refused { OnErr result ((self.new ≡ self.old) × (controllers.new ≡ controllers.old)) }
    {
        stream_calls::report(&mut self.core, controllers, time, slot, feedback)
    }

    /// Moves a stream to another macroflow, with all its numbers.
    pub fn move_to<S: Scheduler>(
        &mut self,
        schedulers: &mut [S],
        time: u64,
        slot: usize,
        macroflow: usize,
    ) -> Result<(), Refusal>
        ensures plain { reply result self.new.core schedulers.new ≡ move_call S.scheduling self.old.core schedulers.old time slot macroflow }
        ensures refused { OnErr result ((self.new ≡ self.old) × (schedulers.new ≡ schedulers.old)) }
    {
        stream_calls::move_to(&mut self.core, schedulers, time, slot, macroflow)
    }

    /// Merges a macroflow into another: every stream that is open in the first moves, the lowest slot
    /// first.
    pub fn merge<S: Scheduler>(
        &mut self,
        schedulers: &mut [S],
        time: u64,
        from: usize,
        into: usize,
    ) -> Result<(), Refusal>
        ensures plain { reply result self.new.core schedulers.new ≡ merge_call S.scheduling self.old.core schedulers.old time from into }
        ensures refused { OnErr result ((self.new ≡ self.old) × (schedulers.new ≡ schedulers.old)) }
    {
        stream_calls::merge(&mut self.core, schedulers, time, from, into)
    }

    /// Closes a stream: its waiting requests are dropped, and what is outstanding counts as abandoned.
    pub fn close<S: Scheduler>(
        &mut self,
        schedulers: &mut [S],
        time: u64,
        slot: usize,
    ) -> Result<(), Refusal>
        ensures plain { reply result self.new.core schedulers.new ≡ close_call S.scheduling self.old.core schedulers.old time slot }
        ensures refused { OnErr result ((self.new ≡ self.old) × (schedulers.new ≡ schedulers.old)) }
    {
        stream_calls::close(&mut self.core, schedulers, time, slot)
    }

    /// The record of a slot, whether a stream is open there or not.
    pub fn standing(&self, slot: usize) -> Result<Stream, Refusal>
        ensures { result ≡ standing_call self.now.core slot }
    {
        stream_calls::standing(&self.core, slot)
    }

    /// The open slot that has been quiet for longest, and of those equally long the lowest.
    pub fn quietest(&self) -> Option<usize>
        ensures { result ≡ quietest_call self.now.core }
    {
        stream_calls::quietest(&self.core)
    }
}
