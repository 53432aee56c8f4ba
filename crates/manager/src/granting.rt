//! The calls about grants: those of `grant_calls` on the manager's own core. Each contract is said again,
//! since nobody else can reach the core.
ghost use Rattle.std.specs.Prelude.{◌≡◌, OnErr};
ghost use Rattle.tables.specs.Replies.{reply};
ghost use Rattle.grant_calls.specs.Grants.{take_up as take_up_call, settle as settle_call, expire as expire_call};
ghost use Rattle.grant_calls.specs.Polls.{poll as poll_call};
ghost use Rattle.manager.specs.Tickets.{numbered};

use crate::manager_state::Manager;
use crate::ticket::Ticket;
use grant_calls::Polled;
use meaning::{Controller, Refusal, Scheduler};
use tables::Row;

impl Manager {
    /// How many grants were issued: the first so many rows describe them.
    pub fn issued(&self) -> usize
        ensures { result ≡ self.now.core.issued }
    {
        self.core.issued
    }

    /// Asks a macroflow for its next grant.
    pub fn poll<C: Controller, S: Scheduler>(
        &mut self,
        controllers: &[C],
        schedulers: &mut [S],
        rows: &mut [Row],
        time: u64,
        macroflow: usize,
    ) -> Result<Polled, Refusal>
        ensures plain { reply result self.new.core (schedulers.new, rows.new) ≡ poll_call C.control S.scheduling self.old.core controllers.now schedulers.old rows.old time macroflow }
        ensures refused { OnErr result ((self.new ≡ self.old) × (schedulers.new ≡ schedulers.old) × (rows.new ≡ rows.old)) }
    {
        grant_calls::poll(
            &mut self.core,
            controllers,
            schedulers,
            rows,
            time,
            macroflow,
        )
    }

    /// Takes a grant up: its ticket is given out.
    pub fn take_up(&mut self, rows: &mut [Row], time: u64, grant: usize) -> Result<Ticket, Refusal>
        ensures plain { reply (numbered result) self.new.core rows.new ≡ take_up_call self.old.core rows.old time grant }
        ensures refused { OnErr result ((self.new ≡ self.old) × (rows.new ≡ rows.old)) }
    {
        let grant = grant_calls::take_up(&mut self.core, rows, time, grant)?;
        Ok(Ticket { grant })
    }

    /// Settles a grant by its number, with the bytes that were sent.
    pub fn settle(
        &mut self,
        rows: &mut [Row],
        time: u64,
        grant: usize,
        sent: u64,
    ) -> Result<(), Refusal>
        ensures plain { reply result self.new.core rows.new ≡ settle_call self.old.core rows.old time grant sent }
        ensures refused { OnErr result ((self.new ≡ self.old) × (rows.new ≡ rows.old)) }
    {
        grant_calls::settle(&mut self.core, rows, time, grant, sent)
    }

    /// Settles a grant by its ticket, which is spent, also where the settlement is refused: the grant
    /// can then be settled by its number.
    pub fn settle_ticket(
        &mut self,
        rows: &mut [Row],
        time: u64,
        ticket: Ticket,
        sent: u64,
    ) -> Result<(), Refusal>
        ensures plain { reply result self.new.core rows.new ≡ settle_call self.old.core rows.old time ticket.grant sent }
        ensures refused { OnErr result ((self.new ≡ self.old) × (rows.new ≡ rows.old)) }
    {
        let Ticket { grant } = ticket;
        self.settle(rows, time, grant, sent)
    }

    /// Ends the open grant that is due, if there is one.
    pub fn expire(&mut self, rows: &mut [Row], time: u64) -> Result<Option<usize>, Refusal>
        ensures plain { reply result self.new.core rows.new ≡ expire_call self.old.core rows.old time }
        ensures refused { OnErr result ((self.new ≡ self.old) × (rows.new ≡ rows.old)) }
    {
        grant_calls::expire(&mut self.core, rows, time)
    }
}
