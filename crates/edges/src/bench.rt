//! A manager on the bench, with the tables that its host keeps.
use crate::answer::Answer;
use grant_calls::Polled;
use manager::{Manager, Ticket, Told};
use meaning::{Controller, Refusal, Scheduler};
use stream_calls::Feedback;
use tables::Row;

/// The macroflows of every manager on the bench.
const MACROFLOWS: usize = 2;

/// The rows of every ledger on the bench.
const ROWS: usize = 16;

/// How many controllers, schedulers and rows the host lends to a call.
#[derive(Clone, Copy)]
pub struct Lent {
    pub controllers: usize,
    pub schedulers: usize,
    pub rows: usize,
}

impl Lent {
    /// As many as at making.
    pub fn in_full() -> Lent {
        Lent {
            controllers: MACROFLOWS,
            schedulers: MACROFLOWS,
            rows: ROWS,
        }
    }
}

/// The first so many of a list, or all of it if it has fewer.
fn first_of<T>(list: &mut [T], count: usize) -> &mut [T] {
    let count = count.min(list.len());
    &mut list[0..count]
}

/// A manager of two macroflows and 16 rows.
///
/// The host has one controller, one scheduler and one row more than the manager knows of, so that
/// it can lend too many of them.
#[derive(Drop)]
pub struct Bench<C: Controller, S: Scheduler> {
    manager: Manager,
    controllers: [C; 3],
    schedulers: [S; 3],
    /// The rows of the ledger, which the host may rewrite.
    pub rows: [Row; 17],
    /// What the host lends to the next calls.
    pub lent: Lent,
    /// The time of the next calls.
    pub time: u64,
}

impl<C: Controller, S: Scheduler> Bench<C, S> {
    /// A new manager, whose macroflows have copies of this controller and this scheduler.
    pub fn new(controller: C, scheduler: S) -> Result<Bench<C, S>, Refusal> {
        let manager = Manager::new(
            MACROFLOWS,
            &[controller; MACROFLOWS],
            &[scheduler; MACROFLOWS],
            &[Row::blank(); ROWS],
        )?;
        Ok(Bench {
            manager,
            controllers: [controller; 3],
            schedulers: [scheduler; 3],
            rows: [Row::blank(); 17],
            lent: Lent::in_full(),
            time: 0,
        })
    }

    /// Opens a stream in a slot.
    pub fn open(&mut self, slot: usize, macroflow: usize, weight: u64, life: u64) -> Answer {
        Answer::done(self.manager.open(self.time, slot, macroflow, weight, life))
    }

    /// Adds a request of a stream.
    pub fn request(&mut self, slot: usize) -> Answer {
        let schedulers = first_of(&mut self.schedulers, self.lent.schedulers);
        Answer::done(self.manager.request(schedulers, self.time, slot))
    }

    /// Adds several requests of a stream, and answers what the last one was answered.
    pub fn request_times(&mut self, slot: usize, times: usize) -> Answer {
        (0..times)
            .map(|_| self.request(slot))
            .last()
            .unwrap_or(Answer::Told(Told::Done))
    }

    /// Takes a stream's report.
    pub fn report(&mut self, slot: usize, feedback: Feedback) -> Answer {
        let controllers = first_of(&mut self.controllers, self.lent.controllers);
        Answer::done(self.manager.report(controllers, self.time, slot, feedback))
    }

    /// Moves a stream to another macroflow.
    pub fn move_to(&mut self, slot: usize, macroflow: usize) -> Answer {
        let schedulers = first_of(&mut self.schedulers, self.lent.schedulers);
        Answer::done(self.manager.move_to(schedulers, self.time, slot, macroflow))
    }

    /// Closes a stream.
    pub fn close(&mut self, slot: usize) -> Answer {
        let schedulers = first_of(&mut self.schedulers, self.lent.schedulers);
        Answer::done(self.manager.close(schedulers, self.time, slot))
    }

    /// The record of a slot.
    pub fn standing(&self, slot: usize) -> Answer {
        self.manager
            .standing(slot)
            .map_or_else(Answer::Refused, Answer::Record)
    }

    /// The open slot that has been quiet for longest.
    pub fn quietest(&self) -> Answer {
        Answer::Quietest(self.manager.quietest())
    }

    /// A row of the ledger; a blank one where there is none.
    pub fn row(&self, grant: usize) -> Answer {
        Answer::Entry(self.rows.get(grant).copied().unwrap_or_default())
    }

    /// Asks a macroflow for its next grant.
    pub fn poll(&mut self, macroflow: usize) -> Answer {
        let controllers = first_of(&mut self.controllers, self.lent.controllers);
        let schedulers = first_of(&mut self.schedulers, self.lent.schedulers);
        let rows = first_of(&mut self.rows, self.lent.rows);
        let polled = self
            .manager
            .poll(controllers, schedulers, rows, self.time, macroflow);
        Answer::from(polled.map(Told::Polled))
    }

    /// Asks a macroflow several times, and answers what the last poll was answered.
    pub fn poll_times(&mut self, macroflow: usize, times: usize) -> Answer {
        (0..times)
            .map(|_| self.poll(macroflow))
            .last()
            .unwrap_or(Answer::Told(Told::Polled(Polled::NoneWaits)))
    }

    /// Takes a grant up.
    pub fn take_up(&mut self, grant: usize) -> Result<Ticket, Refusal> {
        let rows = first_of(&mut self.rows, self.lent.rows);
        self.manager.take_up(rows, self.time, grant)
    }

    /// Tries to take a grant up. A ticket that is given out is settled with 0 at once.
    pub fn try_take_up(&mut self, grant: usize) -> Answer {
        match self.take_up(grant) {
            Ok(ticket) => {
                let grant = ticket.number();
                let _ = self.settle_ticket(ticket, 0);
                Answer::Told(Told::TakenUp(grant))
            }
            Err(refusal) => Answer::Refused(refusal),
        }
    }

    /// Settles a grant by its ticket.
    pub fn settle_ticket(&mut self, ticket: Ticket, sent: u64) -> Answer {
        let rows = first_of(&mut self.rows, self.lent.rows);
        Answer::done(self.manager.settle_ticket(rows, self.time, ticket, sent))
    }

    /// Settles a grant by its number.
    pub fn settle(&mut self, grant: usize, sent: u64) -> Answer {
        let rows = first_of(&mut self.rows, self.lent.rows);
        Answer::done(self.manager.settle(rows, self.time, grant, sent))
    }

    /// Ends the grant that is due.
    pub fn expire(&mut self) -> Answer {
        let rows = first_of(&mut self.rows, self.lent.rows);
        Answer::from(self.manager.expire(rows, self.time).map(Told::Expired))
    }

    /// The host raises a slot in the scheduler of macroflow 0, behind the manager's back.
    pub fn raise_behind(&mut self, slot: usize, weight: u64) {
        self.schedulers[0].raise(slot, weight);
    }

    /// The host lowers a slot in the scheduler of macroflow 0, behind the manager's back.
    pub fn lower_behind(&mut self, slot: usize) {
        self.schedulers[0].lower(slot);
    }

    /// The host lets the schedulers of macroflows 0 and 1 change places.
    pub fn exchange_schedulers(&mut self) {
        self.schedulers.swap(0, 1);
    }
}
