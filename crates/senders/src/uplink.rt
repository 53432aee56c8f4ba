//! The radio path of a turbine, as its senders see it: they ask for grants and settle tickets.
use farm::Host;
use grant_calls::Polled;
use manager::Ticket;
use meaning::Refusal;
use std::fmt;
use tables::Row;

/// The packet size of the path in bytes.
pub const PACKET: u64 = 1_000;

/// How long a grant lasts in microseconds.
const LIFE: u64 = 5_000_000;

/// How long it takes to send a packet, in microseconds.
const SENDING: u64 = 20_000;

/// Why a sender has no grant.
#[derive(Drop)]
pub enum Denied {
    /// The path is full.
    Full,
    /// A call was refused.
    Refused(Refusal),
}

impl fmt::Display for Denied {
    fn fmt<W: fmt::Write>(&self, f: &mut fmt::Formatter<W>) -> fmt::Result {
        match self {
            Denied::Full => write!(f, "no grant, the path is full"),
            Denied::Refused(refusal) => {
                let number = refusal.number();
                write!(f, "refused {number}")
            }
        }
    }
}

impl From<Refusal> for Denied {
    fn from(refusal: Refusal) -> Denied {
        Denied::Refused(refusal)
    }
}

/// A manager of one macroflow with the tables that its host keeps, and the time of the next call.
#[derive(Drop)]
pub struct Uplink {
    host: Host<8>,
    time: u64,
}

impl Uplink {
    /// A new path, with nothing open.
    pub fn new() -> Result<Uplink, Refusal> {
        let host = Host::new(PACKET)?;
        Ok(Uplink { host, time: 0 })
    }

    /// Opens a sender's stream in a slot.
    pub fn join(&mut self, slot: usize) -> Result<(), Refusal> {
        self.host.manager.open(self.time, slot, 0, 1, LIFE)
    }

    /// Requests a grant for a slot, polls for it and takes it up.
    pub fn ask(&mut self, slot: usize) -> Result<Ticket, Denied> {
        let Uplink { host, time } = self;
        host.manager.request(&mut host.schedulers, *time, slot)?;
        let polled = host.manager.poll(
            &host.controllers,
            &mut host.schedulers,
            &mut host.rows,
            *time,
            0,
        )?;
        match polled {
            Polled::Granted(grant) => Ok(host.manager.take_up(&mut host.rows, *time, grant)?),
            Polled::NoneWaits | Polled::NoFit => Err(Denied::Full),
        }
    }

    /// Settles a ticket with the bytes that were sent. It takes a while to send them.
    pub fn settle(&mut self, ticket: Ticket, sent: u64) -> Result<(), Refusal> {
        self.time = self.time.saturating_add(SENDING);
        let host = &mut self.host;
        host.manager
            .settle_ticket(&mut host.rows, self.time, ticket, sent)
    }

    /// The row of a grant in the ledger, if it has one.
    pub fn row(&self, grant: usize) -> Option<Row> {
        self.host.rows.get(grant).copied()
    }

    /// All bytes that were charged to a slot.
    pub fn charged(&self, slot: usize) -> Result<u64, Refusal> {
        let stream = self.host.manager.standing(slot)?;
        Ok(stream.charged)
    }
}
