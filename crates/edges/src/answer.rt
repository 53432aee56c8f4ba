//! What a call answered, as it is printed for a person.
use farm::{FateWord, OrHyphen};
use grant_calls::Polled;
use manager::Told;
use meaning::Refusal;
use std::fmt;
use tables::{Row, Stream};

/// The answer of a call, refused ones included: each case prints one value, and a `Result` would
/// need a second type to print it.
#[derive(Clone, Copy, PartialEq, Eq)]
pub enum Answer {
    /// A controller or a manager was made.
    Made,
    /// The call was accepted, and tells this.
    Told(Told),
    /// The slot that has been quiet for longest, if one is open.
    Quietest(Option<usize>),
    /// The record of a slot.
    Record(Stream),
    /// A row of the ledger.
    Entry(Row),
    /// The call was refused.
    Refused(Refusal),
}

impl Answer {
    /// The answer of a call that tells nothing but that it was accepted.
    pub fn done(res: Result<(), Refusal>) -> Answer {
        Answer::from(res.map(|()| Told::Done))
    }

    /// The answer to the making of something, which is let go.
    pub fn made<T: Drop>(res: Result<T, Refusal>) -> Answer {
        res.map_or_else(Answer::Refused, |_| Answer::Made)
    }
}

impl From<manager::Answer> for Answer {
    fn from(answer: manager::Answer) -> Answer {
        answer.map_or_else(Answer::Refused, Answer::Told)
    }
}

/// Writes what a call tells that was accepted.
fn write_told<W: fmt::Write>(f: &mut fmt::Formatter<W>, told: Told) -> fmt::Result {
    match told {
        Told::Done => write!(f, "accepted"),
        Told::Polled(Polled::NoneWaits) => write!(f, "none waits"),
        Told::Polled(Polled::NoFit) => write!(f, "no fit"),
        Told::Polled(Polled::Granted(grant)) => write!(f, "granted {grant}"),
        Told::TakenUp(grant) => write!(f, "taken up {grant}"),
        Told::Expired(Some(grant)) => write!(f, "expired {grant}"),
        Told::Expired(None) => write!(f, "nothing is due"),
    }
}

/// Writes a refusal with what it names.
fn write_refusal<W: fmt::Write>(f: &mut fmt::Formatter<W>, refusal: Refusal) -> fmt::Result {
    let number = refusal.number();
    let slot = OrHyphen(refusal.slot);
    let macroflow = OrHyphen(refusal.macroflow);
    write!(f, "refused {number} (slot {slot}, macroflow {macroflow})")
}

/// Writes the record of a slot.
fn write_record<W: fmt::Write>(f: &mut fmt::Formatter<W>, stream: Stream) -> fmt::Result {
    let Stream {
        opened,
        macroflow,
        weight,
        life,
        waiting,
        reserved,
        outstanding,
        quiet,
        charged,
        received,
        lost,
        abandoned,
    } = stream;
    let state = if opened { "open" } else { "closed" };
    write!(
        f,
        "{state}, macroflow {macroflow}, weight {weight}, life {life}; "
    )?;
    write!(
        f,
        "waiting {waiting}, open bytes {reserved}, outstanding {outstanding}; quiet since {quiet}; "
    )?;
    write!(
        f,
        "charged {charged}, received {received}, lost {lost}, abandoned {abandoned}"
    )
}

/// Writes a row of the ledger.
fn write_row<W: fmt::Write>(f: &mut fmt::Formatter<W>, row: Row) -> fmt::Result {
    let Row {
        slot,
        macroflow,
        granted,
        issued,
        deadline,
        fate,
        sent,
        ended,
        taken,
    } = row;
    let fate = FateWord(fate);
    let taken = if taken { "taken up" } else { "not taken up" };
    write!(f, "slot {slot}, macroflow {macroflow}, granted {granted}, ")?;
    write!(f, "issued {issued}, deadline {deadline}, {taken}; ")?;
    write!(f, "{fate}, sent {sent}, ended {ended}")
}

impl fmt::Display for Answer {
    fn fmt<W: fmt::Write>(&self, f: &mut fmt::Formatter<W>) -> fmt::Result {
        match *self {
            Answer::Made => write!(f, "made"),
            Answer::Told(told) => write_told(f, told),
            Answer::Quietest(Some(slot)) => write!(f, "slot {slot}"),
            Answer::Quietest(None) => write!(f, "absent"),
            Answer::Record(stream) => write_record(f, stream),
            Answer::Entry(row) => write_row(f, row),
            Answer::Refused(refusal) => write_refusal(f, refusal),
        }
    }
}
