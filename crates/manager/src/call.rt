//! Calls and answers as values.
use grant_calls::Polled;
use meaning::Refusal;
use stream_calls::Feedback;

/// A call of a manager with its arguments: any numbers at all.
#[derive(Clone, Copy)]
pub enum Call {
    /// A stream is opened in a slot.
    Open {
        time: u64,
        slot: usize,
        macroflow: usize,
        weight: u64,
        life: u64,
    },
    /// A stream asks for a grant.
    Request {
        time: u64,
        slot: usize,
    },
    /// A macroflow is asked for its next grant.
    Poll {
        time: u64,
        macroflow: usize,
    },
    /// A grant is taken up.
    TakeUp {
        time: u64,
        grant: usize,
    },
    /// A grant is settled with the bytes that were sent.
    Settle {
        time: u64,
        grant: usize,
        sent: u64,
    },
    /// A grant that is due expires.
    Expire {
        time: u64,
    },
    /// A stream reports how its packets fared.
    Report {
        time: u64,
        slot: usize,
        feedback: Feedback,
    },
    /// A stream goes to another macroflow.
    Move {
        time: u64,
        slot: usize,
        macroflow: usize,
    },
    /// All streams of a macroflow go to another.
    Merge {
        time: u64,
        from: usize,
        into: usize,
    },
    /// A stream is closed.
    Close {
        time: u64,
        slot: usize,
    },
}

/// What a call tells that was accepted.
#[derive(Clone, Copy, PartialEq, Eq, Debug)]
pub enum Told {
    /// Nothing more than that it was accepted.
    Done,
    /// A poll came to this.
    Polled(Polled),
    /// The grant with this number was taken up.
    TakenUp(usize),
    /// The grant with this number expired, or none was due.
    Expired(Option<usize>),
}

/// What a call is answered: what it tells, or why it was refused.
pub type Answer = Result<Told, Refusal>;
