//! The refusal of a call.
ghost use Rattle.std.specs.Prelude.{◌≡◌};
ghost use Rattle.meaning.specs.Refusals.{number, about_nothing};

/// The question that was answered 'no'. Each has a number, 1 to 19.
#[derive(Clone, Copy, PartialEq, Eq, Debug)]
pub enum Reason {
    /// The tables have not the lengths given at making, disagree with each other, or could not hold
    /// what would be written.
    TablesDisagree = 1,
    /// The time is before the last one, or too late.
    NotTimely = 2,
    /// There is no such slot.
    NoSuchSlot = 3,
    /// There is no such macroflow.
    NoSuchMacroflow = 4,
    /// A stream is open in the slot already.
    AlreadyOpen = 5,
    /// The weight or the life is out of range.
    WeightOrLife = 6,
    /// No stream is open in the slot.
    NotOpen = 7,
    /// As many requests of the stream wait as can.
    TooManyWaiting = 8,
    /// No row of the ledger is free.
    LedgerFull = 9,
    /// The grant was not issued.
    NotIssued = 10,
    /// The grant has ended.
    GrantEnded = 11,
    /// A ticket was given out for the grant already.
    AlreadyTaken = 12,
    /// More was sent than was granted.
    SentTooMuch = 13,
    /// The mode or the sample of a report is out of range.
    ModeOrSample = 14,
    /// More is reported than is outstanding.
    NotOutstanding = 15,
    /// The amounts of a report do not fit its mode.
    ModeUnfit = 16,
    /// The two macroflows are the same.
    SameMacroflow = 17,
    /// The stream has grants that have not ended.
    OpenBytes = 18,
    /// A manager or a controller cannot be made of what was given.
    CannotBeMade = 19,
}

impl From<Reason> for u8 {
    ghost from_gives = { λ reason byte. byte ≡ number reason };

    fn from(reason: Reason) -> u8 {
        reason as u8
    }
}

/// Why a call was refused: the question that was answered 'no', and the stream's slot and the
/// macroflow that the call was about, where there is one.
#[derive(Clone, Copy, PartialEq, Eq, Debug)]
pub struct Refusal {
    pub reason: Reason,
    pub slot: Option<usize>,
    pub macroflow: Option<usize>,
}

impl Refusal {
    /// The number of the question that was answered 'no'.
    pub fn number(&self) -> u8
        ensures { result ≡ number self.now.reason }
    {
        u8::from(self.reason)
    }
}

/// A refusal that is about no slot and no macroflow.
impl From<Reason> for Refusal {
    ghost from_gives = { λ reason refusal. refusal ≡ about_nothing reason };

    fn from(reason: Reason) -> Refusal {
        Refusal {
            reason,
            slot: None,
            macroflow: None,
        }
    }
}
