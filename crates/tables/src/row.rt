//! The rows of the ledger.
ghost use Rattle.std.specs.Prelude.{◌≡◌};
ghost use Rattle.tables.specs.Rows.{fate_number, blank_row, open_row, is_due, due_upto, is_open as is_open_fate};
ghost use Rattle.std.proofs.Common.{rules};

use least::Ranking;

/// What became of a grant.
#[derive(Clone, Copy, PartialEq, Eq, Debug, Default)]
pub enum Fate {
    /// It has not ended.
    #[default]
    Open = 0,
    /// It was settled with bytes sent.
    Charged = 1,
    /// It was settled with nothing sent.
    Returned = 2,
    /// It was not settled by its deadline.
    Expired = 3,
}

impl Fate {
    /// The number of the fate, 0 to 3.
    pub fn number(self) -> u8
        ensures { result ≡ fate_number self }
    {
        u8::from(self)
    }
}

impl From<Fate> for u8 {
    ghost from_gives = { λ fate number. number ≡ fate_number fate };

    /// The number of the fate, 0 to 3.
    fn from(fate: Fate) -> u8 {
        fate as u8
    }
}

/// A row of the ledger. Row g describes grant g, counted from 0 in the order of issue.
///
/// Each field is a column of the ledger, also where the fate gives it no meaning: the rows are the
/// host's, and it may write any mixture into them.
#[derive(Clone, Copy, PartialEq, Eq, Debug, Default)]
pub struct Row {
    /// The slot that got the grant.
    pub slot: usize,
    /// The macroflow of the slot at issue.
    pub macroflow: usize,
    /// The bytes granted.
    pub granted: u64,
    /// When it was issued.
    pub issued: u64,
    /// From when on it may expire.
    pub deadline: u64,
    /// What became of it.
    pub fate: Fate,
    /// The bytes sent.
    pub sent: u64,
    /// When it ended.
    pub ended: u64,
    /// Whether a ticket was given out for it.
    pub taken: bool,
}

impl Row {
    /// A row that describes no grant yet.
    pub fn blank() -> Row
        ensures { result ≡ blank_row }
    {
        Row::default()
    }

    /// The row of a new grant.
    pub fn open(slot: usize, macroflow: usize, granted: u64, issued: u64, deadline: u64) -> Row
        ensures { result ≡ open_row slot macroflow granted issued deadline }
    {
        Row {
            slot,
            macroflow,
            granted,
            issued,
            deadline,
            ..Row::blank()
        }
    }

    /// Whether the grant has not ended.
    pub fn is_open(&self) -> bool
        ensures { result ≡ is_open_fate self.now.fate }
    {
        self.fate == Fate::Open
    }
}

/// The search for a grant to expire at a time: the open rows take part whose deadline is not later,
/// and the earlier deadline comes first, then the lower slot.
#[derive(Clone, Copy)]
pub struct Due {
    pub time: u64,
}

impl Ranking<Row> for Due {
    ghost takes = { λ q r. is_due q.time r };

    ghost upto = { λ _ r s. due_upto r s };

    ghost order = { Prim.search rules };

    fn takes_part(&self, one: &Row) -> bool {
        one.is_open() && one.deadline <= self.time
    }

    fn no_later(&self, first: &Row, second: &Row) -> bool {
        (first.deadline, first.slot) <= (second.deadline, second.slot)
    }
}
