//! What a controller is told of its path.
ghost use Rattle.std.specs.Prelude.{◌≡◌};
ghost use Rattle.meaning.specs.Reports.{decoded, heard as heard_mode};

use crate::path::PathEstimate;
use crate::refusal::Reason;

/// How the packets fared that a report is about.
#[derive(Clone, Copy, PartialEq, Eq, Debug)]
pub enum Mode {
    /// All of them came through (number 0).
    Clear = 0,
    /// Some were lost (number 1).
    Loss = 1,
    /// The network marked some of them as congested (number 2).
    Mark = 2,
    /// Nothing was heard of any of them (number 3).
    Silence = 3,
}

/// The mode with a number, 0 to 3. Any other number is out of range (refusal 14).
impl TryFrom<u64> for Mode {
    type Error = Reason;

    ghost try_from_gives = { λ number outcome. outcome ≡ decoded number };

    fn try_from(number: u64) -> Result<Mode, Reason> {
        match number {
            0 => Ok(Mode::Clear),
            1 => Ok(Mode::Loss),
            2 => Ok(Mode::Mark),
            3 => Ok(Mode::Silence),
            _ => Err(Reason::ModeOrSample),
        }
    }
}

/// A report as it comes in: any numbers at all.
#[derive(Clone, Copy)]
pub struct Report {
    /// Bytes that came through.
    pub received: u64,
    /// Bytes that were lost.
    pub lost: u64,
    /// The number of the mode: a number and not a `Mode`, since a host may send any.
    pub mode: u64,
    /// A round-trip sample in microseconds, where one was taken.
    pub sample: Option<u64>,
    /// The bytes that were outstanding on the path before this report.
    pub flight: u64,
    /// When the report was made, in microseconds.
    pub time: u64,
}

/// Amounts of bytes in a report stay below this number, 2^32.
const AMOUNT_LIMIT: u64 = 4_294_967_296;

impl Report {
    /// The report's mode, if every number of the report is in range: amounts and flight below
    /// 2^32, the mode 0 to 3, the sample absent or 1 to 10,000,000. A controller that is told a
    /// report for which this is absent does nothing.
    pub fn heard(&self) -> Option<Mode>
        ensures { result ≡ heard_mode self.now }
    {
        if self.received < AMOUNT_LIMIT
            && self.lost < AMOUNT_LIMIT
            && self.flight < AMOUNT_LIMIT
            && self.sample.is_none_or(PathEstimate::is_sample)
        {
            Mode::try_from(self.mode).ok()
        } else {
            None
        }
    }
}
