//! What happens on the farm, as calls of the manager.
ghost use Rattle.std.specs.Prelude.{◌≡◌};
ghost use Rattle.farm.specs.Events.{call_at};

use manager::Call;
use meaning::Mode::{self, Clear, Loss, Mark, Silence};
use stream_calls::Feedback;

/// The microseconds of a second.
const SECOND: u64 = 1_000_000;

/// How long a grant of the farm's streams lasts: 30 seconds.
const LIFE: u64 = 30 * SECOND;

/// One thing that happens on the farm. It is a call of the manager as a row of the day tells it:
/// without the time, which stands beside it there, without the life, which all grants of the farm
/// share, and with a report named by its mode.
#[derive(Clone, Copy)]
pub enum Event {
    /// A stream is opened: its slot, its path and its weight.
    Open(usize, usize, u64),
    /// A stream has a packet of records to send.
    Request(usize),
    /// A path is asked for its next grant.
    Poll(usize),
    /// A sender has sent these bytes of a grant.
    Settle(usize, u64),
    /// The hub looks for a grant that nobody settled.
    Expire,
    /// Bytes of a stream came through, perhaps with a round-trip sample in microseconds.
    Clear(usize, u64, Option<u64>),
    /// Bytes of a stream came through and bytes were lost, perhaps with a sample.
    Loss(usize, u64, u64, Option<u64>),
    /// Bytes of a stream came through, marked by the network, perhaps with a sample.
    Mark(usize, u64, Option<u64>),
    /// Nothing is heard of these bytes of a stream.
    Silence(usize, u64),
    /// A stream goes to another path.
    Move(usize, usize),
    /// All streams of a path go to another.
    Merge(usize, usize),
    /// A stream is closed.
    Close(usize),
}

impl Event {
    /// The call of the manager when this happens so many seconds after midnight.
    pub fn at(self, seconds: u64) -> Call
        ensures { result ≡ call_at seconds self }
    {
        let time = seconds.saturating_mul(SECOND);
        let reported = |slot, mode: Mode, received, lost, sample| Call::Report {
            time,
            slot,
            feedback: Feedback {
                received,
                lost,
                mode: mode as u64,
                sample,
            },
        };
        match self {
            Event::Open(slot, macroflow, weight) => Call::Open {
                time,
                slot,
                macroflow,
                weight,
                life: LIFE,
            },
            Event::Request(slot) => Call::Request { time, slot },
            Event::Poll(macroflow) => Call::Poll { time, macroflow },
            Event::Settle(grant, sent) => Call::Settle { time, grant, sent },
            Event::Expire => Call::Expire { time },
            Event::Clear(slot, received, sample) => reported(slot, Clear, received, 0, sample),
            Event::Loss(slot, received, lost, sample) => reported(
                slot, Loss, received, lost, sample,
            ),
            Event::Mark(slot, received, sample) => reported(slot, Mark, received, 0, sample),
            Event::Silence(slot, lost) => reported(slot, Silence, 0, lost, None),
            Event::Move(slot, macroflow) => Call::Move {
                time,
                slot,
                macroflow,
            },
            Event::Merge(from, into) => Call::Merge { time, from, into },
            Event::Close(slot) => Call::Close { time, slot },
        }
    }
}
