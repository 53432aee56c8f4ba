//! The record of a stream.
ghost use Rattle.std.specs.Prelude.{◌≡◌, ◌+◌, ◌-◌, ◌^◌, ◌<◌, ◌≤◌};
ghost use Rattle.tables.specs.Streams.{no_stream, is_open, is_in, quiet_upto, waits_in, load_in, flight_in, opened};
ghost use Rattle.std.proofs.Common.{rules};

use least::Ranking;

/// What the manager keeps of a slot, whether a stream is open there or not.
///
/// Whether it is open is a flag, and not an `Option` around the rest: a closed slot keeps its
/// macroflow, weight, life and quiet time, and a host that asks for its record reads them.
#[derive(Clone, Copy, PartialEq, Eq, Debug, Default)]
pub struct Stream {
    /// Whether a stream is open in the slot.
    pub opened: bool,
    /// The macroflow of the stream.
    pub macroflow: usize,
    /// Its weight in the macroflow's scheduler, 1 to 8.
    pub weight: u64,
    /// How long a grant of the stream lasts, in microseconds.
    pub life: u64,
    /// Requests that wait for a grant.
    pub waiting: u64,
    /// Open bytes: those of the grants that have not ended.
    pub reserved: u64,
    /// Bytes that were sent and not reported yet.
    pub outstanding: u64,
    /// The time of the last open, request, settlement or report.
    pub quiet: u64,
    /// All bytes that were charged to the slot.
    pub charged: u64,
    /// All bytes that came through.
    pub received: u64,
    /// All bytes that were lost.
    pub lost: u64,
    /// All bytes that were outstanding when a stream of the slot was closed.
    pub abandoned: u64,
}

impl Stream {
    /// A slot that was never opened.
    pub fn closed() -> Stream
        ensures { result ≡ no_stream }
    {
        Stream::default()
    }

    /// Whether the stream is open in the macroflow.
    fn is_in(&self, macroflow: usize) -> bool
        ensures { result ≡ is_in self.now macroflow }
    {
        self.opened && self.macroflow == macroflow
    }

    /// Whether the stream is open in the macroflow and waits for a grant.
    pub fn waits_in(&self, macroflow: usize) -> bool
        ensures { result ≡ waits_in self.now macroflow }
    {
        self.is_in(macroflow) && self.waiting > 0
    }

    /// The outstanding and open bytes that the stream has in the macroflow.
    pub fn load_in(&self, macroflow: usize) -> u128
        ensures value { result ≡ load_in self.now macroflow }
        ensures most { result < 2 ^ 65 }
    {
        if self.is_in(macroflow) {
            u128::from(self.outstanding) + u128::from(self.reserved)
        } else {
            0
        }
    }

    /// The outstanding bytes that the stream has in the macroflow. Its sum and its limit are not those
    /// of `load_in`.
    pub fn flight_in(&self, macroflow: usize) -> u128
        ensures value { result ≡ flight_in self.now macroflow }
        ensures most { result < 2 ^ 64 }
    {
        if self.is_in(macroflow) {
            u128::from(self.outstanding)
        } else {
            0
        }
    }

    /// A stream is opened in the slot; the totals of the slot stay.
    pub fn open(&mut self, macroflow: usize, weight: u64, life: u64, time: u64)
        ensures { self.new ≡ opened self.old macroflow weight life time }
    {
        self.opened = true;
        self.macroflow = macroflow;
        self.weight = weight;
        self.life = life;
        self.waiting = 0;
        self.reserved = 0;
        self.outstanding = 0;
        self.quiet = time;
    }
}

/// The search for the stream that has been quiet for longest: the open ones take part, and the
/// earlier time comes first.
#[derive(Clone, Copy)]
pub struct Quiet;

impl Ranking<Stream> for Quiet {
    ghost takes = { λ _ s. is_open s };

    ghost upto = { λ _ s t. quiet_upto s t };

    ghost order = { Prim.search rules };

    fn takes_part(&self, one: &Stream) -> bool {
        one.opened
    }

    fn no_later(&self, first: &Stream, second: &Stream) -> bool {
        first.quiet <= second.quiet
    }
}
