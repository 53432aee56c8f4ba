//! The numbers of a rate controller, and how a report moves them.
ghost use Rattle.std.specs.Prelude.{◌≡◌, ◌≤◌};
ghost use Rattle.controllers.specs.Rate.{round_trip, moved};
ghost use Rattle.controllers.specs.RateRule.{rate_rule, rate_keeps};

use crate::numbers::Numbers;
use meaning::{MAX_ALLOWANCE, Mode, PathEstimate, Report};

/// The lowest rate, and by how much a loss lowers it, in bytes a second.
const RATE_STEP: u64 = 8_000;

/// The highest rate in bytes a second.
const MAX_RATE: u64 = 10_000_000;

/// The rate to start with in bytes a second.
const STARTING_RATE: u64 = 64_000;

/// The rate grows by this number divided by itself.
const GROWTH: u64 = 100_000_000;

/// The round trip that counts until a sample has come, in microseconds.
const ASSUMED_ROUND_TRIP: u64 = 200_000;

/// The microseconds of a second.
const SECOND: u64 = 1_000_000;

/// The numbers of a rate controller.
#[derive(Clone, Copy)]
pub struct RateState {
    /// The size of a packet in bytes; it never changes.
    pub packet: u64,
    /// The rate in bytes a second.
    pub rate: u64,
    /// The bytes received since the rate last changed.
    pub count: u64,
    /// The estimate of the round trip.
    pub path: Option<PathEstimate>,
}

impl RateState {
    /// The round trip by which the rate is turned into an allowance.
    fn round_trip(self) -> u64
        ensures value { result ≡ round_trip self.path }
        ensures most { result ≤ 10000000 }
    {
        self.path.map_or(ASSUMED_ROUND_TRIP, |path| path.smoothed())
    }

    /// The numbers with another rate, and the count begun anew.
    fn paced(self, rate: u64) -> RateState
        ensures { result ≡ moved self rate 0 }
    {
        RateState {
            rate,
            count: 0,
            ..self
        }
    }
}

impl Numbers for RateState {
    ghost rule = { rate_rule };

    ghost lawful = { rate_keeps };

    fn fresh(packet: u64) -> RateState {
        RateState {
            packet,
            rate: STARTING_RATE,
            count: 0,
            path: None,
        }
    }

    fn packet(&self) -> u64 {
        self.packet
    }

    /// What the rate carries in one round trip, but at least a packet and at most 1,048,576.
    fn allowance(&self) -> u64 {
        (self.rate * self.round_trip() / SECOND).clamp(self.packet, MAX_ALLOWANCE)
    }

    fn path(&self) -> Option<PathEstimate> {
        self.path
    }

    fn sampled(self, report: Report) -> RateState {
        RateState {
            path: PathEstimate::after(self.path, report.sample),
            ..self
        }
    }

    /// The numbers after a report in range, whose sample is taken already.
    ///
    /// - Clear: the bytes received are counted, and once they come to the allowance the rate
    ///   grows, by the less the higher it is.
    /// - Loss or mark: the rate falls by a step, but not below one step.
    /// - Silence: the rate falls to one step.
    fn step(self, report: Report, mode: Mode) -> RateState {
        match mode {
            Mode::Clear if self.count + report.received < self.allowance() => RateState {
                count: self.count + report.received,
                ..self
            },
            Mode::Clear => self.paced((self.rate + GROWTH / self.rate).min(MAX_RATE)),
            Mode::Loss | Mode::Mark => self.paced((self.rate - RATE_STEP).max(RATE_STEP)),
            Mode::Silence => self.paced(RATE_STEP),
        }
    }
}
