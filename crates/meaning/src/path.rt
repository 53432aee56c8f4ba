//! The estimate of a path's round trip.
ghost use Rattle.std.specs.Prelude.{◌≤◌};

mod sampling;

/// The smoothed round-trip time and its mean deviation, both in microseconds.
///
/// The smoothed time always lies from 1 to 10,000,000, and the deviation is at most 10,000,000.
#[derive(Clone, Copy)]
pub struct PathEstimate {
    srtt: u64,
    rttvar: u64,
    ghost ranged: { (1 ≤ srtt) × (srtt ≤ 10000000) × (rttvar ≤ 10000000) },
}
