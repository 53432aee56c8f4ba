//! The rate controller: a rate in bytes a second, and the bytes that it puts on one round trip.
mod state;

use crate::controller_of::ControllerOf;
pub use state::RateState;

/// A controller by a rate in bytes a second; its allowance is what that rate carries in one round
/// trip.
///
/// The packet is 64 to 9,000 bytes, and the rate 8,000 to 10,000,000 bytes a second. No value of
/// this type is outside these ranges.
pub type RateController = ControllerOf<RateState>;
