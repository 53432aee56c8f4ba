//! The limits that hold for every controller.

/// The smallest packet in bytes.
pub const MIN_PACKET: u64 = 64;

/// The largest packet in bytes.
pub const MAX_PACKET: u64 = 9_000;

/// The largest allowance in bytes.
pub const MAX_ALLOWANCE: u64 = 1_048_576;
