//! Byte AIMD: a window that grows additively and falls multiplicatively.
mod state;

use crate::controller_of::ControllerOf;
pub use state::AimdState;

/// A controller by a window of bytes, with a threshold between slow start and congestion
/// avoidance.
///
/// The packet is 64 to 9,000 bytes, the window lies between one packet and 1,048,576, and the
/// threshold between two packets and 1,048,576. No value of this type is outside these ranges.
pub type ByteAimd = ControllerOf<AimdState>;
