//! The two house controllers: byte AIMD and the rate controller.
#![tactic(auto)]

mod aimd;
mod controller_of;
mod numbers;
mod packets;
mod rate;

pub use aimd::{AimdState, ByteAimd};
pub use controller_of::ControllerOf;
pub use rate::{RateController, RateState};
