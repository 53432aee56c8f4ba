//! What the parts of a macroflow mean, whoever writes them: the trait of a controller and the trait of
//! a scheduler, with the laws that each of them keeps, and the types that they speak in.
#![tactic(auto)]

mod controller;
mod limits;
mod path;
mod picking;
mod refusal;
mod report;
mod scheduler;

pub use controller::{Controller, tell_all};
pub use limits::{MAX_ALLOWANCE, MAX_PACKET, MIN_PACKET};
pub use path::PathEstimate;
pub use picking::next_picks;
pub use refusal::{Reason, Refusal};
pub use report::{Mode, Report};
pub use scheduler::Scheduler;
