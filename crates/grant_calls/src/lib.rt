//! The calls about grants: poll, take-up, settle, expire.
#![tactic(auto)]

mod expiring;
mod finding;
mod polling;
mod settling;

pub use expiring::expire;
pub use polling::{Polled, poll};
pub use settling::{settle, take_up};
