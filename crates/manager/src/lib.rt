//! The congestion manager: what a host calls.
#![tactic(auto)]

mod call;
mod granting;
mod making;
mod manager_state;
mod stepping;
mod streaming;
mod ticket;

pub use call::{Answer, Call, Told};
pub use manager_state::Manager;
pub use ticket::Ticket;
