//! Runs of calls from a fresh manager, and the law that every run keeps.
#![tactic(auto)]

mod outcome;
mod running;

pub use outcome::{Outcome, RunError};
pub use running::run;
