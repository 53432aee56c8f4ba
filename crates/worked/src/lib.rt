//! Worked values of the rules, each proved as the contract of a function of its own, and a table
//! of further values that the tests run.
#![tactic(auto)]

mod controllers_worked;
#[cfg(test)]
mod tests;

pub use controllers_worked::{
    clear_loss_clear, large_flight, rate_grows, starting_windows, two_samples,
};
