//! Runs with the house schedulers, whose bounds are numbers.
#![tactic(auto)]

mod bounded;
mod by_class_tree;
mod by_round_robin;

pub use bounded::{Bounded, run_bounded};
pub use by_class_tree::run_class_tree;
pub use by_round_robin::run_round_robin;
