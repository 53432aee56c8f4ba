//! Lists of raises, lowers and picks, carried out by any scheduler, and the fairness of their picks.
#![tactic(auto)]

mod event;
mod run;

pub use event::Event;
pub use run::carry_out;
