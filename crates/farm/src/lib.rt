//! A wind farm under one manager: its streams, its host, what happens on its day, and what is
//! printed of it.
#![tactic(auto)]

mod accounts;
mod event;
mod host;
mod telling;
mod words;

pub use accounts::Accounts;
pub use event::Event;
pub use host::Host;
pub use words::{FateWord, OrHyphen, PathName, Refused, StreamName, TimeOfDay};
