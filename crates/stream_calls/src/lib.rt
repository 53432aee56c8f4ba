//! The calls about one stream: open, request, report, close, and what can be asked of the records.
#![tactic(auto)]

mod asking;
mod closing;
mod merging;
mod moving;
mod opening;
mod reporting;
mod requesting;
mod telling;

pub use asking::{quietest, standing};
pub use closing::close;
pub use merging::merge;
pub use moving::move_to;
pub use opening::open;
pub use reporting::{Feedback, report};
pub use requesting::request;
