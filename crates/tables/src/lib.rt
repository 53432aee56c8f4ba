//! The tables of a congestion manager: the stream records, the ledger's rows, and the plain core
//! that holds the records and the counts.
#![tactic(auto)]

mod core_state;
mod numbers;
mod row;
mod stream;
mod sums;

pub use core_state::{Core, MAX_TIME, SLOTS};
pub use numbers::{difference_fits, sum_fits};
pub use row::{Due, Fate, Row};
pub use stream::{Quiet, Stream};
