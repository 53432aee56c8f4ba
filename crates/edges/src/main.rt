//! The edges of a congestion manager: limits that pass and one more that does not, every refusal,
//! and tables that the host rewrote. Each case is tried on a real manager and printed with its
//! answer.
#![tactic(auto)]

mod answer;
mod bench;
mod fixture;
mod grants;
mod hostile;
mod limits;
mod making;
mod rate;
mod refusals;
mod streams;

use fixture::{Halt, PACKET};

fn main(rt: HostRuntime) -> Result<(), Halt> {
    println!(rt; "The edges of a congestion manager (packets of {PACKET} bytes)")?;
    making::try_all(&rt)?;
    limits::try_all(&rt)?;
    refusals::try_all(&rt)?;
    hostile::try_all(&rt)?;
    grants::try_all(&rt)?;
    streams::try_all(&rt)?;
    rate::try_all(&rt)
}
