//! The hub of a wind farm: what its congestion manager does, shown on one real job from start to
//! finish.
#![tactic(auto)]

mod contest;
mod farm_day;
mod path_day;

use class_tree::ClassTree;
use controllers::{ByteAimd, RateController};
use farm::{Host, Refused, StreamName};
use farm_day::DAY;
use schedulers::RoundRobin;
use std::io;

/// The packet size of the farm's radio path in bytes.
const PACKET: u64 = 1_200;

/// The rows of the farm's ledger.
const ROWS: usize = 32;

/// Tells a day of reports to both controllers.
fn controllers_day(rt: &impl Print) -> io::Result<()> {
    println!(rt; "1. A radio path's day, told to both controllers (packets of {PACKET} bytes)")?;
    path_day::tell(rt, "Byte AIMD", "window", ByteAimd::new(PACKET))?;
    path_day::tell(rt, "Rate controller", "rate", RateController::new(PACKET))?;
    println!(rt; "")?;
    match ByteAimd::new(9_001) {
        Ok(_) => println!(rt; "A controller with packets of 9001 bytes: made"),
        Err(refusal) => {
            println!(rt;
                "A controller with packets of 9001 bytes: {}",
                Refused(refusal)
            )
        }
    }
}

/// Lets both schedulers serve the same streams.
fn schedulers_contest(rt: &impl Print) -> io::Result<()> {
    println!(rt; "")?;
    println!(rt; "2. Both schedulers, with five streams that always wait")?;
    contest::hold(rt, "Round robin", 248, &mut RoundRobin::<32>::new())?;
    contest::hold(rt, "Class tree", 1_424, &mut ClassTree::new())
}

/// Passes the farm's day, and tells what is worth a line.
fn pass(rt: &impl Print, host: &mut Host<ROWS>) -> io::Result<()> {
    for (seconds, event) in DAY {
        let call = event.at(*seconds);
        let answer = host.carry_out(call);
        host.accounts().tell(rt, call, answer)?;
    }
    Ok(())
}

/// Passes the farm's day, and prints its accounts.
fn day_of_the_farm(rt: &impl Print) -> io::Result<()> {
    println!(rt; "")?;
    println!(rt; "3. A farm's day: six turbines, nine streams, one radio path")?;
    println!(rt; "")?;
    let mut host = match Host::<ROWS>::new(PACKET) {
        Ok(host) => host,
        Err(refusal) => return println!(rt; "The farm: {}", Refused(refusal)),
    };
    pass(rt, &mut host)?;
    let accounts = host.accounts();
    accounts.show(rt)?;
    match accounts.manager.quietest() {
        Some(slot) => println!(rt; "Quiet for longest: {}", StreamName(slot)),
        None => println!(rt; "No stream is open"),
    }
}

fn main(rt: HostRuntime) -> io::Result<()> {
    controllers_day(&rt)?;
    schedulers_contest(&rt)?;
    day_of_the_farm(&rt)
}
