//! The same limits with the rate controller and the class tree.
use crate::fixture::{Halt, RateBench, heading, rate_bench, sampled, show};

/// Slots 0 and 8, of classes 0 and 1, ask for nine grants each, and 12 of 1,000 bytes are issued.
fn shared_bench() -> Result<RateBench, Halt> {
    let mut bench = rate_bench()?;
    bench.time = 10;
    bench.open(0, 0, 1, 1_000);
    bench.open(8, 0, 1, 1_000);
    bench.request_times(0, 9);
    bench.request_times(8, 9);
    bench.poll_times(0, 12);
    Ok(bench)
}

/// The allowance of 12,800 bytes carries 12 packets, eight of slot 0 and four of slot 8.
fn shares(rt: &impl Print) -> Result<(), Halt> {
    let mut bench = shared_bench()?;
    show(rt, "slot 0 after 12 grants", bench.standing(0))?;
    show(rt, "slot 8 after 12 grants", bench.standing(8))?;
    show(rt, "row 7", bench.row(7))?;
    show(rt, "row 8", bench.row(8))?;
    show(rt, "allowance 12800, open 12000, poll", bench.poll(0))?;
    Ok(())
}

/// All grants are settled, the last one with these bytes; a report then brings the allowance to
/// 6,556.
fn slow_bench(last: u64) -> Result<RateBench, Halt> {
    let mut bench = shared_bench()?;
    // the grants' numbers are what is tried: each is settled by its own
    for grant in 0..11 {
        bench.settle(grant, 1_000);
    }
    bench.settle(11, last);
    bench.report(0, sampled(6_400, 100_000));
    Ok(bench)
}

/// A packet that fits the allowance exactly, and one byte more on the path.
fn fit(rt: &impl Print) -> Result<(), Halt> {
    let mut exact = slow_bench(956)?;
    show(rt, "allowance 6556, outstanding 5556, poll", exact.poll(0))?;
    let mut over = slow_bench(957)?;
    show(rt, "allowance 6556, outstanding 5557, poll", over.poll(0))?;
    show(rt, "slot 0", over.standing(0))?;
    show(rt, "slot 8", over.standing(8))?;
    Ok(())
}

/// A class tree that the host told behind the manager's back.
fn told_behind(rt: &impl Print) -> Result<(), Halt> {
    let mut bench = slow_bench(0)?;
    bench.raise_behind(31, 8);
    show(rt, "slot 31 raised behind, poll", bench.poll(0))?;
    bench.lower_behind(31);
    show(rt, "slot 31 lowered again, poll", bench.poll(0))?;
    Ok(())
}

/// Tries the rate controller and the class tree.
pub fn try_all(rt: &impl Print) -> Result<(), Halt> {
    heading(rt, "The rate controller and the class tree")?;
    shares(rt)?;
    fit(rt)?;
    told_behind(rt)
}
