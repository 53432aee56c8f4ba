//! Limits that pass, and one more that does not.
use crate::answer::Answer;
use crate::fixture::{Halt, aimd_bench, heading, sampled, show, unsampled};
use manager::Told;

/// The latest time.
const LATEST: u64 = 1_000_000_000_000_000;

/// Four grants are issued and the first ones are settled with these bytes; then a packet more is
/// asked for.
fn poll_after(sent: &[u64]) -> Result<Answer, Halt> {
    let mut bench = aimd_bench()?;
    bench.open(0, 0, 1, 1_000);
    bench.request_times(0, 5);
    bench.poll_times(0, 4);
    for (grant, bytes) in sent.iter().enumerate() {
        bench.settle(grant, *bytes);
    }
    Ok(bench.poll(0))
}

/// A packet that fits the window exactly, and one byte more on the path.
fn window(rt: &impl Print) -> Result<(), Halt> {
    let mut bench = aimd_bench()?;
    bench.open(0, 0, 1, 1_000);
    bench.request_times(0, 5);
    bench.poll_times(0, 3);
    show(rt, "window 4000, open 3000, poll", bench.poll(0))?;
    show(rt, "window 4000, open 4000, poll", bench.poll(0))?;
    let exact = poll_after(&[1_000, 1_000, 0])?;
    show(rt, "outstanding 2000 and open 1000, poll", exact)?;
    let over = poll_after(&[1_000, 1_000, 1])?;
    show(rt, "outstanding 2001 and open 1000, poll", over)?;
    let exact = poll_after(&[1_000, 1_000, 1_000, 0])?;
    show(rt, "outstanding 3000, poll", exact)?;
    let over = poll_after(&[1_000, 1_000, 1_000, 1])?;
    show(rt, "outstanding 3001, poll", over)?;
    Ok(())
}

/// As much sent as was granted, and as much reported as is outstanding.
fn amounts(rt: &impl Print) -> Result<(), Halt> {
    let mut bench = aimd_bench()?;
    bench.open(0, 0, 1, 1_000);
    bench.request(0);
    bench.poll(0);
    show(rt, "granted 1000, settle with 1001", bench.settle(0, 1_001))?;
    show(rt, "granted 1000, settle with 1000", bench.settle(0, 1_000))?;
    let report = bench.report(0, unsampled(0, 1_001, 0));
    show(rt, "outstanding 1000, report 1001 received", report)?;
    let report = bench.report(0, unsampled(1, 600, 401));
    show(
        rt,
        "outstanding 1000, report 600 received and 401 lost",
        report,
    )?;
    let report = bench.report(0, unsampled(1, u64::MAX, u64::MAX));
    show(
        rt,
        "outstanding 1000, report 2^64 - 1 received and as many lost",
        report,
    )?;
    let report = bench.report(0, unsampled(1, 600, 400));
    show(
        rt,
        "outstanding 1000, report 600 received and 400 lost",
        report,
    )?;
    let report = bench.report(0, unsampled(0, 1, 0));
    show(rt, "outstanding 0, report 1 received", report)?;
    let report = bench.report(0, unsampled(3, 0, 0));
    show(rt, "outstanding 0, report silence", report)?;
    let report = bench.report(0, unsampled(0, 0, 0));
    show(
        rt,
        "outstanding 0, report clear with nothing received",
        report,
    )?;
    Ok(())
}

/// The shortest and the longest round trip.
fn samples(rt: &impl Print) -> Result<(), Halt> {
    let mut bench = aimd_bench()?;
    bench.open(0, 0, 1, 1_000);
    let answer = bench.report(0, sampled(0, 0));
    show(rt, "report with a sample of 0", answer)?;
    let answer = bench.report(0, sampled(0, 1));
    show(rt, "report with a sample of 1", answer)?;
    let answer = bench.report(0, sampled(0, 10_000_000));
    show(rt, "report with a sample of 10000000", answer)?;
    let answer = bench.report(0, sampled(0, 10_000_001));
    show(rt, "report with a sample of 10000001", answer)?;
    Ok(())
}

/// As many requests as can wait.
fn requests(rt: &impl Print) -> Result<(), Halt> {
    let mut bench = aimd_bench()?;
    bench.open(4, 0, 1, 1_000);
    let last = bench.request_times(4, 255);
    show(rt, "request of slot 4, for the 255th time", last)?;
    show(
        rt,
        "request of slot 4, for the 256th time",
        bench.request(4),
    )?;
    show(rt, "poll", bench.poll(0))?;
    show(rt, "request of slot 4, 254 waiting", bench.request(4))?;
    show(rt, "request of slot 4, 255 waiting", bench.request(4))?;
    Ok(())
}

/// The latest time, and times before the last.
fn times(rt: &impl Print) -> Result<(), Halt> {
    let mut bench = aimd_bench()?;
    bench.time = LATEST;
    show(rt, "open slot 0 at 10^15", bench.open(0, 0, 1, 1_000))?;
    bench.time = LATEST + 1;
    show(rt, "request at 10^15 + 1", bench.request(0))?;
    bench.time = u64::MAX;
    show(rt, "request at 2^64 - 1", bench.request(0))?;
    bench.time = LATEST - 1;
    show(rt, "request at 10^15 - 1", bench.request(0))?;
    bench.time = LATEST;
    show(rt, "request at 10^15", bench.request(0))?;
    show(rt, "poll at 10^15", bench.poll(0))?;
    Ok(())
}

/// The largest and the smallest weight and life.
fn weights(rt: &impl Print) -> Result<(), Halt> {
    let mut bench = aimd_bench()?;
    let largest = bench.open(0, 0, 8, 60_000_000);
    show(rt, "open slot 0 with weight 8 and life 60000000", largest)?;
    let answer = bench.open(1, 0, 9, 60_000_000);
    show(rt, "open slot 1 with weight 9", answer)?;
    let answer = bench.open(1, 0, 8, 60_000_001);
    show(rt, "open slot 1 with life 60000001", answer)?;
    show(rt, "open slot 1 with weight 0", bench.open(1, 0, 0, 1))?;
    show(rt, "open slot 1 with life 0", bench.open(1, 0, 1, 0))?;
    let smallest = bench.open(1, 0, 1, 1);
    show(rt, "open slot 1 with weight 1 and life 1", smallest)?;
    Ok(())
}

/// The highest slot and the highest macroflow.
fn places(rt: &impl Print) -> Result<(), Halt> {
    let mut bench = aimd_bench()?;
    show(rt, "open slot 31", bench.open(31, 0, 1, 1_000))?;
    show(rt, "open slot 32", bench.open(32, 0, 1, 1_000))?;
    show(rt, "standing of slot 31", bench.standing(31))?;
    show(rt, "standing of slot 32", bench.standing(32))?;
    let answer = bench.open(0, 1, 1, 1_000);
    show(rt, "open slot 0 in macroflow 1 of 2", answer)?;
    let answer = bench.open(1, 2, 1, 1_000);
    show(rt, "open slot 1 in macroflow 2 of 2", answer)?;
    show(rt, "poll macroflow 1 of 2", bench.poll(1))?;
    show(rt, "poll macroflow 2 of 2", bench.poll(2))?;
    Ok(())
}

/// As many grants as the ledger has rows.
fn rows(rt: &impl Print) -> Result<(), Halt> {
    let mut bench = aimd_bench()?;
    bench.open(0, 0, 1, 1_000);
    let mut last = Answer::Told(Told::Done);
    // the grants' numbers are what is tried: each is settled by its own
    for grant in 0..16 {
        bench.request(0);
        last = bench.poll(0);
        bench.settle(grant, 0);
    }
    bench.request(0);
    show(rt, "poll for the 16th grant, 16 rows", last)?;
    show(rt, "poll for the 17th grant, 16 rows", bench.poll(0))?;
    Ok(())
}

/// A deadline that has just come.
fn deadline(rt: &impl Print) -> Result<(), Halt> {
    let mut bench = aimd_bench()?;
    bench.time = 100;
    bench.open(0, 0, 1, 1_000);
    bench.request(0);
    bench.poll(0);
    bench.time = 1_099;
    show(rt, "deadline 1100, expire at 1099", bench.expire())?;
    bench.time = 1_100;
    show(rt, "deadline 1100, expire at 1100", bench.expire())?;
    show(rt, "nothing open, expire at 1100", bench.expire())?;
    Ok(())
}

/// Which of several grants expires first: slot 2 has grants 0 and 3, slot 3 grant 1, slot 5 grant
/// 2.
fn order(rt: &impl Print) -> Result<(), Halt> {
    let mut bench = aimd_bench()?;
    bench.time = 100;
    bench.open(2, 0, 1, 1_000);
    bench.open(3, 0, 1, 1_000);
    bench.open(5, 0, 1, 900);
    bench.request_times(2, 2);
    bench.request(3);
    bench.request(5);
    bench.poll_times(0, 4);
    bench.time = 1_100;
    show(rt, "the earliest deadline, 1000, slot 5", bench.expire())?;
    show(
        rt,
        "deadline 1100, the lower slot 2, the lower grant",
        bench.expire(),
    )?;
    show(rt, "deadline 1100, the lower slot 2", bench.expire())?;
    show(rt, "deadline 1100, slot 3", bench.expire())?;
    show(rt, "no other", bench.expire())?;
    Ok(())
}

/// Tries every limit.
pub fn try_all(rt: &impl Print) -> Result<(), Halt> {
    heading(rt, "What fits the window")?;
    window(rt)?;
    heading(rt, "Amounts")?;
    amounts(rt)?;
    heading(rt, "Samples")?;
    samples(rt)?;
    heading(rt, "Waiting requests")?;
    requests(rt)?;
    heading(rt, "Times")?;
    times(rt)?;
    heading(rt, "Weights and lives")?;
    weights(rt)?;
    heading(rt, "Slots and macroflows")?;
    places(rt)?;
    heading(rt, "Rows of the ledger")?;
    rows(rt)?;
    heading(rt, "Deadlines")?;
    deadline(rt)?;
    heading(rt, "The order of expiry")?;
    order(rt)
}
