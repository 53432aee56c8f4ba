//! What each call refuses, what the refusal names, and that it changes nothing.
use crate::fixture::{AimdBench, Halt, aimd_bench, heading, sampled, show, unsampled};

/// A time before the last call of a busy manager.
const EARLIER: u64 = 49;

/// A time after it.
const LATER: u64 = 60;

/// A manager whose last call was at 50. Slot 2 is open in macroflow 0 with one request waiting and
/// 500 bytes outstanding; its grant 0 has ended and its grant 1, of 1,000 bytes, is open. Slot 4 is
/// closed.
pub fn busy_bench() -> Result<AimdBench, Halt> {
    let mut bench = aimd_bench()?;
    bench.time = 50;
    bench.open(2, 0, 3, 500);
    bench.request_times(2, 3);
    bench.poll(0);
    bench.settle(0, 500);
    bench.poll(0);
    bench.time = LATER;
    Ok(bench)
}

/// What an open refuses.
fn opens(rt: &impl Print, bench: &mut AimdBench) -> Result<(), Halt> {
    bench.time = EARLIER;
    show(rt, "open slot 5 at 49", bench.open(5, 0, 1, 1_000))?;
    let answer = bench.open(32, 2, 9, 0);
    show(
        rt,
        "open slot 32 in macroflow 2 with weight 9 at 49",
        answer,
    )?;
    bench.time = LATER;
    show(rt, "open slot 32", bench.open(32, 0, 1, 1_000))?;
    show(
        rt,
        "open slot 32 in macroflow 2",
        bench.open(32, 2, 1, 1_000),
    )?;
    show(rt, "open slot 5 in macroflow 2", bench.open(5, 2, 1, 1_000))?;
    let answer = bench.open(2, 1, 1, 1_000);
    show(rt, "open slot 2 again, in macroflow 1", answer)?;
    let answer = bench.open(5, 1, 9, 1_000);
    show(rt, "open slot 5 in macroflow 1 with weight 9", answer)?;
    Ok(())
}

/// What a request refuses.
fn requests(rt: &impl Print, bench: &mut AimdBench) -> Result<(), Halt> {
    bench.lent.schedulers = 1;
    show(rt, "request of slot 2, 1 scheduler lent", bench.request(2))?;
    bench.lent.schedulers = 2;
    bench.time = EARLIER;
    show(rt, "request of slot 2 at 49", bench.request(2))?;
    bench.time = LATER;
    show(rt, "request of slot 32", bench.request(32))?;
    show(rt, "request of slot 4, which is closed", bench.request(4))?;
    Ok(())
}

/// What a report refuses whatever it says.
fn reports(rt: &impl Print, bench: &mut AimdBench) -> Result<(), Halt> {
    let clear = unsampled(0, 500, 0);
    bench.lent.controllers = 1;
    show(
        rt,
        "report of slot 2, 1 controller lent",
        bench.report(2, clear),
    )?;
    bench.lent.controllers = 2;
    bench.time = EARLIER;
    show(rt, "report of slot 2 at 49", bench.report(2, clear))?;
    bench.time = LATER;
    show(rt, "report of slot 32", bench.report(32, clear))?;
    show(
        rt,
        "report of slot 4, which is closed",
        bench.report(4, clear),
    )?;
    Ok(())
}

/// What a report may not say, with 500 bytes outstanding.
fn feedback(rt: &impl Print, bench: &mut AimdBench) -> Result<(), Halt> {
    let answer = bench.report(2, unsampled(4, 500, 0));
    show(rt, "report of mode 4", answer)?;
    show(
        rt,
        "report with a sample of 0",
        bench.report(2, sampled(500, 0)),
    )?;
    let answer = bench.report(2, sampled(500, 10_000_001));
    show(rt, "report with a sample of 10000001", answer)?;
    let answer = bench.report(2, unsampled(0, 501, 0));
    show(rt, "report of 501 received, 500 outstanding", answer)?;
    let answer = bench.report(2, unsampled(0, 499, 1));
    show(rt, "clear report with 1 lost", answer)?;
    let answer = bench.report(2, unsampled(1, 500, 0));
    show(rt, "report of a loss with nothing lost", answer)?;
    let answer = bench.report(2, unsampled(3, 1, 499));
    show(rt, "report of silence with 1 received", answer)?;
    let answer = bench.report(2, unsampled(3, 0, 499));
    show(rt, "report of silence with 499 of 500 lost", answer)?;
    Ok(())
}

/// What a close refuses.
fn closes(rt: &impl Print, bench: &mut AimdBench) -> Result<(), Halt> {
    bench.lent.schedulers = 1;
    show(rt, "close slot 2, 1 scheduler lent", bench.close(2))?;
    bench.lent.schedulers = 2;
    bench.time = EARLIER;
    show(rt, "close slot 2 at 49", bench.close(2))?;
    bench.time = LATER;
    show(rt, "close slot 32", bench.close(32))?;
    show(rt, "close slot 4, which is closed", bench.close(4))?;
    show(rt, "close slot 2, which has 1000 open", bench.close(2))?;
    show(rt, "standing of slot 32", bench.standing(32))?;
    Ok(())
}

/// What a poll and an expiry refuse.
fn polls(rt: &impl Print, bench: &mut AimdBench) -> Result<(), Halt> {
    bench.lent.rows = 15;
    show(rt, "poll macroflow 0, 15 rows lent", bench.poll(0))?;
    show(rt, "expire, 15 rows lent", bench.expire())?;
    bench.lent.rows = 16;
    bench.time = EARLIER;
    show(rt, "poll macroflow 0 at 49", bench.poll(0))?;
    show(rt, "poll macroflow 2 at 49", bench.poll(2))?;
    show(rt, "expire at 49", bench.expire())?;
    bench.time = LATER;
    show(rt, "poll macroflow 2", bench.poll(2))?;
    Ok(())
}

/// What a take-up refuses.
fn take_ups(rt: &impl Print, bench: &mut AimdBench) -> Result<(), Halt> {
    bench.lent.rows = 15;
    show(rt, "take up grant 1, 15 rows lent", bench.try_take_up(1))?;
    bench.lent.rows = 16;
    bench.time = EARLIER;
    show(rt, "take up grant 1 at 49", bench.try_take_up(1))?;
    bench.time = LATER;
    show(rt, "take up grant 2 of 2", bench.try_take_up(2))?;
    show(rt, "take up grant 0, which has ended", bench.try_take_up(0))?;
    Ok(())
}

/// What a settlement refuses.
fn settlements(rt: &impl Print, bench: &mut AimdBench) -> Result<(), Halt> {
    bench.lent.rows = 15;
    show(rt, "settle grant 1, 15 rows lent", bench.settle(1, 0))?;
    bench.lent.rows = 16;
    bench.time = EARLIER;
    show(rt, "settle grant 1 at 49", bench.settle(1, 0))?;
    bench.time = LATER;
    show(rt, "settle grant 2 of 2", bench.settle(2, 0))?;
    show(rt, "settle grant 0, which has ended", bench.settle(0, 0))?;
    show(rt, "settle grant 1 with 1001", bench.settle(1, 1_001))?;
    Ok(())
}

/// Every refused call on one manager.
fn all_refused(rt: &impl Print, bench: &mut AimdBench) -> Result<(), Halt> {
    opens(rt, bench)?;
    requests(rt, bench)?;
    reports(rt, bench)?;
    feedback(rt, bench)?;
    closes(rt, bench)?;
    polls(rt, bench)?;
    take_ups(rt, bench)?;
    settlements(rt, bench)
}

/// After every refused call the record of slot 2 is as it was, and the next call works at the time
/// of the last one that was accepted.
fn nothing_changes(rt: &impl Print) -> Result<(), Halt> {
    let mut bench = busy_bench()?;
    let before = bench.standing(2);
    show(rt, "slot 2 before", before)?;
    all_refused(rt, &mut bench)?;
    let after = bench.standing(2);
    show(rt, "slot 2 after", after)?;
    let same = if before == after { "yes" } else { "no" };
    println!(rt; "  slot 2 is as it was: {same}")?;
    bench.time = 50;
    show(
        rt,
        "poll macroflow 0 at 50, the time of the last accepted call",
        bench.poll(0),
    )?;
    Ok(())
}

/// What is named where a grant has ended: the row's slot, and the macroflow of the stream that is
/// open there now.
fn ended_grants(rt: &impl Print) -> Result<(), Halt> {
    let mut bench = aimd_bench()?;
    bench.open(2, 0, 1, 1_000);
    bench.request(2);
    bench.poll(0);
    bench.settle(0, 0);
    let answer = bench.settle(0, 0);
    show(
        rt,
        "settle grant 0 again, slot 2 open in macroflow 0",
        answer,
    )?;
    bench.close(2);
    let answer = bench.settle(0, 0);
    show(rt, "settle grant 0 again, slot 2 closed", answer)?;
    bench.open(2, 1, 1, 1_000);
    let answer = bench.settle(0, 0);
    show(
        rt,
        "settle grant 0 again, slot 2 open in macroflow 1",
        answer,
    )?;
    let answer = bench.try_take_up(0);
    show(rt, "take up grant 0, slot 2 open in macroflow 1", answer)?;
    show(rt, "row 0", bench.row(0))?;
    Ok(())
}

/// Tries every refusal of the calls.
pub fn try_all(rt: &impl Print) -> Result<(), Halt> {
    heading(rt, "Refused calls")?;
    nothing_changes(rt)?;
    heading(rt, "A grant that has ended")?;
    ended_grants(rt)
}
