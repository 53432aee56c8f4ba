//! Tables that the host shortened, lengthened or rewrote: refusal 1, and nothing changes.
use crate::bench::Lent;
use crate::fixture::{AimdBench, Halt, aimd_bench, heading, show, show_in, unsampled};
use crate::refusals::busy_bench;
use tables::Fate;

/// The calls that are lent the controllers. This function and the next two each lend another list
/// in another length, and make other calls.
fn lend_controllers(
    rt: &impl Print,
    bench: &mut AimdBench,
    count: usize,
    lent: &str,
) -> Result<(), Halt> {
    bench.lent.controllers = count;
    let report = bench.report(2, unsampled(0, 500, 0));
    show_in(rt, lent, "report of slot 2", report)?;
    show_in(rt, lent, "poll", bench.poll(0))?;
    bench.lent = Lent::in_full();
    Ok(())
}

/// The calls that are lent the schedulers.
fn lend_schedulers(
    rt: &impl Print,
    bench: &mut AimdBench,
    count: usize,
    lent: &str,
) -> Result<(), Halt> {
    bench.lent.schedulers = count;
    show_in(rt, lent, "request of slot 2", bench.request(2))?;
    show_in(rt, lent, "request of slot 99", bench.request(99))?;
    show_in(rt, lent, "close slot 2", bench.close(2))?;
    show_in(rt, lent, "poll", bench.poll(0))?;
    bench.lent = Lent::in_full();
    Ok(())
}

/// The calls that are lent the rows.
fn lend_rows(rt: &impl Print, bench: &mut AimdBench, count: usize, lent: &str) -> Result<(), Halt> {
    bench.lent.rows = count;
    show_in(rt, lent, "poll", bench.poll(0))?;
    show_in(rt, lent, "take up grant 1", bench.try_take_up(1))?;
    show_in(rt, lent, "settle grant 1", bench.settle(1, 1_000))?;
    show_in(rt, lent, "expire", bench.expire())?;
    bench.lent = Lent::in_full();
    Ok(())
}

/// Lists of wrong lengths.
fn lengths(rt: &impl Print) -> Result<(), Halt> {
    let mut bench = busy_bench()?;
    lend_controllers(rt, &mut bench, 1, "1 controller of 2")?;
    lend_controllers(rt, &mut bench, 3, "3 controllers of 2")?;
    lend_schedulers(rt, &mut bench, 1, "1 scheduler of 2")?;
    lend_schedulers(rt, &mut bench, 3, "3 schedulers of 2")?;
    lend_rows(rt, &mut bench, 0, "0 rows of 16")?;
    lend_rows(rt, &mut bench, 17, "17 rows of 16")?;
    let lent = "all in full";
    show_in(rt, lent, "request of slot 2", bench.request(2))?;
    show_in(rt, lent, "poll", bench.poll(0))?;
    show_in(rt, lent, "settle grant 1", bench.settle(1, 1_000))?;
    let report = bench.report(2, unsampled(0, 500, 0));
    show_in(rt, lent, "report of slot 2", report)?;
    Ok(())
}

/// The calls that read the row of grant 0.
fn read_row(rt: &impl Print, bench: &mut AimdBench, rewritten: &str) -> Result<(), Halt> {
    show_in(rt, rewritten, "take up", bench.try_take_up(0))?;
    show_in(rt, rewritten, "settle with 0", bench.settle(0, 0))?;
    show_in(rt, rewritten, "expire", bench.expire())?;
    Ok(())
}

/// A row that the host rewrote, of a grant that is due.
fn one_row(rt: &impl Print) -> Result<(), Halt> {
    let mut bench = aimd_bench()?;
    bench.open(0, 0, 1, 1_000);
    bench.request(0);
    bench.poll(0);
    bench.time = 1_000;
    let honest = bench.rows[0];
    bench.rows[0].slot = 99;
    read_row(rt, &mut bench, "row 0 names slot 99")?;
    bench.rows[0].slot = 7;
    read_row(rt, &mut bench, "row 0 names slot 7, which is closed")?;
    bench.rows[0] = honest;
    bench.rows[0].granted = u64::MAX;
    read_row(rt, &mut bench, "row 0 has 2^64 - 1 granted")?;
    bench.rows[0].granted = 1_001;
    read_row(rt, &mut bench, "row 0 has 1001 granted")?;
    bench.rows[0] = honest;
    bench.rows[0].fate = Fate::Charged;
    let rewritten = "row 0 says charged";
    show_in(rt, rewritten, "take up", bench.try_take_up(0))?;
    show_in(rt, rewritten, "settle with 0", bench.settle(0, 0))?;
    bench.rows[0] = honest;
    show(
        rt,
        "row 0 as it was, settle with 1000",
        bench.settle(0, 1_000),
    )?;
    show(rt, "slot 0", bench.standing(0))?;
    Ok(())
}

/// Where the row that comes first is bad, no other is tried.
fn two_rows(rt: &impl Print) -> Result<(), Halt> {
    let mut bench = aimd_bench()?;
    bench.open(0, 0, 1, 1_000);
    bench.request_times(0, 2);
    bench.poll_times(0, 2);
    bench.time = 1_000;
    let honest = bench.rows[1];
    bench.rows[1].slot = 99;
    bench.rows[1].deadline = 0;
    show(
        rt,
        "rows 0 and 1 due, row 1 first and with slot 99, expire",
        bench.expire(),
    )?;
    bench.rows[1] = honest;
    show(rt, "row 1 as it was, expire", bench.expire())?;
    show(rt, "expire", bench.expire())?;
    Ok(())
}

/// A scheduler that does not wait for the slots that wait by the records.
fn told_behind(rt: &impl Print) -> Result<(), Halt> {
    let mut bench = aimd_bench()?;
    bench.open(0, 0, 1, 1_000);
    bench.open(1, 1, 1, 1_000);
    bench.raise_behind(9, 1);
    let answer = bench.poll(0);
    show(
        rt,
        "slot 9 raised, none waiting by the records, poll",
        answer,
    )?;
    bench.request(0);
    show(rt, "slot 9 raised, slot 0 waiting, poll", bench.poll(0))?;
    bench.lower_behind(9);
    bench.raise_behind(1, 1);
    let answer = bench.poll(0);
    show(rt, "slot 1 of macroflow 1 raised, poll macroflow 0", answer)?;
    bench.lower_behind(1);
    bench.lower_behind(0);
    show(rt, "slot 0 lowered, poll", bench.poll(0))?;
    bench.raise_behind(0, 1);
    show(rt, "slot 0 raised again, poll", bench.poll(0))?;
    Ok(())
}

/// Two schedulers that changed places.
fn exchanged(rt: &impl Print) -> Result<(), Halt> {
    let mut bench = aimd_bench()?;
    bench.open(0, 0, 1, 1_000);
    bench.request(0);
    bench.exchange_schedulers();
    show(rt, "schedulers exchanged, poll macroflow 0", bench.poll(0))?;
    show(rt, "schedulers exchanged, poll macroflow 1", bench.poll(1))?;
    bench.exchange_schedulers();
    show(
        rt,
        "schedulers as they were, poll macroflow 0",
        bench.poll(0),
    )?;
    show(rt, "poll macroflow 0 again", bench.poll(0))?;
    Ok(())
}

/// Tries tables of every wrong kind.
pub fn try_all(rt: &impl Print) -> Result<(), Halt> {
    heading(rt, "Lists of wrong lengths")?;
    lengths(rt)?;
    heading(rt, "Rows that the host rewrote")?;
    one_row(rt)?;
    two_rows(rt)?;
    heading(
        rt,
        "Schedulers that the host told behind the manager's back",
    )?;
    told_behind(rt)?;
    exchanged(rt)
}
