//! How a grant ends, and which answers count as accepted.
use crate::answer::Answer;
use crate::fixture::{AimdBench, Halt, aimd_bench, heading, show};
use manager::Told;

/// A manager that issued grant 0 to slot 0 at 10; it is 20.
fn granted_bench() -> Result<AimdBench, Halt> {
    let mut bench = aimd_bench()?;
    bench.time = 10;
    bench.open(0, 0, 1, 1_000);
    bench.request(0);
    bench.poll(0);
    bench.time = 20;
    Ok(bench)
}

/// A grant that is settled with nothing sent.
fn returned(rt: &impl Print) -> Result<(), Halt> {
    let mut bench = granted_bench()?;
    show(rt, "slot 0 before", bench.standing(0))?;
    show(rt, "settle grant 0 with 0", bench.settle(0, 0))?;
    show(rt, "row 0", bench.row(0))?;
    show(rt, "slot 0 after", bench.standing(0))?;
    Ok(())
}

/// A settlement by ticket that is refused: the ticket is spent, and the grant is settled by its
/// number.
fn refused_ticket(rt: &impl Print) -> Result<(), Halt> {
    let mut bench = granted_bench()?;
    let ticket = bench.take_up(0)?;
    let taken = Answer::Told(Told::TakenUp(ticket.number()));
    let again = bench.try_take_up(0);
    let settled = bench.settle_ticket(ticket, 1_001);
    show(rt, "take up grant 0", taken)?;
    show(rt, "take up grant 0 again", again)?;
    show(rt, "settle its ticket with 1001", settled)?;
    show(rt, "row 0", bench.row(0))?;
    show(
        rt,
        "settle grant 0 by its number with 1000",
        bench.settle(0, 1_000),
    )?;
    show(
        rt,
        "settle grant 0 by its number again",
        bench.settle(0, 1_000),
    )?;
    show(rt, "row 0", bench.row(0))?;
    Ok(())
}

/// A ticket whose grant has expired is spent too, and nothing is charged.
fn late_ticket(rt: &impl Print) -> Result<(), Halt> {
    let mut bench = granted_bench()?;
    let ticket = bench.take_up(0)?;
    let taken = Answer::Told(Told::TakenUp(ticket.number()));
    bench.time = 1_010;
    let expired = bench.expire();
    let settled = bench.settle_ticket(ticket, 1_000);
    show(rt, "take up grant 0", taken)?;
    show(rt, "expire at 1010", expired)?;
    show(rt, "settle its ticket with 1000", settled)?;
    show(rt, "row 0", bench.row(0))?;
    show(rt, "slot 0", bench.standing(0))?;
    Ok(())
}

/// 'None waits', 'no fit' and nothing due are accepted: they set the last time.
fn last_time(rt: &impl Print) -> Result<(), Halt> {
    let mut bench = aimd_bench()?;
    bench.open(0, 0, 1, 1_000);
    bench.time = 100;
    show(rt, "poll at 100", bench.poll(0))?;
    bench.time = 99;
    show(rt, "request of slot 0 at 99", bench.request(0))?;
    bench.time = 100;
    show(rt, "request of slot 0 at 100", bench.request(0))?;
    bench.request_times(0, 4);
    bench.poll_times(0, 4);
    bench.time = 200;
    show(rt, "poll at 200, open 4000", bench.poll(0))?;
    bench.time = 199;
    show(rt, "request of slot 0 at 199", bench.request(0))?;
    bench.time = 300;
    show(rt, "expire at 300", bench.expire())?;
    bench.time = 299;
    show(rt, "settle grant 0 at 299", bench.settle(0, 1_000))?;
    bench.time = 300;
    show(rt, "settle grant 0 at 300", bench.settle(0, 1_000))?;
    Ok(())
}

/// Tries the ends of a grant.
pub fn try_all(rt: &impl Print) -> Result<(), Halt> {
    heading(rt, "A grant that is returned")?;
    returned(rt)?;
    heading(rt, "A ticket whose settlement is refused")?;
    refused_ticket(rt)?;
    heading(rt, "A ticket that comes too late")?;
    late_ticket(rt)?;
    heading(rt, "Answers that set the last time")?;
    last_time(rt)
}
