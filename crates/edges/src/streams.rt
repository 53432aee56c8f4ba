//! The stream that is quiet for longest, a stream that is moved, and one that is closed.
use crate::fixture::{Halt, aimd_bench, heading, show, unsampled};

/// Which slot is quietest as the calls go on.
fn quietest(rt: &impl Print) -> Result<(), Halt> {
    let mut bench = aimd_bench()?;
    show(rt, "quietest, no slot open", bench.quietest())?;
    bench.time = 10;
    bench.open(7, 0, 1, 1_000);
    bench.open(3, 0, 1, 1_000);
    show(rt, "slots 7 and 3 opened at 10, quietest", bench.quietest())?;
    bench.time = 20;
    bench.request(3);
    show(rt, "request of slot 3 at 20, quietest", bench.quietest())?;
    bench.time = 30;
    bench.request(7);
    show(rt, "request of slot 7 at 30, quietest", bench.quietest())?;
    bench.time = 40;
    show(rt, "poll at 40", bench.poll(0))?;
    show(rt, "row 0", bench.row(0))?;
    show(rt, "quietest after the poll", bench.quietest())?;
    bench.time = 50;
    bench.settle(0, 500);
    show(rt, "settle grant 0 at 50, quietest", bench.quietest())?;
    bench.time = 60;
    bench.report(7, unsampled(0, 0, 0));
    show(rt, "report of slot 7 at 60, quietest", bench.quietest())?;
    Ok(())
}

/// A grant that expires leaves its slot as quiet as it was.
fn expired(rt: &impl Print) -> Result<(), Halt> {
    let mut bench = aimd_bench()?;
    bench.time = 10;
    bench.open(3, 0, 1, 1_000);
    bench.request(3);
    bench.poll(0);
    bench.time = 1_010;
    show(rt, "expire at 1010", bench.expire())?;
    show(rt, "slot 3", bench.standing(3))?;
    Ok(())
}

/// Close drops what waits, and what is outstanding is abandoned.
fn closed(rt: &impl Print) -> Result<(), Halt> {
    let mut bench = aimd_bench()?;
    bench.time = 10;
    bench.open(3, 0, 1, 1_000);
    bench.open(7, 0, 1, 1_000);
    bench.request_times(3, 3);
    bench.request(7);
    bench.poll(0);
    bench.settle(0, 500);
    bench.time = 20;
    show(rt, "slot 3", bench.standing(3))?;
    show(rt, "close slot 3 at 20", bench.close(3))?;
    show(rt, "slot 3", bench.standing(3))?;
    show(rt, "quietest", bench.quietest())?;
    show(rt, "poll", bench.poll(0))?;
    show(rt, "row 1", bench.row(1))?;
    show(rt, "poll", bench.poll(0))?;
    bench.time = 30;
    show(
        rt,
        "open slot 3 in macroflow 1 at 30",
        bench.open(3, 1, 2, 2_000),
    )?;
    show(rt, "slot 3", bench.standing(3))?;
    Ok(())
}

/// A stream takes its requests and its bytes to another macroflow.
fn moved(rt: &impl Print) -> Result<(), Halt> {
    let mut bench = aimd_bench()?;
    bench.time = 10;
    bench.open(3, 0, 2, 1_000);
    bench.request_times(3, 2);
    bench.poll(0);
    bench.time = 20;
    show(
        rt,
        "move slot 3 to macroflow 0, where it is",
        bench.move_to(3, 0),
    )?;
    show(rt, "move slot 3 to macroflow 2 of 2", bench.move_to(3, 2))?;
    show(rt, "move slot 4, which is closed", bench.move_to(4, 1))?;
    show(rt, "move slot 32", bench.move_to(32, 1))?;
    show(rt, "move slot 3 to macroflow 1", bench.move_to(3, 1))?;
    show(rt, "slot 3", bench.standing(3))?;
    show(rt, "poll macroflow 0", bench.poll(0))?;
    show(rt, "poll macroflow 1", bench.poll(1))?;
    show(rt, "row 1", bench.row(1))?;
    Ok(())
}

/// Tries quiet, moved and closed streams.
pub fn try_all(rt: &impl Print) -> Result<(), Halt> {
    heading(rt, "The quietest slot")?;
    quietest(rt)?;
    heading(rt, "An expiry is no sign of life")?;
    expired(rt)?;
    heading(rt, "A stream that is moved")?;
    moved(rt)?;
    heading(rt, "A stream that is closed")?;
    closed(rt)
}
