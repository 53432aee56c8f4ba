//! Controllers and managers that are made, and those that are not.
use crate::answer::Answer;
use crate::fixture::{Halt, PACKET, heading, show};
use controllers::{ByteAimd, RateController};
use manager::Manager;
use meaning::Scheduler;
use schedulers::RoundRobin;
use tables::{Fate, Row};

/// One row more than a ledger may have. The blank row is written out, since a static holds
/// constants and `Row::blank` is a call.
static ROWS: [Row; 65_537] = [Row {
    slot: 0,
    macroflow: 0,
    granted: 0,
    issued: 0,
    deadline: 0,
    fate: Fate::Open,
    sent: 0,
    ended: 0,
    taken: false,
}; 65_537];

/// Packets around the smallest and the largest size.
const PACKETS: [u64; 4] = [63, 64, 9_000, 9_001];

/// The smallest and the largest packet of one kind of controller.
fn packets<F>(rt: &impl Print, kind: &str, make: F) -> Result<(), Halt>
where
    F: Fn(u64) -> Answer,
    requires { F.IsAlwaysCallable make }
{
    for packet in PACKETS {
        let made = make(packet);
        println!(rt; "  {kind} with packets of {packet}: {made}")?;
    }
    Ok(())
}

/// How many macroflows, controllers and schedulers.
fn counts(rt: &impl Print) -> Result<(), Halt> {
    let controllers = [ByteAimd::new(PACKET)?; 9];
    let schedulers = [RoundRobin::<32>::new(); 9];
    let made = Answer::made(Manager::new(0, &controllers[0..0], &schedulers[0..0], &[]));
    show(rt, "manager of 0 macroflows", made)?;
    let made = Answer::made(Manager::new(1, &controllers[0..1], &schedulers[0..1], &[]));
    show(rt, "manager of 1 macroflow and 0 rows", made)?;
    let made = Answer::made(Manager::new(8, &controllers[0..8], &schedulers[0..8], &[]));
    show(rt, "manager of 8 macroflows", made)?;
    let made = Answer::made(Manager::new(9, &controllers, &schedulers, &[]));
    show(rt, "manager of 9 macroflows", made)?;
    let made = Answer::made(Manager::new(2, &controllers[0..1], &schedulers[0..2], &[]));
    show(rt, "manager of 2 macroflows with 1 controller", made)?;
    let made = Answer::made(Manager::new(2, &controllers[0..3], &schedulers[0..2], &[]));
    show(rt, "manager of 2 macroflows with 3 controllers", made)?;
    let made = Answer::made(Manager::new(2, &controllers[0..2], &schedulers[0..1], &[]));
    show(rt, "manager of 2 macroflows with 1 scheduler", made)?;
    let made = Answer::made(Manager::new(2, &controllers[0..2], &schedulers[0..3], &[]));
    show(rt, "manager of 2 macroflows with 3 schedulers", made)?;
    Ok(())
}

/// A scheduler in which a slot waits already.
fn waiting(rt: &impl Print) -> Result<(), Halt> {
    let controllers = [ByteAimd::new(PACKET)?; 2];
    let mut schedulers = [RoundRobin::<32>::new(); 2];
    schedulers[1].raise(31, 8);
    let made = Answer::made(Manager::new(2, &controllers, &schedulers, &[]));
    show(rt, "manager with slot 31 waiting in scheduler 1", made)?;
    schedulers[1].lower(31);
    let made = Answer::made(Manager::new(2, &controllers, &schedulers, &[]));
    show(rt, "manager with no slot waiting", made)?;
    Ok(())
}

/// The longest ledger.
fn rows(rt: &impl Print) -> Result<(), Halt> {
    let controllers = [ByteAimd::new(PACKET)?];
    let schedulers = [RoundRobin::<32>::new()];
    let made = Answer::made(Manager::new(1, &controllers, &schedulers, &ROWS[0..65_536]));
    show(rt, "manager with 65536 rows", made)?;
    let made = Answer::made(Manager::new(1, &controllers, &schedulers, &ROWS));
    show(rt, "manager with 65537 rows", made)?;
    Ok(())
}

/// Tries to make controllers and managers.
pub fn try_all(rt: &impl Print) -> Result<(), Halt> {
    heading(rt, "Making a controller")?;
    packets(
        rt,
        "byte AIMD",
        |packet| Answer::made(ByteAimd::new(packet)),
    )?;
    packets(
        rt,
        "rate controller",
        |packet| Answer::made(RateController::new(packet)),
    )?;
    heading(rt, "Making a manager")?;
    counts(rt)?;
    waiting(rt)?;
    rows(rt)
}
