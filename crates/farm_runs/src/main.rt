//! A farm's day as one list of calls, carried out twice: by byte AIMD and round robins, and by rate
//! controllers and class trees.
#![tactic(auto)]

ghost use Rattle.std.specs.Prelude.{◌*◌, ◌<◌, ◌^◌};
ghost use Rattle.std.specs.Mem.{type_size};

mod farm_day;
mod telling;

use class_tree::ClassTree;
use controllers::{ByteAimd, RateController};
use farm::{Accounts, Refused};
use farm_day::DAY;
use house::{run_class_tree, run_round_robin};
use manager::Call;
use meaning::{Controller, Refusal, Scheduler};
use runs::{Outcome, RunError};
use schedulers::RoundRobin;
use std::alloc::{AllocError, Global};
use std::io;
use tables::Row;
use telling::tell_done;

/// The packet size of the farm's radio paths in bytes.
const PACKET: u64 = 1_200;

/// The number of radio paths: each is a macroflow.
const PATHS: usize = 2;

/// The rows of the farm's ledger.
const ROWS: usize = 32;

/// The calls of the farm's day.
fn calls_of_the_day(heap: Global) -> Result<Vec<Call>, AllocError> {
    DAY.iter()
        .map(|(seconds, event)| event.at(*seconds))
        .collect(heap)
}

/// Tells how a run of the day went, and prints its accounts.
fn tell_day(rt: &impl Print, calls: &[Call], rows: &[Row], outcome: &Outcome) -> io::Result<()> {
    let accounts = Accounts {
        manager: &outcome.manager,
        rows,
        paths: PATHS,
    };
    for (call, answer) in calls.iter().zip(outcome.answers.iter()) {
        tell_done(rt, *call, *answer)?;
        accounts.tell(rt, *call, *answer)?;
    }
    accounts.show(rt)
}

/// Passes the day with this controller, if it was made, and this scheduler for each path, over
/// fresh rows, by a run of that scheduler, and prints how it went and its accounts. Two of each have
/// to fit in memory, as every slice does. Not put into its caller: the stack then has the tables of
/// one day, and not of both.
#[inline(never)]
fn pass<C: Controller, S: Scheduler, F>(
    rt: &impl Print,
    calls: &[Call],
    name: &str,
    made: Result<C, Refusal>,
    scheduler: S,
    run: F,
) -> io::Result<()>
where
    F: Fn(&mut [C], &mut [S], &mut [Row]) -> Result<Outcome, RunError>,
    requires controllers_fit { 2 * type_size C.row < 2 ^ 63 }
    requires schedulers_fit { 2 * type_size S.row < 2 ^ 63 }
    requires run { F.IsAlwaysCallable run }
{
    let controller = match made {
        Ok(controller) => controller,
        Err(refusal) => return println!(rt; "{name}: {}", Refused(refusal)),
    };
    let mut controllers = [controller; PATHS];
    let mut schedulers = [scheduler; PATHS];
    let mut rows = [Row::blank(); ROWS];
    match run(&mut controllers, &mut schedulers, &mut rows) {
        Ok(outcome) => tell_day(rt, calls, &rows, &outcome),
        Err(RunError::Refused(refusal)) => println!(rt; "The farm: {}", Refused(refusal)),
        Err(RunError::NoMemory) => println!(rt; "There is no memory for the day"),
    }
}

/// The day by both pairs of parts, each by the run whose bound on waits is a number.
fn days(rt: &impl Print, heap: Global, calls: &[Call]) -> io::Result<()> {
    println!(rt;
        "1. A farm's day: six turbines, nine streams, two radio paths, by byte AIMD and round robin"
    )?;
    println!(rt; "")?;
    pass(
        rt,
        calls,
        "Byte AIMD",
        ByteAimd::new(PACKET),
        RoundRobin::<32>::new(),
        |controllers, schedulers, rows| {
            run_round_robin(heap, PATHS, controllers, schedulers, rows, calls)
        },
    )?;
    println!(rt; "")?;
    println!(rt; "2. The same day, by the rate controller and the class tree")?;
    println!(rt; "")?;
    pass(
        rt,
        calls,
        "Rate controller",
        RateController::new(PACKET),
        ClassTree::new(),
        |controllers, schedulers, rows| {
            run_class_tree(heap, PATHS, controllers, schedulers, rows, calls)
        },
    )
}

fn main(rt: HostRuntime) -> io::Result<()> {
    let heap = rt.alloc();
    match calls_of_the_day(heap) {
        Ok(calls) => days(&rt, heap, calls.as_slice()),
        Err(_) => println!(rt; "There is no memory for the day"),
    }
}
