//! A radio path's day in a dozen reports, and how a controller takes them.
use controllers::{ByteAimd, RateController};
use farm::{OrHyphen, Refused};
use meaning::{Controller, Mode, Refusal, Report};
use std::io;

/// The microseconds of a minute.
const MINUTE: u64 = 60_000_000;

/// What was heard of the path on one day, from morning to evening.
const DAY: [Report; 13] = [
    Report {
        received: 1_200,
        lost: 0,
        mode: Mode::Clear as u64,
        sample: Some(180_000),
        flight: 3_600,
        time: 360 * MINUTE,
    },
    Report {
        received: 2_400,
        lost: 0,
        mode: Mode::Clear as u64,
        sample: Some(176_000),
        flight: 3_600,
        time: 365 * MINUTE,
    },
    Report {
        received: 7_200,
        lost: 0,
        mode: Mode::Clear as u64,
        sample: None,
        flight: 7_200,
        time: 450 * MINUTE,
    },
    Report {
        received: 3_600,
        lost: 2_400,
        mode: Mode::Loss as u64,
        sample: Some(210_000),
        flight: 7_200,
        time: 490 * MINUTE,
    },
    Report {
        received: 2_400,
        lost: 0,
        mode: Mode::Clear as u64,
        sample: Some(190_000),
        flight: 3_600,
        time: 540 * MINUTE,
    },
    Report {
        received: 1_200,
        lost: 0,
        mode: Mode::Clear as u64,
        sample: None,
        flight: 2_400,
        time: 620 * MINUTE,
    },
    Report {
        received: 12_800,
        lost: 0,
        mode: Mode::Clear as u64,
        sample: Some(184_000),
        flight: 14_000,
        time: 705 * MINUTE,
    },
    Report {
        received: 3_600,
        lost: 0,
        mode: Mode::Mark as u64,
        sample: Some(260_000),
        flight: 6_000,
        time: 720 * MINUTE,
    },
    Report {
        received: 0,
        lost: 3_600,
        mode: Mode::Silence as u64,
        sample: None,
        flight: 3_600,
        time: 795 * MINUTE,
    },
    Report {
        received: 1_200,
        lost: 0,
        mode: Mode::Clear as u64,
        sample: Some(170_000),
        flight: 1_200,
        time: 796 * MINUTE,
    },
    Report {
        received: 1_200,
        lost: 0,
        mode: Mode::Clear as u64,
        sample: Some(0),
        flight: 2_400,
        time: 900 * MINUTE,
    },
    Report {
        received: 2_400,
        lost: 0,
        mode: Mode::Clear as u64,
        sample: Some(168_000),
        flight: 2_400,
        time: 1_065 * MINUTE,
    },
    Report {
        received: 3_600,
        lost: 0,
        mode: Mode::Clear as u64,
        sample: None,
        flight: 3_600,
        time: 1_110 * MINUTE,
    },
];

/// The numbers that only one kind of controller has.
pub trait Figures {
    /// The window or the rate.
    fn main_figure(&self) -> u64;

    /// The threshold, where the controller has one.
    fn threshold(&self) -> Option<u64>;
}

impl Figures for ByteAimd {
    fn main_figure(&self) -> u64 {
        self.state().window
    }

    fn threshold(&self) -> Option<u64> {
        Some(self.state().threshold)
    }
}

impl Figures for RateController {
    fn main_figure(&self) -> u64 {
        self.state().rate
    }

    fn threshold(&self) -> Option<u64> {
        None
    }
}

/// What a report was, in a word. A function and no `Display` of the mode, since a report that is
/// ignored has a word too, and has no mode.
fn report_word(report: &Report) -> &'static str {
    match report.heard() {
        Some(Mode::Clear) => "clear",
        Some(Mode::Loss) => "loss",
        Some(Mode::Mark) => "mark",
        Some(Mode::Silence) => "silence",
        None => "ignored",
    }
}

/// Prints one line of the table: the controller as it stands. The time is in hours and minutes, and
/// no `TimeOfDay`: the reports of the table come by the minute.
fn show<C: Controller + Figures>(
    rt: &impl Print,
    time: u64,
    word: &str,
    controller: &C,
) -> io::Result<()> {
    let minutes = time / MINUTE;
    let hour = minutes / 60;
    let minute = minutes % 60;
    let figure = controller.main_figure();
    let threshold = OrHyphen(controller.threshold());
    let round_trip = OrHyphen(controller.path().map(|path| path.smoothed()));
    let allowance = controller.allowance();
    println!(rt;
        "{hour:02}:{minute:02}  {word:<8} {figure:>9} {threshold:>11} {round_trip:>11} {allowance:>10}"
    )
}

/// Tells a controller, if it was made, the reports of the day one by one, and prints how it stands
/// after each.
pub fn tell<C: Controller + Figures>(
    rt: &impl Print,
    name: &str,
    figure: &str,
    made: Result<C, Refusal>,
) -> io::Result<()> {
    let mut controller = match made {
        Ok(controller) => controller,
        Err(refusal) => return println!(rt; "{name}: {}", Refused(refusal)),
    };
    println!(rt; "")?;
    println!(rt; "{name}")?;
    println!(rt; "time   report   {figure:>9}   threshold  round trip  allowance")?;
    show(rt, 0, "start", &controller)?;
    for report in &DAY {
        controller.report(*report);
        show(rt, report.time, report_word(report), &controller)?;
    }
    Ok(())
}
