//! What every case starts from, and how it is printed.
use crate::answer::Answer;
use crate::bench::Bench;
use class_tree::ClassTree;
use controllers::{ByteAimd, RateController};
use meaning::{Mode, Refusal};
use schedulers::RoundRobin;
use std::io;
use stream_calls::Feedback;

/// The packet size of every controller on the bench, in bytes.
pub const PACKET: u64 = 1_000;

/// A manager with byte AIMD and one round robin over all slots: its windows are 4,000 at first.
pub type AimdBench = Bench<ByteAimd, RoundRobin<32>>;

/// A manager with the rate controller and the class tree: its allowances are 12,800 at first.
pub type RateBench = Bench<RateController, ClassTree>;

/// Why the program stops before its end.
#[derive(Debug, Drop)]
pub enum Halt {
    /// Nothing more can be printed.
    Output(io::Error),
    /// A part of the bench was not made, or a grant that a case needs was not taken up.
    NotMade(Refusal),
}

impl From<io::Error> for Halt {
    fn from(error: io::Error) -> Halt {
        Halt::Output(error)
    }
}

impl From<Refusal> for Halt {
    fn from(refusal: Refusal) -> Halt {
        Halt::NotMade(refusal)
    }
}

/// A new manager with byte AIMD. This function and `rate_bench` each name a controller and a
/// scheduler; what they share is `Bench::new`.
pub fn aimd_bench() -> Result<AimdBench, Halt> {
    let controller = ByteAimd::new(PACKET)?;
    Ok(Bench::new(controller, RoundRobin::<32>::new())?)
}

/// A new manager with the rate controller.
pub fn rate_bench() -> Result<RateBench, Halt> {
    let controller = RateController::new(PACKET)?;
    Ok(Bench::new(controller, ClassTree::new())?)
}

/// A report without a sample. Its mode is a number, since some cases try one that is no mode.
pub fn unsampled(mode: u64, received: u64, lost: u64) -> Feedback {
    Feedback {
        received,
        lost,
        mode,
        sample: None,
    }
}

/// A clear report with a sample.
pub fn sampled(received: u64, sample: u64) -> Feedback {
    Feedback {
        received,
        lost: 0,
        mode: Mode::Clear as u64,
        sample: Some(sample),
    }
}

/// Prints what the next cases are about.
pub fn heading(rt: &impl Print, title: &str) -> io::Result<()> {
    println!(rt; "")?;
    println!(rt; "{title}")
}

/// Prints a case: what was tried, and what was answered.
pub fn show(rt: &impl Print, tried: &str, answer: Answer) -> io::Result<()> {
    println!(rt; "  {tried}: {answer}")
}

/// Prints a case that is tried in a state of its own.
pub fn show_in(rt: &impl Print, state: &str, tried: &str, answer: Answer) -> io::Result<()> {
    println!(rt; "  {state}, {tried}: {answer}")
}
