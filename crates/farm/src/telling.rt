//! The day as it went, told by the calls and their answers.
ghost use Rattle.std.specs.Prelude.{◌≡◌, Some};
ghost use Rattle.farm.specs.Words.{asked_text};
ghost use Rattle.farm.specs.Accounts.{call_time, asked_path};

use crate::accounts::Accounts;
use crate::words::{PathName, Refused, StreamName, TimeOfDay};
use grant_calls::Polled;
use manager::{Answer, Call, Told};
use std::{fmt, io};

/// When a call was made.
fn time_of(call: Call) -> TimeOfDay
    ensures { result.0 ≡ call_time call }
{
    match call {
        Call::Open { time, .. }
        | Call::Request { time, .. }
        | Call::Poll { time, .. }
        | Call::TakeUp { time, .. }
        | Call::Settle { time, .. }
        | Call::Expire { time }
        | Call::Report { time, .. }
        | Call::Move { time, .. }
        | Call::Merge { time, .. }
        | Call::Close { time, .. } => TimeOfDay(time),
    }
}

/// The path that a poll asked, before what it came to; nothing where only one is told of.
#[derive(Clone, Copy)]
struct Asked(Option<PathName>);

impl fmt::Display for Asked {
    ghost output = { λ a. Some (asked_text a.0) };

    fn fmt<W: fmt::Write>(&self, f: &mut fmt::Formatter<W>) -> fmt::Result {
        match self.0 {
            Some(path) => write!(f, "{path}: "),
            None => Ok(()),
        }
    }
}

impl Accounts<'_> {
    /// Prints what a call was answered, where the answer tells more than that the call was
    /// accepted. Each line is written at once.
    pub fn tell(&self, rt: &impl Print, call: Call, answer: Answer) -> io::Result<()> {
        let time = time_of(call);
        match answer {
            Ok(Told::Done | Told::TakenUp(_)) => Ok(()),
            Ok(Told::Polled(polled)) => self.tell_poll(rt, call, polled),
            Ok(Told::Expired(Some(grant))) => println!(rt; "{time}  grant {grant} has expired"),
            Ok(Told::Expired(None)) => println!(rt; "{time}  none is due"),
            Err(refusal) => println!(rt; "{time}  {}", Refused(refusal)),
        }
    }

    /// The path that a call asked for a grant, where there are several.
    fn asked(&self, call: Call) -> Asked
        ensures { result.0 ≡ asked_path self.now.paths call }
    {
        match call {
            Call::Poll { macroflow, .. } if self.paths > 1 => Asked(Some(PathName(macroflow))),
            _ => Asked(None),
        }
    }

    /// What a poll came to.
    fn tell_poll(&self, rt: &impl Print, call: Call, polled: Polled) -> io::Result<()> {
        let time = time_of(call);
        let asked = self.asked(call);
        match polled {
            Polled::Granted(grant) => match self.rows.get(grant) {
                Some(row) => {
                    let name = StreamName(row.slot);
                    println!(rt; "{time}  {asked}grant {grant} to {name}")
                }
                None => println!(rt; "{time}  {asked}grant {grant} to no stream"),
            },
            Polled::NoFit => println!(rt; "{time}  {asked}no fit"),
            Polled::NoneWaits => println!(rt; "{time}  {asked}none waits"),
        }
    }
}
