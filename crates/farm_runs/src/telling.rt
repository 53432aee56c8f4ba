//! What was done to a stream or a path, told where it is worth a line.
use farm::{PathName, StreamName, TimeOfDay};
use manager::{Answer, Call, Told};
use std::io;

/// Prints where a stream or a path went, if a call that sends it there was accepted.
pub fn tell_done(rt: &impl Print, call: Call, answer: Answer) -> io::Result<()> {
    if !matches!(answer, Ok(Told::Done)) {
        return Ok(());
    }
    match call {
        Call::Move {
            time,
            slot,
            macroflow,
        } => {
            let (time, name, path) = (TimeOfDay(time), StreamName(slot), PathName(macroflow));
            println!(rt; "{time}  {name} goes to {path}")
        }
        Call::Merge { time, from, into } => {
            let (time, from, into) = (TimeOfDay(time), PathName(from), PathName(into));
            println!(rt; "{time}  {from} is merged into {into}")
        }
        Call::Close { time, slot } => {
            let (time, name) = (TimeOfDay(time), StreamName(slot));
            println!(rt; "{time}  {name} is closed")
        }
        _ => Ok(()),
    }
}
