//! How the farm's values are printed for a person.
ghost use Rattle.std.specs.Prelude.{◌≡◌, Some, codes};
ghost use Rattle.std.specs.Fmt.{padded};
ghost use Rattle.farm.specs.Words.{stream_text, path_text, time_text, or_hyphen, fate_text, refusal_text};

use meaning::Refusal;
use std::fmt;
use tables::Fate;

/// The streams of the farm, by slot.
pub(crate) const STREAMS: [&str; 9] = [
    "turbine 1 pitch",
    "turbine 1 bearing",
    "turbine 2 pitch",
    "turbine 2 brake",
    "turbine 3 pitch",
    "turbine 3 bearing",
    "turbine 4 brake",
    "turbine 5 pitch",
    "turbine 6 bearing",
];

/// The radio paths of a farm that has two, by macroflow.
const PATHS: [&str; 2] = ["north", "south"];

/// The name of a radio path.
pub(crate) fn path_name(macroflow: usize) -> &'static str
    ensures { result.now ≡ path_text macroflow }
{
    PATHS.get(macroflow).copied().unwrap_or("no path")
}

/// The stream in a slot, by its name. A slot and a macroflow are both plain numbers, so a type tells
/// which one is meant: this, or `PathName`.
#[derive(Clone, Copy)]
pub struct StreamName(pub usize);

impl fmt::Display for StreamName {
    ghost output = { λ s. Some (stream_text s.0) };

    ghost styled_output = { λ s spec. Some (padded spec (stream_text s.0)) };

    fn fmt<W: fmt::Write>(&self, f: &mut fmt::Formatter<W>) -> fmt::Result {
        f.pad(STREAMS.get(self.0).copied().unwrap_or("no stream"))
    }
}

/// The radio path of a macroflow, by its name.
#[derive(Clone, Copy)]
pub struct PathName(pub usize);

impl fmt::Display for PathName {
    ghost output = { λ p. Some (path_text p.0) };

    ghost styled_output = { λ p spec. Some (padded spec (path_text p.0)) };

    fn fmt<W: fmt::Write>(&self, f: &mut fmt::Formatter<W>) -> fmt::Result {
        f.pad(path_name(self.0))
    }
}

/// A time of day in microseconds since midnight, as hours, minutes and seconds.
#[derive(Clone, Copy)]
pub struct TimeOfDay(pub u64);

impl fmt::Display for TimeOfDay {
    ghost output = { λ t. Some (time_text t.0) };

    fn fmt<W: fmt::Write>(&self, f: &mut fmt::Formatter<W>) -> fmt::Result {
        let seconds = self.0 / 1_000_000;
        let hour = seconds / 3_600;
        let minute = seconds / 60 % 60;
        let second = seconds % 60;
        write!(f, "{hour:02}:{minute:02}:{second:02}")
    }
}

/// A value, or a hyphen where there is none.
#[derive(Clone, Copy)]
pub struct OrHyphen<T>(pub Option<T>);

impl<T: fmt::Display> fmt::Display for OrHyphen<T> {
    ghost output = { λ o. or_hyphen T.output (codes "-") o.0 };

    ghost styled_output = { λ o spec. or_hyphen (λ x. T.styled_output x spec) (padded spec (codes "-")) o.0 };

    fn fmt<W: fmt::Write>(&self, f: &mut fmt::Formatter<W>) -> fmt::Result {
        match &self.0 {
            Some(value) => value.fmt(f),
            None => f.pad("-"),
        }
    }
}

/// What became of a grant, in a word. It stands here, since the library itself prints nothing.
#[derive(Clone, Copy)]
pub struct FateWord(pub Fate);

impl fmt::Display for FateWord {
    ghost output = { λ w. Some (fate_text w.0) };

    ghost styled_output = { λ w spec. Some (padded spec (fate_text w.0)) };

    fn fmt<W: fmt::Write>(&self, f: &mut fmt::Formatter<W>) -> fmt::Result {
        f.pad(match self.0 {
            Fate::Open => "open",
            Fate::Charged => "charged",
            Fate::Returned => "returned",
            Fate::Expired => "expired",
        })
    }
}

/// A refusal, by its number. It stands here, since the library itself prints nothing.
#[derive(Clone, Copy)]
pub struct Refused(pub Refusal);

impl fmt::Display for Refused {
    ghost output = { λ r. Some (refusal_text r.0) };

    fn fmt<W: fmt::Write>(&self, f: &mut fmt::Formatter<W>) -> fmt::Result {
        let number = self.0.number();
        write!(f, "refused, number {number}")
    }
}
