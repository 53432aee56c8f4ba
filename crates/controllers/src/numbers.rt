//! The plain numbers of a controller.
ghost use Rattle.std.specs.Prelude.{◌≡◌, ◌^◌, ◌<◌};
ghost use Rattle.controllers.specs.Packets.{PacketRange};
ghost use Rattle.controllers.specs.Rule.{Rule, RuleLaws};

use meaning::{Mode, PathEstimate, Report};

/// The plain numbers of a controller. How a new one starts, what it tells and what a report makes
/// of it is said by the functions of `rule`, and `lawful` is what these keep.
///
/// The trait stays inside the crate. Some of its functions ask for numbers in range: `ControllerOf`,
/// through which a host calls them, has the range as its invariant. Each type of numbers answers
/// `packet`, `path` and `sampled` for itself, since these are about fields of its own.
pub trait Numbers: Copy {
    ghost rule: { Rule Self };

    ghost lawful: { RuleLaws rule };

    /// The numbers of a new controller with packets of this size.
    fn fresh(packet: u64) -> Self
        requires { PacketRange packet }
        ensures { result ≡ rule.fresh packet };

    /// The size of a packet in bytes.
    fn packet(&self) -> u64
        ensures { result ≡ rule.packet self.now };

    /// How many bytes may be on the path.
    fn allowance(&self) -> u64
        requires { rule.InRange self.now }
        ensures { result ≡ rule.allowance self.now };

    /// The estimate of the round trip, absent until a sample has come.
    fn path(&self) -> Option<PathEstimate>
        ensures { result ≡ rule.path self.now };

    /// The numbers with a report's sample taken.
    fn sampled(self, report: Report) -> Self
        ensures { result ≡ rule.sampled self report };

    /// The numbers after a report in range, whose sample is taken already.
    fn step(self, report: Report, mode: Mode) -> Self
        requires ranged { rule.InRange self }
        requires amount { report.received < 2 ^ 32 }
        ensures { result ≡ rule.step self report mode };
}
