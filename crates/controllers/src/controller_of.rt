//! A controller by its plain numbers.
ghost use Rattle.std.specs.Prelude.{◌≡◌, ◌^◌, ◌<◌, ⊤};
ghost use Rattle.controllers.specs.Packets.{made, numbers_of};

use crate::numbers::Numbers;
use crate::packets::checked_packet;
use meaning::{Controller, Mode, PathEstimate, Refusal, Report};
use std::alloc::AllocError;

/// A controller by its plain numbers, as `ByteAimd` and `RateController` are. No value of this type
/// is outside the ranges of its numbers' rule.
#[derive(Copy)]
pub struct ControllerOf<N: Numbers> {
    state: N,
    ghost ranged: { N.rule.InRange state } by { N.lawful.range_prop state },
}

/// By hand, since a generic struct with a ghost field cannot derive it.
impl<N: Numbers> Clone for ControllerOf<N> {
    ghost is_clone = { λ x y. y ≡ x };

    ghost is_infallible = { λ _. ⊤ };

    fn clone(&self) -> Result<ControllerOf<N>, AllocError> {
        Ok(*self)
    }
}

impl<N: Numbers> ControllerOf<N> {
    /// A new controller with packets of this size. Refused with number 19 unless the size is 64
    /// to 9,000 bytes.
    pub fn new(packet: u64) -> Result<ControllerOf<N>, Refusal>
        ensures { numbers_of (λ c. c.state) result ≡ made N.rule.fresh packet }
    {
        let packet = checked_packet(packet)?;
        Ok(ControllerOf {
            state: N::fresh(packet),
        })
    }

    /// The controller's numbers.
    pub fn state(&self) -> N
        ensures value { result ≡ self.now.state }
        ensures ranged { N.rule.InRange result }
    {
        self.state
    }
}

/// The numbers after a report that is heard: its sample is taken first, then its mode.
fn numbers_after<N: Numbers>(numbers: N, report: Report, mode: Mode) -> N
    requires ranged { N.rule.InRange numbers }
    requires amount { report.received < 2 ^ 32 }
    ensures { result ≡ N.rule.step (N.rule.sampled numbers report) report mode }
{
    numbers.sampled(report).step(report, mode)
}

impl<N: Numbers> Controller for ControllerOf<N> {
    ghost use Rattle.controllers.specs.Rule.{LossNeverGrows, SilenceLeavesLeast};
    ghost use Rattle.controllers.specs.Controlled.{control_of, control_laws, told};

    ghost control = { control_of ⟦<N as Numbers>⟧ };

    ghost lawful = { control_laws ⟦<N as Numbers>⟧ };

    fn packet(&self) -> u64 {
        self.state.packet()
    }

    fn allowance(&self) -> u64 {
        self.state.allowance()
    }

    fn path(&self) -> Option<PathEstimate> {
        self.state.path()
    }

    /// Tells the controller a report: its sample is taken first, then its mode. A report with a
    /// number out of range does nothing.
    ///
    /// A loss or a mark never makes the level larger, which is the window or the rate, and silence
    /// leaves the least of it: one packet, or 8,000 bytes a second.
    fn report(&mut self, report: Report)
        ensures after { self.new ≡ told ⟦<N as Numbers>⟧ self.old report }
        ensures loss { LossNeverGrows N.rule self.old.state self.new.state report }
        ensures silence { SilenceLeavesLeast N.rule self.old.state self.new.state report }
    {
        if let Some(mode) = report.heard() {
            self.state = numbers_after(self.state, report, mode);
        }
    }
}
