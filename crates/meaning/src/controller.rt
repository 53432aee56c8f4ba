//! What a controller is.
ghost use Rattle.std.specs.Prelude.{◌≡◌, ◌≤◌};
ghost use Rattle.meaning.specs.Control.{Control, ControlLaws, told_all, paths_after};

use crate::path::PathEstimate;
use crate::report::Report;

/// A congestion controller: it says how many bytes its path may carry at a time.
///
/// A controller is a plain value that may be copied. Three questions tell its packet size, its
/// allowance and its estimate of the path, and change nothing; a report may change it. Nothing
/// here refuses. What the questions and the report mean is `control`, and every controller keeps
/// the laws of `ControlLaws`: the packet is 64 to 9,000 bytes and never changes, the allowance
/// lies between one packet and 1,048,576 bytes, a report in range steps the path estimate by its
/// sample, and a report out of range does nothing at all.
pub trait Controller: Copy {
    ghost control: { Control Self };

    /// The size of a packet in bytes.
    fn packet(&self) -> u64
        ensures { result ≡ control.packet self.now };

    /// How many bytes may be on the path.
    fn allowance(&self) -> u64
        ensures { result ≡ control.allowance self.now };

    /// The estimate of the round trip, absent until a sample has come.
    fn path(&self) -> Option<PathEstimate>
        ensures { result ≡ control.path self.now };

    /// Tells the controller a report.
    fn report(&mut self, report: Report)
        ensures { self.new ≡ control.told self.old report };

    ghost lawful: { ControlLaws control };
}

/// Tells a controller a list of reports, the first one first.
///
/// Whatever the controller and the reports are, the packet is as it was, the allowance is in
/// range, and the path estimate is that of the samples in the reports that are in range.
pub fn tell_all<C: Controller>(controller: &mut C, reports: &[Report])
    ensures after { controller.new ≡ told_all C.control controller.old reports.now }
    ensures packet { C.control.packet controller.new ≡ C.control.packet controller.old }
    ensures allowance { (C.control.packet controller.new ≤ C.control.allowance controller.new) × (C.control.allowance controller.new ≤ 1048576) }
    ensures path { C.control.path controller.new ≡ paths_after (C.control.path controller.old) reports.now }
{
    for report in reports {
        controller.report(*report);
    }
}
