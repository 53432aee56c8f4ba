//! A stream reports how its packets fared.
ghost use Rattle.std.specs.Prelude.{◌≡◌, ◌+◌, ◌^◌, ◌<◌, ◌≤◌, IfOk, OnErr};
ghost use Rattle.tables.specs.Core.{stream as stream_at, about_slot};
ghost use Rattle.tables.specs.Replies.{reply, asked};
ghost use Rattle.stream_calls.specs.Calls.{Reportable, is_known, is_covered, mode_fits, report_fits, report_questions, report as report_call};

use crate::telling::tell;
use meaning::{Controller, Mode, PathEstimate, Reason, Refusal, Report};
use tables::{Core, SLOTS, Stream, difference_fits, sum_fits};

/// What a stream reports: any numbers at all.
#[derive(Clone, Copy)]
pub struct Feedback {
    /// Bytes that came through.
    pub received: u64,
    /// Bytes that were lost.
    pub lost: u64,
    /// The number of the mode: 0 clear, 1 loss, 2 mark, 3 silence. A number and not a `Mode`, since a
    /// host may send any.
    pub mode: u64,
    /// A round-trip sample in microseconds, where one was taken.
    pub sample: Option<u64>,
}

impl Feedback {
    /// Whether the mode and the sample are in range.
    fn is_known(self) -> bool
        ensures { result ≡ is_known self }
    {
        Mode::try_from(self.mode).is_ok() && self.sample.is_none_or(PathEstimate::is_sample)
    }

    /// Whether no more is reported than is outstanding.
    fn is_covered(self, outstanding: u64) -> bool
        ensures { result ≡ is_covered self outstanding }
    {
        self.received <= outstanding && self.lost <= outstanding - self.received
    }

    /// Whether the amounts fit the mode: clear has nothing lost, loss has something lost, silence
    /// has nothing received and all lost that was outstanding.
    fn fits_mode(self, outstanding: u64) -> bool
        ensures { result ≡ mode_fits self outstanding }
    {
        match Mode::try_from(self.mode) {
            Ok(Mode::Clear) => self.lost == 0,
            Ok(Mode::Loss) => self.lost >= 1,
            Ok(Mode::Silence) => {
                self.received == 0 && self.lost == outstanding && self.lost >= 1
            }
            Ok(Mode::Mark) | Err(_) => true,
        }
    }

    /// Whether the stream's record could hold what it would be after the report.
    fn fits(self, stream: Stream) -> bool
        requires { self.received + self.lost < 2 ^ 64 }
        ensures { result ≡ report_fits stream self }
    {
        difference_fits(stream.outstanding, self.received + self.lost)
            && sum_fits(stream.received, self.received)
            && sum_fits(stream.lost, self.lost)
    }
}

/// The questions before a report is taken, which give the stream's record.
fn ask(
    core: &Core,
    controllers: usize,
    time: u64,
    slot: usize,
    feedback: Feedback,
) -> Result<Stream, Refusal>
    ensures asked { result ≡ asked (report_questions core.now controllers time slot feedback) (about_slot core.now slot) (stream_at core.now slot) }
    ensures facts { IfOk result (λ s. Reportable core.now controllers slot feedback s) }
{
    if controllers != core.macroflows {
        return Err(core.slot_refusal(slot, Reason::TablesDisagree));
    }
    if !core.is_timely(time) {
        return Err(core.slot_refusal(slot, Reason::NotTimely));
    }
    if slot >= SLOTS {
        return Err(core.slot_refusal(slot, Reason::NoSuchSlot));
    }
    let stream = core.streams[slot];
    if !stream.opened {
        return Err(core.slot_refusal(slot, Reason::NotOpen));
    }
    if !feedback.is_known() {
        return Err(core.slot_refusal(slot, Reason::ModeOrSample));
    }
    if !feedback.is_covered(stream.outstanding) {
        return Err(core.slot_refusal(slot, Reason::NotOutstanding));
    }
    if !feedback.fits_mode(stream.outstanding) {
        return Err(core.slot_refusal(slot, Reason::ModeUnfit));
    }
    if stream.macroflow >= core.macroflows || !feedback.fits(stream) {
        return Err(core.slot_refusal(slot, Reason::TablesDisagree));
    }
    Ok(stream)
}

/// Takes a report: the bytes received and lost are no longer outstanding, and the controller of the
/// stream's macroflow hears of it.
pub fn report<C: Controller>(
    core: &mut Core,
    controllers: &mut [C],
    time: u64,
    slot: usize,
    feedback: Feedback,
) -> Result<(), Refusal>
    ensures plain { reply result core.new controllers.new ≡ report_call C.control core.old controllers.old time slot feedback }
    ensures refused { OnErr result ((core.new ≡ core.old) × (controllers.new ≡ controllers.old)) }
{
    let stream = ask(core, controllers.len(), time, slot, feedback)?;
    let Feedback {
        received,
        lost,
        mode,
        sample,
    } = feedback;
    let flight = core.flight(stream.macroflow);
    tell(
        controllers,
        stream.macroflow,
        Report {
            received,
            lost,
            mode,
            sample,
            flight,
            time,
        },
    );
    let s = &mut core.streams[slot];
    s.outstanding -= received + lost;
    s.received += received;
    s.lost += lost;
    s.quiet = time;
    core.last = time;
    Ok(())
}
