//! A macroflow is asked for its next grant.
ghost use Rattle.std.specs.Prelude.{◌≡◌, ◌+◌, ◌^◌, ◌<◌, ◌≤◌, length, None, OnErr, OnOk};
ghost use Rattle.tables.specs.Core.{about_macroflow};
ghost use Rattle.tables.specs.Replies.{reply, asked};
ghost use Rattle.grant_calls.specs.Polls.{agrees as AgreesOn, can_get, granted, issued, poll_questions, poll as poll_call};

use meaning::{Controller, Reason, Refusal, Scheduler};
use tables::{Core, Row, difference_fits, sum_fits};

/// What a poll comes to.
#[derive(Clone, Copy, PartialEq, Eq, Debug)]
pub enum Polled {
    /// No stream of the macroflow waits.
    NoneWaits,
    /// One packet more would not fit the allowance.
    NoFit,
    /// A grant was issued, with this number.
    Granted(usize),
}

/// The questions before a poll.
fn ask_poll(
    core: &Core,
    controllers: usize,
    schedulers: usize,
    rows: usize,
    time: u64,
    macroflow: usize,
) -> Result<(), Refusal>
    ensures asked { result ≡ asked (poll_questions core.now controllers schedulers rows time macroflow) (about_macroflow core.now None macroflow) tt }
    ensures facts { OnOk result ((macroflow < controllers) × (macroflow < schedulers) × (time ≤ 1000000000000000)) }
{
    if controllers != core.macroflows || schedulers != core.macroflows || rows != core.capacity {
        return Err(core.macroflow_refusal(None, macroflow, Reason::TablesDisagree));
    }
    if !core.is_timely(time) {
        return Err(core.macroflow_refusal(None, macroflow, Reason::NotTimely));
    }
    if macroflow >= core.macroflows {
        return Err(core.macroflow_refusal(None, macroflow, Reason::NoSuchMacroflow));
    }
    Ok(())
}

/// Whether a scheduler and the records tell the same slots waiting in a macroflow.
fn agrees<S: Scheduler>(core: &Core, scheduler: &S, macroflow: usize) -> bool
    ensures { result ≡ AgreesOn S.scheduling core.now scheduler.now macroflow }
{
    core.streams.iter().enumerate().all(|(slot, stream)| {
        scheduler.is_waiting(slot) == stream.waits_in(macroflow)
    })
}

/// Whether a slot can get a grant: it waits in the macroflow, and each number fits that would be
/// written.
fn can_get_grant(core: &Core, slot: usize, macroflow: usize, time: u64, packet: u64) -> bool
    ensures { result ≡ can_get core.now slot macroflow time packet }
{
    core.streams.get(slot).is_some_and(|stream| {
        stream.waits_in(macroflow)
            && sum_fits(time, stream.life)
            && difference_fits(stream.waiting, 1)
            && sum_fits(stream.reserved, packet)
    })
}

/// Issues the next grant to the slot that the scheduler picks. That the macroflow has a scheduler in the
/// list is about a number and a list together, so no type of either could say it.
fn issue<S: Scheduler>(
    core: &mut Core,
    schedulers: &mut [S],
    rows: &mut [Row],
    time: u64,
    macroflow: usize,
    packet: u64,
) -> Result<Polled, Refusal>
    requires { macroflow < length schedulers.old }
    ensures plain { reply result core.new (schedulers.new, rows.new) ≡ issued S.scheduling core.old schedulers.old rows.old time macroflow packet }
    ensures refused { OnErr result ((core.new ≡ core.old) × (schedulers.new ≡ schedulers.old) × (rows.new ≡ rows.old)) }
{
    let grant = core.issued;
    if grant >= rows.len() {
        return Err(core.macroflow_refusal(None, macroflow, Reason::LedgerFull));
    }
    // A copy, so that a refusal after the pick leaves the list as it was.
    let mut scheduler = schedulers[macroflow];
    if !agrees(core, &scheduler, macroflow) {
        return Err(core.macroflow_refusal(None, macroflow, Reason::TablesDisagree));
    }
    let Some(slot) = scheduler.pick() else {
        return Err(core.macroflow_refusal(None, macroflow, Reason::TablesDisagree));
    };
    if !can_get_grant(core, slot, macroflow, time, packet) {
        return Err(core.macroflow_refusal(None, macroflow, Reason::TablesDisagree));
    }
    let stream = core.streams[slot];
    if stream.waiting == 1 {
        scheduler.lower(slot);
    }
    schedulers[macroflow] = scheduler;
    rows[grant] = Row::open(slot, macroflow, packet, time, time + stream.life);
    let s = &mut core.streams[slot];
    s.waiting -= 1;
    s.reserved += packet;
    core.issued += 1;
    core.last = time;
    Ok(Polled::Granted(grant))
}

/// Asks a macroflow for its next grant: none if by the records no slot waits there, or if one packet
/// more than what is outstanding and open would not fit the allowance.
pub fn poll<C: Controller, S: Scheduler>(
    core: &mut Core,
    controllers: &[C],
    schedulers: &mut [S],
    rows: &mut [Row],
    time: u64,
    macroflow: usize,
) -> Result<Polled, Refusal>
    ensures plain { reply result core.new (schedulers.new, rows.new) ≡ poll_call C.control S.scheduling core.old controllers.now schedulers.old rows.old time macroflow }
    ensures refused { OnErr result ((core.new ≡ core.old) × (schedulers.new ≡ schedulers.old) × (rows.new ≡ rows.old)) }
{
    ask_poll(
        core,
        controllers.len(),
        schedulers.len(),
        rows.len(),
        time,
        macroflow,
    )?;
    if !core.someone_waits(macroflow) {
        core.last = time;
        return Ok(Polled::NoneWaits);
    }
    let controller = &controllers[macroflow];
    let packet = controller.packet();
    if core.load(macroflow) + u128::from(packet) > u128::from(controller.allowance()) {
        core.last = time;
        return Ok(Polled::NoFit);
    }
    issue(core, schedulers, rows, time, macroflow, packet)
}
