//! A scheduler or a controller of a list is copied out, told, and written back: the lists are
//! the host's, and hold plain values that are lent for one call. Three functions and not one over a
//! closure: the contract of each says in one equation what the list is then.
//!
//! Raising and lowering stay functions of their own in the program too: a scheduler is large, and a
//! merge goes over all slots, most of which need neither.
//!
//! That a macroflow has a part in the list is asked of the caller, here and where these are called: it
//! is about a number and a list together, so no type of either could say it.
ghost use Rattle.std.specs.Prelude.{◌≡◌, ◌<◌, length};
ghost use Rattle.stream_calls.specs.Lists.{raised_in, lowered_in, told_in};

use meaning::{Controller, Report, Scheduler};

/// A slot begins to wait in a macroflow.
#[inline(never)]
pub(crate) fn raise<S: Scheduler>(schedulers: &mut [S], macroflow: usize, slot: usize, weight: u64)
    requires { macroflow < length schedulers.old }
    ensures { schedulers.new ≡ raised_in S.scheduling schedulers.old macroflow slot weight }
{
    let mut scheduler = schedulers[macroflow];
    scheduler.raise(slot, weight);
    schedulers[macroflow] = scheduler;
}

/// A slot waits no more in a macroflow.
#[inline(never)]
pub(crate) fn lower<S: Scheduler>(schedulers: &mut [S], macroflow: usize, slot: usize)
    requires { macroflow < length schedulers.old }
    ensures { schedulers.new ≡ lowered_in S.scheduling schedulers.old macroflow slot }
{
    let mut scheduler = schedulers[macroflow];
    scheduler.lower(slot);
    schedulers[macroflow] = scheduler;
}

/// The controller of a macroflow hears a report.
pub(crate) fn tell<C: Controller>(controllers: &mut [C], macroflow: usize, report: Report)
    requires { macroflow < length controllers.old }
    ensures { controllers.new ≡ told_in C.control controllers.old macroflow report }
{
    let mut controller = controllers[macroflow];
    controller.report(report);
    controllers[macroflow] = controller;
}
