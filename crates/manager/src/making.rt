//! Making a manager.
ghost use Rattle.std.specs.Prelude.{◌≡◌, length};
ghost use Rattle.manager.specs.Making.{is_idle, all_idle, core_of, made};

use crate::manager_state::Manager;
use meaning::{Controller, Reason, Refusal, Scheduler};
use tables::{Core, Row, SLOTS, Stream};

/// The most macroflows of a manager.
const MAX_MACROFLOWS: usize = 8;

/// The most rows of a ledger.
const MAX_ROWS: usize = 65_536;

/// Whether no slot waits in a scheduler.
fn is_idle<S: Scheduler>(scheduler: &S) -> bool
    ensures { result ≡ is_idle S.scheduling scheduler.now }
{
    (0..SLOTS).all(|slot| !scheduler.is_waiting(slot))
}

/// Whether no slot waits in any of the schedulers.
fn all_idle<S: Scheduler>(schedulers: &[S]) -> bool
    ensures { result ≡ all_idle S.scheduling schedulers.now }
{
    schedulers.iter().all(|scheduler| is_idle(scheduler))
}

impl Manager {
    /// A manager with all slots closed and no grant issued. Refused with number 19 unless there are 1
    /// to 8 macroflows, as many controllers and schedulers, at most 65,536 rows, and no slot waits.
    pub fn new<C: Controller, S: Scheduler>(
        macroflows: usize,
        controllers: &[C],
        schedulers: &[S],
        rows: &[Row],
    ) -> Result<Manager, Refusal>
        ensures { core_of result ≡ made S.scheduling macroflows (length controllers.now) schedulers.now (length rows.now) }
    {
        if !(1..=MAX_MACROFLOWS).contains(&macroflows)
            || rows.len() > MAX_ROWS
            || controllers.len() != macroflows
            || schedulers.len() != macroflows
            || !all_idle(schedulers)
        {
            return Err(Reason::CannotBeMade.into());
        }
        Ok(Manager {
            core: Core {
                streams: [Stream::closed(); SLOTS],
                macroflows,
                capacity: rows.len(),
                issued: 0,
                last: 0,
            },
        })
    }
}
