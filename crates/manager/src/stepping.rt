//! One call of a list of calls, whichever it is.
ghost use Rattle.std.specs.Prelude.{◌≡◌, OnErr};
ghost use Rattle.manager.specs.State.{state};
ghost use Rattle.manager.specs.Steps.{stepped, step};

use crate::call::{Answer, Call, Told};
use crate::manager_state::Manager;
use meaning::{Controller, Scheduler};
use tables::Row;

impl Manager {
    /// Carries out a call that is given as a value. A `match` and no closures: calls are the host's data,
    /// and the law speaks of them.
    ///
    /// A grant that is taken up so is marked, and its number is answered in the place of a ticket: it
    /// is settled by its number.
    pub fn carry_out<C: Controller, S: Scheduler>(
        &mut self,
        controllers: &mut [C],
        schedulers: &mut [S],
        rows: &mut [Row],
        call: Call,
    ) -> Answer
        ensures plain { stepped result (state self.new.core controllers.new schedulers.new rows.new) ≡ step C.control S.scheduling (state self.old.core controllers.old schedulers.old rows.old) call }
        ensures refused { OnErr result ((self.new ≡ self.old) × (controllers.new ≡ controllers.old) × (schedulers.new ≡ schedulers.old) × (rows.new ≡ rows.old)) }
    {
        match call {
            Call::Open {
                time,
                slot,
                macroflow,
                weight,
                life,
            } => self
                .open(time, slot, macroflow, weight, life)
                .map(|()| Told::Done),
            Call::Request { time, slot } => self
                .request(schedulers, time, slot)
                .map(|()| Told::Done),
            Call::Poll { time, macroflow } => self
                .poll(controllers, schedulers, rows, time, macroflow)
                .map(Told::Polled),
            Call::TakeUp { time, grant } => {
                grant_calls::take_up(&mut self.core, rows, time, grant).map(Told::TakenUp)
            }
            Call::Settle { time, grant, sent } => self
                .settle(rows, time, grant, sent)
                .map(|()| Told::Done),
            Call::Expire { time } => self.expire(rows, time).map(Told::Expired),
            Call::Report {
                time,
                slot,
                feedback,
            } => self
                .report(controllers, time, slot, feedback)
                .map(|()| Told::Done),
            Call::Move {
                time,
                slot,
                macroflow,
            } => self
                .move_to(schedulers, time, slot, macroflow)
                .map(|()| Told::Done),
            Call::Merge { time, from, into } => self
                .merge(schedulers, time, from, into)
                .map(|()| Told::Done),
            Call::Close { time, slot } => self.close(schedulers, time, slot).map(|()| Told::Done),
        }
    }
}
