//! A manager of one radio path with the tables that its host keeps.
ghost use Rattle.std.specs.Prelude.{◌≡◌, OnErr};
ghost use Rattle.schedulers.specs.Scheduling.{round_robin};
ghost use Rattle.manager.specs.State.{state};
ghost use Rattle.manager.specs.Steps.{stepped, step};
ghost use Rattle.farm.specs.Hosts.{hosted, made_host};

use crate::accounts::Accounts;
use controllers::ByteAimd;
use manager::{Answer, Call, Manager};
use meaning::{Controller, Refusal};
use schedulers::RoundRobin;
use tables::Row;

/// A manager of one radio path, with the tables that it is lent: one byte AIMD, one round robin
/// over all slots, and `ROWS` rows.
#[derive(Drop)]
pub struct Host<const ROWS: usize> {
    pub manager: Manager,
    pub controllers: [ByteAimd; 1],
    pub schedulers: [RoundRobin<32>; 1],
    pub rows: [Row; ROWS],
}

impl<const ROWS: usize> Host<ROWS> {
    /// A host with packets of this size. Refused with number 19 unless the size is 64 to 9,000
    /// bytes and there are at most 65,536 rows.
    pub fn new(packet: u64) -> Result<Host<ROWS>, Refusal>
        ensures { hosted result ≡ made_host ROWS packet }
    {
        let controllers = [ByteAimd::new(packet)?];
        let schedulers = [RoundRobin::new()];
        let rows = [Row::blank(); ROWS];
        let manager = Manager::new(1, &controllers, &schedulers, &rows)?;
        Ok(Host {
            manager,
            controllers,
            schedulers,
            rows,
        })
    }

    /// Hands a call to the manager, with all tables.
    pub fn carry_out(&mut self, call: Call) -> Answer
        ensures plain { stepped result (state self.new.manager.core self.new.controllers self.new.schedulers self.new.rows) ≡ step ⟦<ByteAimd as Controller>⟧.control (round_robin 32) (state self.old.manager.core self.old.controllers self.old.schedulers self.old.rows) call }
        ensures refused { OnErr result (self.new ≡ self.old) }
    {
        self.manager.carry_out(
            &mut self.controllers,
            &mut self.schedulers,
            &mut self.rows,
            call,
        )
    }

    /// What is printed of the day so far.
    pub fn accounts(&self) -> Accounts<'_>
        ensures manager { result.manager.now ≡ self.now.manager }
        ensures rows { result.rows.now ≡ self.now.rows }
        ensures paths { result.paths ≡ 1 }
    {
        Accounts {
            manager: &self.manager,
            rows: &self.rows,
            paths: 1,
        }
    }
}
