//! The flat scheduler: one round robin over all 32 slots.
ghost use Rattle.schedulers.specs.Scheduling.{round_robin};
ghost use Rattle.schedulers.specs.Lawful.{round_robin_laws};

use crate::round_robin::RoundRobin;
use meaning::Scheduler;

/// Each method is that of `RoundRobin<N>`, which is there for any number of places; the trait is for 32.
///
/// A slot sees at most 31 × 8 = 248 picks of others before its own.
impl Scheduler for RoundRobin<32> {
    ghost scheduling = { round_robin 32 };

    ghost lawful = { round_robin_laws 32 };

    fn is_waiting(&self, slot: usize) -> bool {
        self.is_waiting(slot)
    }

    fn raise(&mut self, slot: usize, weight: u64) {
        self.raise(slot, weight);
    }

    fn lower(&mut self, slot: usize) {
        self.lower(slot);
    }

    fn pick(&mut self) -> Option<usize> {
        self.pick()
    }
}
