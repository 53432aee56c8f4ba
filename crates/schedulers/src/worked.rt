//! Worked values of the round robin.
ghost use Rattle.std.specs.Prelude.{◌≡◌};
ghost use Rattle.meaning.specs.Scheduling.{picks};
ghost use Rattle.schedulers.specs.Scheduling.{round_robin};
ghost use Rattle.schedulers.specs.Examples.{two_waiting, TwoToOne, Bound248};

use crate::round_robin::RoundRobin;
use meaning::{Scheduler, next_picks};

/// Slot 0 waits with weight 2, and slot 1 with weight 1: the picks are 0, 0, 1, 0, 0, 1. The bound is 248.
pub fn two_to_one() -> [Option<usize>; 6]
    ensures rule { TwoToOne }
    ensures bound { Bound248 }
    ensures carried_out { result ≡ picks (round_robin 32) 6 two_waiting }
{
    let mut scheduler = RoundRobin::<32>::new();
    scheduler.raise(0, 2);
    scheduler.raise(1, 1);
    next_picks(&mut scheduler)
}
