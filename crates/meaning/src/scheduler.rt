//! Which of 32 slots is next.
ghost use Rattle.meaning.specs.Scheduling.{Scheduling, SchedulingLaws};
ghost use Rattle.std.specs.Prelude.{◌≡◌};

/// A scheduler of 32 slots: a set of waiting slots with weights of 1 to 8, and a rule that picks one of them.
///
/// What it does is said by the functions of `scheduling`, and `lawful` is what these keep. Above all, a slot
/// that waits and is not picked sees no more picks of others than the scheduler's bound.
pub trait Scheduler: Copy {
    ghost scheduling: { Scheduling Self };

    /// Whether the slot waits.
    fn is_waiting(&self, slot: usize) -> bool
        ensures { result ≡ scheduling.waits self.now slot };

    /// The slot begins to wait, with this weight. Nothing changes where it waits already, where there is no such
    /// slot, and where the weight is not one of 1 to 8.
    fn raise(&mut self, slot: usize, weight: u64)
        ensures { self.new ≡ scheduling.raised self.old slot weight };

    /// The slot waits no more. Nothing changes where it does not wait.
    fn lower(&mut self, slot: usize)
        ensures { self.new ≡ scheduling.lowered self.old slot };

    /// The slot whose turn it is, or nothing where none waits. The slot waits on.
    fn pick(&mut self) -> Option<usize>
        ensures answer { result ≡ scheduling.chosen self.old }
        ensures after { self.new ≡ scheduling.turned self.old };

    ghost lawful: { SchedulingLaws 32 scheduling };
}
