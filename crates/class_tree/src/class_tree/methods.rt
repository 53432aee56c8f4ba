//! What a class tree does.
ghost use Rattle.std.specs.Prelude.{◌≡◌};
ghost use Rattle.class_tree.specs.Rule.{class_weight};
ghost use Rattle.class_tree.specs.Scheduling.{fresh, class_tree};

use super::ClassTree;
use crate::state::{CLASSES, ClassTreeState, PLACES};
use schedulers::RoundRobin;

/// The weight of a class among the classes.
fn class_weight(class: usize) -> u64
    ensures { result ≡ class_weight class }
{
    match class {
        0 => 8,
        1 => 4,
        2 => 2,
        _ => 1,
    }
}

impl ClassTree {
    /// No slot waits, and every round robin is fresh.
    pub fn new() -> Self
        ensures { result ≡ fresh }
    {
        let slots = RoundRobin::new();
        ClassTree {
            state: ClassTreeState {
                classes: RoundRobin::new(),
                slots: [slots; CLASSES],
            },
        }
    }

    /// Whether the slot waits.
    pub fn is_waiting(&self, slot: usize) -> bool
        ensures { result ≡ class_tree.waits self.now slot }
    {
        slot < CLASSES * PLACES && self.state.slots[slot / PLACES].is_waiting(slot % PLACES)
    }

    /// The slot begins to wait in its class, with this weight, and where it is the first of its class, the class begins
    /// to wait, with the weight of the class. Nothing changes where the slot waits already, where there is no such slot,
    /// and where the weight is not one of 1 to 8.
    pub fn raise(&mut self, slot: usize, weight: u64)
        ensures { self.new ≡ class_tree.raised self.old slot weight }
    {
        if slot < CLASSES * PLACES {
            let class = slot / PLACES;
            let slots = &mut self.state.slots[class];
            slots.raise(slot % PLACES, weight);
            if slots.is_any_waiting() {
                self.state.classes.raise(class, class_weight(class));
            }
        }
    }

    /// The slot waits no more, and where it was the last of its class, the class waits no more. Nothing changes where
    /// the slot does not wait.
    pub fn lower(&mut self, slot: usize)
        ensures { self.new ≡ class_tree.lowered self.old slot }
    {
        if slot < CLASSES * PLACES {
            let class = slot / PLACES;
            let slots = &mut self.state.slots[class];
            slots.lower(slot % PLACES);
            if !slots.is_any_waiting() {
                self.state.classes.lower(class);
            }
        }
    }

    /// The slot whose turn it is: the turns of the classes give a class, and the turns within that class the slot.
    /// `None` where no slot waits.
    pub fn pick(&mut self) -> Option<usize>
        ensures answer { result ≡ class_tree.chosen self.old }
        ensures after { self.new ≡ class_tree.turned self.old }
    {
        let class = self.state.classes.pick()?;
        let place = self.state.slots[class].pick()?;
        Some(class * PLACES + place)
    }
}
