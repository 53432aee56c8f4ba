//! The plain state of a class tree.
use schedulers::RoundRobin;

/// How many classes there are.
pub(crate) const CLASSES: usize = 4;

/// How many slots each class has.
pub(crate) const PLACES: usize = 8;

/// The state of a class tree: slot s is place s % 8 of class s / 8.
#[derive(Clone, Copy)]
pub struct ClassTreeState {
    /// The round robin of the classes.
    pub classes: RoundRobin<CLASSES>,
    /// In each class the round robin of its slots.
    pub slots: [RoundRobin<PLACES>; CLASSES],
}
