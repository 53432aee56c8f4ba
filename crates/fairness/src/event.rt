//! What can happen to a scheduler.

/// A call of a scheduler.
#[derive(Clone, Copy)]
pub enum Event {
    /// The slot begins to wait, with this weight.
    Raise { slot: usize, weight: u64 },
    /// The slot waits no more.
    Lower { slot: usize },
    /// A slot is picked.
    Pick,
}
