//! A ticket.
ghost use Rattle.std.specs.Prelude.{◌≡◌};

/// The right to settle one grant, given to a sender that took the grant up.
///
/// A ticket has to be settled, exactly once: the language lets no program drop it or use it twice.
pub struct Ticket {
    pub(crate) grant: usize,
}

impl Ticket {
    /// The number of the grant.
    pub fn number(&self) -> usize
        ensures { result ≡ self.now.grant }
    {
        self.grant
    }
}
