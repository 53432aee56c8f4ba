//! The sizes that a packet may have.
ghost use Rattle.std.specs.Prelude.{◌≡◌};
ghost use Rattle.controllers.specs.Packets.{checked};

use meaning::{MAX_PACKET, MIN_PACKET, Reason, Refusal};

/// A packet size of 64 to 9,000 bytes. Any other is refused with number 19; no slot and no
/// macroflow is concerned.
pub(crate) fn checked_packet(packet: u64) -> Result<u64, Refusal>
    ensures { result ≡ checked packet }
{
    if (MIN_PACKET..=MAX_PACKET).contains(&packet) {
        Ok(packet)
    } else {
        Err(Reason::CannotBeMade.into())
    }
}
