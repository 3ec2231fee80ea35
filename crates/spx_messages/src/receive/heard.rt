//! How a link reads a packet.

ghost use Rattle.std.specs.Prelude.{◌≤◌, IfNone, IfSome, length};
ghost use Rattle.ipx_wire.specs.Assigned.{spx_max_data_size};
ghost use Rattle.spx_messages.specs.Readings.{IsReadBy, IsOfNobody, SameLinks};

use crate::receive::reading::ConnectionPacket;
use spx_link::{Links, Received, receive_reads_its_own};

/// Passes a packet to its link, which reads it. `None` if there is no such link, or if the link
/// does not know the sender. The caller must pass a body of at most 534 bytes.
pub fn hear(links: &mut Links, reading: &ConnectionPacket<'_>, now: u64) -> Option<(u16, Received)>
    requires { length reading.now.body.now ≤ spx_max_data_size }
    ensures heard { IfSome result (λ p. IsReadBy links.old links.new reading.now p.0 p.1) }
    ensures nobody { IfNone result (IsOfNobody links.old reading.now) }
    ensures unchanged { IfNone result (SameLinks links.old links.new) }
{
    receive_reads_its_own();
    let id = links.find(reading.to, reading.from, reading.header.to_id)?;
    let received = links.receive(id, &reading.header, reading.body, now);
    match received {
        Received::Stranger => None,
        _ => Some((id, received)),
    }
}
