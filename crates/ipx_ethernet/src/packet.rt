//! The IPX packet that bytes begin with.

ghost use Rattle.std.specs.Prelude.{◌≡◌, ◌≤◌, IfOk, IfErr, Some, None, [], length, take};
ghost use Rattle.ipx_wire.specs.Ipx.{IsIpx, IsPartOf, PacketView, ipx_fault, number};
ghost use Rattle.ipx_ethernet.specs.Frame.{own_bytes};

use ipx_wire::{IPX_HEADER_SIZE, IpxFault, decode};

/// The bytes of the packet, without those after it.
pub fn packet_in(bytes: &[u8]) -> Result<&[u8], IpxFault>
    ensures packet { IfOk result (λ r. (p : PacketView) × IsIpx p r.now []) }
    ensures cut { IfOk result (λ r. r.now ≡ own_bytes bytes.now) }
    ensures size { IfOk result (λ r. length r.now ≡ number 2 2 bytes.now) }
    ensures front { IfOk result (λ r. take (length r.now) bytes.now ≡ r.now) }
    ensures within { IfOk result (λ r. length r.now ≤ length bytes.now) }
    ensures lent { IfOk result (λ r. IsPartOf bytes.entry 0 r) }
    ensures fault { IfErr result (λ f. ipx_fault bytes.now ≡ Some f) }
    ensures whole { IfOk result (λ _. ipx_fault bytes.now ≡ None) }
{
    let packet = decode(bytes)?;
    Ok(&bytes[..IPX_HEADER_SIZE + packet.body.len()])
}
