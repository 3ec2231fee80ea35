//! Changes of a packet in place.

ghost use Rattle.std.specs.Prelude.{◌≡◌, ◌≤◌, ◌++◌, ◌∷◌, ℕ, List, [], length, take, drop};
ghost use Rattle.byteorder.specs.Endian.{big_bytes};
ghost use Rattle.ipx_wire.specs.Assigned.{ipx_header_size};
ghost use Rattle.ipx_wire.specs.Ipx.{BeginsWith, PacketView, IsIpx, IsPartOf, packet_view, with_hops, with_source_network};

use crate::address::Network;
use crate::ipx::packet::Packet;
use crate::size::IPX_HEADER_SIZE;
use byteorder::{BigEndian, ByteOrder};

/// The bytes of a packet that was read from a datagram, without those after it. The caller must pass
/// that it was read from there. A router uses it so that padding is not forwarded.
pub fn packet_part<'a>(datagram: &'a [u8], packet: &Packet<'_>) -> &'a [u8]
    requires { BeginsWith datagram.now (packet_view packet.now) }
    ensures packet { IsIpx (packet_view packet.now) result.now [] }
    // They are borrowed: they are a part of the datagram.
    ensures lent { IsPartOf datagram.entry 0 result }
{
    &datagram[..IPX_HEADER_SIZE + packet.body.len()]
}

/// Changes the hops of the packet at the front of the bytes. The caller must pass as many bytes as a
/// header has. A router calls it for each packet that it forwards.
pub fn set_hops(bytes: &mut [u8], hops: u8)
    requires { ipx_header_size ≤ length bytes.old }
    ensures packet { (d : PacketView) (tail : List ℕ) → IsIpx d bytes.old tail
        → IsIpx (with_hops hops d) bytes.new tail }
    // If the bytes are no packet, one byte changes too.
    ensures change { bytes.new ≡ take 4 bytes.old ++ (hops ∷ drop 5 bytes.old) }
{
    bytes[4] = hops;
}

/// Changes the source network of the packet at the front of the bytes. The caller must pass as many
/// bytes as a header has. A router calls it if the sender left its network out.
pub fn set_source_network(bytes: &mut [u8], network: Network)
    requires { ipx_header_size ≤ length bytes.old }
    ensures packet { (d : PacketView) (tail : List ℕ) → IsIpx d bytes.old tail
        → IsIpx (with_source_network network d) bytes.new tail }
    // If the bytes are no packet, four bytes change too.
    ensures change { bytes.new ≡ take 18 bytes.old ++ big_bytes 4 network.0 ++ drop 22 bytes.old }
{
    BigEndian::write_u32(&mut bytes[18..], network.0);
}
