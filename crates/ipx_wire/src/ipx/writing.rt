//! Encoding of packets.

ghost use Rattle.std.specs.Prelude.{◌≡◌, ◌≤◌, ◌+◌, ◌++◌, [], length, take, drop};
ghost use Rattle.ipx_wire.specs.Assigned.{ipx_header_size, ipx_max_body_size};
ghost use Rattle.ipx_wire.specs.Ipx.{IsHeaderInRange, IsInRange, IsIpx, IsWritten, header_bytes, ipx_bytes, packet_of, packet_view};

use crate::address::put_address;
use crate::ipx::packet::{IpxHeader, NO_CHECKSUM, Packet};
use crate::size::IPX_HEADER_SIZE;
use byteorder::{BigEndian, ByteOrder};

fn put_header(out: &mut [u8], header: IpxHeader, body_length: usize)
    requires room { ipx_header_size ≤ length out.old }
    requires fits { ipx_header_size + body_length ≤ 65535 }
    ensures written { out.new ≡ header_bytes header body_length ++ drop ipx_header_size out.old }
    ensures range { IsHeaderInRange header }
{
    BigEndian::write_u16(out, NO_CHECKSUM);
    BigEndian::write_u16(&mut out[2..], (IPX_HEADER_SIZE + body_length) as u16);
    out[4..6].copy_from_slice(&[header.hops, header.kind]);
    put_address(&mut out[6..], header.to);
    put_address(&mut out[18..], header.from);
}

fn put_packet(out: &mut [u8], packet: &Packet<'_>)
    requires limit { length packet.now.body.now ≤ ipx_max_body_size }
    requires room { ipx_header_size + length packet.now.body.now ≤ length out.old }
    ensures written { IsWritten out.old (ipx_bytes (packet_view packet.now)) out.new
        (ipx_header_size + length packet.now.body.now) }
    ensures range { IsInRange (packet_view packet.now) }
{
    let end = IPX_HEADER_SIZE + packet.body.len();
    put_header(out, packet.header, packet.body.len());
    out[IPX_HEADER_SIZE..end].copy_from_slice(packet.body);
}

/// Writes a packet to the front of the buffer. It gives the number of bytes: 30 and the body's. The
/// caller must pass a body of at most 1,470 bytes, and space for the packet.
///
/// It copies the body. If the body is already in place, call `encapsulate`.
pub fn encode_into(packet: &Packet<'_>, out: &mut [u8]) -> usize
    requires limit { length packet.now.body.now ≤ ipx_max_body_size }
    requires room { ipx_header_size + length packet.now.body.now ≤ length out.old }
    ensures count { result ≡ ipx_header_size + length packet.now.body.now }
    ensures written { IsIpx (packet_view packet.now) (take result out.new) [] }
    ensures rest { drop result out.new ≡ drop result out.old }
{
    put_packet(out, packet);
    IPX_HEADER_SIZE + packet.body.len()
}

/// Writes a header in front of a body that is already at offset 30 of the buffer. It gives the
/// number of bytes of the packet. Only the 30 bytes of the header are written. The caller must pass a
/// body of at most 1,470 bytes at that offset.
///
/// If the body is elsewhere, call `encode_into`.
pub fn encapsulate(header: &IpxHeader, body_length: usize, out: &mut [u8]) -> usize
    requires limit { body_length ≤ ipx_max_body_size }
    requires room { ipx_header_size + body_length ≤ length out.old }
    ensures count { result ≡ ipx_header_size + body_length }
    ensures written { IsIpx (packet_of header.now (take body_length (drop ipx_header_size out.old)))
        (take result out.new) [] }
    ensures rest { drop ipx_header_size out.new ≡ drop ipx_header_size out.old }
{
    put_header(out, *header, body_length);
    IPX_HEADER_SIZE + body_length
}
