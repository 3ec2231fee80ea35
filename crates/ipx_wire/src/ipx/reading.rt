//! Decoding of packets.

ghost use Rattle.std.specs.Prelude.{◌≡◌, List, ℕ, IfOk, IfErr, IsOkAnd, Some, None};
ghost use Rattle.ipx_wire.specs.Ipx.{BeginsWith, PacketView, IsIpx, IsPartOf, ipx_fault, packet_view};

use crate::address::address_at;
use crate::ipx::fault::IpxFault;
use crate::ipx::packet::{IpxHeader, NO_CHECKSUM, Packet};
use crate::size::{IPX_HEADER_SIZE, IPX_MAX_PACKET_SIZE};
use byteorder::{BigEndian, ByteOrder};

/// Reads the packet at the front of a datagram (Novell IPX). Its body is borrowed, and bytes after
/// it are ignored. Nothing is allocated.
///
/// Call it first for each received datagram. The error is the first `IpxFault` that applies.
pub fn decode(bytes: &[u8]) -> Result<Packet<'_>, IpxFault>
    // What is read is a packet of the datagram.
    ensures found { IfOk result (λ p. BeginsWith bytes.now (packet_view p)) }
    // The body is borrowed: it is a part of the datagram.
    ensures lent { IfOk result (λ p. IsPartOf bytes.entry 30 p.body) }
    // For any packet at the front of the datagram, that packet is read.
    ensures only { (d : PacketView) (tail : List ℕ) → IsIpx d bytes.now tail
        → IsOkAnd result (λ p. packet_view p ≡ d) }
    // The error is the fault of the datagram, and there is no error if it has none.
    ensures fault { IfErr result (λ f. ipx_fault bytes.now ≡ Some f) }
    ensures whole { IfOk result (λ _. ipx_fault bytes.now ≡ None) }
{
    if bytes.len() < IPX_HEADER_SIZE {
        return Err(IpxFault::Short(bytes.len()));
    }
    let checksum = BigEndian::read_u16(bytes);
    if checksum != NO_CHECKSUM {
        return Err(IpxFault::Checksummed(checksum));
    }
    let length = BigEndian::read_u16(&bytes[2..]);
    let end = length as usize;
    if end < IPX_HEADER_SIZE {
        return Err(IpxFault::LengthShort(length));
    }
    if bytes.len() < end {
        return Err(IpxFault::Truncated(length, bytes.len()));
    }
    if end > IPX_MAX_PACKET_SIZE {
        return Err(IpxFault::TooLong(length));
    }
    let header = IpxHeader {
        hops: bytes[4],
        kind: bytes[5],
        to: address_at(&bytes[6..]),
        from: address_at(&bytes[18..]),
    };
    let body = &bytes[IPX_HEADER_SIZE..end];
    Ok(Packet { header, body })
}
