//! Writing frames as bytes.

ghost use Rattle.std.specs.Prelude.{◌≡◌, ◌≤◌, ◌+◌, ◌-◌, ◌++◌, ◌<◌, IfOk, IfErr, OnErr, Some, None, [], length, take, drop, replicate};
ghost use Rattle.byteorder.specs.Endian.{big_bytes};
ghost use Rattle.ipx_wire.specs.Ipx.{IsIpx, PacketView, number};
ghost use Rattle.ipx_ethernet.specs.Frame.{frame_of, link_bytes, most_of, own_bytes, packet_place};
ghost use Rattle.ipx_ethernet.specs.SentFrame.{IsSentFrame, held_size, sending_fault, sent_kind, sent_size};

use crate::encapsulation::Encapsulation;
use crate::fault::FrameFault;
use crate::frame::{FRAME_MIN_SIZE, HEADER_SIZE, IPX_TYPE};
use crate::packet::packet_in;
use byteorder::{BigEndian, ByteOrder};
use ipx_wire::Node;

fn held_with(encapsulation: Encapsulation, length: usize) -> usize
    requires { length ≤ most_of encapsulation }
    ensures { result ≡ held_size encapsulation length }
{
    match encapsulation {
        Encapsulation::Raw => length + length % 2,
        Encapsulation::Llc | Encapsulation::Snap => encapsulation.link().len() + length,
        Encapsulation::EthernetII => length,
    }
}

fn kind_with(encapsulation: Encapsulation, length: usize) -> u16
    requires { length ≤ most_of encapsulation }
    ensures { result ≡ sent_kind encapsulation length }
{
    match encapsulation {
        Encapsulation::EthernetII => IPX_TYPE,
        _ => held_with(encapsulation, length) as u16,
    }
}

fn size_with(encapsulation: Encapsulation, count: usize) -> usize
    requires { count ≤ most_of encapsulation }
    ensures value { result ≡ sent_size encapsulation count }
    ensures holds { packet_place encapsulation + count ≤ result }
{
    FRAME_MIN_SIZE.max(HEADER_SIZE + held_with(encapsulation, count))
}

fn put_stations(out: &mut [u8], to: Node, from: Node, kind: u16)
    requires { 14 ≤ length out.old }
    ensures written { out.new ≡ to.0 ++ from.0 ++ big_bytes 2 kind ++ drop 14 out.old }
    ensures to { length to.0 ≡ 6 }
    ensures from { length from.0 ≡ 6 }
{
    out[..6].copy_from_slice(&to.0);
    out[6..12].copy_from_slice(&from.0);
    BigEndian::write_u16(&mut out[12..], kind);
}

fn put_packet(out: &mut [u8], link: &[u8], packet: &[u8])
    requires { length link.now + length packet.now ≤ length out.old }
    ensures { out.new ≡ link.now ++ packet.now
        ++ replicate (length out.old - (length link.now + length packet.now)) 0 }
{
    let end = link.len() + packet.len();
    out[..link.len()].copy_from_slice(link);
    out[link.len()..end].copy_from_slice(packet);
    out[end..].fill(0);
}

fn put_frame(
    encapsulation: Encapsulation,
    to: Node,
    from: Node,
    packet: &[u8],
    out: &mut [u8],
) -> usize
    requires packet { (p : PacketView) × IsIpx p packet.now [] }
    requires limit { length packet.now ≤ most_of encapsulation }
    requires room { sent_size encapsulation (length packet.now) ≤ length out.old }
    ensures count { result ≡ sent_size encapsulation (length packet.now) }
    ensures written { IsSentFrame encapsulation (frame_of to from packet.now)
        (take result out.new) }
    ensures rest { drop result out.new ≡ drop result out.old }
{
    let size = size_with(encapsulation, packet.len());
    put_stations(out, to, from, kind_with(encapsulation, packet.len()));
    put_packet(&mut out[HEADER_SIZE..size], encapsulation.link(), packet);
    size
}

/// Writes a frame to the front of the buffer, and returns its length: 60 to 1,514 bytes. What
/// follows the packet's own length is left out, and the rest of the buffer stays. A raw frame gets
/// one zero if its length is odd, and zeros fill each frame up to 60 bytes. No memory is allocated.
///
/// Call it for a packet that is sent on an Ethernet segment. The error is the first `FrameFault`
/// that holds, and the buffer is then as it was.
pub fn encode_frame_into(
    encapsulation: Encapsulation,
    to: Node,
    from: Node,
    packet: &[u8],
    out: &mut [u8],
) -> Result<usize, FrameFault>
    ensures count { IfOk result (λ n. n ≡ sent_size encapsulation (number 2 2 packet.now)) }
    ensures written { IfOk result (λ n. IsSentFrame encapsulation
        (frame_of to from (own_bytes packet.now)) (take n out.new)) }
    ensures rest { IfOk result (λ n. drop n out.new ≡ drop n out.old) }
    ensures unchanged { OnErr result (out.new ≡ out.old) }
    // Which fault it is; if there is none, the frame is written.
    ensures fault { IfErr result (λ f.
        sending_fault encapsulation packet.now (length out.old) ≡ Some f) }
    ensures whole { IfOk result (λ _.
        sending_fault encapsulation packet.now (length out.old) ≡ None) }
{
    let packet = packet_in(packet)?;
    let most = encapsulation.packet_limit();
    if packet.len() > most {
        return Err(FrameFault::PacketLong(packet.len(), most));
    }
    let size = size_with(encapsulation, packet.len());
    if out.len() < size {
        return Err(FrameFault::NoRoom(size, out.len()));
    }
    Ok(put_frame(encapsulation, to, from, packet, out))
}
