//! Reading frames from bytes.

ghost use Rattle.std.specs.Prelude.{◌≡◌, ◌≤◌, List, ℕ, IfOk, IfErr, IfSome, IsOkAnd, Some, None, length, take, drop};
ghost use Rattle.ipx_wire.specs.Ipx.{IsPartOf};
ghost use Rattle.ipx_ethernet.specs.declared.encapsulation.Encapsulation.{Encapsulation};
ghost use Rattle.ipx_ethernet.specs.Frame.{FrameView, HasKind, IsFrame, IsHeardBy, IsTypeOrLength, frame_end, frame_view, link_bytes, packet_place};
ghost use Rattle.ipx_ethernet.specs.FrameFault.{encapsulation_in, frame_fault, kind_fault, packet_fault};

use crate::encapsulation::{Encapsulation, LLC, SNAP};
use crate::fault::FrameFault;
use crate::frame::{FRAME_MAX_SIZE, Frame, HEADER_SIZE, IPX_TYPE, MAX_LENGTH};
use crate::laws::{bytes_are_one_frame, frame_has_no_fault};
use crate::packet::packet_in;
use crate::stations::{hears, station_at};
use byteorder::{BigEndian, ByteOrder};
use ipx_wire::Node;

/// The encapsulation that these bytes begin with, which follow a length.
fn encapsulation_of(counted: &[u8]) -> Option<Encapsulation>
    ensures value { result ≡ encapsulation_in counted.now }
    ensures link { IfSome result (λ e.
        take (length (link_bytes e)) counted.now ≡ link_bytes e) }
    ensures kind { (n : ℕ) → n ≤ 1500 → IfSome result (λ e. IsTypeOrLength e n) }
{
    if counted.len() >= 2 && BigEndian::read_u16(counted) == 0xffff {
        return Some(Encapsulation::Raw);
    }
    if counted.starts_with(&LLC) {
        return Some(Encapsulation::Llc);
    }
    if counted.starts_with(&SNAP) {
        return Some(Encapsulation::Snap);
    }
    None
}

/// The encapsulation, and where the contents of the frame end.
fn kind_of(bytes: &[u8]) -> Result<(Encapsulation, usize), FrameFault>
    requires { 14 ≤ length bytes.now }
    ensures kind { IfOk result (λ r. HasKind r.0 bytes.now) }
    ensures end { IfOk result (λ r. r.1 ≡ frame_end bytes.now) }
    ensures begins { IfOk result (λ r. packet_place r.0 ≤ r.1) }
    ensures fault { IfErr result (λ f. kind_fault bytes.now ≡ Some f) }
    ensures whole { IfOk result (λ r. kind_fault bytes.now ≡ packet_fault r.0 bytes.now) }
{
    let kind = BigEndian::read_u16(&bytes[12..]);
    if kind == 0x8100 || kind == 0x88a8 || kind == 0x9100 {
        return Err(FrameFault::Tagged(kind));
    }
    if kind == IPX_TYPE {
        return Ok((Encapsulation::EthernetII, bytes.len()));
    }
    if kind > MAX_LENGTH {
        return Err(FrameFault::OtherType(kind));
    }
    let end = HEADER_SIZE + kind as usize;
    if bytes.len() < end {
        return Err(FrameFault::FrameTruncated(kind, bytes.len()));
    }
    match encapsulation_of(&bytes[HEADER_SIZE..end]) {
        Some(encapsulation) => Ok((encapsulation, end)),
        None => Err(FrameFault::OtherLlc),
    }
}

/// The frame that the bytes are, and its encapsulation.
fn frame_in(bytes: &[u8], own: Node) -> Result<(Frame<'_>, Encapsulation), FrameFault>
    ensures found { IfOk result (λ r. (tail : List ℕ)
        × IsFrame r.1 (frame_view r.0) bytes.now tail) }
    ensures heard { IfOk result (λ r. IsHeardBy own (frame_view r.0)) }
    ensures lent { IfOk result (λ r. IsPartOf bytes.entry (packet_place r.1) r.0.packet) }
    ensures fault { IfErr result (λ f. frame_fault own bytes.now ≡ Some f) }
    ensures whole { IfOk result (λ _. frame_fault own bytes.now ≡ None) }
{
    if bytes.len() < HEADER_SIZE {
        return Err(FrameFault::FrameShort(bytes.len()));
    }
    if bytes.len() > FRAME_MAX_SIZE {
        return Err(FrameFault::FrameLong(bytes.len()));
    }
    let to = station_at(bytes, 0);
    let from = station_at(bytes, 6);
    hears(own, to, from)?;
    let (encapsulation, end) = kind_of(bytes)?;
    let packet = packet_in(&bytes[HEADER_SIZE + encapsulation.link().len()..end])?;
    Ok((Frame { to, from, packet }, encapsulation))
}

/// The frame that the bytes are, as the station `own` receives it, and its encapsulation (IEEE
/// 802.3). Its packet is lent, and bytes after it are ignored. No memory is allocated.
///
/// Call it with any bytes from an Ethernet segment, and compare the encapsulation with that of the
/// network. The error is the first `FrameFault` that holds.
pub fn decode_frame(bytes: &[u8], own: Node) -> Result<(Frame<'_>, Encapsulation), FrameFault>
    // What is read is the frame, and the station receives it.
    ensures found { IfOk result (λ r. (tail : List ℕ)
        × IsFrame r.1 (frame_view r.0) bytes.now tail) }
    ensures heard { IfOk result (λ r. IsHeardBy own (frame_view r.0)) }
    // The packet is lent: it is the frame's own bytes.
    ensures lent { IfOk result (λ r. IsPartOf bytes.entry (packet_place r.1) r.0.packet) }
    // Each frame that the station receives is read.
    ensures only { (e : Encapsulation) (d : FrameView) (tail : List ℕ)
        → IsFrame e d bytes.now tail → IsHeardBy own d
        → IsOkAnd result (λ r. (r.1 ≡ e) × (frame_view r.0 ≡ d)) }
    // Which fault it is; if there is none, the frame is read.
    ensures fault { IfErr result (λ f. frame_fault own bytes.now ≡ Some f) }
    ensures whole { IfOk result (λ _. frame_fault own bytes.now ≡ None) }
{
    frame_has_no_fault();
    bytes_are_one_frame();
    frame_in(bytes, own)
}
