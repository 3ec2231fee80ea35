//! What a datagram is: a packet with the contents of its body, or why it is refused.

ghost use Rattle.std.specs.Prelude.{◌≡◌, ◌⊎◌, IfOk, IfErr, Some, None};
ghost use Rattle.ipx_wire.specs.Spx.{spx_fault};
ghost use Rattle.ipx_inspect.specs.Decoded.{IsContents, IsDecoded, Spx, body_fault, contents_view, protocol_at, decoded_view};

use ipx_control::{ControlFault, Rip, Sap, decode_rip, decode_sap};
use ipx_wire::{
    IpxFault, OutOfMemory, Packet, Socket, SpxFault, SpxHeader, decode, decode_spx, packet_type,
};
use std::alloc::Global;

/// The contents of a body. The payload of an SPX packet is lent.
#[derive(Drop)]
pub enum Contents<'a> {
    Plain,
    OfSpx(SpxHeader, &'a [u8]),
    OfRip(Rip),
    OfSap(Sap),
}

/// A packet with the contents of its body, or the fault that refuses the packet or its body.
#[derive(Drop)]
pub enum Decoded<'a> {
    NoPacket(IpxFault),
    NoSpx(SpxFault),
    NoControl(ControlFault),
    Holds(Packet<'a>, Contents<'a>),
}

/// The contents of the body of a packet of type 5.
fn spx_contents(body: &[u8]) -> Result<Contents<'_>, SpxFault>
    ensures found { IfOk result (λ c. IsContents Spx body.now (contents_view c)) }
    ensures fault { IfErr result (λ f. spx_fault body.now ≡ Some f) }
{
    let (header, payload) = decode_spx(body)?;
    Ok(Contents::OfSpx(header, payload))
}

/// The contents of the body of a packet of another type. The destination socket says whether it is
/// RIP or SAP.
fn contents_at<'a>(
    alloc: Global,
    socket: Socket,
    body: &'a [u8],
) -> Result<Contents<'a>, ControlFault>
    ensures found { IfOk result (λ c.
        IsContents (protocol_at socket.0) body.now (contents_view c)) }
    ensures fault { IfErr result (λ f. (f ≡ ControlFault.OutOfMemory)
        ⊎ (body_fault (protocol_at socket.0) body.now ≡ Some f)) }
{
    if socket.0 == Socket::RIP.0 {
        let rip = decode_rip(alloc, body)?;
        return Ok(Contents::OfRip(rip));
    }
    if socket.0 == Socket::SAP.0 {
        let sap = decode_sap(alloc, body)?;
        return Ok(Contents::OfSap(sap));
    }
    Ok(Contents::Plain)
}

/// Reads a datagram and the contents of its body. Packet type 5 is SPX, for any socket; otherwise
/// the destination socket says what the body is. It allocates memory only for the entries of RIP
/// and SAP.
pub fn read_datagram(alloc: Global, bytes: &[u8]) -> Result<Decoded<'_>, OutOfMemory>
    ensures { IfOk result (λ r. IsDecoded bytes.now (decoded_view r)) }
{
    let packet = match decode(bytes) {
        Ok(packet) => packet,
        Err(fault) => return Ok(Decoded::NoPacket(fault)),
    };
    if packet.header.kind == packet_type::SPX {
        match spx_contents(packet.body) {
            Ok(contents) => return Ok(Decoded::Holds(packet, contents)),
            Err(fault) => return Ok(Decoded::NoSpx(fault)),
        }
    }
    match contents_at(alloc, packet.header.to.socket, packet.body) {
        Ok(contents) => return Ok(Decoded::Holds(packet, contents)),
        Err(ControlFault::OutOfMemory) => return Err(OutOfMemory),
        Err(fault) => return Ok(Decoded::NoControl(fault)),
    }
}
