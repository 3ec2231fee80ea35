//! The request that pings a listener.

ghost use Rattle.std.specs.Prelude.{◌≡◌, ◌≤◌, length, take, true};
ghost use Rattle.ipx_wire.specs.Ipx.{IsBytes};
ghost use Rattle.spx_link.specs.Limits.{no_id};
ghost use Rattle.spx_link.specs.Poll.{plain};
ghost use Rattle.spx_link.specs.declared.outgoing.Sent.TheVariants.{Request};
ghost use Rattle.ipx_query.specs.PingRequests.{IsPing, ping_link};

use ipx_wire::{
    Address, IpxHeader, Packet, SPX_HEADER_SIZE, SpxHeader, encode_into, encode_spx_into,
    packet_type,
};

/// The connection id that means none.
const NO_ID: u16 = 0xffff;

/// The header of the request for a connection that a link of that id with one buffer sends.
fn request_of(own: Address, to: Address, id: u16) -> SpxHeader
    ensures { result ≡ (plain (ping_link own to id) Request true 0 no_id).header }
{
    let _ = (own, to);
    SpxHeader {
        system: true,
        wants_ack: true,
        last: false,
        stream: 0,
        from_id: id,
        to_id: NO_ID,
        seq: 0,
        ack: 0,
        limit: 0,
    }
}

/// Bytes are numbers under 256.
fn are_bytes(bytes: &[u8])
    ensures { IsBytes bytes.now }
{
    let _ = bytes;
}

/// Writes the request to the front of the buffer, and returns its length. The buffer must have room
/// for 42 bytes.
pub fn ping_into(own: Address, to: Address, id: u16, out: &mut [u8]) -> usize
    requires { 42 ≤ length out.old }
    ensures within { result ≤ 42 }
    ensures ping { IsPing own to id (take result out.new) }
{
    let mut body = [0; SPX_HEADER_SIZE];
    let length = encode_spx_into(&request_of(own, to, id), &[], &mut body);
    let header = IpxHeader {
        hops: 0,
        kind: packet_type::SPX,
        to,
        from: own,
    };
    let packet = Packet {
        header,
        body: &body[..length],
    };
    let count = encode_into(&packet, out);
    are_bytes(&out[..count]);
    count
}
