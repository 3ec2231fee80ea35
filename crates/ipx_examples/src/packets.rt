//! A RIP request in an IPX packet, encoded and decoded.

ghost use Rattle.std.specs.Prelude.{◌≡◌, IfOk, length};
ghost use Rattle.ipx_control.specs.Rip.{rip_entries, rip_view};

use anyhow::Result;
use ipx_control::{Rip, RipEntry, decode_rip, encode_rip_into};
use ipx_wire::{Address, IpxHeader, Network, Node, Packet, Socket, decode, encode_into};
use std::alloc::{AllocError, Global};

/// From a node of network 11 to all nodes there, at the socket of RIP.
const HEADER: IpxHeader = IpxHeader {
    hops: 0,
    kind: 1,
    to: Address {
        network: Network(0x11),
        node: Node([0xff; 6]),
        socket: Socket(0x0453),
    },
    from: Address {
        network: Network(0x11),
        node: Node([0, 0, 0x7f, 0, 0, 3]),
        socket: Socket(0x0453),
    },
};

/// A request for all routes.
fn request(alloc: Global) -> Result<Rip, AllocError>
    ensures { IfOk result (λ r. length (rip_entries (rip_view r)) ≡ 1) }
{
    let mut entries = Vec::new(alloc);
    entries.push(RipEntry {
        network: Network(0xffff_ffff),
        hops: 0xffff,
        ticks: 0xffff,
    })?;
    Ok(Rip::Request(entries))
}

/// Reads the RIP packet in a datagram, and prints what it is.
fn print_rip(rt: &impl Print, alloc: Global, datagram: &[u8]) -> Result<()> {
    let packet = decode(datagram)?;
    let (name, entries) = match decode_rip(alloc, packet.body)? {
        Rip::Request(entries) => ("request", entries),
        Rip::Response(entries) => ("response", entries),
    };
    let count = entries.len();
    println!(rt; "packet: a {name} of {count}")?;
    Ok(())
}

/// First the body, and then the packet around it. The buffers have the sizes that `encode_rip_into`
/// and `encode_into` need: 2 bytes and 8 for each entry, and 30 more.
pub fn write_and_read(rt: &impl Print, alloc: Global) -> Result<()> {
    let mut body = [0; 10];
    let count = encode_rip_into(&request(alloc)?, &mut body);
    let packet = Packet {
        header: HEADER,
        body: &body[..count],
    };
    let mut datagram = [0; 40];
    let count = encode_into(&packet, &mut datagram);
    let text = hex::encode(alloc, &datagram[..count])?;
    println!(rt; "packet: {text}")?;
    print_rip(rt, alloc, &datagram[..count])
}
