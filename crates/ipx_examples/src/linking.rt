//! Two links that pass a unit: one asks for a connection, the other accepts it.

ghost use Rattle.std.specs.Prelude.{◌≡◌, ◌≤◌, ◌<◌, All, IfOk, IfSome, length};
ghost use Rattle.spx_link.specs.Limits.{end_stream};
ghost use Rattle.spx_link.specs.Links.{IsLive};

use anyhow::Result;
use ipx_wire::{Address, Fragment, Network, Node, Socket, SpxHeader, encode_spx_into};
use spx_link::{Links, Outgoing, Unit};
use std::alloc::{AllocError, Global};

/// How many units each side can hold.
const BUFFERS: u16 = 8;

/// A socket of a node of network 11, by the node's last byte.
const fn address(last: u8, socket: u16) -> Address {
    Address {
        network: Network(0x11),
        node: Node([0, 0, 0x7f, 0, 0, last]),
        socket: Socket(socket),
    }
}

/// One side of the connection: the links of its host, and the id of the one that it drives.
#[derive(Drop)]
struct Side {
    name: &'static str,
    links: Links,
    id: u16,
}

/// The side that asks for the connection.
fn caller(alloc: Global) -> Result<Side>
    ensures { IfOk result (λ s. IsLive s.links s.id) }
{
    let mut links = Links::new(alloc);
    let id = links.dial(alloc, Socket(0x5000), address(4, 0x4000), BUFFERS, 0)?;
    Ok(Side {
        name: "caller",
        links,
        id,
    })
}

/// The side that receives a request.
fn called(alloc: Global, request: &SpxHeader) -> Result<Side>
    ensures { IfOk result (λ s. IsLive s.links s.id) }
{
    let mut links = Links::new(alloc);
    let from = address(3, 0x5000);
    let id = links.accept(alloc, Socket(0x4000), from, request, BUFFERS, 0)?;
    Ok(Side {
        name: "called",
        links,
        id,
    })
}

/// Prints a packet of a connection: who sends it and what for, its header and its data in hex.
fn print_packet(rt: &impl Print, alloc: Global, name: &str, packet: &Outgoing<'_>) -> Result<()>
    requires { length packet.now.body.now ≤ 534 }
{
    let mut bytes = [0; 546];
    let count = encode_spx_into(&packet.header, packet.body, &mut bytes);
    let text = hex::encode(alloc, &bytes[..count])?;
    let what = packet.what;
    println!(rt; "{name}: {what:?} {text}")?;
    Ok(())
}

/// The request of the side that asks.
fn request_of(rt: &impl Print, alloc: Global, side: &mut Side) -> Result<Option<SpxHeader>>
    requires { IsLive side.old.links side.old.id }
    ensures { IsLive side.new.links side.new.id }
{
    let Some(packet) = side.links.poll(side.id, 0) else {
        return Ok(None);
    };
    print_packet(rt, alloc, side.name, &packet)?;
    Ok(Some(packet.header))
}

/// Passes one packet from a side to the other, if there is one to send, and prints the result.
fn pass(rt: &impl Print, alloc: Global, from: &mut Side, to: &mut Side) -> Result<()>
    requires sends { IsLive from.old.links from.old.id }
    requires reads { IsLive to.old.links to.old.id }
    ensures sent { IsLive from.new.links from.new.id }
    ensures read { IsLive to.new.links to.new.id }
{
    let Some(packet) = from.links.poll(from.id, 0) else {
        return Ok(());
    };
    print_packet(rt, alloc, from.name, &packet)?;
    let received = to.links.receive(to.id, &packet.header, packet.body, 0);
    let name = to.name;
    println!(rt; "{name}: {received:?}")?;
    Ok(())
}

/// A message of three bytes in one unit.
fn message(alloc: Global) -> Result<Vec<Unit>, AllocError>
    ensures { IfOk result (λ v. All (λ u. u.stream < end_stream) v.items) }
{
    let mut body = Fragment::new();
    body.push(b'a');
    body.push(b'b');
    body.push(b'c');
    let unit = Unit {
        stream: 0,
        last: true,
        body,
    };
    let mut units = Vec::new(alloc);
    units.push(unit)?;
    Ok(units)
}

/// Queues the message at a side.
fn offer(alloc: Global, side: &mut Side) -> Result<()>
    requires { IsLive side.old.links side.old.id }
    ensures { IfOk result (λ _. IsLive side.new.links side.new.id) }
{
    let units = message(alloc)?;
    let id = side.id;
    side.links.offer(alloc, id, units)?;
    Ok(())
}

/// Takes the unit that a side holds, and prints its data in hex.
fn take(rt: &impl Print, alloc: Global, side: &mut Side) -> Result<()>
    requires { IsLive side.old.links side.old.id }
{
    let Some(unit) = side.links.take(side.id) else {
        return Ok(());
    };
    let name = side.name;
    let body = hex::encode(alloc, unit.body.as_slice())?;
    println!(rt; "{name}: takes {body}")?;
    Ok(())
}

/// One side asks and the other replies. Then a unit is sent, acknowledged, and taken.
pub fn pass_a_unit(rt: &impl Print, alloc: Global) -> Result<()> {
    let mut caller = caller(alloc)?;
    let Some(request) = request_of(rt, alloc, &mut caller)? else {
        return Ok(());
    };
    let mut called = called(alloc, &request)?;
    pass(rt, alloc, &mut called, &mut caller)?;
    offer(alloc, &mut caller)?;
    pass(rt, alloc, &mut caller, &mut called)?;
    pass(rt, alloc, &mut called, &mut caller)?;
    take(rt, alloc, &mut called)
}
