//! Two links that exchange packets in memory: one dials, and the other accepts.

ghost use Rattle.std.specs.Prelude.{◌≡◌, ◌≤◌, IfOk, IfSome, length};
ghost use Rattle.spx_link.specs.Links.{IsLive};

use ipx_wire::{
    Address, Network, Node, OutOfMemory, Socket, SpxHeader, decode_spx, encode_spx_into,
};
use spx_link::{Links, Sent};
use std::alloc::Global;

/// The most bytes of a packet of a connection: a header of 12, and 534 of data.
pub const ROOM: usize = 546;

const SOCKET: Socket = Socket(0x4000);

const ADDRESS: Address = Address {
    network: Network(0x11),
    node: Node([0, 0, 0x7f, 0, 0, 4]),
    socket: SOCKET,
};

/// A host with one link.
#[derive(Drop)]
pub struct End {
    pub links: Links,
    pub id: u16,
}

/// Two ends, of which the near one asks the far one for a connection.
#[derive(Drop)]
pub struct Pair {
    pub near: End,
    pub far: End,
}

impl End {
    /// Writes the packet that it sends, if there is one. Returns what kind that is and its length.
    pub fn send(&mut self, now: u64, out: &mut [u8; ROOM]) -> Option<(Sent, usize)>
        requires { IsLive self.old.links self.old.id }
        ensures live { IsLive self.new.links self.new.id }
        ensures fits { IfSome result (λ r. r.1 ≤ 546) }
    {
        let packet = self.links.poll(self.id, now)?;
        let count = encode_spx_into(&packet.header, packet.body, out);
        Some((packet.what, count))
    }

    /// Reads a packet, and returns the number of its outcome.
    pub fn receive(&mut self, header: &SpxHeader, body: &[u8], now: u64) -> u8
        requires live { IsLive self.old.links self.old.id }
        requires fits { length body.now ≤ 534 }
        ensures { IsLive self.new.links self.new.id }
    {
        self.links.receive(self.id, header, body, now) as u8
    }
}

/// A link that asks for a connection.
fn dialed(alloc: Global, buffers: u16) -> Result<End, OutOfMemory>
    ensures { IfOk result (λ e. IsLive e.links e.id) }
{
    let mut links = Links::new(alloc);
    match links.dial(alloc, SOCKET, ADDRESS, buffers, 0) {
        Ok(id) => Ok(End { links, id }),
        Err(_) => Err(OutOfMemory),
    }
}

/// A link that accepts a request.
fn accepted(alloc: Global, request: &SpxHeader, buffers: u16) -> Result<End, OutOfMemory>
    ensures { IfOk result (λ e. IsLive e.links e.id) }
{
    let mut links = Links::new(alloc);
    match links.accept(alloc, SOCKET, ADDRESS, request, buffers, 0) {
        Ok(id) => Ok(End { links, id }),
        Err(_) => Err(OutOfMemory),
    }
}

impl Pair {
    /// A pair with this many buffers at each end. The request has arrived, and the far end must send its
    /// reply.
    pub fn new(alloc: Global, buffers: u16) -> Result<Pair, OutOfMemory>
        ensures near { IfOk result (λ p. IsLive p.near.links p.near.id) }
        ensures far { IfOk result (λ p. IsLive p.far.links p.far.id) }
    {
        let mut near = dialed(alloc, buffers)?;
        let mut packet = [0; ROOM];
        let Some((_, count)) = near.send(0, &mut packet) else {
            return Err(OutOfMemory);
        };
        let Ok((request, _)) = decode_spx(&packet[..count]) else {
            return Err(OutOfMemory);
        };
        let far = accepted(alloc, &request, buffers)?;
        Ok(Pair { near, far })
    }
}
