//! Two hosts on one network in memory: the near one dials, and the far one listens.

use ipx_wire::{Address, Network, Node, OutOfMemory, SPX_MAX_PACKET_SIZE, Socket};
use spx_messages::Endpoint;
use std::alloc::Global;

/// The most bytes of a packet.
pub const ROOM: usize = SPX_MAX_PACKET_SIZE;

/// The id of the one link of each host.
pub const ID: u16 = 1;

const SOCKET: Socket = Socket(0x4000);

const NETWORK: Network = Network(0x11);

const NEAR: Node = Node([0, 0, 0x7f, 0, 0, 3]);

const FAR: Node = Node([0, 0, 0x7f, 0, 0, 4]);

const ROUTER: Node = Node([0, 0, 0x7f, 0, 0, 1]);

#[derive(Drop)]
pub struct Hosts {
    pub near: Endpoint,
    pub far: Endpoint,
}

impl Hosts {
    /// Two hosts, of which the near one has dialled the far one, with this many buffers at each
    /// end.
    pub fn new(alloc: Global, buffers: u16) -> Result<Hosts, OutOfMemory> {
        let mut near = Endpoint::new(alloc, NETWORK, NEAR, ROUTER);
        let mut far = Endpoint::new(alloc, NETWORK, FAR, ROUTER);
        far.listen(alloc, SOCKET, buffers)?;
        let to = Address {
            network: NETWORK,
            node: FAR,
            socket: SOCKET,
        };
        match near.dial(alloc, SOCKET, to, buffers, 0) {
            Ok(_) => Ok(Hosts { near, far }),
            Err(_) => Err(OutOfMemory),
        }
    }
}
