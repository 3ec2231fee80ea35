//! A packet of a link as bytes, and its next node.

ghost use Rattle.std.specs.Prelude.{◌≡◌, ◌≤◌, drop, length, take};
ghost use Rattle.ipx_wire.specs.Assigned.{spx_max_data_size, spx_max_packet_size};
ghost use Rattle.spx_link.specs.Poll.{outgoing_view};
ghost use Rattle.spx_messages.specs.EndpointTurns as spec;
ghost use Rattle.spx_messages.specs.EndpointTurns.{IsPacketBetween};

use ipx_wire::packet_type::SPX;
use ipx_wire::{
    Address, IPX_HEADER_SIZE, IpxHeader, Network, Node, Socket, encapsulate, encode_spx_into,
};
use spx_link::Outgoing;

/// The address of a host, and the node of its router for packets to other networks.
#[derive(Clone, Copy)]
pub struct HostAddress {
    pub network: Network,
    pub node: Node,
    pub router: Node,
}

impl HostAddress {
    /// The address of a socket of this host.
    pub fn at(self, socket: Socket) -> Address
        ensures { result ≡ spec.address_at self socket }
    {
        Address {
            network: self.network,
            node: self.node,
            socket,
        }
    }

    /// The next node of a packet to this address: the destination, or the router.
    pub fn next_node(self, to: Address) -> Node
        ensures { result ≡ spec.node_towards self to }
    {
        if to.network == self.network || to.network == Network::LOCAL {
            to.node
        } else {
            self.router
        }
    }
}

/// Writes a packet between two addresses to the front of the buffer, and gives its length in bytes.
/// Its body is copied once.
pub fn write_packet(from: Address, to: Address, packet: &Outgoing<'_>, room: &mut [u8]) -> usize
    requires room { spx_max_packet_size ≤ length room.old }
    requires fits { length packet.now.body.now ≤ spx_max_data_size }
    ensures short { result ≤ spx_max_packet_size }
    ensures written { IsPacketBetween from to (outgoing_view packet.now) (take result room.new) }
    ensures behind { drop result room.new ≡ drop result room.old }
{
    let count = encode_spx_into(&packet.header, packet.body, &mut room[IPX_HEADER_SIZE..]);
    let header = IpxHeader {
        hops: 0,
        kind: SPX,
        to,
        from,
    };
    encapsulate(&header, count, room)
}
