//! How a host reads a datagram.

ghost use Rattle.std.specs.Prelude.{◌≡◌, ◌↔◌, IfErr, IfOk, IsTrue};
ghost use Rattle.spx_messages.specs.Readings.{IsRead, IsTo, IsUnread};

use crate::arrived::Arrived;
use ipx_wire::{
    Address, IpxHeader, Network, Node, Socket, SpxHeader, decode, decode_spx, packet_type,
};

/// An SPX packet as a host reads it. Its body is borrowed from the datagram.
#[derive(Clone, Copy)]
pub struct ConnectionPacket<'a> {
    pub to: Socket,
    pub from: Address,
    pub header: SpxHeader,
    pub body: &'a [u8],
}

/// Whether a packet is an SPX packet to the host with this network and node.
fn is_to(header: &IpxHeader, network: Network, node: Node) -> bool
    ensures { IsTrue result ↔ IsTo (record { network = network; node = node }) header.now }
{
    let to = &header.to;
    header.kind == packet_type::SPX
        && to.node == node
        && (to.network == network || to.network == Network::LOCAL)
}

/// Reads a datagram as an SPX packet to the host with this network and node. The error is the
/// answer to a datagram that is none.
pub fn read(network: Network, node: Node, bytes: &[u8]) -> Result<ConnectionPacket<'_>, Arrived>
    ensures read { IfOk result (IsRead (record { network = network; node = node }) bytes.now) }
    ensures unread { IfErr result (IsUnread (record { network = network; node = node }) bytes.now) }
{
    let packet = match decode(bytes) {
        Ok(packet) => packet,
        Err(fault) => return Err(Arrived::Bad(fault)),
    };
    if !is_to(&packet.header, network, node) {
        return Err(Arrived::NotOurs);
    }
    match decode_spx(packet.body) {
        Ok((header, body)) => Ok(ConnectionPacket {
            to: packet.header.to.socket,
            from: packet.header.from,
            header,
            body,
        }),
        Err(fault) => Err(Arrived::BadSpx(fault)),
    }
}
