//! How a router classifies a packet by its header.

ghost use Rattle.std.specs.Prelude.{◌≡◌};
ghost use Rattle.ipx_router.specs.Classify.{class_of, class_on_network, is_from_neighbour};

use crate::port::Port;
use crate::reason::Reason;
use ipx_wire::{IpxHeader, Network, Node, Socket, packet_type};

/// What the router has to do with a packet.
pub enum PacketClass {
    Dropped(Reason),
    /// It is for the router's RIP socket.
    Rip,
    /// It is for the router's SAP socket.
    Sap,
    /// It is for another network.
    Forward,
}

fn comes_from_neighbour(arrived: Port, header: IpxHeader) -> bool
    ensures { result ≡ is_from_neighbour arrived header }
{
    let for_us = header.to.node == arrived.node || header.to.node == Node::BROADCAST;
    let from_here = header.from.network == Network::LOCAL || header.from.network == arrived.network;
    for_us && from_here && header.from.node != arrived.node
}

fn on_network(arrived: Port, header: IpxHeader) -> PacketClass
    ensures { result ≡ class_on_network arrived header }
{
    if !comes_from_neighbour(arrived, header) {
        return PacketClass::Dropped(Reason::NotOurs);
    }
    if header.to.socket == Socket::RIP {
        return PacketClass::Rip;
    }
    if header.to.socket == Socket::SAP {
        return PacketClass::Sap;
    }
    PacketClass::Dropped(Reason::NotOurs)
}

/// Classifies a packet by the port that it came in on and its header.
pub fn classify(arrived: Port, header: IpxHeader) -> PacketClass
    ensures { result ≡ class_of arrived header }
{
    if header.kind == packet_type::NETBIOS_PROPAGATION {
        return PacketClass::Dropped(Reason::Propagated);
    }
    if header.to.network == Network::LOCAL || header.to.network == arrived.network {
        return on_network(arrived, header);
    }
    PacketClass::Forward
}
