//! Whether a packet names the node that sent it, passed a router, or advertises routes and
//! services.

ghost use Rattle.std.specs.Prelude.{◌≡◌};
ghost use Rattle.ipx_wire.specs.Ipx.{packet_view};
ghost use Rattle.ipxnet_server.specs.ServerHears.{has_socket, tells_router};
ghost use Rattle.ipx_sockets.specs.SourceFilter.{is_forwarded_within, is_local_to, is_node_of, is_unrouted, network_mismatch, source_matches_sender};

use byteorder::{BigEndian, ByteOrder};
use ipx_carrier::node_of;
use ipx_config::is_same_node;
use ipx_wire::{IpxHeader, Network, Node, Packet, Socket};

/// The operations of responses: of RIP and SAP, and of a SAP query for the nearest service.
const RESPONSE: u16 = 2;

const NARROW_RESPONSE: u16 = 4;

/// Two numbers for one network: that of a sender, and that of the port where its packet came.
#[derive(Clone, Copy, PartialEq, Eq)]
pub struct NetworkMismatch {
    pub sender: Network,
    pub port: Network,
}

/// Whether a packet comes straight from its source, at a port of that network. A router that
/// forwards a packet fills in a source network that was left out, and adds a hop. It does not
/// forward a packet to the network that it came from.
pub fn is_unrouted(network: Network, header: &IpxHeader) -> bool
    ensures { result ≡ is_unrouted network header.now }
{
    let from = header.from.network;
    let to = header.to.network;
    from == Network::LOCAL
        || (from == network && (to == Network::LOCAL || to == network || header.hops == 0))
}

/// Whether a node is that of the IP address, if there is one.
fn is_node_of(node: Node, ip: Option<[u8; 4]>) -> bool
    ensures { result ≡ is_node_of node ip }
{
    match ip {
        Some(ip) => is_same_node(node, node_of(ip)),
        None => false,
    }
}

/// Whether `named` is the network of a port, or left out.
fn is_local_to(network: Network, named: Network) -> bool
    ensures { result ≡ is_local_to network named }
{
    named == Network::LOCAL || named == network
}

/// The numbers that a port and the sender of a packet have for their network, if they differ. Such a
/// packet names the node that sent it, on another network, and no router forwarded it.
pub fn network_mismatch(
    network: Network,
    from: Option<[u8; 4]>,
    header: &IpxHeader,
) -> Option<NetworkMismatch>
    ensures { result ≡ network_mismatch network from header.now }
{
    let sender = header.from.network;
    if header.hops == 0 && is_node_of(header.from.node, from) && !is_local_to(network, sender) {
        return Some(NetworkMismatch {
            sender,
            port: network,
        });
    }
    None
}

/// Whether a packet is RIP or SAP from the network of a port to that network, and a router
/// forwarded it. A router does so only if the source is forged.
fn is_forwarded_within(network: Network, header: &IpxHeader) -> bool
    ensures { result ≡ is_forwarded_within network header.now }
{
    let socket = header.to.socket;
    let is_control = socket == Socket::RIP || socket == Socket::SAP;
    let is_within = is_local_to(network, header.to.network)
        && is_local_to(network, header.from.network);
    header.hops > 0 && is_control && is_within
}

/// Whether a packet from this IP address names its sender as its source, or may be one that a
/// router forwarded. The broadcast node is never a source, and RIP and SAP of the local network are
/// never forwarded.
pub fn source_matches_sender(network: Network, from: Option<[u8; 4]>, header: &IpxHeader) -> bool
    ensures { result ≡ source_matches_sender network from header.now }
{
    let node = header.from.node;
    let is_all = is_same_node(node, Node::BROADCAST);
    !is_all
        && !is_forwarded_within(network, header)
        && (!is_unrouted(network, header) || is_node_of(node, from))
}

/// Whether one of a packet's sockets is this one.
fn has_socket(socket: Socket, header: &IpxHeader) -> bool
    ensures { result ≡ has_socket socket.0 header.now }
{
    header.to.socket == socket || header.from.socket == socket
}

/// Whether a packet is a response of RIP or SAP. One that answers a query comes from their socket,
/// and goes to the socket of who asked.
pub fn is_response(packet: &Packet<'_>) -> bool
    ensures { result ≡ tells_router (packet_view packet.now) }
{
    if packet.body.len() < 2 {
        return false;
    }
    let operation = BigEndian::read_u16(packet.body);
    (has_socket(Socket::RIP, &packet.header) && operation == RESPONSE)
        || (has_socket(Socket::SAP, &packet.header)
            && (operation == RESPONSE || operation == NARROW_RESPONSE))
}
