//! What becomes of a packet.

ghost use Rattle.std.specs.Prelude.{◌≡◌, None, Some, nat_lt};
ghost use Rattle.ipx_wire.specs.declared.ipx.fault.IpxFault.{IpxFault};
ghost use Rattle.ipx_wire.specs.Ipx.{BeginsWith, PacketView, ipx_fault, packet_view};
ghost use Rattle.ipxnet_server.specs.ServerHears.{all_get, all_hear, core_hears, has_socket, is_for_server, is_from_server, is_given_from_server, is_given_to_service, is_registration, is_to_all_nodes, is_to_service, joined_takers};
ghost use Rattle.ipxnet_server.specs.ServerHears.{all_hear_joined, remote_source, server_header, server_hears_elsewhere, may_reach_core, max_client_bytes, one_hears_joined, registration_answer, router_hears, router_ping, tells_router};

use crate::clients::Client;
use crate::disposition::Disposition;
use crate::drops::ServerDrop;
use crate::peer_servers::RemoteClient;
use crate::port::ServerPort;
use crate::recipients::Recipients;
use byteorder::{BigEndian, ByteOrder};
use ipx_wire::{
    Address, IPX_HEADER_SIZE, IpxHeader, Network, Node, Packet, Socket, decode, packet_type,
};
use std::net::SocketAddrV4;

/// The socket of registrations and pings.
pub const SERVER_SOCKET: Socket = Socket(2);

/// The most bytes of a datagram that a client accepts whole.
pub const MAX_CLIENT_BYTES: usize = 1424;

/// The operations of responses: of RIP and SAP, and of a SAP query for the nearest service.
const RESPONSE: u16 = 2;

const NEAREST_RESPONSE: u16 = 4;

/// Whether this many bytes are more than a client accepts whole.
pub fn is_too_long(size: usize) -> bool
    ensures { result ≡ nat_lt max_client_bytes size }
{
    size > MAX_CLIENT_BYTES
}

/// A header with no hops, between two nodes of a network.
fn header_between(network: Network, to: Node, from: Node) -> IpxHeader
    ensures { result ≡ server_header network to from }
{
    IpxHeader {
        hops: 0,
        kind: packet_type::UNKNOWN,
        to: Address {
            network,
            node: to,
            socket: SERVER_SOCKET,
        },
        from: Address {
            network,
            node: from,
            socket: SERVER_SOCKET,
        },
    }
}

/// The answer to a registration, which gives a node.
pub fn answer_with_node(port: ServerPort, node: Node) -> IpxHeader
    ensures { result ≡ registration_answer port node }
{
    header_between(port.network, node, port.own)
}

/// The ping that a silent client is sent.
pub fn ping_from(port: ServerPort) -> IpxHeader
    ensures { result ≡ router_ping port }
{
    header_between(Network::LOCAL, Node::BROADCAST, port.own)
}

/// Whether a packet, in a datagram of `size` bytes, is a registration.
pub fn registers(header: IpxHeader, size: usize) -> bool
    ensures { result ≡ is_registration header size }
{
    size == IPX_HEADER_SIZE
        && header.to.node == Node([0; 6])
        && header.from.node == Node([0; 6])
        && header.to.socket == SERVER_SOCKET
}

/// Whether a packet is for the network of the port.
pub fn stays(port: ServerPort, header: IpxHeader) -> bool
    ensures { result ≡ is_for_server port header }
{
    header.to.network == Network::LOCAL || header.to.network == port.network
}

/// Whether a packet is for all nodes.
pub fn is_for_all(header: IpxHeader) -> bool
    ensures { result ≡ is_to_all_nodes header }
{
    header.to.node == Node::BROADCAST
}

/// Whether a packet is for a service of the router.
fn asks_router(header: IpxHeader) -> bool
    ensures { result ≡ is_to_service header }
{
    header.to.socket == Socket::RIP || header.to.socket == Socket::SAP
}

/// The header of the packet that bytes begin with. Bytes that are no packet have none.
pub fn header_of(bytes: &[u8]) -> Option<IpxHeader>
    ensures packet { (p : PacketView) → BeginsWith bytes.now p → result ≡ Some p.header }
    ensures malformed { (f : IpxFault) → ipx_fault bytes.now ≡ Some f → result ≡ None }
{
    match decode(bytes) {
        Ok(packet) => Some(packet.header),
        Err(_) => None,
    }
}

/// Whether a packet of the core is for a service of a router.
pub fn is_for_service(header: Option<IpxHeader>) -> bool
    ensures { result ≡ is_given_to_service header }
{
    match header {
        Some(header) => asks_router(header),
        None => false,
    }
}

/// Whether a packet of the core comes from the network of the port.
pub fn comes_from_here(port: ServerPort, header: Option<IpxHeader>) -> bool
    ensures { result ≡ is_given_from_server port header }
{
    match header {
        Some(header) => is_from_here(port, header),
        None => false,
    }
}

/// The clients that a packet of the core for all nodes is sent to. `to_service` says that it is for
/// a service of a router.
pub fn takers_of_all(to_service: bool) -> Recipients
    ensures { result ≡ all_get to_service }
{
    if to_service {
        Recipients::Nobody
    } else {
        Recipients::All
    }
}

/// Whether a packet comes from the network of the port.
pub fn is_from_here(port: ServerPort, header: IpxHeader) -> bool
    ensures { result ≡ is_from_server port header }
{
    header.from.network == Network::LOCAL || header.from.network == port.network
}

/// Whether one of a packet's sockets is this one.
fn has(socket: Socket, header: IpxHeader) -> bool
    ensures { result ≡ has_socket socket.0 header }
{
    header.to.socket == socket || header.from.socket == socket
}

/// Whether a packet advertises routes or services: a response of RIP or SAP.
fn tells(packet: &Packet<'_>) -> bool
    ensures { result ≡ tells_router (packet_view packet.now) }
{
    if packet.body.len() < 2 {
        return false;
    }
    let operation = BigEndian::read_u16(packet.body);
    (has(Socket::RIP, packet.header) && operation == RESPONSE)
        || (has(Socket::SAP, packet.header)
            && (operation == RESPONSE || operation == NEAREST_RESPONSE))
}

/// Whether the core may get a packet: it comes from the network of the port, and advertises
/// nothing.
fn may_reach(port: ServerPort, packet: &Packet<'_>) -> bool
    ensures { result ≡ may_reach_core port (packet_view packet.now) }
{
    is_from_here(port, packet.header) && !tells(packet)
}

/// What becomes of a packet that is only for the core.
pub fn to_core(port: ServerPort, packet: &Packet<'_>) -> Disposition
    ensures { result ≡ core_hears port (packet_view packet.now) }
{
    if !is_from_here(port, packet.header) {
        return Disposition::Dropped(ServerDrop::FromElsewhere(packet.header.from.network));
    }
    if tells(packet) {
        return Disposition::Dropped(ServerDrop::Response);
    }
    Disposition::ToCore
}

/// What becomes of a packet for the router's node. An answer to its ping is for nobody.
pub fn to_router(port: ServerPort, packet: &Packet<'_>) -> Disposition
    ensures { result ≡ router_hears port (packet_view packet.now) }
{
    if packet.header.to.socket == SERVER_SOCKET {
        return Disposition::PingAnswered;
    }
    to_core(port, packet)
}

/// What becomes of a packet for all nodes here, in a datagram of `size` bytes.
pub fn to_all(port: ServerPort, from: SocketAddrV4, packet: &Packet<'_>, size: usize) -> Disposition
    ensures { result ≡ all_hear port from (packet_view packet.now) size }
{
    let header = packet.header;
    if is_too_long(size) {
        return Disposition::Dropped(ServerDrop::TooLong(size));
    }
    if header.to.socket == SERVER_SOCKET {
        let answer = header_between(Network::LOCAL, header.from.node, port.own);
        return Disposition::Pinged(from, answer);
    }
    if asks_router(header) && may_reach(port, packet) {
        return Disposition::ToOthersAndCore(from);
    }
    Disposition::ToOthers(from)
}

/// What becomes of a packet for another network.
pub fn elsewhere(port: ServerPort, packet: &Packet<'_>) -> Disposition
    ensures { result ≡ server_hears_elsewhere port (packet_view packet.now) }
{
    let header = packet.header;
    if header.to.socket == SERVER_SOCKET {
        return Disposition::Dropped(ServerDrop::PingElsewhere(header.to.network));
    }
    if is_for_all(header) {
        return Disposition::Dropped(ServerDrop::BroadcastElsewhere(header.to.network));
    }
    to_core(port, packet)
}

/// The joined routers that a packet is sent to if no client has its node: the router where the node
/// is known, otherwise each.
pub fn joined_takers_of(far: Option<RemoteClient>) -> Recipients
    ensures { result ≡ joined_takers far }
{
    match far {
        Some(far) => Recipients::JoinedAt(far.router),
        None => Recipients::Joined,
    }
}

/// The node that a joined router's packet is from, if it comes from the network of the port.
fn remote_node(port: ServerPort, header: IpxHeader) -> Option<Node>
    ensures { result ≡ remote_source port header }
{
    if is_from_here(port, header) {
        Some(header.from.node)
    } else {
        None
    }
}

/// What becomes of a packet of a joined router for all nodes, in a datagram of `size` bytes.
pub fn joined_to_all(
    port: ServerPort,
    from: SocketAddrV4,
    header: IpxHeader,
    size: usize,
) -> Disposition
    ensures { result ≡ all_hear_joined port from header size }
{
    if is_too_long(size) {
        return Disposition::Dropped(ServerDrop::TooLong(size));
    }
    Disposition::FromJoined(remote_node(port, header), Recipients::Here(from))
}

/// What becomes of a packet of a joined router for one node, which this client has.
pub fn joined_to_one(
    port: ServerPort,
    from: SocketAddrV4,
    header: IpxHeader,
    size: usize,
    client: Option<Client>,
) -> Disposition
    ensures { result ≡ one_hears_joined port from header size client }
{
    match client {
        None => Disposition::Dropped(ServerDrop::NoSuchNode(header.to.node)),
        Some(client) if client.place == from => Disposition::Dropped(ServerDrop::ToItself),
        Some(_) if is_too_long(size) => Disposition::Dropped(ServerDrop::TooLong(size)),
        Some(client) => {
            Disposition::FromJoined(remote_node(port, header), Recipients::One(client.place))
        }
    }
}
