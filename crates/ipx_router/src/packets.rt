//! The packets that a router makes itself.

ghost use Rattle.std.specs.Prelude.{◌≡◌, ◌≤◌, ◌+◌, [], drop, false, length, OnOk, IfOk};
ghost use Rattle.ipx_wire.specs.Assigned.{packet_exchange_type, sap_socket};
ghost use Rattle.ipx_wire.specs.Ipx.{IsBytes, IsIpx, packet_of};
ghost use Rattle.ipx_control.specs.Rip.{Response as routes_response, rip_entries, rip_view};
ghost use Rattle.ipx_control.specs.Sap.{IsSap, IsSapWithinLimit, Response as services_response, sap_view};
ghost use Rattle.ipx_router.specs.RouterPackets.{AreBytesOf, AreRoutePackets, AreServicePackets, IsOwnPacket, IsRipPacket, IsSapPacket, all_nodes, recipient_at, own_header, sending_of};
ghost use Rattle.ipx_router.specs.Adding.{AddsPackets};

use crate::outcome::Reply;
use crate::port::{Port, PortNow};
use ipx_control::{
    Rip, RipEntry, Sap, ServiceEntry, encode_rip_into, encode_routes_into, encode_sap_into,
    encode_services_into,
};
use ipx_wire::{
    Address, IPX_HEADER_SIZE, IpxHeader, Node, OutOfMemory, Packet, Socket, encapsulate,
    encode_into, packet_type,
};
use std::alloc::Global;

/// The most entries that a packet holds.
pub const MAX_ROUTES_PER_PACKET: usize = 50;

pub const MAX_SERVICES_PER_PACKET: usize = 7;

/// The sizes in bytes of an operation, of a route and of a service.
const OPERATION_SIZE: usize = 2;

const ROUTE_SIZE: usize = 8;

const SERVICE_SIZE: usize = 64;

/// The recipient of a packet that the router makes: a node and socket on the network of a port.
#[derive(Clone, Copy)]
pub struct Recipient {
    pub number: u8,
    pub port: Port,
    pub node: Node,
    pub socket: Socket,
}

/// The recipient of a reply: the node and socket that asked.
pub fn recipient_of(at: PortNow, header: IpxHeader) -> Recipient
    ensures { result ≡ recipient_at at header }
{
    Recipient {
        number: at.number,
        port: at.port,
        node: header.from.node,
        socket: header.from.socket,
    }
}

/// All nodes on a port's network, at a socket.
pub fn everyone(number: u8, port: Port, socket: Socket) -> Recipient
    ensures { result ≡ all_nodes number port socket.0 }
{
    Recipient {
        number,
        port,
        node: Node::BROADCAST,
        socket,
    }
}

/// Bytes are numbers under 256.
pub fn are_bytes(bytes: &[u8])
    ensures { IsBytes bytes.now }
{
    let _ = bytes;
}

fn encoded(alloc: Global, header: IpxHeader, body: &[u8]) -> Result<Vec<u8>, OutOfMemory>
    requires { length body.now ≤ 1470 }
    ensures { IfOk result (λ v. IsIpx (record { header = header; body = body.now }) v.items []) }
{
    let mut bytes = vec![in alloc; 0; 30 + body.len()]?;
    encode_into(&Packet { header, body }, &mut bytes);
    Ok(bytes)
}

/// The bytes of a packet.
fn packet_bytes(alloc: Global, header: IpxHeader, body: &[u8]) -> Result<Vec<u8>, OutOfMemory>
    requires { length body.now ≤ 1470 }
    ensures { IfOk result (λ v. AreBytesOf (record { header = header; body = body.now }) v.items) }
{
    let bytes = encoded(alloc, header, body)?;
    are_bytes(&bytes);
    Ok(bytes)
}

fn header_to(to: Recipient, kind: u8, socket: Socket) -> IpxHeader
    ensures { result ≡ own_header to kind socket.0 }
{
    let network = to.port.network;
    IpxHeader {
        hops: 0,
        kind,
        to: Address {
            network,
            node: to.node,
            socket: to.socket,
        },
        from: Address {
            network,
            node: to.port.node,
            socket,
        },
    }
}

/// A RIP packet to a recipient.
pub fn rip_packet(alloc: Global, to: Recipient, message: &Rip) -> Result<Reply, OutOfMemory>
    requires { length (rip_entries (rip_view message.now)) ≤ 50 }
    ensures { IfOk result (λ r. IsRipPacket to (rip_view message.now) (sending_of r)) }
{
    let mut body = [0u8; 402];
    let count = encode_rip_into(message, &mut body);
    let bytes = packet_bytes(
        alloc,
        header_to(to, packet_type::RIP, Socket::RIP),
        &body[..count],
    )?;
    Ok(Reply {
        port: to.number,
        next: to.node,
        bytes,
    })
}

/// A SAP packet to a recipient.
pub fn sap_packet(alloc: Global, to: Recipient, message: &Sap) -> Result<Reply, OutOfMemory>
    requires { IsSapWithinLimit (sap_view message.now) }
    ensures { IfOk result (λ r. IsSapPacket to (sap_view message.now) (sending_of r)) }
{
    let mut body = [0u8; 450];
    let count = encode_sap_into(message, &mut body);
    let bytes = packet_bytes(
        alloc,
        header_to(to, packet_type::PACKET_EXCHANGE, Socket::SAP),
        &body[..count],
    )?;
    Ok(Reply {
        port: to.number,
        next: to.node,
        bytes,
    })
}

/// A packet whose body is in its place already. This puts the header in front of it.
fn closed(to: Recipient, header: IpxHeader, mut bytes: Vec<u8>) -> Reply
    requires some { 30 ≤ length bytes.items }
    requires limit { length bytes.items ≤ 1500 }
    ensures port { result.port ≡ to.number }
    ensures next { result.next ≡ to.node }
    ensures bytes { AreBytesOf (packet_of header (drop 30 bytes.items)) result.bytes.items }
{
    let body_length = bytes.len() - IPX_HEADER_SIZE;
    encapsulate(&header, body_length, &mut bytes);
    are_bytes(&bytes);
    Reply {
        port: to.number,
        next: to.node,
        bytes,
    }
}

/// A RIP response with these routes.
pub fn routes_packet(
    alloc: Global,
    to: Recipient,
    routes: &[RipEntry],
) -> Result<Reply, OutOfMemory>
    requires { length routes.now ≤ 50 }
    ensures { IfOk result (λ r. IsRipPacket to (routes_response routes.now) (sending_of r)) }
{
    let size = IPX_HEADER_SIZE + OPERATION_SIZE + ROUTE_SIZE * routes.len();
    let mut bytes = vec![in alloc; 0; size]?;
    encode_routes_into(routes, &mut bytes[IPX_HEADER_SIZE..]);
    let header = header_to(to, packet_type::RIP, Socket::RIP);
    Ok(closed(to, header, bytes))
}

/// A SAP response with these services.
pub fn services_packet(
    alloc: Global,
    to: Recipient,
    nearest: bool,
    services: &[ServiceEntry],
) -> Result<Reply, OutOfMemory>
    requires { length services.now ≤ 7 }
    ensures { IfOk result (λ r.
        IsSapPacket to (services_response nearest services.now) (sending_of r)) }
{
    let size = IPX_HEADER_SIZE + OPERATION_SIZE + SERVICE_SIZE * services.len();
    let mut bytes = vec![in alloc; 0; size]?;
    encode_services_into(nearest, services, &mut bytes[IPX_HEADER_SIZE..]);
    let header = header_to(to, packet_type::PACKET_EXCHANGE, Socket::SAP);
    Ok(closed(to, header, bytes))
}

/// The body of a SAP response with these services.
pub fn services_body(alloc: Global, services: &[ServiceEntry]) -> Result<Vec<u8>, OutOfMemory>
    requires { length services.now ≤ 7 }
    ensures says { IfOk result (λ v. IsSap (services_response false services.now) v.items []) }
    ensures short { IfOk result (λ v. length v.items ≤ 450) }
{
    let mut body = vec![in alloc; 0; OPERATION_SIZE + SERVICE_SIZE * services.len()]?;
    encode_services_into(false, services, &mut body);
    Ok(body)
}

/// A SAP packet with a body that was written before.
pub fn services_packet_with(alloc: Global, to: Recipient, body: &[u8]) -> Result<Reply, OutOfMemory>
    requires { length body.now ≤ 450 }
    ensures { IfOk result (λ r. IsOwnPacket to packet_exchange_type sap_socket
        (λ b. b ≡ body.now) (sending_of r)) }
{
    let header = header_to(to, packet_type::PACKET_EXCHANGE, Socket::SAP);
    let bytes = packet_bytes(alloc, header, body)?;
    Ok(Reply {
        port: to.number,
        next: to.node,
        bytes,
    })
}

/// Adds the packets of a list of routes.
pub fn add_route_packets(
    alloc: Global,
    replies: &mut Vec<Reply>,
    to: Recipient,
    entries: &[RipEntry],
) -> Result<(), OutOfMemory>
    ensures { OnOk result
        (AddsPackets (AreRoutePackets to entries.now) replies.old.items replies.new.items) }
{
    let mut rest = entries;
    while !rest.is_empty() {
        let (part, later) = rest.split_at(rest.len().min(MAX_ROUTES_PER_PACKET));
        replies.push(routes_packet(alloc, to, part)?)?;
        rest = later;
    }
    Ok(())
}

/// Adds the packets of a list of services.
pub fn add_service_packets(
    alloc: Global,
    replies: &mut Vec<Reply>,
    to: Recipient,
    nearest: bool,
    entries: &[ServiceEntry],
) -> Result<(), OutOfMemory>
    ensures { OnOk result
        (AddsPackets (AreServicePackets to nearest entries.now)
        replies.old.items replies.new.items) }
{
    let mut rest = entries;
    while !rest.is_empty() {
        let (part, later) = rest.split_at(rest.len().min(MAX_SERVICES_PER_PACKET));
        replies.push(services_packet(alloc, to, nearest, part)?)?;
        rest = later;
    }
    Ok(())
}
