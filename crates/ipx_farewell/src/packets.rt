//! The packets of a router that takes back what it advertised.

ghost use Rattle.std.specs.Prelude.{◌≡◌, ◌≤◌, [], false, length, OnOk, IfOk};
ghost use Rattle.ipx_wire.specs.Assigned.{rip_socket, sap_socket};
ghost use Rattle.ipx_wire.specs.Ipx.{IsBytes, IsIpx};
ghost use Rattle.ipx_control.specs.Rip.{Response as routes_response};
ghost use Rattle.ipx_control.specs.Sap.{Response as services_response};
ghost use Rattle.ipx_router.specs.Adding.{AddsPackets};
ghost use Rattle.ipx_router.specs.RouterPackets.{AreBytesOf, AreRoutePackets, AreServicePackets, IsRipPacket, IsSapPacket, all_nodes, own_header, sending_of};

use crate::speaker::Speaker;
use ipx_control::{
    RIP_MAX_ENTRIES, RipEntry, SAP_MAX_SERVICES, ServiceEntry, encode_routes_into,
    encode_services_into,
};
use ipx_router::Reply;
use ipx_wire::{Address, IpxHeader, Node, OutOfMemory, Packet, Socket, encode_into, packet_type};
use std::alloc::Global;

/// Bytes are numbers under 256.
fn are_bytes(bytes: &[u8])
    ensures { IsBytes bytes.now }
{
    let _ = bytes;
}

fn encoded(alloc: Global, header: IpxHeader, body: &[u8]) -> Result<Vec<u8>, OutOfMemory>
    requires { length body.now ≤ 1470 }
    ensures { IfOk result (λ v. IsIpx (record { header = header; body = body.now }) v.items []) }
{
    let mut bytes = vec![in alloc; 0; 30 + body.len()]?;
    encode_into(&Packet { header, body }, &mut bytes);
    Ok(bytes)
}

/// The bytes of a packet.
fn packet_bytes(alloc: Global, header: IpxHeader, body: &[u8]) -> Result<Vec<u8>, OutOfMemory>
    requires { length body.now ≤ 1470 }
    ensures { IfOk result (λ v. AreBytesOf (record { header = header; body = body.now }) v.items) }
{
    let bytes = encoded(alloc, header, body)?;
    are_bytes(&bytes);
    Ok(bytes)
}

fn header_from(from: Speaker, kind: u8, socket: Socket) -> IpxHeader
    ensures { result ≡ own_header (all_nodes from.number from.port socket.0) kind socket.0 }
{
    let network = from.port.network;
    IpxHeader {
        hops: 0,
        kind,
        to: Address {
            network,
            node: Node::BROADCAST,
            socket,
        },
        from: Address {
            network,
            node: from.port.node,
            socket,
        },
    }
}

/// A RIP response of these routes.
fn routes_reply(alloc: Global, from: Speaker, routes: &[RipEntry]) -> Result<Reply, OutOfMemory>
    requires { length routes.now ≤ 50 }
    ensures { IfOk result (λ r. IsRipPacket (all_nodes from.number from.port rip_socket)
        (routes_response routes.now) (sending_of r)) }
{
    let mut body = [0u8; 402];
    let count = encode_routes_into(routes, &mut body);
    let header = header_from(from, packet_type::RIP, Socket::RIP);
    let bytes = packet_bytes(alloc, header, &body[..count])?;
    Ok(Reply {
        port: from.number,
        next: Node::BROADCAST,
        bytes,
    })
}

/// A SAP response of these services.
fn services_reply(
    alloc: Global,
    from: Speaker,
    services: &[ServiceEntry],
) -> Result<Reply, OutOfMemory>
    requires { length services.now ≤ 7 }
    ensures { IfOk result (λ r. IsSapPacket (all_nodes from.number from.port sap_socket)
        (services_response false services.now) (sending_of r)) }
{
    let mut body = [0u8; 450];
    let count = encode_services_into(false, services, &mut body);
    let header = header_from(from, packet_type::PACKET_EXCHANGE, Socket::SAP);
    let bytes = packet_bytes(alloc, header, &body[..count])?;
    Ok(Reply {
        port: from.number,
        next: Node::BROADCAST,
        bytes,
    })
}

/// Adds the responses of a list of routes.
pub fn add_route_packets(
    alloc: Global,
    packets: &mut Vec<Reply>,
    from: Speaker,
    routes: &[RipEntry],
) -> Result<(), OutOfMemory>
    ensures { OnOk result (AddsPackets
        (AreRoutePackets (all_nodes from.number from.port rip_socket) routes.now)
        packets.old.items packets.new.items) }
{
    let mut rest = routes;
    while !rest.is_empty() {
        let (part, later) = rest.split_at(rest.len().min(RIP_MAX_ENTRIES));
        packets.push(routes_reply(alloc, from, part)?)?;
        rest = later;
    }
    Ok(())
}

/// Adds the responses of a list of services.
pub fn add_service_packets(
    alloc: Global,
    packets: &mut Vec<Reply>,
    from: Speaker,
    services: &[ServiceEntry],
) -> Result<(), OutOfMemory>
    ensures { OnOk result (AddsPackets
        (AreServicePackets (all_nodes from.number from.port sap_socket) false services.now)
        packets.old.items packets.new.items) }
{
    let mut rest = services;
    while !rest.is_empty() {
        let (part, later) = rest.split_at(rest.len().min(SAP_MAX_SERVICES));
        packets.push(services_reply(alloc, from, part)?)?;
        rest = later;
    }
    Ok(())
}
