//! Forwarding of packets for another network.

ghost use Rattle.std.specs.Prelude.{◌≡◌, ◌≤◌, ◌<◌, ◌+◌, ℕ, List, [], length, take, drop, IfOk, IfSome, OnErr};
ghost use Rattle.ipx_wire.specs.Assigned.{ipx_header_size};
ghost use Rattle.ipx_wire.specs.Ipx.{BeginsWith, IsIpx, packet_of, packet_view};
ghost use Rattle.ipx_router.specs.Knowledge.{routes_in};
ghost use Rattle.ipx_router.specs.Ports.{AreFromPorts, IsPortNumber};
ghost use Rattle.ipx_router.specs.Forward.{Forwards, IfForward, IsForwarded, by_route, forward_header, forward_packet};
ghost use Rattle.ipx_router.specs.Forwarded.{IsForwardOf};
ghost use Rattle.ipx_router.specs.OutcomeView.{IsOnPort, router_outcome};
ghost use Rattle.ipx_router.specs.InPlaceView.{ChangesOnlyPacket, outcome_in};
ghost use Rattle.ipx_router.specs.OutOfMemoryCases.{HasToForward};

use crate::outcome::{InPlace, Outcome, Reply};
use crate::packets::are_bytes;
use crate::port::{Port, PortNow};
use crate::reason::Reason;
use crate::route::{Route, route_to};
use ipx_tables::RouteTable;
use ipx_wire::{
    IpxHeader, Network, Node, OutOfMemory, Packet, packet_part, set_hops, set_source_network,
};
use std::alloc::Global;

/// Changes a packet with this header in place: one hop more, and the source network if it was 0.
fn forward_in_place(bytes: &mut [u8], arrived: Port, header: IpxHeader)
    requires room { 30 ≤ length bytes.old }
    requires hops { header.hops < 15 }
    ensures { (body tail : List ℕ) → IsIpx (record { header = header; body = body }) bytes.old tail
        → IsIpx (record { header = forward_header arrived header; body = body }) bytes.new tail }
{
    set_hops(bytes, header.hops + 1);
    if header.from.network == Network::LOCAL {
        set_source_network(bytes, arrived.network);
    }
}

/// A copy of the packet alone, changed in place to the forwarded packet.
fn forwarded_copy(
    alloc: Global,
    arrived: Port,
    datagram: &[u8],
    packet: &Packet<'_>,
) -> Result<Vec<u8>, OutOfMemory>
    requires reading { BeginsWith datagram.now (packet_view packet.now) }
    requires hops { packet.now.header.hops < 15 }
    ensures { IfOk result (λ v.
        IsIpx (forward_packet arrived (packet_view packet.now)) v.items []) }
{
    let mut bytes = Vec::from_slice(alloc, packet_part(datagram, packet))?;
    forward_in_place(&mut bytes, arrived, packet.header);
    Ok(bytes)
}

/// The bytes of the forwarded packet.
fn forwarded_bytes(
    alloc: Global,
    arrived: Port,
    datagram: &[u8],
    packet: &Packet<'_>,
) -> Result<Vec<u8>, OutOfMemory>
    requires reading { BeginsWith datagram.now (packet_view packet.now) }
    requires hops { packet.now.header.hops < 15 }
    ensures { IfOk result (λ v. IsForwarded arrived (packet_view packet.now) v.items) }
{
    let bytes = forwarded_copy(alloc, arrived, datagram, packet)?;
    are_bytes(&bytes);
    Ok(bytes)
}

/// How a packet for another network is handled, by its header.
pub enum Forwarding {
    /// It leaves by the port of this number, to this next node.
    Forward { port: u8, next: Node },
    Dropped(Reason),
}

fn forwarding_by_route(header: IpxHeader, route: Option<Route>) -> Forwarding
    ensures fate { result ≡ by_route header route }
    ensures port { (count : ℕ) → IfSome route (λ r. IsPortNumber count r.port)
        → IfForward result (IsPortNumber count) }
    ensures hops { IfForward result (λ _. header.hops < 15) }
{
    let Some(route) = route else {
        return Forwarding::Dropped(Reason::NoRoute(header.to.network));
    };
    if header.hops >= 15 {
        return Forwarding::Dropped(Reason::HopLimit);
    }
    Forwarding::Forward {
        port: route.port,
        next: route.neighbour.unwrap_or(header.to.node),
    }
}

/// The answer to a packet for another network. Memory is allocated only for a packet that is
/// forwarded.
pub fn forward(
    alloc: Global,
    ports: &[Port],
    routes: &RouteTable,
    at: PortNow,
    datagram: &[u8],
    packet: Packet<'_>,
) -> Result<Outcome, OutOfMemory>
    requires ports { length ports.now ≤ 16 }
    requires reading { BeginsWith datagram.now (packet_view packet) }
    requires sources { AreFromPorts (length ports.now) (routes_in routes.now) }
    ensures forwards { IfOk result (λ o.
        Forwards ports.now (routes_in routes.now) at (packet_view packet.entry) (router_outcome o)) }
    ensures refused { OnErr result
        (HasToForward ports.now (routes_in routes.now) at packet.entry.header) }
    ensures one_hop_on { IfOk result (λ o.
        IsForwardOf at.port (packet_view packet.entry) (router_outcome o)) }
    ensures there { IfOk result (λ o. IsOnPort (length ports.now) (router_outcome o)) }
{
    let route = route_to(ports, routes, packet.header.to.network, at.now);
    match forwarding_by_route(packet.header, route) {
        Forwarding::Dropped(reason) => return Ok(Outcome::Dropped(reason)),
        Forwarding::Forward { port, next } => {
            let bytes = forwarded_bytes(alloc, at.port, datagram, &packet)?;
            return Ok(Outcome::Forward(Reply { port, next, bytes }));
        }
    }
}

/// Changes the packet at the front of the bytes to the forwarded packet. It has this header and
/// `count` bytes.
fn change_front(bytes: &mut [u8], count: usize, arrived: Port, header: IpxHeader)
    requires room { (ipx_header_size ≤ count) × (count ≤ length bytes.old) }
    requires hops { header.hops < 15 }
    ensures forwarded { (body tail : List ℕ) → IsIpx (packet_of header body) bytes.old tail
        → ipx_header_size + length body ≡ count
        → IsForwarded arrived (packet_of header body) (take count bytes.new) }
    ensures behind { drop count bytes.new ≡ drop count bytes.old }
{
    let packet = &mut bytes[..count];
    forward_in_place(packet, arrived, header);
    are_bytes(packet);
}

/// The answer to a packet for another network that is at the front of the bytes. It has this header
/// and `count` bytes. If it is forwarded, it is changed in place. Nothing is allocated.
pub fn forward_front(
    ports: &[Port],
    routes: &RouteTable,
    at: PortNow,
    bytes: &mut [u8],
    header: IpxHeader,
    count: usize,
) -> InPlace
    requires ports { length ports.now ≤ 16 }
    requires sources { AreFromPorts (length ports.now) (routes_in routes.now) }
    requires room { (ipx_header_size ≤ count) × (count ≤ length bytes.old) }
    ensures forwards { (body tail : List ℕ) → IsIpx (packet_of header body) bytes.old tail
        → ipx_header_size + length body ≡ count
        → Forwards ports.now (routes_in routes.now) at (packet_of header body)
        (outcome_in bytes.new result) }
    ensures one_hop_on { (body tail : List ℕ) → IsIpx (packet_of header body) bytes.old tail
        → ipx_header_size + length body ≡ count
        → IsForwardOf at.port (packet_of header body) (outcome_in bytes.new result) }
    ensures there { IsOnPort (length ports.now) (outcome_in bytes.new result) }
    ensures changes { ChangesOnlyPacket bytes.old bytes.new result }
{
    let route = route_to(ports, routes, header.to.network, at.now);
    match forwarding_by_route(header, route) {
        Forwarding::Dropped(reason) => return InPlace::Dropped(reason),
        Forwarding::Forward { port, next } => {
            change_front(bytes, count, at.port, header);
            return InPlace::Forward { port, next, count };
        }
    }
}
