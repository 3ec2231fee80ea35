//! Which datagrams ask a router for all that it knows, or narrowly, and who sent them.

ghost use Rattle.std.specs.Prelude.{◌≡◌, ◌↔◌, IsTrue, IfNone, IfSome};
ghost use Rattle.ipx_router.specs.Classify.{class_of, class_on_network, is_from_neighbour};
ghost use Rattle.ipx_router.specs.Replying.{asks_all};
ghost use Rattle.ipx_rate_limits.specs.RateLimiter.{AsksAllRoutes, AsksAllServices, AsksAt, AsksForAll, AsksNamedRoutes, AsksNarrowly, AsksNarrowlyAt, AsksNearestService, IsGeneralQuery, IsNarrowQuery, no_query_drops, one_more_query};

use ipx_carrier::saturating_increment;
use ipx_control::{RipBody, RipEntries, SapBody, read_rip, read_sap};
use ipx_router::Port;
use ipx_wire::{IpxHeader, Network, Node, Socket, decode, packet_type};

/// A node that asks, and the port where it is, starting at 0.
#[derive(Clone, Copy, PartialEq, Eq)]
pub struct Querier {
    pub port: usize,
    pub node: Node,
}

/// The number of queries that were dropped, and who sent the last one.
#[derive(Clone, Copy, PartialEq, Eq)]
pub struct QueryDrops {
    /// Saturates at the greatest u64.
    pub count: u64,
    pub last: Option<Querier>,
}

impl QueryDrops {
    pub fn none() -> QueryDrops
        ensures { result ≡ no_query_drops }
    {
        QueryDrops {
            count: 0,
            last: None,
        }
    }

    pub fn saturating_increment(&mut self, querier: Querier)
        ensures { self.new ≡ one_more_query self.old querier }
    {
        saturating_increment(&mut self.count);
        self.last = Some(querier);
    }
}

/// Whether one of the requested networks is FFFFFFFF, which means all.
fn names_all(asked: RipEntries<'_>) -> bool
    ensures { result ≡ asks_all asked.entry }
{
    for entry in asked {
        if entry.network == Network::ALL {
            return true;
        }
    }
    false
}

/// Whether a RIP body asks for all routes.
fn asks_all_routes(body: &[u8]) -> bool
    ensures { IsTrue result ↔ AsksAllRoutes body.now }
{
    match read_rip(body) {
        Ok(RipBody::Request(asked)) => names_all(asked),
        Ok(RipBody::Response(_)) => false,
        Err(_) => false,
    }
}

/// Whether a RIP body asks for the routes of the networks that it names.
fn asks_named_routes(body: &[u8]) -> bool
    ensures { IsTrue result ↔ AsksNamedRoutes body.now }
{
    match read_rip(body) {
        Ok(RipBody::Request(asked)) => !names_all(asked),
        Ok(RipBody::Response(_)) => false,
        Err(_) => false,
    }
}

/// Whether a SAP body asks for all services, or for all of a type.
fn asks_all_services(body: &[u8]) -> bool
    ensures { IsTrue result ↔ AsksAllServices body.now }
{
    match read_sap(body) {
        Ok(SapBody::Query { nearest, .. }) => !nearest,
        Ok(SapBody::Response { .. }) => false,
        Err(_) => false,
    }
}

/// Whether a SAP body asks for the nearest service of a type.
fn asks_nearest_service(body: &[u8]) -> bool
    ensures { IsTrue result ↔ AsksNearestService body.now }
{
    match read_sap(body) {
        Ok(SapBody::Query { nearest, .. }) => nearest,
        Ok(SapBody::Response { .. }) => false,
        Err(_) => false,
    }
}

/// Whether a packet is for the router at this port, and from a neighbour there.
fn comes_from_neighbour(at: Port, header: &IpxHeader) -> bool
    ensures { result ≡ is_from_neighbour at header.now }
{
    let for_us = header.to.node == at.node || header.to.node == Node::BROADCAST;
    let from_here = header.from.network == Network::LOCAL || header.from.network == at.network;
    for_us && from_here && header.from.node != at.node
}

/// Whether a packet for the local network asks its router for all.
fn asks_on_network(at: Port, header: &IpxHeader, body: &[u8]) -> bool
    ensures { IsTrue result ↔ AsksForAll (class_on_network at header.now) body.now }
{
    if !comes_from_neighbour(at, header) {
        return false;
    }
    if header.to.socket == Socket::RIP {
        return asks_all_routes(body);
    }
    if header.to.socket == Socket::SAP {
        return asks_all_services(body);
    }
    false
}

/// Whether a packet for the local network asks its router for the nearest service, or for named
/// networks.
fn asks_narrowly_on_network(at: Port, header: &IpxHeader, body: &[u8]) -> bool
    ensures { IsTrue result ↔ AsksNarrowly (class_on_network at header.now) body.now }
{
    if !comes_from_neighbour(at, header) {
        return false;
    }
    if header.to.socket == Socket::RIP {
        return asks_named_routes(body);
    }
    if header.to.socket == Socket::SAP {
        return asks_nearest_service(body);
    }
    false
}

/// Whether a packet that came to a port asks its router for all.
fn asks_for_all(at: Port, header: &IpxHeader, body: &[u8]) -> bool
    ensures { IsTrue result ↔ AsksForAll (class_of at header.now) body.now }
{
    if header.kind == packet_type::NETBIOS_PROPAGATION {
        return false;
    }
    if header.to.network == Network::LOCAL || header.to.network == at.network {
        return asks_on_network(at, header, body);
    }
    false
}

/// Whether a packet that came to a port asks its router for the nearest service, or for named
/// networks.
fn asks_narrowly(at: Port, header: &IpxHeader, body: &[u8]) -> bool
    ensures { IsTrue result ↔ AsksNarrowly (class_of at header.now) body.now }
{
    if header.kind == packet_type::NETBIOS_PROPAGATION {
        return false;
    }
    if header.to.network == Network::LOCAL || header.to.network == at.network {
        return asks_narrowly_on_network(at, header, body);
    }
    false
}

/// The node that asks for all at the port with this number.
fn querier_at(at: Port, port: usize, bytes: &[u8]) -> Option<Querier>
    ensures asked { IfSome result (AsksAt at port bytes.now) }
    ensures none { IfNone result ((who : Querier) → AsksAt at port bytes.now who → ⊥) }
{
    let Ok(packet) = decode(bytes) else {
        return None;
    };
    if !asks_for_all(at, &packet.header, packet.body) {
        return None;
    }
    Some(Querier {
        port,
        node: packet.header.from.node,
    })
}

/// The node that asks narrowly at the port with this number.
fn narrow_querier_at(at: Port, port: usize, bytes: &[u8]) -> Option<Querier>
    ensures asked { IfSome result (AsksNarrowlyAt at port bytes.now) }
    ensures none { IfNone result ((who : Querier) → AsksNarrowlyAt at port bytes.now who → ⊥) }
{
    let Ok(packet) = decode(bytes) else {
        return None;
    };
    if !asks_narrowly(at, &packet.header, packet.body) {
        return None;
    }
    Some(Querier {
        port,
        node: packet.header.from.node,
    })
}

/// The node that asks a router with these ports for all that it knows, if bytes that came to the
/// port with this number do. They are then a RIP request with an entry for network FFFFFFFF, or a
/// SAP query that is not for the nearest service.
pub fn general_query_from(ports: &[Port], port: usize, bytes: &[u8]) -> Option<Querier>
    ensures asked { IfSome result (IsGeneralQuery ports.now port bytes.now) }
    ensures none { IfNone result
        ((who : Querier) → IsGeneralQuery ports.now port bytes.now who → ⊥) }
{
    match ports.get(port) {
        Some(at) => querier_at(*at, port, bytes),
        None => None,
    }
}

/// The node that asks a router with these ports narrowly, if bytes that came to the port with this
/// number do. They are then a SAP query for the nearest service of a type, or a RIP request that
/// names its networks.
pub fn narrow_query_from(ports: &[Port], port: usize, bytes: &[u8]) -> Option<Querier>
    ensures asked { IfSome result (IsNarrowQuery ports.now port bytes.now) }
    ensures none { IfNone result
        ((who : Querier) → IsNarrowQuery ports.now port bytes.now who → ⊥) }
{
    match ports.get(port) {
        Some(at) => narrow_querier_at(*at, port, bytes),
        None => None,
    }
}
