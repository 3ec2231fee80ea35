//! Which packets fail a source check.

ghost use Rattle.std.specs.Prelude.{◌≡◌, IfNone, IfSome};
ghost use Rattle.ipx_router.specs.Classify.{class_of, class_on_network, is_from_neighbour};
ghost use Rattle.ipx_source_checks.specs.SourceChecks.{FailsAt, FailsCheck, FailsCheckAt, is_control, is_forwarded_control, is_group_or_zero, is_group_source, is_looped_source};

use ipx_metrics::LastDrop;
use ipx_router::Port;
use ipx_wire::{IpxHeader, Network, Node, Socket, decode, packet_type};

/// A port of a router, and whether it is an Ethernet port. Only there it is checked that no source is
/// a group: at a port for ipxnet the router makes all nodes, and none is a group.
#[derive(Clone, Copy, PartialEq, Eq)]
pub struct CheckedPort {
    pub port: Port,
    pub ethernet: bool,
}

/// Which of the three checks a packet fails.
#[derive(Clone, Copy)]
pub enum SourceFault {
    /// It is RIP or SAP for the router, and another router forwarded it.
    ForwardedControl,
    /// It is RIP or SAP for the router, and came to an Ethernet port from a group or from zero.
    GroupSource,
    /// It is for another network, and claims to come from that same network.
    LoopedSource,
}

/// A packet that fails a check.
#[derive(Clone, Copy)]
pub struct FailedCheck {
    pub fault: SourceFault,
    pub packet: LastDrop,
    /// The network of the port that it came by.
    pub network: Network,
}

/// Whether a packet is for the router with this port, and from a neighbour there.
fn comes_from_neighbour(at: Port, header: &IpxHeader) -> bool
    ensures { result ≡ is_from_neighbour at header.now }
{
    let for_us = header.to.node == at.node || header.to.node == Node::BROADCAST;
    let from_here = header.from.network == Network::LOCAL || header.from.network == at.network;
    for_us && from_here && header.from.node != at.node
}

/// Whether a packet for the local network is RIP or SAP for the router.
fn is_control_on_network(at: Port, header: &IpxHeader) -> bool
    ensures { result ≡ is_control (class_on_network at header.now) }
{
    let is_service = header.to.socket == Socket::RIP || header.to.socket == Socket::SAP;
    is_service && comes_from_neighbour(at, header)
}

/// Whether a packet that came to a port is RIP or SAP for the router.
fn is_control(at: Port, header: &IpxHeader) -> bool
    ensures { result ≡ is_control (class_of at header.now) }
{
    if header.kind == packet_type::NETBIOS_PROPAGATION {
        return false;
    }
    if header.to.network == Network::LOCAL || header.to.network == at.network {
        return is_control_on_network(at, header);
    }
    false
}

/// Whether a packet that came to a port is RIP or SAP that another router forwarded.
fn is_forwarded_control(at: Port, header: &IpxHeader) -> bool
    ensures { result ≡ is_forwarded_control at header.now }
{
    header.hops > 0 && is_control(at, header)
}

/// Whether a node is a group of stations, or zero. No station has such an address.
fn is_group_or_zero(node: Node) -> bool
    ensures { result ≡ is_group_or_zero node }
{
    node.0[0] % 2 == 1 || node.0 == [0; 6]
}

/// Whether a packet that came to an Ethernet port is RIP or SAP for the router, and claims to come
/// from a group or from zero.
fn is_group_source(at: CheckedPort, header: &IpxHeader) -> bool
    ensures { result ≡ is_group_source at header.now }
{
    at.ethernet
        && header.hops == 0
        && is_group_or_zero(header.from.node)
        && is_control(at.port, header)
}

/// Whether a packet that came to a port is for another network, and claims to come from it.
fn is_looped_source(at: Port, header: &IpxHeader) -> bool
    ensures { result ≡ is_looped_source at header.now }
{
    let to = header.to.network;
    to != Network::LOCAL && to != at.network && header.from.network == to
}

/// The check that a packet which came to this port fails, if any.
fn source_fault(at: CheckedPort, header: &IpxHeader) -> Option<SourceFault>
    ensures fault { IfSome result (FailsCheck at header.now) }
    ensures none { IfNone result ((fault : SourceFault) → FailsCheck at header.now fault → ⊥) }
{
    if is_forwarded_control(at.port, header) {
        return Some(SourceFault::ForwardedControl);
    }
    if is_group_source(at, header) {
        return Some(SourceFault::GroupSource);
    }
    if is_looped_source(at.port, header) {
        return Some(SourceFault::LoopedSource);
    }
    None
}

/// The check that bytes fail, if any. They came to this port, which has this number.
fn failed_check_at(at: CheckedPort, port: usize, bytes: &[u8]) -> Option<FailedCheck>
    ensures failed { IfSome result (FailsCheckAt at port bytes.now) }
    ensures none { IfNone result ((f : FailedCheck) → FailsCheckAt at port bytes.now f → ⊥) }
{
    let Ok(packet) = decode(bytes) else {
        return None;
    };
    let header = packet.header;
    let fault = source_fault(at, &header)?;
    let packet = LastDrop {
        port,
        to: Some(header.to),
        from: Some(header.from),
    };
    Some(FailedCheck {
        fault,
        packet,
        network: at.port.network,
    })
}

/// The check that bytes fail, if any. They came to the port with this number of a router with these
/// ports.
pub fn failed_check(ports: &[CheckedPort], port: usize, bytes: &[u8]) -> Option<FailedCheck>
    ensures failed { IfSome result (FailsAt ports.now port bytes.now) }
    ensures none { IfNone result ((f : FailedCheck) → FailsAt ports.now port bytes.now f → ⊥) }
{
    match ports.get(port) {
        Some(at) => failed_check_at(*at, port, bytes),
        None => None,
    }
}
