//! Directed broadcasts: packets for all nodes, or for a group, of another network than the one they
//! came from.

ghost use Rattle.std.specs.Prelude.{◌≡◌, IfNone, IfSome};
ghost use Rattle.ipx_router.specs.RouteChoice.{direct_route};
ghost use Rattle.ipx_rate_limits.specs.DirectedBroadcasts.{IsDirectedAt, IsDirectedBroadcast, is_directed, is_for_many, no_directed_drops, one_more_directed};

use crate::port_buckets::{PortBuckets, has_groups};
use ipx_carrier::saturating_increment;
use ipx_router::Port;
use ipx_wire::{Address, IpxHeader, Network, Node, decode, packet_type};

/// A directed broadcast at the last router on its way: the port by which it leaves, starting at 0,
/// and its sender.
#[derive(Clone, Copy)]
pub struct DirectedBroadcast {
    pub leaves_by: usize,
    pub from: Address,
}

/// The number of directed broadcasts that were dropped, and the sender of the last one.
#[derive(Clone, Copy, PartialEq, Eq)]
pub struct DirectedDrops {
    /// Saturates at the greatest u64.
    pub count: u64,
    pub last: Option<Address>,
}

impl DirectedDrops {
    pub fn none() -> DirectedDrops
        ensures { result ≡ no_directed_drops }
    {
        DirectedDrops {
            count: 0,
            last: None,
        }
    }

    pub fn saturating_increment(&mut self, from: Address)
        ensures { self.new ≡ one_more_directed self.old from }
    {
        saturating_increment(&mut self.count);
        self.last = Some(from);
    }
}

/// Whether a node is all nodes, or a group of them on a network that has groups.
fn is_for_many(groups: bool, node: Node) -> bool
    ensures { result ≡ is_for_many groups node }
{
    node == Node::BROADCAST || (groups && node.0[0] % 2 == 1)
}

/// Whether a packet that came by this port is for all nodes of another network, or for a group of
/// them if that network has groups, and fewer than 15 routers forwarded it, so that it can leave.
fn is_directed(at: Port, groups: bool, header: &IpxHeader) -> bool
    ensures { result ≡ is_directed at groups header.now }
{
    header.kind != packet_type::NETBIOS_PROPAGATION
        && header.hops < 15
        && is_for_many(groups, header.to.node)
        && header.to.network != Network::LOCAL
        && header.to.network != at.network
}

/// The index of the port that is on a network.
fn port_on(ports: &[Port], network: Network) -> Option<usize>
    ensures { result ≡ direct_route ports.now network }
{
    ports.iter().position(|port| port.network == network)
}

/// Parses bytes that came by this port as a directed broadcast, if they are one.
fn directed_at(
    ports: &[Port],
    limits: &[PortBuckets],
    at: Port,
    bytes: &[u8],
) -> Option<DirectedBroadcast>
    ensures directed { IfSome result (IsDirectedAt ports.now limits.now at bytes.now) }
    ensures none { IfNone result
        ((it : DirectedBroadcast) → IsDirectedAt ports.now limits.now at bytes.now it → ⊥) }
{
    let Ok(packet) = decode(bytes) else {
        return None;
    };
    let header = packet.header;
    let leaves_by = port_on(ports, header.to.network)?;
    if !is_directed(at, has_groups(limits, leaves_by), &header) {
        return None;
    }
    Some(DirectedBroadcast {
        leaves_by,
        from: header.from,
    })
}

/// Parses bytes that came to a router's port as a directed broadcast, if they are one: a packet for
/// all nodes of the network of another of these ports, or for a group if that port has groups. If
/// that network is further away, the last router before it limits the packets. To this router they
/// are like any other packet.
pub fn directed_broadcast_in(
    ports: &[Port],
    limits: &[PortBuckets],
    port: usize,
    bytes: &[u8],
) -> Option<DirectedBroadcast>
    ensures directed { IfSome result (IsDirectedBroadcast ports.now limits.now port bytes.now) }
    ensures none { IfNone result
        ((it : DirectedBroadcast) → IsDirectedBroadcast ports.now limits.now port bytes.now it → ⊥) }
{
    match ports.get(port) {
        Some(at) => directed_at(ports, limits, *at, bytes),
        None => None,
    }
}
