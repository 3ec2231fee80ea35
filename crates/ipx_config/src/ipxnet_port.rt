//! The configuration of an ipxnet port of a router.

ghost use Rattle.std.specs.Prelude.{◌≤◌};
ghost use Rattle.ipxnet_server.specs.ServerClients.{max_server_clients};

use crate::site::{Accept, Directed};
use ip_prefixes::Prefix;
use ipx_wire::{Network, Node};
use std::net::SocketAddrV4;

/// Who may register at an ipxnet port.
#[derive(Drop)]
pub enum Peer {
    /// The IP addresses in a prefix.
    Prefix(Prefix),
    /// The IP addresses of the host with this name, when the router starts.
    Host(String),
}

/// The configuration of an ipxnet port of a router.
#[derive(Drop)]
pub struct IpxnetPortConfig {
    /// The network that it is on, which its clients are told.
    pub network: Network,
    /// The local IP address.
    pub address: [u8; 4],
    /// The UDP port where clients register.
    pub udp_port: u16,
    /// The cost of sending there, in ticks.
    pub cost: u16,
    /// Its own node.
    pub node: Node,
    /// The most clients that it allows, 1 to 150.
    pub clients: u16,
    /// Whether only its peers may register, or everybody.
    pub accept: Accept,
    /// Who may register, if not everybody may.
    pub peers: Vec<Peer>,
    /// The routers whose ipxnet servers form one network with this one.
    pub join: Vec<SocketAddrV4>,
    pub directed: Directed,
    // An ipxnet server may allow that many clients.
    ghost few: { (1 ≤ clients) × (clients ≤ max_server_clients) },
}
