//! The configuration of a router.

ghost use Rattle.std.specs.Prelude.{◌≡◌};
ghost use Rattle.ipx_config.specs.PortKinds.{directed_of_kind, kind_of_port, network_of_kind, place_of_kind};
ghost use Rattle.ipx_config.specs.SitePorts.{router_port_of, router_port_of_kind};

use crate::ipxnet_port::IpxnetPortConfig;
use crate::statics::StaticEntry;
use ipx_carrier::{node_of, socket_addr};
use ipx_ethernet::Encapsulation;
use ipx_router::Port;
use ipx_tunnels::Tunnel;
use ipx_wire::{Network, Node};
use std::net::SocketAddrV4;

/// The kind of a router's port.
#[derive(Clone, Copy, PartialEq, Eq)]
pub enum Kind {
    /// IPX in UDP datagrams, by RFC 1234.
    Rfc1234,
    /// An Ethernet port: an Ethernet frame in each datagram.
    Ethernet,
    /// A port for clients of DOSBox's ipxnet.
    Ipxnet,
}

/// Which senders are accepted at a port.
#[derive(Clone, Copy, PartialEq, Eq)]
pub enum Accept {
    /// Only the peers of the port.
    Peers,
    /// Everybody.
    Any,
}

/// How many directed broadcasts from other networks may leave by a port.
#[derive(Clone, Copy, PartialEq, Eq)]
pub enum Directed {
    /// `"none"` in the file.
    Never,
    /// `"few"` in the file: as many as a token bucket lets pass.
    Few,
    /// `"all"` in the file.
    Always,
}

/// The configuration of an RFC 1234 port.
#[derive(Drop)]
pub struct Rfc1234PortConfig {
    /// The network that it is on.
    pub network: Network,
    /// The local IP address.
    pub address: [u8; 4],
    /// The UDP port there.
    pub udp_port: u16,
    /// The cost of sending there, in ticks.
    pub cost: u16,
    /// The IP addresses of the other nodes of the network.
    pub peers: Vec<[u8; 4]>,
    /// The peers that are routers: they may forward packets of others and advertise. None means all
    /// senders that are accepted.
    pub routers: Option<Vec<[u8; 4]>>,
    pub accept: Accept,
    pub directed: Directed,
}

/// The remotes of an Ethernet port.
#[derive(Drop)]
pub enum RemotesConfig {
    /// Those at these places, 1 to 256.
    Listed(Vec<SocketAddrV4>),
    /// One, which is wherever the last frame of the port's session, with its cookie, came from.
    Learned,
}

/// The configuration of an Ethernet port.
#[derive(Drop)]
pub struct EthernetPortConfig {
    /// The network that it is on.
    pub network: Network,
    /// The encapsulation of packets in its frames.
    pub encapsulation: Encapsulation,
    /// The local IP address.
    pub address: [u8; 4],
    /// How its frames are carried.
    pub tunnel: Tunnel,
    /// The UDP port there, where frames arrive.
    pub udp_port: u16,
    /// The cost of sending there, in ticks.
    pub cost: u16,
    pub remotes: RemotesConfig,
    /// Its own node.
    pub node: Node,
    /// Whether it switches frames between its remotes.
    pub switched: bool,
    pub directed: Directed,
}

/// The configuration of a port, by its kind.
#[derive(Drop)]
pub enum PortConfig {
    Rfc1234(Rfc1234PortConfig),
    Ethernet(EthernetPortConfig),
    Ipxnet(IpxnetPortConfig),
}

/// The router's port for an RFC 1234 port.
fn router_port(port: &Rfc1234PortConfig) -> Port
    ensures { result ≡ router_port_of port.now }
{
    Port {
        network: port.network,
        node: node_of(port.address),
        cost: port.cost,
    }
}

/// A router's port with this node.
fn port_at(network: Network, node: Node, cost: u16) -> Port
    ensures { result ≡ record { network = network; node = node; cost = cost } }
{
    Port {
        network,
        node,
        cost,
    }
}

impl PortConfig {
    /// The network that it is on.
    pub fn network(&self) -> Network
        ensures { result ≡ network_of_kind self.now }
    {
        match self {
            PortConfig::Rfc1234(port) => port.network,
            PortConfig::Ethernet(port) => port.network,
            PortConfig::Ipxnet(port) => port.network,
        }
    }

    /// Where it is bound.
    pub fn place(&self) -> SocketAddrV4
        ensures { result ≡ place_of_kind self.now }
    {
        let (ip, udp_port) = match self {
            PortConfig::Rfc1234(port) => (port.address, port.udp_port),
            PortConfig::Ethernet(port) => (port.address, port.udp_port),
            PortConfig::Ipxnet(port) => (port.address, port.udp_port),
        };
        socket_addr(ip, udp_port)
    }

    /// The router's port for it.
    pub fn router_port(&self) -> Port
        ensures { result ≡ router_port_of_kind self.now }
    {
        match self {
            PortConfig::Rfc1234(port) => router_port(port),
            PortConfig::Ethernet(port) => port_at(port.network, port.node, port.cost),
            PortConfig::Ipxnet(port) => port_at(port.network, port.node, port.cost),
        }
    }

    pub fn kind(&self) -> Kind
        ensures { result ≡ kind_of_port self.now }
    {
        match self {
            PortConfig::Rfc1234(_) => Kind::Rfc1234,
            PortConfig::Ethernet(_) => Kind::Ethernet,
            PortConfig::Ipxnet(_) => Kind::Ipxnet,
        }
    }

    /// Which directed broadcasts may leave by it.
    pub fn directed(&self) -> Directed
        ensures { result ≡ directed_of_kind self.now }
    {
        match self {
            PortConfig::Rfc1234(port) => port.directed,
            PortConfig::Ethernet(port) => port.directed,
            PortConfig::Ipxnet(port) => port.directed,
        }
    }
}

/// The configuration of a router.
#[derive(Drop)]
pub struct RouterConfig {
    /// The path of the metrics file, if any.
    pub metrics_file: Option<String>,
    /// The path of the table file, if any.
    pub tables_file: Option<String>,
    /// The path of the file of the secret, if any.
    pub secret_file: Option<String>,
    /// Its ports, 1 to 16. The first is port 1.
    pub ports: Vec<PortConfig>,
    /// The static entries: at most 256 routes, followed by at most 256 services.
    pub statics: Vec<StaticEntry>,
}
