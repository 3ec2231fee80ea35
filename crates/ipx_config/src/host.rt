//! The configuration of a host.

ghost use Rattle.std.specs.Prelude.{◌≡◌, ◌⊎◌, [], IfErr, IfOk};
ghost use Rattle.toml.specs.View.{table_view};
ghost use Rattle.ipx_config.specs.Fields.{HoldsIf, HoldsOr};
ghost use Rattle.ipx_config.specs.Host.{IsCircleFault, IsHost, IsHostFault, IsHostText, IsHostTextFault};
ghost use Rattle.ipx_config.specs.Neighbours.{AreAmong, AreNeighbours};
ghost use Rattle.ipx_config.specs.AllowedPeers.{AreOrigins};
ghost use Rattle.ipx_config.specs.Values.{IsAccept};

use crate::allowed_peer::AllowedPeer;
use crate::fault::ConfigError;
use crate::fields::{
    accept_in, address_in, count_in, neighbours_in, network_in, origins_in, refuse_unknown,
    routers_in, socket_in,
};
use crate::key::Key;
use crate::site::Accept;
use crate::toml_text::table_of;
use ipx_carrier::UDP_PORT;
use ipx_wire::{Network, Socket};
use std::alloc::Global;
use toml::Table;

/// The configuration of a host.
#[derive(Drop)]
pub struct HostConfig {
    /// The network that it is on.
    pub network: Network,
    /// Its local IP address.
    pub address: [u8; 4],
    /// The IP address of the router for packets to other networks.
    pub router: [u8; 4],
    /// The UDP port, which the router uses too.
    pub udp_port: u16,
    /// The socket on which it listens, or from which it connects.
    pub socket: Socket,
    /// The buffers of a connection, 1 to 8,192.
    pub buffers: u16,
    /// The IP addresses that it accepts besides the router's, at most 256.
    pub peers: Vec<[u8; 4]>,
    /// Those of its peers that are routers too, at most 256.
    pub routers: Vec<[u8; 4]>,
    /// Which peers may ask for a connection, at most 256 entries. None means everybody.
    pub from: Option<Vec<AllowedPeer>>,
    /// Whether only the router and the peers are accepted.
    pub accept: Accept,
}

/// Which senders are accepted besides the router, and which peers may connect.
#[derive(Drop)]
struct Circle {
    peers: Vec<[u8; 4]>,
    routers: Vec<[u8; 4]>,
    from: Option<Vec<AllowedPeer>>,
    accept: Accept,
}

/// The keys of a host's file, in the order in which their faults are reported.
const KEYS: [Key; 10] = [
    Key::Network,
    Key::Address,
    Key::Router,
    Key::UdpPort,
    Key::Socket,
    Key::Buffers,
    Key::Peers,
    Key::Routers,
    Key::Allow,
    Key::Accept,
];

fn circle_of(alloc: Global, table: &Table) -> Result<Circle, ConfigError>
    ensures peers { IfOk result (λ c.
        HoldsOr AreNeighbours Key.Peers (table_view table.now) [] c.peers.items) }
    ensures routers { IfOk result (λ c.
        HoldsOr (AreAmong c.peers.items) Key.Routers (table_view table.now) [] c.routers.items) }
    ensures from { IfOk result (λ c. HoldsIf AreOrigins Key.Allow (table_view table.now) c.from) }
    ensures accept { IfOk result (λ c.
        HoldsOr IsAccept Key.Accept (table_view table.now) Accept.Peers c.accept) }
    ensures fault { IfErr result (λ f.
        (f ≡ ConfigError.OutOfMemory) ⊎ IsCircleFault (table_view table.now) f) }
{
    let peers = neighbours_in(alloc, table, 0)?;
    let routers = routers_in(alloc, table, 0, &peers)?;
    let from = origins_in(alloc, table, 0, Key::Allow)?;
    let accept = accept_in(table, 0)?;
    Ok(Circle {
        peers,
        routers,
        from,
        accept,
    })
}

fn host_of(alloc: Global, table: &Table) -> Result<HostConfig, ConfigError>
    ensures host { IfOk result (IsHost (table_view table.now)) }
    ensures fault { IfErr result (λ f.
        (f ≡ ConfigError.OutOfMemory) ⊎ IsHostFault (table_view table.now) f) }
{
    refuse_unknown(alloc, table, 0, &KEYS)?;
    let network = network_in(table, 0)?;
    let address = address_in(table, 0, Key::Address)?;
    let router = address_in(table, 0, Key::Router)?;
    let udp_port = count_in(table, 0, Key::UdpPort, 65535, UDP_PORT)?;
    let socket = socket_in(table, 0)?;
    let buffers = count_in(table, 0, Key::Buffers, 8192, 1024)?;
    let circle = circle_of(alloc, table)?;
    Ok(HostConfig {
        network,
        address,
        router,
        udp_port,
        socket,
        buffers,
        peers: circle.peers,
        routers: circle.routers,
        from: circle.from,
        accept: circle.accept,
    })
}

/// Parses the text of a host's file, or returns its first fault.
pub fn read_host(alloc: Global, text: &str) -> Result<HostConfig, ConfigError>
    ensures host { IfOk result (IsHostText text.now) }
    ensures fault { IfErr result (λ f.
        (f ≡ ConfigError.OutOfMemory) ⊎ IsHostTextFault text.now f) }
{
    let table = table_of(alloc, text)?;
    host_of(alloc, &table)
}
