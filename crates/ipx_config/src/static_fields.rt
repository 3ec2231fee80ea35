//! The keys of the tables of static routes and services, with their values.

ghost use Rattle.std.specs.Prelude.{◌≡◌, ◌⊎◌, ◌<◌, IfErr, IfOk, IfSome, length, option_copied};
ghost use Rattle.toml.specs.View.{table_view};
ghost use Rattle.ipx_config.specs.Fields.{Gives};
ghost use Rattle.ipx_config.specs.StaticFields.{IsRemoteNetwork, IsRemoteNetworkFault, IsNamedNode, IsNamedNodeFault, IsNear, IsNearFault, IsNextNode, IsNextNodeFault, IsPeerNode, IsPeerNodeFault, IsServiceName, IsServicePlace, IsServicePlaceFault, IsServiceType, IsServiceTypeFault, IsWrittenPlace, is_own_node, numbered_port, port_index_on};
ghost use Rattle.ipx_config.specs.Values.{IsCount};
ghost use Rattle.ipx_config.specs.EthernetValues.{IsStation};

use crate::ethernet_values::station_of;
use crate::fault::ConfigError;
use crate::fields::{address_in, network_in, required};
use crate::key::Key;
use crate::site::PortConfig;
use crate::static_values::{is_place_of_service, port_number_of, service_name_of, written_place};
use crate::values::parse_socket;
use ipx_carrier::node_of;
use ipx_tables::Source;
use ipx_wire::{Address, Network, Node};
use std::alloc::Global;
use toml::Table;

/// The network of the default route.
const DEFAULT_ROUTE: Network = Network(0xffff_fffe);

/// The service type that asks for every type.
const ANY_TYPE: u16 = 0xffff;

/// A node on the network of a port, and the cost of sending there, in ticks.
#[derive(Clone, Copy)]
pub struct NextHop {
    pub by: Source,
    pub cost: u16,
}

/// The number of a port.
fn port_number_in(table: &Table, number: usize) -> Result<u8, ConfigError>
    ensures { Gives (IsCount 16) Key.Port (table_view table.now) number result }
{
    match port_number_of(required(table, number, Key::Port)?) {
        Some(port) => Ok(port),
        None => Err(ConfigError::Wrong(number, Key::Port)),
    }
}

/// The port with this number, starting at 1.
pub fn numbered_port(ports: &[PortConfig], number: u8) -> Option<&PortConfig>
    ensures { option_copied result ≡ numbered_port ports.now number }
{
    let place = usize::from(number).checked_sub(1)?;
    ports.get(place)
}

/// The node of a peer.
fn peer_node_in(table: &Table, number: usize, peers: &[[u8; 4]]) -> Result<Node, ConfigError>
    ensures node { IfOk result (IsPeerNode peers.now (table_view table.now)) }
    ensures fault { IfErr result (λ f. (f ≡ ConfigError.OutOfMemory)
        ⊎ IsPeerNodeFault peers.now (table_view table.now) number f) }
{
    let ip = address_in(table, number, Key::NextHop)?;
    if !peers.contains(&ip) {
        return Err(ConfigError::Wrong(number, Key::NextHop));
    }
    Ok(node_of(ip))
}

/// The node of a station.
fn station_node_in(table: &Table, number: usize) -> Result<Node, ConfigError>
    ensures { Gives IsStation Key.NextHop (table_view table.now) number result }
{
    match station_of(required(table, number, Key::NextHop)?) {
        Some(node) => Ok(node),
        None => Err(ConfigError::Wrong(number, Key::NextHop)),
    }
}

/// The node that a table names at a port, by the port's kind.
fn named_node_in(table: &Table, number: usize, port: &PortConfig) -> Result<Node, ConfigError>
    ensures node { IfOk result (IsNamedNode port.now (table_view table.now)) }
    ensures fault { IfErr result (λ f. (f ≡ ConfigError.OutOfMemory)
        ⊎ IsNamedNodeFault port.now (table_view table.now) number f) }
{
    match port {
        PortConfig::Rfc1234(port) => peer_node_in(table, number, &port.peers),
        PortConfig::Ethernet(_) => station_node_in(table, number),
        PortConfig::Ipxnet(_) => Err(ConfigError::Wrong(number, Key::Port)),
    }
}

/// Whether a node is the port's own.
fn is_own_node(port: &PortConfig, node: Node) -> bool
    ensures { result ≡ is_own_node port.now node }
{
    node == port.router_port().node
}

/// The node that a table names at a port, if it is not the port's own.
fn next_node_in(table: &Table, number: usize, port: &PortConfig) -> Result<Node, ConfigError>
    ensures node { IfOk result (IsNextNode port.now (table_view table.now)) }
    ensures fault { IfErr result (λ f. (f ≡ ConfigError.OutOfMemory)
        ⊎ IsNextNodeFault port.now (table_view table.now) number f) }
{
    let node = named_node_in(table, number, port)?;
    if is_own_node(port, node) {
        return Err(ConfigError::Wrong(number, Key::NextHop));
    }
    Ok(node)
}

/// The neighbour of a static entry, and the cost of sending to it.
pub fn next_hop_in(
    table: &Table,
    number: usize,
    ports: &[PortConfig],
) -> Result<NextHop, ConfigError>
    ensures near { IfOk result (IsNear ports.now (table_view table.now)) }
    ensures fault { IfErr result (λ f. (f ≡ ConfigError.OutOfMemory)
        ⊎ IsNearFault ports.now (table_view table.now) number f) }
{
    let count = port_number_in(table, number)?;
    let Some(port) = numbered_port(ports, count) else {
        return Err(ConfigError::Wrong(number, Key::Port));
    };
    let neighbour = next_node_in(table, number, port)?;
    let by = Source {
        port: count,
        neighbour,
    };
    Ok(NextHop {
        by,
        cost: port.router_port().cost,
    })
}

/// The index of the first of these ports that is on a network.
fn port_index_on(ports: &[PortConfig], network: Network) -> Option<usize>
    ensures place { result ≡ port_index_on ports.now network }
    ensures within { IfSome result (λ k. k < length ports.now) }
{
    ports.iter().position(|port| port.network() == network)
}

/// A network that no port is on, and not the default route.
pub fn remote_network_in(
    table: &Table,
    number: usize,
    ports: &[PortConfig],
) -> Result<Network, ConfigError>
    ensures network { IfOk result (IsRemoteNetwork ports.now (table_view table.now)) }
    ensures fault { IfErr result (λ f. (f ≡ ConfigError.OutOfMemory)
        ⊎ IsRemoteNetworkFault ports.now (table_view table.now) number f) }
{
    let network = network_in(table, number)?;
    if network == DEFAULT_ROUTE {
        return Err(ConfigError::Wrong(number, Key::Network));
    }
    match port_index_on(ports, network) {
        Some(place) => Err(ConfigError::Twin(number, network, place + 1)),
        None => Ok(network),
    }
}

/// The type of a service.
pub fn service_type_in(table: &Table, number: usize) -> Result<u16, ConfigError>
    ensures kind { IfOk result (IsServiceType (table_view table.now)) }
    ensures fault { IfErr result (λ f. (f ≡ ConfigError.OutOfMemory)
        ⊎ IsServiceTypeFault (table_view table.now) number f) }
{
    let Some(socket) = parse_socket(required(table, number, Key::ServiceType)?) else {
        return Err(ConfigError::Wrong(number, Key::ServiceType));
    };
    if socket.0 == ANY_TYPE {
        return Err(ConfigError::Wrong(number, Key::ServiceType));
    }
    Ok(socket.0)
}

/// The name of a service.
pub fn service_name_in(table: &Table, number: usize) -> Result<[u8; 48], ConfigError>
    ensures { Gives IsServiceName Key.Name (table_view table.now) number result }
{
    match service_name_of(required(table, number, Key::Name)?) {
        Some(name) => Ok(name),
        None => Err(ConfigError::Wrong(number, Key::Name)),
    }
}

/// The address that `ipx_address` gives.
fn written_place_in(alloc: Global, table: &Table, number: usize) -> Result<Address, ConfigError>
    ensures { Gives IsWrittenPlace Key.IpxAddress (table_view table.now) number result }
{
    match written_place(alloc, required(table, number, Key::IpxAddress)?)? {
        Some(at) => Ok(at),
        None => Err(ConfigError::Wrong(number, Key::IpxAddress)),
    }
}

/// The address of a service.
pub fn service_place_in(alloc: Global, table: &Table, number: usize) -> Result<Address, ConfigError>
    ensures place { IfOk result (IsServicePlace (table_view table.now)) }
    ensures fault { IfErr result (λ f. (f ≡ ConfigError.OutOfMemory)
        ⊎ IsServicePlaceFault (table_view table.now) number f) }
{
    let at = written_place_in(alloc, table, number)?;
    if !is_place_of_service(at) {
        return Err(ConfigError::Wrong(number, Key::IpxAddress));
    }
    Ok(at)
}
