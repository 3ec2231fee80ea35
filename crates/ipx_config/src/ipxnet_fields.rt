//! The table of an ipxnet port.

ghost use Rattle.std.specs.Prelude.{◌≡◌, ◌⊎◌, IfErr, IfOk};
ghost use Rattle.toml.specs.View.{table_view};
ghost use Rattle.ipx_config.specs.IpxnetTable.{AreJoinedRouters, ArePeersFor, IsIpxnetFault, IsIpxnetTable, IsJoinFault, IsPeersFault};

use crate::ethernet_fields::station_in;
use crate::ethernet_values::{are_distinct, ends_of, station_at};
use crate::fault::ConfigError;
use crate::fields::{
    accept_in, any_or_address_in, count_in, directed_in, held, network_in, refuse_stray,
};
use crate::ipxnet_peers::peers_of;
use crate::ipxnet_port::{IpxnetPortConfig, Peer};
use crate::key::Key;
use crate::site::{Accept, Kind};
use ipx_carrier::UDP_PORT;
use std::alloc::Global;
use std::net::SocketAddrV4;
use toml::Table;

/// The most clients that a file may allow at an ipxnet port, and the default.
const MAX_CLIENTS: u16 = 150;

const USUAL_CLIENTS: u16 = 64;

/// The peers that may register at a port. The key may be absent if everybody may register.
fn registering_in(
    alloc: Global,
    table: &Table,
    number: usize,
    accept: Accept,
) -> Result<Vec<Peer>, ConfigError>
    ensures peers { IfOk result (ArePeersFor accept (table_view table.now)) }
    ensures fault { IfErr result (λ f. (f ≡ ConfigError.OutOfMemory)
        ⊎ IsPeersFault accept (table_view table.now) number f) }
{
    let Some(value) = held(table, Key::Peers) else {
        return match accept {
            Accept::Any => Ok(Vec::new(alloc)),
            Accept::Peers => Err(ConfigError::Missing(number, Key::Peers)),
        };
    };
    match peers_of(alloc, value)? {
        Some(peers) => Ok(peers),
        None => Err(ConfigError::Wrong(number, Key::Peers)),
    }
}

/// The routers whose ipxnet servers are joined with that of a port, each listed once. There are
/// none if the key is absent.
fn joined_routers_in(
    alloc: Global,
    table: &Table,
    number: usize,
) -> Result<Vec<SocketAddrV4>, ConfigError>
    ensures join { IfOk result (AreJoinedRouters (table_view table.now)) }
    ensures fault { IfErr result (λ f.
        (f ≡ ConfigError.OutOfMemory) ⊎ IsJoinFault (table_view table.now) number f) }
{
    let Some(value) = held(table, Key::Join) else {
        return Ok(Vec::new(alloc));
    };
    let Some(routers) = ends_of(alloc, None, value)? else {
        return Err(ConfigError::Wrong(number, Key::Join));
    };
    if are_distinct(&routers) {
        Ok(routers)
    } else {
        Err(ConfigError::Wrong(number, Key::Join))
    }
}

/// The ipxnet port that the table with this number describes.
pub fn ipxnet_port_in(
    alloc: Global,
    table: &Table,
    number: usize,
) -> Result<IpxnetPortConfig, ConfigError>
    ensures port { IfOk result (IsIpxnetTable (table_view table.now)) }
    ensures fault { IfErr result (λ f.
        (f ≡ ConfigError.OutOfMemory) ⊎ IsIpxnetFault number (table_view table.now) f) }
{
    refuse_stray(alloc, table, number, Kind::Ipxnet)?;
    let network = network_in(table, number)?;
    let address = any_or_address_in(table, number)?;
    let udp_port = count_in(table, number, Key::UdpPort, 65535, UDP_PORT)?;
    let cost = count_in(table, number, Key::Cost, 65535, 1)?;
    let made = station_at(address, udp_port);
    let node = station_in(table, number, made)?;
    let clients = count_in(table, number, Key::Clients, MAX_CLIENTS, USUAL_CLIENTS)?;
    let accept = accept_in(table, number)?;
    let peers = registering_in(alloc, table, number, accept)?;
    let join = joined_routers_in(alloc, table, number)?;
    let directed = directed_in(table, number)?;
    Ok(IpxnetPortConfig {
        network,
        address,
        udp_port,
        cost,
        node,
        clients,
        accept,
        peers,
        join,
        directed,
    })
}
