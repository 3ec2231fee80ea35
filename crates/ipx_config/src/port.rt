//! The table of a port.

ghost use Rattle.std.specs.Prelude.{◌≡◌, ◌⊎◌, IfErr, IfOk};
ghost use Rattle.toml.specs.View.{table_view};
ghost use Rattle.ipx_config.specs.EthernetTable.{IsEthernetFault, IsEthernetTable, IsKindFault, IsPortOfKind};
ghost use Rattle.ipx_config.specs.Port.{IsPortTable, IsPortFault};

use crate::ethernet_fields::{encapsulation_in, flag_in, remotes_in, station_in};
use crate::ethernet_values::{station_at, usual_udp_port};
use crate::fault::ConfigError;
use crate::fields::{
    accept_in, address_in, count_in, directed_in, kind_in, network_in, peers_in, port_routers_in,
    refuse_stray,
};
use crate::ipxnet_fields::ipxnet_port_in;
use crate::key::Key;
use crate::site::{EthernetPortConfig, Kind, PortConfig, Rfc1234PortConfig};
use crate::tunnel_fields::{tunnel_in, udp_port_in};
use ipx_carrier::{UDP_PORT, socket_addr};
use std::alloc::Global;
use toml::Table;

/// The RFC 1234 port that the table with this number describes.
fn rfc1234_port(
    alloc: Global,
    table: &Table,
    number: usize,
) -> Result<Rfc1234PortConfig, ConfigError>
    ensures port { IfOk result (IsPortTable (table_view table.now)) }
    ensures fault { IfErr result (λ f.
        (f ≡ ConfigError.OutOfMemory) ⊎ IsPortFault number (table_view table.now) f) }
{
    refuse_stray(alloc, table, number, Kind::Rfc1234)?;
    let network = network_in(table, number)?;
    let address = address_in(table, number, Key::Address)?;
    let udp_port = count_in(table, number, Key::UdpPort, 65535, UDP_PORT)?;
    let cost = count_in(table, number, Key::Cost, 65535, 1)?;
    let peers = peers_in(alloc, table, number)?;
    let routers = port_routers_in(alloc, table, number, &peers)?;
    let accept = accept_in(table, number)?;
    let directed = directed_in(table, number)?;
    Ok(Rfc1234PortConfig {
        network,
        address,
        udp_port,
        cost,
        peers,
        routers,
        accept,
        directed,
    })
}

/// The Ethernet port that the table with this number describes.
fn ethernet_port(
    alloc: Global,
    table: &Table,
    number: usize,
) -> Result<EthernetPortConfig, ConfigError>
    ensures port { IfOk result (IsEthernetTable (table_view table.now)) }
    ensures fault { IfErr result (λ f.
        (f ≡ ConfigError.OutOfMemory) ⊎ IsEthernetFault number (table_view table.now) f) }
{
    refuse_stray(alloc, table, number, Kind::Ethernet)?;
    let network = network_in(table, number)?;
    let encapsulation = encapsulation_in(table, number)?;
    let address = address_in(table, number, Key::Address)?;
    let tunnel = tunnel_in(table, number)?;
    let udp_port = udp_port_in(table, number, usual_udp_port(tunnel))?;
    let cost = count_in(table, number, Key::Cost, 65535, 1)?;
    let own = socket_addr(address, udp_port);
    let remotes = remotes_in(alloc, table, number, tunnel, own)?;
    let made = station_at(address, udp_port);
    let node = station_in(table, number, made)?;
    let switched = flag_in(table, number, Key::Switch, true)?;
    let directed = directed_in(table, number)?;
    Ok(EthernetPortConfig {
        network,
        encapsulation,
        address,
        tunnel,
        udp_port,
        cost,
        remotes,
        node,
        switched,
        directed,
    })
}

/// The port that the table with this number describes.
pub fn port_of(alloc: Global, table: &Table, number: usize) -> Result<PortConfig, ConfigError>
    ensures port { IfOk result (IsPortOfKind (table_view table.now)) }
    ensures fault { IfErr result (λ f.
        (f ≡ ConfigError.OutOfMemory) ⊎ IsKindFault number (table_view table.now) f) }
{
    match kind_in(table, number)? {
        Kind::Rfc1234 => Ok(PortConfig::Rfc1234(rfc1234_port(alloc, table, number)?)),
        Kind::Ethernet => Ok(PortConfig::Ethernet(ethernet_port(alloc, table, number)?)),
        Kind::Ipxnet => Ok(PortConfig::Ipxnet(ipxnet_port_in(alloc, table, number)?)),
    }
}
