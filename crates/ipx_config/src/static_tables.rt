//! The tables of static routes and services.

ghost use Rattle.std.specs.Prelude.{◌≡◌, ◌⊎◌, IfErr, IfOk};
ghost use Rattle.toml.specs.View.{table_view};
ghost use Rattle.ipx_config.specs.StaticTables.{IsEntryFault, IsEntryTable, IsOffered, IsOfferedFault, IsPath, IsPathFault, IsRouteFault, IsRouteTable, IsServiceFault, IsServiceTable};

use crate::fault::ConfigError;
use crate::fields::{count_in, refuse_unknown};
use crate::key::Key;
use crate::site::PortConfig;
use crate::static_fields::{
    next_hop_in, remote_network_in, service_name_in, service_place_in, service_type_in,
};
use crate::statics::{StaticEntry, StaticItem, StaticKind};
use ipx_control::{RipEntry, ServiceEntry};
use std::alloc::Global;
use toml::Table;

/// The keys of a route, in the order in which their faults are reported.
const ROUTE_KEYS: [Key; 5] = [Key::Port, Key::NextHop, Key::Network, Key::Hops, Key::Ticks];

/// The keys of a service, in the order in which their faults are reported.
const SERVICE_KEYS: [Key; 6] = [
    Key::Port,
    Key::NextHop,
    Key::ServiceType,
    Key::Name,
    Key::IpxAddress,
    Key::Hops,
];

/// The most hops of a static entry: the router itself adds one more.
const MAX_HOPS: u16 = 14;

/// The route that a table gives. By default its ticks are the cost of sending to the next hop.
fn path_in(
    table: &Table,
    number: usize,
    ports: &[PortConfig],
    cost: u16,
) -> Result<RipEntry, ConfigError>
    ensures path { IfOk result (IsPath ports.now (table_view table.now) cost) }
    ensures fault { IfErr result (λ f. (f ≡ ConfigError.OutOfMemory)
        ⊎ IsPathFault ports.now (table_view table.now) number f) }
{
    let network = remote_network_in(table, number, ports)?;
    let hops = count_in(table, number, Key::Hops, MAX_HOPS, 1)?;
    let ticks = count_in(table, number, Key::Ticks, 65535, cost)?;
    Ok(RipEntry {
        network,
        hops,
        ticks,
    })
}

/// The service that a table gives.
fn offered_in(alloc: Global, table: &Table, number: usize) -> Result<ServiceEntry, ConfigError>
    ensures offered { IfOk result (IsOffered (table_view table.now)) }
    ensures fault { IfErr result (λ f. (f ≡ ConfigError.OutOfMemory)
        ⊎ IsOfferedFault (table_view table.now) number f) }
{
    let kind = service_type_in(table, number)?;
    let name = service_name_in(table, number)?;
    let at = service_place_in(alloc, table, number)?;
    let hops = count_in(table, number, Key::Hops, MAX_HOPS, 1)?;
    Ok(ServiceEntry {
        kind,
        name,
        at,
        hops,
    })
}

/// The route of the table with this number.
fn route_in(
    alloc: Global,
    table: &Table,
    number: usize,
    ports: &[PortConfig],
) -> Result<StaticEntry, ConfigError>
    ensures entry { IfOk result (IsRouteTable ports.now (table_view table.now)) }
    ensures fault { IfErr result (λ f. (f ≡ ConfigError.OutOfMemory)
        ⊎ IsRouteFault ports.now (table_view table.now) number f) }
{
    refuse_unknown(alloc, table, number, &ROUTE_KEYS)?;
    let near = next_hop_in(table, number, ports)?;
    let route = path_in(table, number, ports, near.cost)?;
    Ok(StaticEntry {
        by: near.by,
        word: StaticItem::Route(route),
    })
}

/// The service of the table with this number.
fn service_in(
    alloc: Global,
    table: &Table,
    number: usize,
    ports: &[PortConfig],
) -> Result<StaticEntry, ConfigError>
    ensures entry { IfOk result (IsServiceTable ports.now (table_view table.now)) }
    ensures fault { IfErr result (λ f. (f ≡ ConfigError.OutOfMemory)
        ⊎ IsServiceFault ports.now (table_view table.now) number f) }
{
    refuse_unknown(alloc, table, number, &SERVICE_KEYS)?;
    let near = next_hop_in(table, number, ports)?;
    let service = offered_in(alloc, table, number)?;
    Ok(StaticEntry {
        by: near.by,
        word: StaticItem::Service(service),
    })
}

/// The entry of the table of this kind with this number.
pub fn entry_in(
    alloc: Global,
    kind: StaticKind,
    table: &Table,
    number: usize,
    ports: &[PortConfig],
) -> Result<StaticEntry, ConfigError>
    ensures entry { IfOk result (IsEntryTable kind ports.now (table_view table.now)) }
    ensures fault { IfErr result (λ f. (f ≡ ConfigError.OutOfMemory)
        ⊎ IsEntryFault kind ports.now (table_view table.now) number f) }
{
    match kind {
        StaticKind::Route => route_in(alloc, table, number, ports),
        StaticKind::Service => service_in(alloc, table, number, ports),
    }
}
