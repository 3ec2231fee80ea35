//! What a router advertises on a port.

ghost use Rattle.std.specs.Prelude.{◌≡◌, ◌<◌, ◌≤◌, OnOk, OnErr, IfErr, IfOk, IfSome, Some, None, false, length, map, ◌==◌};
ghost use Rattle.std.specs.List.{list_any};
ghost use Rattle.ipx_wire.specs.Assigned.{sap_socket};
ghost use Rattle.ipx_tables.specs.Sorted.{IsAtKey, IsGapFor, IsRising};
ghost use Rattle.ipx_tables.specs.Listing.{IsListing};
ghost use Rattle.ipx_tables.specs.Route.{network_cmp, route_before};
ghost use Rattle.ipx_router.specs.Knowledge.{Routes, routes_in};
ghost use Rattle.ipx_router.specs.RouterPackets.{AreServicePackets, all_nodes};
ghost use Rattle.ipx_router.specs.Adding.{AddsPackets, AreBodiesOf};
ghost use Rattle.ipx_router.specs.AdvertisedEntries.{AreAdvertisedRoutes, IsAdvertisedRoute, route_key, advertised_route, advertised_service};
ghost use Rattle.ipx_router.specs.Placing.{AddsHeard, AreAdvertisedPorts, IsAdvertisedPort, PutsEntry, is_advertised_item, is_advertised_port, advertised_of_other_ports};
ghost use Rattle.ipx_router.specs.Picking.{IsAdvertisedOf};

use crate::bodies::{add_bodies, service_bodies};
use crate::networks::direct_port;
use crate::outcome::Reply;
use crate::packets::{add_service_packets, everyone};
use crate::port::{Port, PortNow};
use crate::route::route_to;
use ipx_control::{RipEntry, ServiceEntry};
use ipx_tables::{Metric, RouteMetric, RouteTable, ServiceKey, ServiceMetric, Source, one_best};
use ipx_wire::{Network, OutOfMemory, Socket};
use std::alloc::Global;

/// The fewest ports that advertise all services for which the bodies are written once and copied. A
/// copy of a body costs half as much as to write it again.
const FEWEST_ALIKE: u8 = 3;

/// A route as it is advertised on a port.
pub fn advertised_entry(network: Network, metric: RouteMetric, at: PortNow) -> RipEntry
    ensures { result ≡ advertised_route network metric at }
{
    let onward = metric.one_more();
    RipEntry {
        network,
        hops: onward.hops,
        ticks: onward.ticks.saturating_add(at.port.cost),
    }
}

/// The index of the entry of a network, or the index where it would be inserted.
fn place_of(told: &[RipEntry], network: Network) -> Result<usize, usize>
    requires { IsRising network_cmp route_key told.now }
    ensures found { IfOk result (IsAtKey network_cmp route_key told.now network) }
    ensures absent { IfErr result (IsGapFor network_cmp route_key told.now network) }
{
    told.binary_search_by(|held| held.network.cmp(&network))
}

/// Inserts an entry in order, unless there is one of its network.
fn put_entry(told: &mut Vec<RipEntry>, entry: RipEntry) -> Result<(), OutOfMemory>
    requires { IsRising network_cmp route_key told.old.items }
    ensures { OnOk result (PutsEntry told.old.items entry told.new.items) }
{
    match place_of(told, entry.network) {
        Ok(_) => Ok(()),
        Err(place) => {
            told.insert(place, entry)?;
            Ok(())
        }
    }
}

/// Whether the network is that of another port.
fn is_over_other_port(ports: &[Port], network: Network, at: PortNow) -> bool
    ensures { result ≡ is_advertised_port ports.now at network }
{
    direct_port(ports, network).is_some_and(|place| place + 1 != at.number as usize)
}

/// The networks of the other ports, as they are advertised.
pub fn advertised_ports(
    alloc: Global,
    ports: &[Port],
    at: PortNow,
) -> Result<Vec<RipEntry>, OutOfMemory>
    ensures told { IfOk result (λ v. AreAdvertisedPorts ports.now at (length ports.now) v.items) }
    ensures refused { OnErr result ((x : RipEntry) × IsAdvertisedPort ports.now at x) }
{
    let mut told = Vec::new(alloc);
    for port in ports {
        if is_over_other_port(ports, port.network, at) {
            let metric = RouteMetric { ticks: 0, hops: 0 };
            put_entry(&mut told, advertised_entry(port.network, metric, at))?;
        }
    }
    Ok(told)
}

/// Whether the best offer of a network is its route and came by another port.
pub fn is_over_other_neighbour(
    ports: &[Port],
    item: (Network, Source, RouteMetric),
    at: PortNow,
) -> bool
    ensures { result ≡ is_advertised_item ports.now at item }
{
    direct_port(ports, item.0).is_none() && item.1.port != at.number
}

/// Adds the best offers that came by another port.
fn add_heard(
    told: &mut Vec<RipEntry>,
    ports: &[Port],
    heard: &[(Network, Source, RouteMetric)],
    at: PortNow,
) -> Result<(), OutOfMemory>
    requires { IsRising network_cmp route_key told.old.items }
    ensures { OnOk result (AddsHeard ports.now at heard.now (length heard.now)
        told.old.items told.new.items) }
{
    for item in heard {
        if is_over_other_neighbour(ports, *item, at) {
            put_entry(told, advertised_entry(item.0, item.2, at))?;
        }
    }
    Ok(())
}

/// The learned routes that are advertised on a port, in the order of their networks.
pub fn routes_as_advertised(
    alloc: Global,
    ports: &[Port],
    heard: &[(Network, Source, RouteMetric)],
    at: PortNow,
) -> Result<Vec<RipEntry>, OutOfMemory>
    ensures { IfOk result (λ v. (routes : Routes)
        → IsListing network_cmp route_before routes at.now heard.now
        → AreAdvertisedRoutes ports.now routes at v.items) }
{
    let mut told = advertised_ports(alloc, ports, at)?;
    add_heard(&mut told, ports, heard, at)?;
    one_best::<Network, RouteMetric>();
    Ok(told)
}

/// What is advertised on a port of a network: its route, unless that leaves by the port.
pub fn told_of(
    ports: &[Port],
    routes: &RouteTable,
    network: Network,
    at: PortNow,
) -> Option<RipEntry>
    requires { length ports.now ≤ 16 }
    ensures { IsAdvertisedOf (IsAdvertisedRoute ports.now (routes_in routes.now) at) network result }
{
    one_best::<Network, RouteMetric>();
    let Some(route) = route_to(ports, routes, network, at.now) else {
        return None;
    };
    if route.port == at.number {
        return None;
    }
    Some(advertised_entry(network, route.metric, at))
}

/// A service as it is advertised.
pub fn advertised_service_of(item: &(ServiceKey, Source, ServiceMetric)) -> ServiceEntry
    ensures { result ≡ advertised_service item.now }
{
    let onward = item.2.one_more();
    ServiceEntry {
        kind: item.0.kind,
        name: item.0.name,
        at: onward.at,
        hops: onward.hops,
    }
}

/// The services that came by another port, as they are advertised.
fn services_by_other_ports(
    alloc: Global,
    heard: &[(ServiceKey, Source, ServiceMetric)],
    at: PortNow,
) -> Result<Vec<ServiceEntry>, OutOfMemory>
    ensures { IfOk result (λ v. v.items ≡ advertised_of_other_ports at.number heard.now) }
{
    let told = heard
        .iter()
        .filter(|item| item.1.port != at.number)
        .map(advertised_service_of)
        .collect::<Vec<ServiceEntry>>(alloc)?;
    Ok(told)
}

/// All learned services, as they are advertised on a port by which none of them came.
fn all_services_as_advertised(
    alloc: Global,
    heard: &[(ServiceKey, Source, ServiceMetric)],
) -> Result<Vec<ServiceEntry>, OutOfMemory>
    ensures { IfOk result (λ v. v.items ≡ map advertised_service heard.now) }
{
    let told = heard
        .iter()
        .map(advertised_service_of)
        .collect::<Vec<ServiceEntry>>(alloc)?;
    Ok(told)
}

/// Whether one of these services came by a port.
fn is_heard_at(heard: &[(ServiceKey, Source, ServiceMetric)], number: u8) -> bool
    ensures { result ≡ list_any (λ item. item.1.port == number) heard.now }
{
    heard.iter().any(|item| item.1.port == number)
}

/// The number of ports by which none of these services came. It serves speed only: the packets are
/// the same, whatever the number is.
fn count_ports_without(ports: u8, heard: &[(ServiceKey, Source, ServiceMetric)]) -> u8
    ensures { result ≤ ports }
{
    let mut count = 0;
    for port in 0..ports {
        if !is_heard_at(heard, port + 1) {
            count += 1;
        }
    }
    count
}

/// The bodies of the packets of all services, or `None` if too few of the ports advertise all of
/// them for that to be faster.
pub fn bodies_advertised_alike(
    alloc: Global,
    ports: u8,
    heard: &[(ServiceKey, Source, ServiceMetric)],
) -> Result<Option<Vec<Vec<u8>>>, OutOfMemory>
    ensures { IfOk result (λ bodies. IfSome bodies (λ v.
        AreBodiesOf (map advertised_service heard.now) v.items)) }
{
    if count_ports_without(ports, heard) < FEWEST_ALIKE {
        return Ok(None);
    }
    let services = all_services_as_advertised(alloc, heard)?;
    let bodies = service_bodies(alloc, &services)?;
    Ok(Some(bodies))
}

/// Adds the packets that advertise on a port the services that came by another one. If none came by
/// this port, it uses the bodies.
pub fn add_advertised_services(
    alloc: Global,
    told: &mut Vec<Reply>,
    heard: &[(ServiceKey, Source, ServiceMetric)],
    bodies: &Option<Vec<Vec<u8>>>,
    at: PortNow,
) -> Result<(), OutOfMemory>
    requires { IfSome bodies.now (λ v. AreBodiesOf (map advertised_service heard.now) v.items) }
    ensures { OnOk result (AddsPackets (AreServicePackets (all_nodes at.number at.port sap_socket)
        false (advertised_of_other_ports at.number heard.now)) told.old.items told.new.items) }
{
    let to = everyone(at.number, at.port, Socket::SAP);
    if let Some(bodies) = bodies {
        if !is_heard_at(heard, at.number) {
            return add_bodies(alloc, told, to, bodies);
        }
    }
    let services = services_by_other_ports(alloc, heard, at)?;
    add_service_packets(alloc, told, to, false, &services)
}
