//! The entries that are taken back at a port.

ghost use Rattle.std.specs.Prelude.{◌≡◌, IfOk, map};
ghost use Rattle.ipx_router.specs.AdvertisedEntries.{advertised_route, advertised_service};
ghost use Rattle.ipx_router.specs.Placing.{advertised_of_other_ports, is_advertised_item, is_advertised_port, no_way};
ghost use Rattle.ipx_router.specs.RouteChoice.{direct_route};
ghost use Rattle.ipx_farewell.specs.Farewell.{advertised_networks, gone_route, gone_service, networks_by_others, networks_of_others, port_at};

use crate::speaker::Speaker;
use ipx_control::{RipEntry, ServiceEntry};
use ipx_router::Port;
use ipx_tables::{Metric, RouteMetric, ServiceKey, ServiceMetric, Source};
use ipx_wire::{Network, OutOfMemory};
use std::alloc::Global;

/// The hops of what is unreachable.
const UNREACHABLE: u16 = 16;

/// The index of the port that is on this network.
fn direct_port(ports: &[Port], network: Network) -> Option<usize>
    ensures { result ≡ direct_route ports.now network }
{
    ports.iter().position(|port| port.network == network)
}

/// Whether the network is that of another port.
fn is_of_other(ports: &[Port], network: Network, at: Speaker) -> bool
    ensures { result ≡ is_advertised_port ports.now (port_at at.number at.port 0) network }
{
    direct_port(ports, network).is_some_and(|place| place + 1 != at.number as usize)
}

/// Whether the best offer of a network is its route, and came by another port.
fn is_by_other(ports: &[Port], item: &(Network, Source, RouteMetric), at: Speaker) -> bool
    ensures { result ≡ is_advertised_item ports.now (port_at at.number at.port 0) item.now }
{
    direct_port(ports, item.0).is_none() && item.1.port != at.number
}

/// A route as it was advertised on a port.
fn advertised_entry(network: Network, metric: RouteMetric, at: Speaker) -> RipEntry
    ensures { result ≡ advertised_route network metric (port_at at.number at.port 0) }
{
    let onward = metric.one_more();
    RipEntry {
        network,
        hops: onward.hops,
        ticks: onward.ticks.saturating_add(at.port.cost),
    }
}

/// The networks of the other ports, as they were advertised.
fn networks_of_others(
    alloc: Global,
    ports: &[Port],
    at: Speaker,
) -> Result<Vec<RipEntry>, OutOfMemory>
    ensures { IfOk result (λ v. v.items ≡ networks_of_others ports.now at.number at.port) }
{
    let here = RouteMetric { ticks: 0, hops: 0 };
    let told = ports
        .iter()
        .filter(|port| is_of_other(ports, port.network, at))
        .map(|port| advertised_entry(port.network, here, at))
        .collect::<Vec<RipEntry>>(alloc)?;
    Ok(told)
}

/// The networks whose best offers came by another port, as they were advertised.
fn networks_by_others(
    alloc: Global,
    ports: &[Port],
    heard: &[(Network, Source, RouteMetric)],
    at: Speaker,
) -> Result<Vec<RipEntry>, OutOfMemory>
    ensures { IfOk result (λ v.
        v.items ≡ networks_by_others ports.now at.number at.port heard.now) }
{
    let told = heard
        .iter()
        .filter(|item| is_by_other(ports, item, at))
        .map(|item| advertised_entry(item.0, item.2, at))
        .collect::<Vec<RipEntry>>(alloc)?;
    Ok(told)
}

/// All networks that were advertised on a port.
fn advertised_networks(
    alloc: Global,
    ports: &[Port],
    heard: &[(Network, Source, RouteMetric)],
    at: Speaker,
) -> Result<Vec<RipEntry>, OutOfMemory>
    ensures { IfOk result (λ v.
        v.items ≡ advertised_networks ports.now at.number at.port heard.now) }
{
    let mut told = networks_of_others(alloc, ports, at)?;
    let others = networks_by_others(alloc, ports, heard, at)?;
    told.extend_from_slice(&others)?;
    Ok(told)
}

fn gone_route(entry: &RipEntry) -> RipEntry
    ensures { result ≡ gone_route entry.now }
{
    RipEntry {
        network: entry.network,
        hops: UNREACHABLE,
        ticks: entry.ticks,
    }
}

/// The networks that are taken back at a port.
pub fn gone_networks(
    alloc: Global,
    ports: &[Port],
    heard: &[(Network, Source, RouteMetric)],
    at: Speaker,
) -> Result<Vec<RipEntry>, OutOfMemory>
    ensures { IfOk result (λ v. v.items
        ≡ map gone_route (advertised_networks ports.now at.number at.port heard.now)) }
{
    let told = advertised_networks(alloc, ports, heard, at)?;
    let gone = told.iter().map(gone_route).collect::<Vec<RipEntry>>(alloc)?;
    Ok(gone)
}

/// A service as it was advertised.
fn advertised_service_of(item: &(ServiceKey, Source, ServiceMetric)) -> ServiceEntry
    ensures { result ≡ advertised_service item.now }
{
    let onward = item.2.one_more();
    ServiceEntry {
        kind: item.0.kind,
        name: item.0.name,
        at: onward.at,
        hops: onward.hops,
    }
}

/// The services that came by another port, as they were advertised.
fn advertised_services(
    alloc: Global,
    heard: &[(ServiceKey, Source, ServiceMetric)],
    at: Speaker,
) -> Result<Vec<ServiceEntry>, OutOfMemory>
    ensures { IfOk result (λ v. v.items ≡ advertised_of_other_ports at.number heard.now) }
{
    let told = heard
        .iter()
        .filter(|item| item.1.port != at.number)
        .map(advertised_service_of)
        .collect::<Vec<ServiceEntry>>(alloc)?;
    Ok(told)
}

fn gone_service(entry: &ServiceEntry) -> ServiceEntry
    ensures { result ≡ gone_service entry.now }
{
    ServiceEntry {
        kind: entry.kind,
        name: entry.name,
        at: entry.at,
        hops: UNREACHABLE,
    }
}

/// The services that are taken back at a port.
pub fn gone_services(
    alloc: Global,
    heard: &[(ServiceKey, Source, ServiceMetric)],
    at: Speaker,
) -> Result<Vec<ServiceEntry>, OutOfMemory>
    ensures { IfOk result (λ v.
        v.items ≡ map gone_service (advertised_of_other_ports at.number heard.now)) }
{
    let told = advertised_services(alloc, heard, at)?;
    let gone = told
        .iter()
        .map(gone_service)
        .collect::<Vec<ServiceEntry>>(alloc)?;
    Ok(gone)
}
