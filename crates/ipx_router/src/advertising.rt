//! What a router advertises to its neighbours.

ghost use Rattle.std.specs.Prelude.{◌≡◌, ◌≤◌, true, length, map, OnErr, OnOk, IfOk, IfSome};
ghost use Rattle.ipx_tables.specs.Listing.{IsListing};
ghost use Rattle.ipx_tables.specs.Route.{network_cmp, route_before};
ghost use Rattle.ipx_tables.specs.Service.{service_before, service_key_cmp};
ghost use Rattle.ipx_router.specs.Advertisements.{AreAdvertisements, AreAdvertised, HasToTell, IsNextAdvertisement, TellsIfDue, is_due};
ghost use Rattle.ipx_router.specs.Knowledge.{HoldsKnown, Routes, Services, known_aged, known_in, routes_in, services_in};
ghost use Rattle.ipx_router.specs.Ports.{AreOnPorts, IsSound};
ghost use Rattle.ipx_router.specs.RouterPackets.{sendings};
ghost use Rattle.ipx_router.specs.AdvertisedEntries.{advertised_service};
ghost use Rattle.ipx_router.specs.Adding.{AddsPackets, AreBodiesOf};

use crate::advertised::{add_advertised_services, bodies_advertised_alike, routes_as_advertised};
use crate::outcome::Reply;
use crate::packets::{add_route_packets, everyone};
use crate::port::{Port, PortNow};
use ipx_tables::{
    RouteMetric, RouteTable, ServiceKey, ServiceMetric, ServiceTable, Source, one_best,
};
use ipx_wire::{Network, OutOfMemory, Socket};
use std::alloc::Global;

/// The time between two advertisements, in milliseconds.
const PERIOD: u64 = 60_000;

/// Whether an advertisement is due.
fn is_time(told: Option<u64>, now: u64) -> bool
    ensures { result ≡ is_due told now }
{
    match told {
        None => true,
        Some(last) => now.saturating_sub(last) >= PERIOD,
    }
}

/// The time at which the next advertisement is due.
pub fn next_time(told: Option<u64>) -> Option<u64>
    ensures { IsNextAdvertisement told result }
{
    match told {
        None => Some(0),
        Some(last) => last.checked_add(PERIOD),
    }
}

/// Adds the packets that advertise the learned routes and services on a port.
fn tell_on(
    alloc: Global,
    told: &mut Vec<Reply>,
    ports: &[Port],
    heard_routes: &[(Network, Source, RouteMetric)],
    heard_services: &[(ServiceKey, Source, ServiceMetric)],
    bodies: &Option<Vec<Vec<u8>>>,
    at: PortNow,
) -> Result<(), OutOfMemory>
    requires { IfSome bodies.now (λ v.
        AreBodiesOf (map advertised_service heard_services.now) v.items) }
    ensures { OnOk result ((routes : Routes) (services : Services)
        → IsListing network_cmp route_before routes at.now heard_routes.now
        → IsListing service_key_cmp service_before services at.now heard_services.now
        → AddsPackets (AreAdvertised ports.now routes services at) told.old.items told.new.items) }
{
    let known_routes = routes_as_advertised(alloc, ports, heard_routes, at)?;
    let for_routes = everyone(at.number, at.port, Socket::RIP);
    add_route_packets(alloc, told, for_routes, &known_routes)?;
    one_best::<ServiceKey, ServiceMetric>();
    add_advertised_services(alloc, told, heard_services, bodies, at)
}

/// The packets that advertise the learned routes and services on each port.
fn tell_heard(
    alloc: Global,
    ports: &[Port],
    heard_routes: &[(Network, Source, RouteMetric)],
    heard_services: &[(ServiceKey, Source, ServiceMetric)],
    bodies: &Option<Vec<Vec<u8>>>,
    now: u64,
) -> Result<Vec<Reply>, OutOfMemory>
    requires ports { length ports.now ≤ 16 }
    requires bodies { IfSome bodies.now (λ v.
        AreBodiesOf (map advertised_service heard_services.now) v.items) }
    ensures { IfOk result (λ v. (routes : Routes) (services : Services)
        → IsListing network_cmp route_before routes now heard_routes.now
        → IsListing service_key_cmp service_before services now heard_services.now
        → AreAdvertisements ports.now routes services now 1 ports.now (sendings v.items)) }
{
    let mut told = Vec::new(alloc);
    for (i, port) in ports.iter().enumerate() {
        let at = PortNow {
            number: i as u8 + 1,
            port: *port,
            now,
        };
        tell_on(
            alloc,
            &mut told,
            ports,
            heard_routes,
            heard_services,
            bodies,
            at,
        )?;
    }
    Ok(told)
}

/// The packets that advertise routes and services on each port. Each table is listed once for all
/// ports. Services that several ports advertise unchanged are written once.
fn tell_each(
    alloc: Global,
    ports: &[Port],
    routes: &RouteTable,
    services: &ServiceTable,
    now: u64,
) -> Result<Vec<Reply>, OutOfMemory>
    requires { length ports.now ≤ 16 }
    ensures tells { IfOk result (λ v. AreAdvertisements ports.now
        (routes_in routes.now) (services_in services.now) now 1 ports.now (sendings v.items)) }
    ensures there { IfOk result (λ v. AreOnPorts (length ports.now) (sendings v.items)) }
{
    let Ok(heard_routes) = routes.list(alloc, now) else {
        return Err(OutOfMemory);
    };
    let Ok(heard_services) = services.list(alloc, now) else {
        return Err(OutOfMemory);
    };
    let bodies = bodies_advertised_alike(alloc, ports.len() as u8, &heard_services)?;
    tell_heard(alloc, ports, &heard_routes, &heard_services, &bodies, now)
}

/// The packets that advertise routes and services on all ports. If there is one port, there is
/// nothing to advertise, since all routes and services are reached by it.
fn tell_all(
    alloc: Global,
    ports: &[Port],
    routes: &RouteTable,
    services: &ServiceTable,
    now: u64,
) -> Result<Vec<Reply>, OutOfMemory>
    requires { IsSound ports.now (routes.now, services.now) }
    ensures tells { IfOk result (λ v. AreAdvertisements ports.now
        (routes_in routes.now) (services_in services.now) now 1 ports.now (sendings v.items)) }
    ensures refused { OnErr result (HasToTell (known_in ports.now routes.now services.now) now) }
    ensures there { IfOk result (λ v. AreOnPorts (length ports.now) (sendings v.items)) }
{
    if ports.len() < 2 {
        return Ok(Vec::new(alloc));
    }
    tell_each(alloc, ports, routes, services, now)
}

/// The packets that advertise to the neighbours, if an advertisement is due. It also updates the
/// time of the last advertisement. Old offers are removed first, and stay removed whatever the
/// answer is.
pub fn tell_at(
    alloc: Global,
    ports: &[Port],
    routes: &mut RouteTable,
    services: &mut ServiceTable,
    told: &mut Option<u64>,
    now: u64,
) -> Result<Vec<Reply>, OutOfMemory>
    requires { IsSound ports.now (routes.old, services.old) }
    ensures tells { IfOk result (λ v.
        TellsIfDue (known_aged ports.now routes.old services.old now) told.old now
        (sendings v.items) told.new) }
    ensures refused { OnErr result ((is_due told.old now ≡ true)
        × HasToTell (known_aged ports.now routes.old services.old now) now
        × (told.new ≡ told.old)) }
    ensures known { HoldsKnown (known_aged ports.now routes.old services.old now)
        (routes.new, services.new) }
    ensures there { IfOk result (λ v. AreOnPorts (length ports.now) (sendings v.items)) }
    ensures capacity { (routes.new.capacity ≡ routes.old.capacity) × (services.new.capacity ≡ services.old.capacity) }
    ensures sound { IsSound ports.now (routes.new, services.new) }
{
    routes.age(now);
    services.age(now);
    if !is_time(*told, now) {
        return Ok(Vec::new(alloc));
    }
    let replies = tell_all(alloc, ports, routes, services, now)?;
    *told = Some(now);
    Ok(replies)
}
