//! Replies to a request for routes, and to a query for services.

ghost use Rattle.std.specs.Prelude.{◌≡◌, ◌≤◌, IfNone, IfOk, IfSome, List, OnErr, length, true, false};
ghost use Rattle.ipx_control.specs.declared.rip.packet.RipEntry.{RipEntry};
ghost use Rattle.ipx_router.specs.Knowledge.{routes_in, services_in};
ghost use Rattle.ipx_router.specs.RouterPackets.{AreRoutePackets, sendings};
ghost use Rattle.ipx_router.specs.AdvertisedEntries.{AreAdvertisedRoutes, IsAdvertisedRoute, IsAdvertisedService};
ghost use Rattle.ipx_router.specs.Replying.{IsNearest, NoneIsNear, AreRoutesAsked, RepliesRoutes, RepliesServices, asks_all, is_asked, is_near, is_nearer, is_of_kind};
ghost use Rattle.ipx_router.specs.Picking.{is_item_asked, nearer};
ghost use Rattle.ipx_router.specs.OutOfMemoryCases.{HasRouteToReply, HasToReply};

use crate::advertised::{
    advertised_entry, advertised_ports, advertised_service_of, is_over_other_neighbour, told_of,
};
use crate::outcome::Reply;
use crate::packets::{Recipient, add_route_packets, add_service_packets};
use crate::packing::{RoutePackets, ServicePackets};
use crate::port::{Port, PortNow};
use ipx_control::{RipEntries, RipEntry, ServiceEntry};
use ipx_tables::{
    RouteMetric, RouteTable, ServiceKey, ServiceMetric, ServiceTable, Source, one_best,
};
use ipx_wire::{Network, OutOfMemory};
use std::alloc::Global;

/// What is advertised of the networks that a request names, in the order of the request, or `None`
/// if it asks for all. Each network is looked up, and no list of all routes is made.
fn named_routes(
    alloc: Global,
    ports: &[Port],
    routes: &RouteTable,
    at: PortNow,
    asked: RipEntries<'_>,
) -> Result<Option<Vec<RipEntry>>, OutOfMemory>
    requires { length ports.now ≤ 16 }
    ensures all { IfOk result (λ named. IfNone named (asks_all asked.entry ≡ true)) }
    ensures named { IfOk result (λ named. IfSome named (λ v.
        AreRoutesAsked ports.now (routes_in routes.now) at asked.entry v.items)) }
    ensures refused { OnErr result
        (HasRouteToReply ports.now (routes_in routes.now) at asked.entry) }
{
    let mut told = Vec::new(alloc);
    for entry in asked {
        if entry.network == Network::ALL {
            return Ok(None);
        }
        if let Some(route) = told_of(ports, routes, entry.network, at) {
            told.push(route)?;
        }
    }
    Ok(Some(told))
}

/// The packets of all routes that are advertised on a port. The networks of the other ports are
/// merged in order into the best offers.
fn route_replies(
    alloc: Global,
    ports: &[Port],
    routes: &RouteTable,
    at: PortNow,
    to: Recipient,
) -> Result<Vec<Reply>, OutOfMemory>
    ensures replies { IfOk result (λ v. (entries : List RipEntry)
        × AreAdvertisedRoutes ports.now (routes_in routes.now) at entries
        × AreRoutePackets to entries (sendings v.items)) }
    ensures refused { OnErr result
        ((t : RipEntry) × IsAdvertisedRoute ports.now (routes_in routes.now) at t) }
{
    one_best::<Network, RouteMetric>();
    let own = advertised_ports(alloc, ports, at)?;
    let mut rest = own.as_slice();
    let mut packets = RoutePackets::new(alloc, to);
    for item in routes.bests(at.now) {
        if is_over_other_neighbour(ports, item, at) {
            let later = packets.put_below(alloc, rest, item.0)?;
            packets.put(alloc, advertised_entry(item.0, item.2, at))?;
            rest = later;
        }
    }
    packets.put_all(alloc, rest)?;
    packets.finish(alloc)
}

fn is_of_kind_asked(kind: u16, service: &ServiceEntry) -> bool
    ensures { result ≡ is_of_kind kind service.now }
{
    kind == 0xffff || service.kind == kind
}

fn is_near_of_kind(kind: u16, service: &ServiceEntry) -> bool
    ensures { result ≡ is_near kind service.now }
{
    is_of_kind_asked(kind, service) && service.hops < 16
}

fn is_nearer_than(a: &ServiceEntry, b: &ServiceEntry) -> bool
    ensures { result ≡ is_nearer a.now b.now }
{
    a.hops
        .cmp(&b.hops)
        .then(a.name.cmp(&b.name))
        .then(a.at.cmp(&b.at))
        .then(a.kind.cmp(&b.kind))
        .is_lt()
}

/// The nearer of a service and the held one, if there is one.
fn nearer_of(held: Option<ServiceEntry>, service: ServiceEntry) -> ServiceEntry
    ensures { result ≡ nearer held service }
{
    match held {
        None => service,
        Some(held) => {
            if is_nearer_than(&service, &held) {
                return service;
            }
            held
        }
    }
}

/// The nearest advertised service of a kind. It walks over the best offers and makes no list.
fn nearest_service(services: &ServiceTable, at: PortNow, kind: u16) -> Option<ServiceEntry>
    ensures found { IfSome result
        (IsNearest (IsAdvertisedService (services_in services.now) at) kind) }
    ensures none { IfNone result
        (NoneIsNear (IsAdvertisedService (services_in services.now) at) kind) }
{
    one_best::<ServiceKey, ServiceMetric>();
    let mut nearest: Option<ServiceEntry> = None;
    for item in services.bests(at.now) {
        if is_best_asked(item, at, true, kind) {
            nearest = Some(nearer_of(nearest, advertised_service_of(&item)));
        }
    }
    nearest
}

/// The packets that answer a request for routes. If no route is to be sent, nothing is allocated.
pub fn reply_routes(
    alloc: Global,
    ports: &[Port],
    routes: &RouteTable,
    at: PortNow,
    to: Recipient,
    asked: RipEntries<'_>,
) -> Result<Vec<Reply>, OutOfMemory>
    requires { length ports.now ≤ 16 }
    ensures replies { IfOk result (λ v.
        RepliesRoutes ports.now (routes_in routes.now) at to asked.entry (sendings v.items)) }
    ensures refused { OnErr result
        (HasRouteToReply ports.now (routes_in routes.now) at asked.entry) }
{
    let named = named_routes(alloc, ports, routes, at, asked)?;
    let Some(entries) = named else {
        return route_replies(alloc, ports, routes, at, to);
    };
    let mut replies = Vec::new(alloc);
    if entries.is_empty() {
        return Ok(replies);
    }
    add_route_packets(alloc, &mut replies, to, &entries)?;
    Ok(replies)
}

/// Whether a query asks for an advertised service.
fn is_asked_for(nearest: bool, kind: u16, service: &ServiceEntry) -> bool
    ensures { result ≡ is_asked nearest kind service.now }
{
    if nearest {
        return is_near_of_kind(kind, service);
    }
    is_of_kind_asked(kind, service)
}

/// Whether the best offer of a service came by another port and is asked for.
fn is_best_asked(
    item: (ServiceKey, Source, ServiceMetric),
    at: PortNow,
    nearest: bool,
    kind: u16,
) -> bool
    ensures { result ≡ is_item_asked at nearest kind item }
{
    let service = advertised_service_of(&item);
    item.1.port != at.number && is_asked_for(nearest, kind, &service)
}

/// The packet of the nearest advertised service of a kind, if there is one.
fn nearest_replies(
    alloc: Global,
    services: &ServiceTable,
    at: PortNow,
    to: Recipient,
    kind: u16,
) -> Result<Vec<Reply>, OutOfMemory>
    ensures replies { IfOk result (λ v.
        RepliesServices (services_in services.now) at to true kind (sendings v.items)) }
    ensures refused { OnErr result (HasToReply (services_in services.now) at true kind) }
{
    let mut replies = Vec::new(alloc);
    let Some(service) = nearest_service(services, at, kind) else {
        return Ok(replies);
    };
    add_service_packets(alloc, &mut replies, to, true, &[service])?;
    Ok(replies)
}

/// The packets of the advertised services of a kind.
fn service_replies(
    alloc: Global,
    services: &ServiceTable,
    at: PortNow,
    to: Recipient,
    kind: u16,
) -> Result<Vec<Reply>, OutOfMemory>
    ensures replies { IfOk result (λ v.
        RepliesServices (services_in services.now) at to false kind (sendings v.items)) }
    ensures refused { OnErr result (HasToReply (services_in services.now) at false kind) }
{
    one_best::<ServiceKey, ServiceMetric>();
    let mut packets = ServicePackets::new(alloc, to);
    for item in services.bests(at.now) {
        if is_best_asked(item, at, false, kind) {
            packets.put(alloc, advertised_service_of(&item))?;
        }
    }
    packets.finish(alloc)
}

/// The packets that answer a query for services. If no service is to be sent, nothing is allocated.
pub fn reply_services(
    alloc: Global,
    services: &ServiceTable,
    at: PortNow,
    to: Recipient,
    nearest: bool,
    kind: u16,
) -> Result<Vec<Reply>, OutOfMemory>
    ensures replies { IfOk result (λ v.
        RepliesServices (services_in services.now) at to nearest kind (sendings v.items)) }
    ensures refused { OnErr result (HasToReply (services_in services.now) at nearest kind) }
{
    if nearest {
        return nearest_replies(alloc, services, at, to, kind);
    }
    service_replies(alloc, services, at, to, kind)
}
