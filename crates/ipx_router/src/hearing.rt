//! What a router learns from its neighbours.

ghost use Rattle.std.specs.Prelude.{◌≡◌, ◌≤◌, ℕ, IfOk, IfErr, length, count_by};
ghost use Rattle.ipx_tables.specs.Content.{IsTable};
ghost use Rattle.ipx_tables.specs.Route.{network_cmp};
ghost use Rattle.ipx_tables.specs.Service.{service_key_cmp};
ghost use Rattle.ipx_router.specs.Knowledge.{routes_in, services_in};
ghost use Rattle.ipx_router.specs.AdvertisedEntries.{key_of_service};
ghost use Rattle.ipx_router.specs.Hearing.{AtEntry, GrowsByRoute, GrowsByService, HeardRoutes, HeardServices, IsFullForRoute, IsFullForService, is_heard, source_of};
ghost use Rattle.ipx_router.specs.Ports.{AreFromPorts, IsPortNumber};

use crate::networks::has_network;
use crate::port::{Port, PortNow};
use ipx_control::{RipEntries, RipEntry, ServiceEntries};
use ipx_tables::{
    RouteMetric, RouteTable, ServiceKey, ServiceMetric, ServiceTable, Source, TableFault,
};
use ipx_wire::{IpxHeader, Network};
use std::alloc::Global;

/// The source of a response: the node that sent it, and the port that it came in on.
pub fn neighbour_of(at: PortNow, header: IpxHeader) -> Source
    ensures { result ≡ source_of at header }
{
    Source {
        port: at.number,
        neighbour: header.from.node,
    }
}

fn is_route_heard(ports: &[Port], entry: &RipEntry) -> bool
    ensures { result ≡ is_heard ports.now entry.now }
{
    let network = entry.network;
    !(network == Network::LOCAL || network == Network::ALL || has_network(ports, network))
}

/// Learns the entries in order, and gives their number without those of networks that a router does
/// not learn. It stops at the first entry that the table refuses. Entries are read from the packet,
/// without a copy.
pub fn hear_routes(
    alloc: Global,
    ports: &[Port],
    routes: &mut RouteTable,
    source: Source,
    entries: RipEntries<'_>,
    now: u64,
) -> Result<u16, TableFault>
    requires few { length entries ≤ 50 }
    requires table { IsTable network_cmp routes.old }
    ensures heard { IfOk result (λ n. (n ≡ count_by (is_heard ports.now) entries.entry)
        × HeardRoutes ports.now source now entries.entry (routes_in routes.old)
        (length entries.entry) routes.new) }
    ensures refused { IfErr result (λ f. (n : ℕ)
        × HeardRoutes ports.now source now entries.entry (routes_in routes.old) n routes.new
        × (f ≡ TableFault.Full
        → AtEntry entries.entry n (IsFullForRoute ports.now source routes.new))
        × (f ≡ TableFault.OutOfMemory
        → AtEntry entries.entry n (GrowsByRoute ports.now source routes.new))) }
    ensures capacity { routes.new.capacity ≡ routes.old.capacity }
    ensures valid { IsTable network_cmp routes.new }
    ensures sources { (count : ℕ) → IsPortNumber count source.port
        → AreFromPorts count (routes_in routes.old) → AreFromPorts count (routes_in routes.new) }
{
    let mut heard = 0;
    for entry in entries {
        if is_route_heard(ports, &entry) {
            let metric = RouteMetric {
                ticks: entry.ticks,
                hops: entry.hops,
            };
            routes.hear(alloc, entry.network, source, metric, now)?;
            heard += 1;
        }
    }
    Ok(heard)
}

/// Learns the services in order, and gives their number. It stops at the first service that the
/// table refuses. Entries are read from the packet, without a copy.
pub fn hear_services(
    alloc: Global,
    services: &mut ServiceTable,
    source: Source,
    entries: ServiceEntries<'_>,
    now: u64,
) -> Result<u16, TableFault>
    requires few { length entries ≤ 7 }
    requires table { IsTable service_key_cmp services.old }
    ensures heard { IfOk result (λ n. (n ≡ length entries.entry)
        × HeardServices source now entries.entry (services_in services.old)
        (length entries.entry) services.new) }
    ensures refused { IfErr result (λ f. (n : ℕ)
        × HeardServices source now entries.entry (services_in services.old) n services.new
        × (f ≡ TableFault.Full → AtEntry entries.entry n (IsFullForService source services.new))
        × (f ≡ TableFault.OutOfMemory
        → AtEntry entries.entry n (GrowsByService source services.new))) }
    ensures capacity { services.new.capacity ≡ services.old.capacity }
    ensures valid { IsTable service_key_cmp services.new }
    ensures sources { (count : ℕ) → IsPortNumber count source.port
        → AreFromPorts count (services_in services.old)
        → AreFromPorts count (services_in services.new) }
{
    let mut heard = 0;
    for entry in entries {
        let name = entry.name;
        let key = ServiceKey {
            kind: entry.kind,
            name,
        };
        let metric = ServiceMetric {
            hops: entry.hops,
            at: entry.at,
        };
        services.hear(alloc, key, source, metric, now)?;
        heard += 1;
    }
    Ok(heard)
}
