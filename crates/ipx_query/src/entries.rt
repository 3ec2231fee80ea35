//! The entries of answers.

ghost use Rattle.std.specs.Prelude.{◌≡◌, ℕ, IfErr, OnOk, length};
ghost use Rattle.ipx_tables.specs.Content.{IsTable};
ghost use Rattle.ipx_tables.specs.Route.{network_cmp};
ghost use Rattle.ipx_tables.specs.Service.{service_key_cmp};
ghost use Rattle.ipx_router.specs.Knowledge.{routes_in, services_in};
ghost use Rattle.ipx_router.specs.Hearing.{AtEntry, GrowsByRoute, GrowsByService, HeardRoutes, HeardServices, IsFullForRoute, IsFullForService, is_heard};
ghost use Rattle.ipx_query.specs.QueryAnswers.{lone_port};

use ipx_control::{RipEntries, RipEntry, ServiceEntries};
use ipx_tables::{
    RouteMetric, RouteTable, ServiceKey, ServiceMetric, ServiceTable, Source, TableFault,
};
use ipx_wire::{Address, Network};
use std::alloc::Global;

/// Whether a route is learned: one to the local network, to all networks or to the host's own
/// network is not.
fn is_route_heard(own: Address, entry: &RipEntry) -> bool
    ensures { result ≡ is_heard (lone_port own) entry.now }
{
    let network = entry.network;
    !(network == Network::LOCAL || network == Network::ALL || network == own.network)
}

/// Learns routes in order, reading each in place. It stops at the first that does not fit the
/// table.
pub fn hear_routes(
    alloc: Global,
    own: Address,
    routes: &mut RouteTable,
    source: Source,
    entries: RipEntries<'_>,
    now: u64,
) -> Result<(), TableFault>
    requires { IsTable network_cmp routes.old }
    ensures heard { OnOk result (HeardRoutes (lone_port own) source now entries.entry
        (routes_in routes.old) (length entries.entry) routes.new) }
    ensures refused { IfErr result (λ f. (n : ℕ)
        × HeardRoutes (lone_port own) source now entries.entry (routes_in routes.old) n routes.new
        × (f ≡ TableFault.Full
        → AtEntry entries.entry n (IsFullForRoute (lone_port own) source routes.new))
        × (f ≡ TableFault.OutOfMemory
        → AtEntry entries.entry n (GrowsByRoute (lone_port own) source routes.new))) }
    ensures capacity { routes.new.capacity ≡ routes.old.capacity }
    ensures valid { IsTable network_cmp routes.new }
{
    for entry in entries {
        if is_route_heard(own, &entry) {
            let metric = RouteMetric {
                ticks: entry.ticks,
                hops: entry.hops,
            };
            routes.hear(alloc, entry.network, source, metric, now)?;
        }
    }
    Ok(())
}

/// Learns services in order, reading each in place. It stops at the first that does not fit the
/// table.
pub fn hear_services(
    alloc: Global,
    services: &mut ServiceTable,
    source: Source,
    entries: ServiceEntries<'_>,
    now: u64,
) -> Result<(), TableFault>
    requires { IsTable service_key_cmp services.old }
    ensures heard { OnOk result (HeardServices source now entries.entry (services_in services.old)
        (length entries.entry) services.new) }
    ensures refused { IfErr result (λ f. (n : ℕ)
        × HeardServices source now entries.entry (services_in services.old) n services.new
        × (f ≡ TableFault.Full → AtEntry entries.entry n (IsFullForService source services.new))
        × (f ≡ TableFault.OutOfMemory
        → AtEntry entries.entry n (GrowsByService source services.new))) }
    ensures capacity { services.new.capacity ≡ services.old.capacity }
    ensures valid { IsTable service_key_cmp services.new }
{
    for entry in entries {
        let name = entry.name;
        let key = ServiceKey {
            kind: entry.kind,
            name,
        };
        let metric = ServiceMetric {
            hops: entry.hops,
            at: entry.at,
        };
        services.hear(alloc, key, source, metric, now)?;
    }
    Ok(())
}
