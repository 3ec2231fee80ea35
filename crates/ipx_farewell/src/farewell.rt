//! What a router says on a port as it stops.

ghost use Rattle.std.specs.Prelude.{◌≡◌, IfOk};
ghost use Rattle.ipx_router.specs.RouterPackets.{sendings};
ghost use Rattle.ipx_farewell.specs.Farewell.{AreFarewell};

use crate::gone::{gone_networks, gone_services};
use crate::packets::{add_route_packets, add_service_packets};
use crate::speaker::Speaker;
use ipx_router::{Port, Reply};
use ipx_tables::{RouteMetric, ServiceKey, ServiceMetric, Source};
use ipx_wire::{Network, OutOfMemory};
use std::alloc::Global;

/// The packets by which a router takes back, on a port, what it advertised there: its ports and the
/// best offers that it knew, each by key. Send them to all nodes of the port's network.
pub fn farewell_of(
    alloc: Global,
    ports: &[Port],
    routes: &[(Network, Source, RouteMetric)],
    services: &[(ServiceKey, Source, ServiceMetric)],
    at: Speaker,
) -> Result<Vec<Reply>, OutOfMemory>
    ensures { IfOk result (λ v.
        AreFarewell ports.now at.number at.port routes.now services.now (sendings v.items)) }
{
    let networks = gone_networks(alloc, ports, routes, at)?;
    let gone = gone_services(alloc, services, at)?;
    let mut packets = Vec::new(alloc);
    add_route_packets(alloc, &mut packets, at, &networks)?;
    add_service_packets(alloc, &mut packets, at, &gone)?;
    Ok(packets)
}
