//! What is sent by each port of a router's file.

ghost use Rattle.std.specs.Prelude.{◌≡◌, ◌≤◌, IfOk, length};
ghost use Rattle.ipx_config.specs.SitePorts.{router_ports};
ghost use Rattle.ipx_router.specs.RouterPackets.{sendings};
ghost use Rattle.ipx_farewell_cmd.specs.ToldPorts.{AreToldAt};

use crate::fault::FarewellFault;
use crate::outlet::Outlet;
use ipx_config::PortConfig;
use ipx_farewell::{Speaker, farewell_of};
use ipx_router::{Port, Reply};
use ipx_tables::{RouteMetric, ServiceKey, ServiceMetric, Source};
use ipx_wire::{Network, OutOfMemory};
use std::alloc::{AllocError, Global};
use std::net::Net;

/// A port, and the packets that are sent there.
#[derive(Drop)]
pub struct ToldPort {
    pub outlet: Outlet,
    pub packets: Vec<Reply>,
}

/// The ports of the router.
pub fn own_ports(alloc: Global, ports: &[PortConfig]) -> Result<Vec<Port>, AllocError>
    ensures { IfOk result (λ v. v.items ≡ router_ports ports.now) }
{
    ports.iter().map(PortConfig::router_port).collect(alloc)
}

/// The packets that are sent by the port with this number.
fn packets_at(
    alloc: Global,
    own: &[Port],
    routes: &[(Network, Source, RouteMetric)],
    services: &[(ServiceKey, Source, ServiceMetric)],
    number: u8,
    port: &PortConfig,
) -> Result<Vec<Reply>, OutOfMemory>
    ensures { IfOk result (λ v.
        AreToldAt own.now routes.now services.now number port.now (sendings v.items)) }
{
    let at = Speaker {
        number,
        port: port.router_port(),
    };
    match port {
        PortConfig::Rfc1234(_) | PortConfig::Ethernet(_) => {
            farewell_of(alloc, own, routes, services, at)
        }
        PortConfig::Ipxnet(_) => Ok(Vec::new(alloc)),
    }
}

/// Each port with its packets, all bound. It stops at the first that cannot be bound.
pub fn told_ports<R: Net>(
    rt: &R,
    alloc: Global,
    ports: &[PortConfig],
    routes: &[(Network, Source, RouteMetric)],
    services: &[(ServiceKey, Source, ServiceMetric)],
) -> Result<Vec<ToldPort>, FarewellFault> {
    let own = own_ports(alloc, ports)?;
    let mut told = Vec::new(alloc);
    for (place, port) in ports.iter().enumerate() {
        let Ok(number) = u8::try_from(place + 1) else {
            return Err(FarewellFault::Malformed);
        };
        let packets = packets_at(alloc, &own, routes, services, number, port)?;
        let outlet = Outlet::bind(rt, alloc, place + 1, port)?;
        told.push(ToldPort { outlet, packets })?;
    }
    Ok(told)
}
