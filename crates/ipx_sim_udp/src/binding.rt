//! The hosts and routers of a script's layout, as their sockets are bound.

ghost use Rattle.std.specs.Prelude.{◌≡◌, ◌≢◌, ◌∷◌, [], ℕ, List, All, IfOk, IfSome, None, Some, length};
ghost use Rattle.ipx_net.specs.NetBeginnings.{ArePortsOwed};
ghost use Rattle.ipx_router.specs.NewRouter.{IsOwnNetwork};
ghost use Rattle.ipx_wire.specs.declared.address.Socket.{Socket as AnySocket};
ghost use Rattle.spx_messages.specs.EndpointView.{buffers_at, held_at};
ghost use Rattle.ipx_carrier.specs.Turns.{peers_of as all_peers};
ghost use Rattle.ipx_net.specs.declared.place.Place.TheVariants as Places;
ghost use Rattle.ipx_sim_udp.specs.Binding.{IsHostOf};
ghost use Rattle.ipx_sim_udp.specs.Mapped.{ArePeersAt};

use crate::mapped::{address_of, peers_of};
use crate::runner::Runner;
use crate::stop::UdpScriptFault;
use ipx_carrier::{HostCore, RouterCore, UdpDatagrams};
use ipx_net::{Host, Place};
use ipx_router::{Port, Router};
use ipx_sim::Names;
use spx_messages::Endpoint;
use std::alloc::Global;
use std::net::Net;

/// Where sockets are bound: the layout, and the UDP port.
#[derive(Clone, Copy)]
pub struct Bindings<'a> {
    pub map: &'a Names,
    pub port: u16,
}

/// The endpoint of a host, which listens if its line says so.
fn endpoint_of(alloc: Global, host: &Host) -> Result<Endpoint, UdpScriptFault>
    ensures network { IfOk result (λ e. e.network ≡ host.now.network) }
    ensures node { IfOk result (λ e. e.node ≡ host.now.node) }
    ensures router { IfOk result (λ e. e.router ≡ host.now.router) }
    ensures none { IfOk result (λ e. (id : ℕ) → held_at e id ≡ None) }
    ensures last { IfOk result (λ e. e.links.last ≡ 0) }
    ensures listens { IfOk result (λ e.
        IfSome host.now.listen (λ l. buffers_at e l.0 ≡ Some l.1)) }
    ensures alone { IfOk result (λ e. (s : AnySocket)
        → IfSome host.now.listen (λ l. s.0 ≢ l.0.0) → buffers_at e s ≡ None) }
{
    let mut endpoint = Endpoint::new(alloc, host.network, host.node, host.router);
    if let Some((socket, buffers)) = host.listen {
        endpoint.listen(alloc, socket, buffers)?;
    }
    Ok(endpoint)
}

/// The peers of the one port of a host.
fn peers_of_host(
    alloc: Global,
    map: &Names,
    number: usize,
    host: &Host,
) -> Result<Vec<Vec<[u8; 4]>>, UdpScriptFault>
    ensures { IfOk result (λ v. (peers : List (List ℕ)) × (all_peers v.items ≡ peers ∷ [])
        × ArePeersAt map.now.spots.items (Places.Host number) host.now.network peers) }
{
    let peers = peers_of(alloc, map, Place::Host(number), host.network)?;
    Ok(vec![in alloc; peers]?)
}

/// The socket of a host, at the IP address of its node.
fn socket_of<R: Net>(
    rt: &R,
    alloc: Global,
    host: &Host,
    port: u16,
) -> Result<UdpDatagrams, UdpScriptFault>
    ensures { IfOk result (λ d. length d.sockets.items ≡ 1) }
{
    Ok(UdpDatagrams::bind(rt, alloc, &[address_of(host.node)?], port)?)
}

/// A host with a socket at the IP address of its node.
fn bound_host<R: Net>(
    rt: &R,
    alloc: Global,
    ground: Bindings<'_>,
    number: usize,
    host: &Host,
) -> Result<Runner<HostCore>, UdpScriptFault>
    ensures { IfOk result (IsHostOf ground.entry.map.now.spots.items number host.now) }
{
    let peers = peers_of_host(alloc, ground.map, number, host)?;
    let device = socket_of(rt, alloc, host, ground.port)?;
    let endpoint = endpoint_of(alloc, host)?;
    Ok(Runner::new(HostCore::new(endpoint), device, peers))
}

/// The IP addresses of the ports of a router.
fn addresses_of(alloc: Global, ports: &[Port]) -> Result<Vec<[u8; 4]>, UdpScriptFault> {
    let mut addresses = Vec::new(alloc);
    for port in ports {
        addresses.push(address_of(port.node)?)?;
    }
    Ok(addresses)
}

/// The peers of each port of a router. There are at most 16, which count from 1.
fn peers_of_ports(
    alloc: Global,
    map: &Names,
    router: usize,
    ports: &[Port],
) -> Result<Vec<Vec<[u8; 4]>>, UdpScriptFault> {
    let mut peers = Vec::new(alloc);
    for (place, port) in ports.iter().enumerate() {
        let Ok(number) = u8::try_from(place + 1) else {
            return Err(UdpScriptFault::Bad);
        };
        peers.push(peers_of(alloc, map, Place::Port(router, number), port.network)?)?;
    }
    Ok(peers)
}

/// A router of these ports.
fn router_of(alloc: Global, ports: &[Port]) -> Result<Router, UdpScriptFault>
    requires { All IsOwnNetwork ports.now }
{
    match Router::new(alloc, Vec::from_slice(alloc, ports)?) {
        Ok(router) => Ok(router),
        Err(_) => Err(UdpScriptFault::Memory),
    }
}

/// The sockets of a router, one at the IP address of each of its ports.
fn sockets_of<R: Net>(
    rt: &R,
    alloc: Global,
    ports: &[Port],
    port: u16,
) -> Result<UdpDatagrams, UdpScriptFault> {
    let addresses = addresses_of(alloc, ports)?;
    Ok(UdpDatagrams::bind(rt, alloc, &addresses, port)?)
}

/// A router with a socket at the IP address of each of its ports.
fn bound_router<R: Net>(
    rt: &R,
    alloc: Global,
    ground: Bindings<'_>,
    number: usize,
    ports: &[Port],
) -> Result<Runner<RouterCore>, UdpScriptFault>
    requires { All IsOwnNetwork ports.now }
{
    let peers = peers_of_ports(alloc, ground.map, number, ports)?;
    let device = sockets_of(rt, alloc, ports, ground.port)?;
    let router = router_of(alloc, ports)?;
    Ok(Runner::new(RouterCore::new(alloc, router), device, peers))
}

/// Each host, in the order of the layout.
pub fn bound_hosts<R: Net>(
    rt: &R,
    alloc: Global,
    ground: Bindings<'_>,
    hosts: &[Host],
) -> Result<Vec<Runner<HostCore>>, UdpScriptFault> {
    let mut runners = Vec::new(alloc);
    for (number, host) in hosts.iter().enumerate() {
        runners.push(bound_host(rt, alloc, ground, number, host)?)?;
    }
    Ok(runners)
}

/// Each router, in the order of the layout.
pub fn bound_routers<R: Net>(
    rt: &R,
    alloc: Global,
    ground: Bindings<'_>,
    routers: &[Vec<Port>],
) -> Result<Vec<Runner<RouterCore>>, UdpScriptFault>
    requires { All ArePortsOwed routers.now }
{
    let mut runners = Vec::new(alloc);
    for (number, ports) in routers.iter().enumerate() {
        runners.push(bound_router(rt, alloc, ground, number, ports)?)?;
    }
    Ok(runners)
}
