//! The command `route`.

ghost use Rattle.std.specs.Prelude.{◌≡◌, ◌≤◌, ◌⊎◌, ◌+◌, [], false, true, None, All, IfErr, IfOk, OnErr, OnOk, is_ok, if◌then◌else◌, length, map};
ghost use Rattle.ipx_router.specs.NewRouter.{IsOwnNetwork};
ghost use Rattle.ipx_router.specs.Ports.{IsPortNumber};
ghost use Rattle.ipx_static.specs.StaticAdvertisements.{AreStaticAdvertisements};
ghost use Rattle.ipx_carrier.specs.PriorityRouterCore.{nothing_waits};
ghost use Rattle.ipx_carrier.specs.Turns.{peers_of};
ghost use Rattle.ipx_carrier.specs.Counting.{counted};
ghost use Rattle.ipx_source_checks.specs.SourceChecks.{nothing_dropped_yet};
ghost use Rattle.ipx_site.specs.KindPorts.{checked_port_of_kind, checked_ports, is_ethernet, ArePortsBound, port_indices_of};
ghost use Rattle.ipx_config.specs.PortLists.{datagram_places, datagram_ports};
ghost use Rattle.ipx_sockets.specs.PollEvents.{Watched};
ghost use Rattle.ipx_sockets.specs.Senders.{udp_events};
ghost use Rattle.ipx_rate_limits.specs.DirectedBroadcasts.{no_directed_drops};
ghost use Rattle.ipx_rate_limits.specs.PortLimits.{limits_of};
ghost use Rattle.ipx_rate_limits.specs.RateLimiter.{no_query_drops};
ghost use Rattle.ipx_config.specs.StaticLists.{HearsAtPorts};
ghost use Rattle.ipx_site.specs.StaticNeighbours.{IsToHear};
ghost use Rattle.ipx_site.specs.NewRouters.{CountsNothing, HasFilteredNothing, IsUncounted};
ghost use Rattle.ipx_site.specs.RoutingRuns.{HasDoneNothing, KnowsNothing, RoutesWell, WritesFilesOf};
ghost use Rattle.ipx_site.specs.SiteMarks.{port_fds};
ghost use Rattle.ipx_sockets.specs.AccessLists.{AccessListPorts, access_by};
ghost use Rattle.ipx_config.specs.SitePorts.{access_of, heard_at_port, named, router_ports, routers_at_port, site_peers, udp_ports};
ghost use Rattle.ipx_rate_limits.specs.TokenBuckets.{fresh_buckets};

use crate::clients_file::ClientsFile;
use crate::ethernet_ports::ethernet_ports_of;
use crate::ipxnet_ports::servers_of;
use crate::router_ports::{PortIndex, RouterPorts, UdpRouterPorts};
use crate::router_runs::run_router;
use crate::running_router::{Parts, RunningRouter};
use crate::secret_file::SavedClients;
use crate::starting::start_router;
use crate::static_neighbours::static_neighbours_of;
use ipx_carrier::OwnedRfc1234Ports;
use ipx_config::{Accept, PortConfig, Rfc1234PortConfig, RouterConfig, ports_to_texts};
use ipx_metrics::MeteredRouter;
use ipx_rate_limits::{RateLimiter, limits_of};
use ipx_router::{NewFault, Port, Router};
use ipx_sockets::{
    AccessList, BindFault, ClockFault, Poller, RCVBUF_SIZE, SourceFilter, SteadyClock, UdpSockets,
    WaitFault, set_rcvbuf,
};
use ipx_source_checks::{CheckedPort, SourceChecked};
use ipx_static::{StaticNeighbour, WithStatics};
use log::{Log, info, warn};
use std::alloc::{AllocError, Global};
use std::net::Net;
use std::os::fd::RawFd;
use std::rt::{Clock as SystemClock, Files};
use thiserror::Error;

/// Why a router does not start, or stops.
#[derive(Clone, Copy, Debug, Error)]
pub(crate) enum RouteFault {
    #[error("out of memory")]
    OutOfMemory(#[from] AllocError),
    #[error("{0}")]
    Bind(#[from] BindFault),
    #[error("{0}")]
    Wait(#[from] WaitFault),
    #[error("{0}")]
    New(#[from] NewFault),
    #[error("{0}")]
    Clock(#[from] ClockFault),
}

fn own_ports(alloc: Global, ports: &[PortConfig]) -> Result<Vec<Port>, AllocError>
    ensures { IfOk result (λ v. v.items ≡ router_ports ports.now) }
{
    ports.iter().map(PortConfig::router_port).collect(alloc)
}

/// Whether it is an Ethernet port.
fn is_ethernet(port: &PortConfig) -> bool
    ensures { result ≡ is_ethernet port.now }
{
    match port {
        PortConfig::Ethernet(_) => true,
        PortConfig::Rfc1234(_) | PortConfig::Ipxnet(_) => false,
    }
}

/// The port as one for source checks.
fn checked_port(port: &PortConfig) -> CheckedPort
    ensures { result ≡ checked_port_of_kind port.now }
{
    CheckedPort {
        port: port.router_port(),
        ethernet: is_ethernet(port),
    }
}

/// The same ports, for source checks.
fn checked_ports(alloc: Global, ports: &[PortConfig]) -> Result<Vec<CheckedPort>, AllocError>
    ensures { IfOk result (λ v. v.items ≡ checked_ports ports.now) }
{
    ports.iter().map(checked_port).collect(alloc)
}

fn router_of(alloc: Global, ports: &[PortConfig]) -> Result<Router, RouteFault>
    requires { All IsOwnNetwork (router_ports ports.now) }
    ensures ports { IfOk result (λ r. r.ports ≡ router_ports ports.now) }
    ensures nothing { IfOk result (λ r. KnowsNothing r) }
{
    let ports = own_ports(alloc, ports)?;
    let router = Router::new(alloc, ports)?;
    Ok(router)
}

/// A router as a core. It counts by port, and is to hear the static entries of these neighbours.
fn hearing_statics(
    alloc: Global,
    router: Router,
    neighbours: &[StaticNeighbour],
) -> Result<WithStatics<MeteredRouter>, AllocError>
    requires { All (λ n. IsPortNumber (length router.ports) n.port) neighbours.now }
    ensures router { IfOk result (λ c. c.core.router ≡ router) }
    ensures empty { IfOk result (λ c. c.core.queues ≡ nothing_waits) }
    ensures uncounted { IfOk result (λ c. CountsNothing c.core) }
    ensures statics { IfOk result (λ c. AreStaticAdvertisements neighbours.now c.advertisements × (c.refreshed_at ≡ None)) }
{
    let counted = MeteredRouter::new(alloc, router)?;
    let Ok(core) = WithStatics::new(alloc, counted, neighbours) else {
        return Err(AllocError);
    };
    Ok(core)
}

/// The core of a router. It limits general queries and directed broadcasts, and hears static
/// entries.
fn core_of(
    alloc: Global,
    ports: &[PortConfig],
    neighbours: &[StaticNeighbour],
) -> Result<RateLimiter<WithStatics<MeteredRouter>>, RouteFault>
    requires own { All IsOwnNetwork (router_ports ports.now) }
    requires there { All (λ n. IsPortNumber (length ports.now) n.port) neighbours.now }
    ensures router { IfOk result (λ c. c.core.core.router.ports ≡ router_ports ports.now) }
    ensures nothing { IfOk result (λ c. KnowsNothing c.core.core.router) }
    ensures empty { IfOk result (λ c. c.core.core.queues ≡ nothing_waits) }
    ensures uncounted { IfOk result (λ c. CountsNothing c.core.core) }
    ensures statics { IfOk result (λ c. AreStaticAdvertisements neighbours.now c.core.advertisements
        × (c.core.refreshed_at ≡ None)) }
    ensures ports { IfOk result (λ c. c.ports ≡ router_ports ports.now) }
    ensures fresh { IfOk result (λ c. c.buckets ≡ fresh_buckets (limits_of ports.now)) }
    ensures undropped { IfOk result (λ c. (c.kept ≡ no_query_drops) × (c.directed ≡ no_directed_drops)) }
{
    let own = own_ports(alloc, ports)?;
    let limits = limits_of(alloc, ports)?;
    let router = router_of(alloc, ports)?;
    let core = hearing_statics(alloc, router, neighbours)?;
    let core = RateLimiter::new(alloc, core, own, limits)?;
    Ok(core)
}

/// The core of the router that a file describes, with source checks.
fn core_of_file(
    alloc: Global,
    site: &RouterConfig,
) -> Result<SourceChecked<RateLimiter<WithStatics<MeteredRouter>>>, RouteFault>
    requires own { All IsOwnNetwork (router_ports site.now.ports.items) }
    requires there { HearsAtPorts site.now }
    ensures router { IfOk result (λ c.
        c.core.core.core.router.ports ≡ router_ports site.now.ports.items) }
    ensures nothing { IfOk result (λ c. KnowsNothing c.core.core.core.router) }
    ensures empty { IfOk result (λ c. c.core.core.core.queues ≡ nothing_waits) }
    ensures uncounted { IfOk result IsUncounted }
    ensures statics { IfOk result (λ c. IsToHear site.now.statics.items c.core.core) }
    ensures checks { IfOk result (λ c. (c.ports ≡ checked_ports site.now.ports.items)
        × (c.drops ≡ nothing_dropped_yet)) }
    ensures ports { IfOk result (λ c. c.core.ports ≡ router_ports site.now.ports.items) }
    ensures fresh { IfOk result (λ c.
        c.core.buckets ≡ fresh_buckets (limits_of site.now.ports.items)) }
{
    let neighbours = static_neighbours_of(alloc, &site.statics)?;
    let checked = checked_ports(alloc, &site.ports)?;
    let core = core_of(alloc, &site.ports, &neighbours)?;
    Ok(SourceChecked::new(core, checked))
}

/// The peers of a port.
fn port_peers(alloc: Global, port: &Rfc1234PortConfig) -> Result<Vec<[u8; 4]>, AllocError>
    ensures { IfOk result (λ v. v.items ≡ port.now.peers.items) }
{
    Vec::from_slice(alloc, &port.peers)
}

/// The peers of each RFC 1234 port.
fn peers_by_port(alloc: Global, ports: &[PortConfig]) -> Result<Vec<Vec<[u8; 4]>>, AllocError>
    ensures { IfOk result (λ v. peers_of v.items ≡ site_peers (datagram_ports ports.now)) }
{
    let mut lists = Vec::new(alloc);
    for port in ports {
        if let PortConfig::Rfc1234(port) = port {
            let peers = port_peers(alloc, port)?;
            lists.push(peers)?;
        }
    }
    Ok(lists)
}

/// Which senders are accepted at a port. None means all.
fn port_hears(alloc: Global, port: &Rfc1234PortConfig) -> Result<Option<Vec<[u8; 4]>>, AllocError>
    ensures { IfOk result (λ ips. named ips ≡ heard_at_port port.now.accept port.now.peers.items) }
{
    match port.accept {
        Accept::Any => Ok(None),
        Accept::Peers => Ok(Some(port_peers(alloc, port)?)),
    }
}

/// Which senders are routers at a port: those that the file names, or otherwise its peers.
fn port_routers(alloc: Global, port: &Rfc1234PortConfig) -> Result<Vec<[u8; 4]>, AllocError>
    ensures { IfOk result (λ ips.
        ips.items ≡ routers_at_port port.now.routers port.now.peers.items) }
{
    match &port.routers {
        Some(routers) => Vec::from_slice(alloc, routers),
        None => port_peers(alloc, port),
    }
}

/// The access list of a port.
fn access_list_of(alloc: Global, port: &Rfc1234PortConfig) -> Result<AccessList, AllocError>
    ensures { IfOk result (λ g. access_by g ≡ access_of port.now) }
{
    let sends = Some(port_peers(alloc, port)?);
    let hears = port_hears(alloc, port)?;
    let routers = Some(port_routers(alloc, port)?);
    Ok(AccessList {
        network: port.network,
        sends,
        hears,
        routers,
    })
}

/// The access list of each RFC 1234 port.
fn access_lists_of(alloc: Global, ports: &[PortConfig]) -> Result<Vec<AccessList>, AllocError>
    ensures { IfOk result (λ v. AccessListPorts (datagram_ports ports.now) v.items) }
{
    let mut access_lists = Vec::new(alloc);
    for port in ports {
        if let PortConfig::Rfc1234(port) = port {
            let access_list = access_list_of(alloc, port)?;
            access_lists.push(access_list)?;
        }
    }
    Ok(access_lists)
}

/// The index of each port among those of its kind.
fn port_indices_of(alloc: Global, ports: &[PortConfig]) -> Result<Vec<PortIndex>, AllocError>
    ensures { IfOk result (λ v. v.items ≡ port_indices_of ports.now) }
{
    let mut port_indices = Vec::new(alloc);
    let mut datagrams = 0;
    let mut ethernet = 0;
    let mut servers = 0;
    for port in ports {
        match port {
            PortConfig::Rfc1234(_) => {
                port_indices.push(PortIndex::Datagrams(datagrams))?;
                datagrams += 1;
            }
            PortConfig::Ethernet(_) => {
                port_indices.push(PortIndex::Ethernet(ethernet))?;
                ethernet += 1;
            }
            PortConfig::Ipxnet(_) => {
                port_indices.push(PortIndex::IpxnetServer(servers))?;
                servers += 1;
            }
        }
    }
    Ok(port_indices)
}

/// Logs the line of a port at the start, with the size of its socket's receive buffer.
fn tell_port<R: Log>(rt: &R, number: usize, line: &str, room: u32) {
    info!(rt; target: "ipx", "{line} rcvbuf {room}");
    if room < RCVBUF_SIZE {
        warn!(rt; target: "ipx",
            "port {number}: the socket's receive buffer has only {room} bytes: \
             set net.core.rmem_max = {RCVBUF_SIZE}");
    }
}

/// The size of a socket's receive buffer in bytes, after the system is asked for more. It is 0 if
/// the system does not say.
fn rcvbuf_of(descriptor: Option<RawFd>) -> u32 {
    match descriptor {
        Some(descriptor) => set_rcvbuf(descriptor),
        None => 0,
    }
}

/// The size of the receive buffer of a port's socket in bytes, or 0 if the system did not say. For
/// Ethernet and ipxnet ports it asks the system for more now.
fn rcvbuf_at(ports: &UdpRouterPorts, port_index: PortIndex) -> u32 {
    match port_index {
        PortIndex::Datagrams(place) => ports.device().device().room(place).unwrap_or(0),
        PortIndex::Ethernet(place) => rcvbuf_of(ports.ethernet().sockets().descriptor(place)),
        PortIndex::IpxnetServer(place) => rcvbuf_of(ports.servers().sockets().descriptor(place)),
    }
}

fn tell_ports<R: Log>(rt: &R, lines: &[String], ports: &UdpRouterPorts) {
    for (place, line) in lines.iter().enumerate() {
        if let Some(port_index) = ports.port_indices().get(place) {
            tell_port(rt, place + 1, line, rcvbuf_at(ports, *port_index));
        }
    }
}

/// The RFC 1234 ports among these, with their sockets bound and their access lists.
fn datagrams_of<R: Net>(
    rt: &R,
    alloc: Global,
    ports: &[PortConfig],
) -> Result<OwnedRfc1234Ports<SourceFilter<UdpSockets>>, RouteFault>
    ensures access_lists { IfOk result (λ d. AccessListPorts (datagram_ports ports.now) d.device.access_lists.items) }
    ensures peers { IfOk result (λ d.
        peers_of d.peers.items ≡ site_peers (datagram_ports ports.now)) }
    // Each has a socket, with the UDP port of its peers.
    ensures sockets { IfOk result (λ d. map (λ p. p.udp_port) d.device.device.sockets.items
        ≡ udp_ports (datagram_ports ports.now)) }
    ensures at { IfOk result (λ d. map (λ p. p.socket.at) d.device.device.sockets.items
        ≡ datagram_places (datagram_ports ports.now)) }
    ensures fresh { IfOk result (λ d.
        udp_events d.device.device.sockets.items ≡ map (λ p. []) (datagram_ports ports.now)) }
    ensures marks { IfOk result (λ d. d.device.device.marks ≡ map (λ p. true) (datagram_ports ports.now)) }
    ensures unfiltered { IfOk result (λ d. HasFilteredNothing d.device) }
{
    let access_lists = access_lists_of(alloc, ports)?;
    let peers = peers_by_port(alloc, ports)?;
    let sockets = UdpSockets::bind(rt, alloc, ports)?;
    Ok(OwnedRfc1234Ports::new(SourceFilter::new(sockets, access_lists), peers))
}

/// The ports of a file, with their sockets bound.
fn bound_ports<R: Net + Log>(
    rt: &R,
    alloc: Global,
    kept: &SavedClients,
    ports: &[PortConfig],
) -> Result<UdpRouterPorts, RouteFault>
    ensures bound { IfOk result (ArePortsBound kept.now.secret kept.now.clients.items ports.now) }
    ensures unfiltered { IfOk result (λ p. HasFilteredNothing p.datagrams.device) }
{
    let port_indices = port_indices_of(alloc, ports)?;
    let datagrams = datagrams_of(rt, alloc, ports)?;
    let ethernet = ethernet_ports_of(rt, alloc, ports)?;
    let servers = servers_of(rt, alloc, kept, ports)?;
    Ok(RouterPorts::new(datagrams, ethernet, servers, port_indices))
}

/// A poller for the sockets of these ports.
fn ready_for<R: Net>(rt: &R, alloc: Global, ports: &UdpRouterPorts) -> Result<Poller, RouteFault>
    ensures watched { IfOk result (λ r. r.poll.watched
        ≡ counted (length ports.now.datagrams.device.device.sockets.items
        + length ports.now.ethernet.sockets.ethernet.items
        + length ports.now.servers.sockets.sockets.items)) }
    ensures trace { IfOk result (λ r. r.poll.trace.items ≡ map Watched (port_fds ports.now)) }
{
    let mut ready = Poller::new(rt, alloc, ports.device().device())?;
    ready.watch_ethernet(ports.ethernet().sockets())?;
    ready.watch_servers(ports.servers().sockets())?;
    Ok(ready)
}

/// Starts the router that a file describes, with its sockets bound. Its ipxnet ports make nodes of
/// the secret that was kept, and note the clients that were.
pub(crate) fn start<'a, R: Net + Log + SystemClock>(
    rt: &'a R,
    alloc: Global,
    site: RouterConfig,
    kept: SavedClients,
) -> Result<RunningRouter<'a, R>, RouteFault>
    requires own { All IsOwnNetwork (router_ports site.ports.items) }
    requires there { HearsAtPorts site }
    // The router has the ports of the file.
    ensures ports { IfOk result (λ s.
        s.core.core.core.core.router.ports ≡ router_ports site.ports.items) }
    // It knows nothing of other routers.
    ensures nothing { IfOk result (λ s. KnowsNothing s.core.core.core.core.router) }
    // No packet waits to be sent.
    ensures empty { IfOk result (λ s. s.core.core.core.core.queues ≡ nothing_waits) }
    // Its core has counted nothing.
    ensures uncounted { IfOk result (λ s. IsUncounted s.core) }
    // It is to hear the static entries of the file, and has not heard them yet.
    ensures statics { IfOk result (λ s. IsToHear site.statics.items s.core.core.core) }
    // It checks sources at these ports, and has dropped nothing yet.
    ensures checks { IfOk result (λ s. (s.core.ports ≡ checked_ports site.ports.items)
        × (s.core.drops ≡ nothing_dropped_yet)) }
    // The limits of queries and directed broadcasts at each port follow from its kind and its
    // table. No query has come yet.
    ensures queriers { IfOk result (λ s. (s.core.core.ports ≡ router_ports site.ports.items)
        × (s.core.core.buckets ≡ fresh_buckets (limits_of site.ports.items))) }
    // Each port has its socket. An RFC 1234 port has its peers and its access list, an Ethernet
    // port its switch, and an ipxnet port its server with this secret and notes of these clients.
    ensures bound { IfOk result (λ s.
        ArePortsBound kept.secret kept.clients.items site.ports.items s.ports) }
    // It has the files that its file names, and is to keep this secret and these clients.
    ensures files { IfOk result (λ s. WritesFilesOf site kept.secret kept.clients.items s) }
    // The access lists have dropped and refused nothing.
    ensures unfiltered { IfOk result (λ s. HasFilteredNothing s.ports.datagrams.device) }
    // Its poller watches the descriptors of all ports, by kind, and has not waited.
    ensures watched { IfOk result (λ s. s.ready.poll.trace.items ≡ map Watched (port_fds s.ports)) }
    ensures clock { IfOk result (λ s. s.clock.last ≡ 0) }
    ensures asked { IfOk result (λ s. s.asked ≡ 0) }
    // Nor has it counted, looked at, logged or written anything itself.
    ensures idle { IfOk result (λ s. HasDoneNothing s) }
{
    let clock = SteadyClock::new(rt)?;
    let core = core_of_file(alloc, &site)?;
    // All lines are made before the first is logged, so that nothing is logged if out of memory
    // here.
    let lines = ports_to_texts(alloc, &site.ports)?;
    let ports = bound_ports(rt, alloc, &kept, &site.ports)?;
    let ready = ready_for(rt, alloc, &ports)?;
    tell_ports(rt, &lines, &ports);
    let parts = Parts {
        core,
        ports,
        clock,
        ready,
        metrics_file: site.metrics_file,
        tables_file: site.tables_file,
        clients_file: ClientsFile::new(site.secret_file, kept),
    };
    Ok(RunningRouter::new(alloc, parts))
}

/// Reports why a router does not start or stops, and returns the exit status for it.
pub(crate) fn tell_route_fault<R: Eprint>(rt: &R, path: &str, fault: RouteFault) -> u8
    ensures { result ≡ 1 }
{
    let _ = eprintln!(rt; "{path}: {fault}");
    1
}

/// The command `route`: reads the file of a router, binds a socket for each port, logs a line for
/// each port, and routes until the process is stopped.
///
/// Returns the exit status if it ends by itself. 2: the file cannot be read or has a fault; nothing
/// was bound. 1: out of memory at the start, a socket cannot be bound, or the system cannot wait or
/// tell the time. One line on standard error says which. [`run_router`] says what the router did
/// until a wait failed.
pub fn do_route<R: Net + Log + Files + SystemClock + Eprint>(
    rt: &R,
    alloc: Global,
    path: &str,
) -> u8
    ensures few { result ≤ 2 }
    // The status is 0 only if it started as some file text says, and ran 2^64 - 1 rounds, each from
    // where the last one left it.
    ensures well { result ≡ 0 → RoutesWell R }
{
    match start_router(rt, alloc, path) {
        Ok(mut router) => run_router(rt, alloc, path, &mut router),
        Err(status) => status,
    }
}
