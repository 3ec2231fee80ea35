//! Logs which datagrams of remotes carry no frame in the tunnel of their port.

ghost use Rattle.std.specs.Prelude.{◌≡◌, get_or, replicate};
ghost use Rattle.ipx_site.specs.TunnelFamilies.{drops_at_port};
ghost use Rattle.ipx_site.specs.TunnelLog.{drop_counts, port_drop_count};
ghost use Rattle.ipx_sockets.specs.Moments.{AreLoggedIfDue, IsLoggedIfDue, never_logged};

use crate::router_ports::{PortIndex, UdpRouterPorts};
use crate::tunnel_metrics::drops_at_port;
use ipx_ethernet_ports::{EthernetSockets, TunnelDrop};
use ipx_sockets::ThrottledLog;
use ipx_tunnels::Tunnel;
use log::{Log, warn};
use std::fmt;
use std::net::SocketAddr;

/// The most ports of a router.
const MAX_PORTS: usize = 16;

/// When a router last logged such datagrams, for each of its ports.
#[derive(Clone, Copy)]
pub struct TunnelLog {
    ports: [ThrottledLog; MAX_PORTS],
}

/// What a line says of the last such datagram of a port.
#[derive(Clone, Copy)]
pub struct TunnelLine {
    pub last: TunnelDrop,
    /// The tunnel of the port.
    pub tunnel: Tunnel,
}

impl fmt::Display for TunnelLine {
    fn fmt<W: fmt::Write>(&self, f: &mut fmt::Formatter<W>) -> fmt::Result {
        let TunnelDrop { from, fault } = self.last;
        match from {
            SocketAddr::V4(from) => {
                let [a, b, c, d] = from.ip().octets();
                write!(f, "{a}.{b}.{c}.{d}:{}", from.port())?;
            }
            SocketAddr::V6(_) => f.write_str("a sender over IPv6")?,
        }
        let tunnel = self.tunnel;
        write!(f, " sends {fault}, this port has {tunnel}")
    }
}

/// How many such datagrams there were at the port of this index; none if it has no tunnel.
fn count_of(port_index: PortIndex, sockets: &EthernetSockets) -> u64
    ensures { result ≡ port_drop_count (drops_at_port sockets.now.ethernet.items port_index) }
{
    match drops_at_port(sockets, port_index) {
        Some(drops) => drops.total(),
        None => 0,
    }
}

/// The same for the port at a place among all ports; none if there is no such port.
fn count_at(port_indices: &[PortIndex], sockets: &EthernetSockets, place: usize) -> u64
    ensures { result ≡ get_or (drop_counts sockets.now.ethernet.items port_indices.now) place 0 }
{
    match port_indices.get(place) {
        Some(port_index) => count_of(*port_index, sockets),
        None => 0,
    }
}

/// What a line says of the port at a place among all ports, if there was such a datagram.
fn line_at(
    port_indices: &[PortIndex],
    sockets: &EthernetSockets,
    place: usize,
) -> Option<TunnelLine> {
    let PortIndex::Ethernet(place) = *port_indices.get(place)? else {
        return None;
    };
    Some(TunnelLine {
        last: sockets.tunnel_drops(place)?.last?,
        tunnel: sockets.tunnel(place)?,
    })
}

/// Logs the last one at the port with this number, if it is due.
fn tell_port<R: Log>(
    rt: &R,
    cause: &mut ThrottledLog,
    port: usize,
    count: u64,
    line: Option<TunnelLine>,
    now: u64,
)
    ensures { IsLoggedIfDue count now cause.old cause.new }
{
    if cause.tell(count, now).is_none() {
        return;
    }
    if let Some(line) = line {
        warn!(rt; target: "ipx", "port {port}: {line} ({count} since the start)");
    }
}

/// Logs the last one at each port where it is due.
fn tell_ports<R: Log>(
    rt: &R,
    causes: &mut [ThrottledLog],
    port_indices: &[PortIndex],
    sockets: &EthernetSockets,
    now: u64,
)
    ensures { AreLoggedIfDue (drop_counts sockets.now.ethernet.items port_indices.now) now
        causes.old causes.new }
{
    for (place, cause) in causes.iter_mut().enumerate() {
        let count = count_at(port_indices, sockets, place);
        let line = line_at(port_indices, sockets, place);
        tell_port(rt, cause, place + 1, count, line, now);
    }
}

impl TunnelLog {
    /// Nothing has been logged yet.
    pub fn new() -> TunnelLog
        ensures { result.ports ≡ replicate 16 never_logged }
    {
        TunnelLog {
            ports: [ThrottledLog::new(); MAX_PORTS],
        }
    }

    /// Logs a line for each port where it is due.
    pub fn tell<R: Log>(&mut self, rt: &R, ports: &UdpRouterPorts, now: u64)
        ensures { AreLoggedIfDue (drop_counts ports.now.ethernet.sockets.ethernet.items
            ports.now.port_indices.items) now self.old.ports self.new.ports }
    {
        let sockets = ports.ethernet().sockets();
        tell_ports(rt, &mut self.ports, ports.port_indices(), sockets, now);
    }
}
