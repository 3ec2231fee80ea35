//! Logs the IP addresses that register again and again at a router's ipxnet ports, and send nothing
//! else.

ghost use Rattle.std.specs.Prelude.{◌≡◌, get_or, replicate};
ghost use Rattle.ipx_site.specs.RepeatLog.{port_repeats, repeats_of_ports};
ghost use Rattle.ipx_sockets.specs.Moments.{AreLoggedIfDue, IsLoggedIfDue, never_logged};

use crate::router_ports::{PortIndex, UdpRouterPorts};
use ipx_sockets::ThrottledLog;
use ipxnet_server::{IpxnetServer, Repeats};
use log::{Log, warn};

/// The most ports of a router.
const MAX_PORTS: usize = 16;

/// When a router last logged such an IP address, for each of its ports.
#[derive(Clone, Copy)]
pub struct RepeatLog {
    ports: [ThrottledLog; MAX_PORTS],
}

/// How often there was such an IP address at the port of this index; never if it is no ipxnet port.
fn repeats_of(port_index: PortIndex, servers: &[IpxnetServer]) -> Repeats
    ensures { result.count ≡ port_repeats servers.now port_index }
{
    let PortIndex::IpxnetServer(place) = port_index else {
        return Repeats::new();
    };
    match servers.get(place) {
        Some(server) => server.repeats(),
        None => Repeats::new(),
    }
}

/// The same of the port at a place among all ports; never if there is none.
fn repeats_at(port_indices: &[PortIndex], servers: &[IpxnetServer], place: usize) -> Repeats
    ensures { result.count ≡ get_or (repeats_of_ports servers.now port_indices.now) place 0 }
{
    match port_indices.get(place) {
        Some(port_index) => repeats_of(*port_index, servers),
        None => Repeats::new(),
    }
}

/// Logs the last one at the port with this number, if it is due.
fn tell_port<R: Log>(rt: &R, cause: &mut ThrottledLog, port: usize, repeats: Repeats, now: u64)
    ensures { IsLoggedIfDue repeats.count now cause.old cause.new }
{
    let count = repeats.count;
    if cause.tell(count, now).is_none() {
        return;
    }
    if let Some(last) = repeats.last {
        let [a, b, c, d] = last.ip().octets();
        warn!(rt; target: "ipx", "port {port}: {a}.{b}.{c}.{d} registers again and again, and sends nothing else ({count} since the start): do the answers reach it?");
    }
}

/// Logs the last one at each port where it is due.
fn tell_ports<R: Log>(
    rt: &R,
    causes: &mut [ThrottledLog],
    port_indices: &[PortIndex],
    servers: &[IpxnetServer],
    now: u64,
)
    ensures { AreLoggedIfDue (repeats_of_ports servers.now port_indices.now) now causes.old
        causes.new }
{
    for (place, cause) in causes.iter_mut().enumerate() {
        let repeats = repeats_at(port_indices, servers, place);
        tell_port(rt, cause, place + 1, repeats, now);
    }
}

impl RepeatLog {
    /// Nothing has been logged yet.
    pub fn new() -> RepeatLog
        ensures { result.ports ≡ replicate 16 never_logged }
    {
        RepeatLog {
            ports: [ThrottledLog::new(); MAX_PORTS],
        }
    }

    /// Logs a line for each port where it is due.
    pub(crate) fn tell<R: Log>(&mut self, rt: &R, ports: &UdpRouterPorts, now: u64)
        ensures { AreLoggedIfDue
            (repeats_of_ports ports.now.servers.servers.items ports.now.port_indices.items) now
            self.old.ports self.new.ports }
    {
        let servers = ports.servers().servers();
        tell_ports(rt, &mut self.ports, ports.port_indices(), servers, now);
    }
}
