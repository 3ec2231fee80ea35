//! Logs which frames show a mistake on the segment of an Ethernet port.

ghost use Rattle.std.specs.Prelude.{◌≡◌, get_or, replicate};
ghost use Rattle.ipx_site.specs.FrameLog.{AreMistakesLogged, count_in, mistakes, port_mistakes};
ghost use Rattle.ipx_site.specs.KindMetrics.{switch_at};
ghost use Rattle.ipx_sockets.specs.Moments.{AreLoggedIfDue, IsLoggedIfDue, never_logged};

use crate::frame_metrics::switch_at;
use crate::router_ports::{PortIndex, UdpRouterPorts};
use ipx_ethernet::{Claim, StationMove, Switch};
use ipx_ethernet_ports::EthernetSockets;
use ipx_sockets::ThrottledLog;
use ipx_wire::{Network, Node};
use log::{Log, warn};
use std::fmt;
use std::net::SocketAddrV4;

/// The most ports of a router.
const MAX_PORTS: usize = 16;

/// What is wrong on a segment.
#[derive(Clone, Copy, Debug, PartialEq, Eq)]
pub enum FrameMistake {
    /// A router says that the segment has another network than the port.
    OtherNetwork,
    /// A station was heard at two remotes within a second.
    TwoPlaces,
    /// A frame has the port's own address as its source.
    OwnAddress,
}

/// When a router last logged each of these, for each of its ports.
#[derive(Clone, Copy)]
pub struct FrameLog {
    other_network: [ThrottledLog; MAX_PORTS],
    two_places: [ThrottledLog; MAX_PORTS],
    own_address: [ThrottledLog; MAX_PORTS],
}

/// What a line says of the last such frame of a port. A remote is named by its address.
#[derive(Clone, Copy, Debug, PartialEq, Eq)]
pub enum FrameLine {
    OtherNetwork {
        router: Node,
        place: SocketAddrV4,
        claimed: Network,
        own: Network,
    },
    TwoPlaces {
        station: Node,
        before: SocketAddrV4,
        after: SocketAddrV4,
    },
    OwnAddress {
        place: SocketAddrV4,
        own: Node,
    },
}

/// What a line begins with, before its count.
impl fmt::Display for FrameLine {
    fn fmt<W: fmt::Write>(&self, f: &mut fmt::Formatter<W>) -> fmt::Result {
        match *self {
            FrameLine::OtherNetwork {
                router,
                place,
                claimed,
                own,
            } => write!(
                f,
                "router {router} at {place} says that this network is {claimed}, this port has {own}"
            ),
            FrameLine::TwoPlaces {
                station,
                before,
                after,
            } => write!(
                f,
                "station {station} is at {before} and at {after} within a second"
            ),
            FrameLine::OwnAddress { place, own } => {
                write!(
                    f,
                    "{place} sends frames from this router's own address {own}"
                )
            }
        }
    }
}

impl FrameLine {
    /// What to do about it, which ends the line.
    pub fn advice(&self) -> &'static str {
        match self {
            FrameLine::OtherNetwork { .. } => "change one of them",
            FrameLine::TwoPlaces { .. } => {
                "two machines have one address, or two links lead to one network"
            }
            FrameLine::OwnAddress { .. } => "another machine has it, or a link leads back",
        }
    }
}

/// How often a switch noticed a mistake.
fn count_in(mistake: FrameMistake, switch: &Switch) -> u64
    ensures { result ≡ count_in mistake switch.now }
{
    match mistake {
        FrameMistake::OtherNetwork => switch.notices().claims,
        FrameMistake::TwoPlaces => switch.notices().moves,
        FrameMistake::OwnAddress => switch.counts().own,
    }
}

/// The same at the port of this index; 0 if it has no switch.
fn count_of(mistake: FrameMistake, ports: &UdpRouterPorts, port_index: PortIndex) -> u64
    ensures { result ≡ port_mistakes mistake
        (switch_at ports.now.ethernet.switches.items port_index) }
{
    match switch_at(ports, port_index) {
        Some(switch) => count_in(mistake, switch),
        None => 0,
    }
}

/// The same at the port at a place among all ports; 0 if there is no such port.
fn count_at(mistake: FrameMistake, ports: &UdpRouterPorts, place: usize) -> u64
    ensures { result ≡ get_or (mistakes mistake ports.now.ethernet.switches.items
        ports.now.port_indices.items) place 0 }
{
    match ports.port_indices().get(place) {
        Some(port_index) => count_of(mistake, ports, *port_index),
        None => 0,
    }
}

fn claim_line(
    sockets: &EthernetSockets,
    port: usize,
    own: Network,
    claim: Claim,
) -> Option<FrameLine> {
    Some(FrameLine::OtherNetwork {
        router: claim.router.node,
        place: sockets.remote(port, claim.router.end)?,
        claimed: claim.network,
        own,
    })
}

fn move_line(sockets: &EthernetSockets, port: usize, moved: StationMove) -> Option<FrameLine> {
    Some(FrameLine::TwoPlaces {
        station: moved.node,
        before: sockets.remote(port, moved.before)?,
        after: sockets.remote(port, moved.after)?,
    })
}

/// What a line says of the port at a place among all ports, if there was such a frame.
fn line_at(mistake: FrameMistake, ports: &UdpRouterPorts, place: usize) -> Option<FrameLine> {
    let PortIndex::Ethernet(place) = *ports.port_indices().get(place)? else {
        return None;
    };
    let sockets = ports.ethernet().sockets();
    let switch = ports.ethernet().switches().get(place)?;
    let (port, notices) = (switch.port(), switch.notices());
    match mistake {
        FrameMistake::OtherNetwork => {
            claim_line(sockets, place, port.network, notices.last_claim?)
        }
        FrameMistake::TwoPlaces => move_line(sockets, place, notices.last_move?),
        FrameMistake::OwnAddress => Some(FrameLine::OwnAddress {
            place: sockets.remote(place, notices.last_own?)?,
            own: port.own,
        }),
    }
}

/// Logs the last one at the port with this number, if it is due.
fn tell_port<R: Log>(
    rt: &R,
    cause: &mut ThrottledLog,
    port: usize,
    count: u64,
    line: Option<FrameLine>,
    now: u64,
)
    ensures { IsLoggedIfDue count now cause.old cause.new }
{
    if cause.tell(count, now).is_none() {
        return;
    }
    if let Some(line) = line {
        let advice = line.advice();
        warn!(rt; target: "ipx", "port {port}: {line} ({count} since the start): {advice}");
    }
}

/// Logs the last one at each port where it is due.
fn tell_ports<R: Log>(
    rt: &R,
    causes: &mut [ThrottledLog],
    mistake: FrameMistake,
    ports: &UdpRouterPorts,
    now: u64,
)
    ensures { AreLoggedIfDue (mistakes mistake ports.now.ethernet.switches.items
        ports.now.port_indices.items) now causes.old causes.new }
{
    for (place, cause) in causes.iter_mut().enumerate() {
        let count = count_at(mistake, ports, place);
        let line = line_at(mistake, ports, place);
        tell_port(rt, cause, place + 1, count, line, now);
    }
}

impl FrameLog {
    /// Nothing has been logged yet.
    pub fn new() -> FrameLog
        ensures other_network { result.other_network ≡ replicate 16 never_logged }
        ensures two_places { result.two_places ≡ replicate 16 never_logged }
        ensures own_address { result.own_address ≡ replicate 16 never_logged }
    {
        FrameLog {
            other_network: [ThrottledLog::new(); MAX_PORTS],
            two_places: [ThrottledLog::new(); MAX_PORTS],
            own_address: [ThrottledLog::new(); MAX_PORTS],
        }
    }

    /// Logs a line for each mistake and port where it is due.
    pub fn tell<R: Log>(&mut self, rt: &R, ports: &UdpRouterPorts, now: u64)
        ensures { AreMistakesLogged ports.now.ethernet.switches.items
            ports.now.port_indices.items now self.old self.new }
    {
        tell_ports(
            rt,
            &mut self.other_network,
            FrameMistake::OtherNetwork,
            ports,
            now,
        );
        tell_ports(
            rt,
            &mut self.two_places,
            FrameMistake::TwoPlaces,
            ports,
            now,
        );
        tell_ports(
            rt,
            &mut self.own_address,
            FrameMistake::OwnAddress,
            ports,
            now,
        );
    }
}
