//! Prometheus metrics of the frames at a router's Ethernet ports.

ghost use Rattle.std.specs.Prelude.{◌≡◌, ◌++◌, IfOk, OnOk, codes, option_map, string_bytes};
ghost use Rattle.std.specs.List.{flat_map};
ghost use Rattle.ipx_site.specs.FrameFamilies.{frame_families, frame_outcomes, frames_family, passed_family, unfitting_family};
ghost use Rattle.ipx_site.specs.KindMetrics.{ethernet_ports, switch_at, switch_metrics};
ghost use Rattle.ipx_site.specs.MetricsText.{at_port_by, families_text, family_lines, sample_line};

use crate::ethernet_totals::came_in;
use crate::family::{Family, put_each_of_port, put_family, put_of_port, put_one};
use crate::router_ports::{PortIndex, UdpRouterPorts};
use ipx_ethernet::{Encapsulation, FrameCounters, Switch};
use ipx_wire::Node;
use log::{Log, warn};
use std::alloc::{AllocError, Global};
use std::fmt;
use std::net::SocketAddrV4;

/// The encapsulations, in the order in which they are logged.
const ALL: [Encapsulation; 4] = [
    Encapsulation::Raw,
    Encapsulation::Llc,
    Encapsulation::Snap,
    Encapsulation::EthernetII,
];

const FRAMES: Family = Family {
    name: "ipx_frames_total",
    help: "Frames received on an Ethernet port, by outcome",
    kind: "counter",
};

const PASSED: Family = Family {
    name: "ipx_frames_forwarded_total",
    help: "Frames from one remote that the switch forwards to others",
    kind: "counter",
};

const REFUSED: Family = Family {
    name: "ipx_frames_refused_total",
    help: "Packets that do not fit into a frame",
    kind: "counter",
};

const UNKNOWN_SENDERS: Family = Family {
    name: "ipx_frames_unknown_senders_total",
    help: "Datagrams to an Ethernet port from unknown senders",
    kind: "counter",
};

const SENT: Family = Family {
    name: "ipx_transmit_frames_total",
    help: "Frames that the system accepted for sending",
    kind: "counter",
};

/// What a router counts at an Ethernet port.
#[derive(Clone, Copy, PartialEq, Eq)]
pub struct EthernetPortMetrics {
    /// The number of the port. The first one is 1.
    pub number: usize,
    /// The frames that arrived, by outcome.
    pub frames: FrameCounters,
    /// The frames that went on from one remote to others.
    pub passed: u64,
    /// The packets that no frame could carry.
    pub refused: u64,
}

/// What a router counts at its Ethernet ports.
#[derive(Drop)]
pub struct EthernetMetrics {
    pub ports: Vec<EthernetPortMetrics>,
    /// The datagrams that came from no remote of any of these ports.
    pub unknown_senders: u64,
    /// The frames that the system took to be sent.
    pub sent: u64,
}

/// The switch of an Ethernet port; None for other ports.
pub fn switch_at(ports: &UdpRouterPorts, port_index: PortIndex) -> Option<&Switch>
    ensures { option_map (λ s. s.now) result
        ≡ switch_at ports.now.ethernet.switches.items port_index }
{
    match port_index {
        PortIndex::Datagrams(_) | PortIndex::IpxnetServer(_) => None,
        PortIndex::Ethernet(place) => ports.ethernet().switches().get(place),
    }
}

fn metrics_of(number: usize, switch: &Switch) -> EthernetPortMetrics
    ensures { result ≡ switch_metrics number switch.now }
{
    EthernetPortMetrics {
        number,
        frames: switch.counts(),
        passed: switch.passed(),
        refused: switch.refused(),
    }
}

/// What the port with this number counts, if it is an Ethernet port.
fn metrics_at(
    ports: &UdpRouterPorts,
    number: usize,
    port_index: PortIndex,
) -> Option<EthernetPortMetrics>
    ensures { result ≡ option_map (switch_metrics number)
        (switch_at ports.now.ethernet.switches.items port_index) }
{
    let switch = switch_at(ports, port_index)?;
    Some(metrics_of(number, switch))
}

/// What a router counts at its Ethernet ports, in their order.
pub fn ethernet_metrics(
    alloc: Global,
    ports: &UdpRouterPorts,
) -> Result<EthernetMetrics, AllocError>
    ensures ports { IfOk result (λ m. m.ports.items
        ≡ ethernet_ports ports.now.ethernet.switches.items ports.now.port_indices.items) }
    ensures unknown_senders { IfOk result (λ m.
        m.unknown_senders ≡ ports.now.ethernet.sockets.unknown_senders) }
    ensures sent { IfOk result (λ m. m.sent ≡ ports.now.ethernet.sockets.sent) }
{
    let mut metrics = Vec::new(alloc);
    for (place, port_index) in ports.port_indices().iter().enumerate() {
        if let Some(here) = metrics_at(ports, place + 1, *port_index) {
            metrics.push(here)?;
        }
    }
    let sockets = ports.ethernet().sockets();
    Ok(EthernetMetrics {
        ports: metrics,
        unknown_senders: sockets.unknown_senders(),
        sent: sockets.sent(),
    })
}

/// Writes the outcomes of the frames that came to the port with this number. Those with a packet in
/// another encapsulation than the port's are counted by their own.
fn put_outcomes(text: &mut String, number: usize, counts: FrameCounters) -> Result<(), AllocError>
    ensures { OnOk result (string_bytes text.new ≡ string_bytes text.old
        ++ flat_map (sample_line (codes "ipx_frames_total"))
        (at_port_by number (codes "outcome") (frame_outcomes counts))) }
{
    let metrics = [
        ("handed_on", counts.handed_on),
        ("broken", counts.broken),
        ("own", counts.own),
        ("not_ours", counts.not_ours),
        ("tagged", counts.tagged),
        ("other_type", counts.other_type),
        ("other_llc", counts.other_llc),
        ("no_packet", counts.no_packet),
        ("other_network", counts.other_network),
        ("in_802.3", counts.in_raw),
        ("in_802.2", counts.in_llc),
        ("in_snap", counts.in_snap),
        ("in_ethernet-ii", counts.in_ethernet_ii),
    ];
    put_each_of_port(text, &FRAMES, number, "outcome", &metrics)
}

/// Writes the outcomes of the frames that came to each port.
fn put_frames(text: &mut String, ports: &[EthernetPortMetrics]) -> Result<(), AllocError>
    ensures { OnOk result
        (string_bytes text.new ≡ string_bytes text.old ++ family_lines (frames_family ports.now)) }
{
    put_family(text, &FRAMES)?;
    for port in ports {
        put_outcomes(text, port.number, port.frames)?;
    }
    Ok(())
}

/// Writes how many frames went on from one remote to others.
fn put_passed(text: &mut String, ports: &[EthernetPortMetrics]) -> Result<(), AllocError>
    ensures { OnOk result
        (string_bytes text.new ≡ string_bytes text.old ++ family_lines (passed_family ports.now)) }
{
    put_family(text, &PASSED)?;
    for port in ports {
        put_of_port(text, &PASSED, port.number, port.passed)?;
    }
    Ok(())
}

/// Writes how many packets of the router no frame could carry.
fn put_refused(text: &mut String, ports: &[EthernetPortMetrics]) -> Result<(), AllocError>
    ensures { OnOk result
        (string_bytes text.new ≡ string_bytes text.old ++ family_lines (unfitting_family ports.now)) }
{
    put_family(text, &REFUSED)?;
    for port in ports {
        put_of_port(text, &REFUSED, port.number, port.refused)?;
    }
    Ok(())
}

/// Writes what a router counts at its Ethernet ports after its other metrics; nothing if it has none.
pub fn put_frame_metrics(text: &mut String, metrics: &EthernetMetrics) -> Result<(), AllocError>
    ensures { OnOk result (string_bytes text.new
        ≡ string_bytes text.old ++ families_text (frame_families metrics.now)) }
{
    if metrics.ports.is_empty() {
        return Ok(());
    }
    put_frames(text, &metrics.ports)?;
    put_passed(text, &metrics.ports)?;
    put_refused(text, &metrics.ports)?;
    put_one(text, &UNKNOWN_SENDERS, metrics.unknown_senders)?;
    put_one(text, &SENT, metrics.sent)
}

/// What a line says of an encapsulation that came to a port with another one.
#[derive(Clone, Copy)]
pub struct EncapsulationLine {
    pub came: Encapsulation,
    /// The encapsulation of the port.
    pub own: Encapsulation,
    /// How many packets came in it.
    pub count: u64,
    /// The node that sent the last frame in any other encapsulation than the port's, and the
    /// address of its remote.
    pub last: Option<(Node, SocketAddrV4)>,
}

impl fmt::Display for EncapsulationLine {
    fn fmt<W: fmt::Write>(&self, f: &mut fmt::Formatter<W>) -> fmt::Result {
        let EncapsulationLine {
            came,
            own,
            count,
            last,
        } = *self;
        write!(
            f,
            "frames of another encapsulation: {came}, this port has {own} ({count} since the start)"
        )?;
        match last {
            Some((node, place)) => write!(f, ", last from {node} at {place}"),
            None => Ok(()),
        }
    }
}

/// Who sent the last frame in another encapsulation than the port's, and the address of its remote.
fn last_sender(ports: &UdpRouterPorts, place: usize) -> Option<(Node, SocketAddrV4)> {
    let switch = ports.ethernet().switches().get(place)?;
    let sender = switch.notices().last_encapsulation?;
    let address = ports.ethernet().sockets().remote(place, sender.end)?;
    Some((sender.node, address))
}

/// Logs which other encapsulations came to a port, by its place among the Ethernet ports.
fn tell_encapsulations_at<R: Log>(rt: &R, ports: &UdpRouterPorts, number: usize, place: usize) {
    let Some(switch) = ports.ethernet().switches().get(place) else {
        return;
    };
    for came in ALL {
        let line = EncapsulationLine {
            came,
            own: switch.port().encapsulation,
            count: came_in(switch.counts(), came),
            last: last_sender(ports, place),
        };
        if line.count > 0 {
            warn!(rt; target: "ipx", "port {number}: {line}");
        }
    }
}

/// Logs which other encapsulations came to each port.
pub fn tell_encapsulations<R: Log>(rt: &R, ports: &UdpRouterPorts) {
    for (index, port_index) in ports.port_indices().iter().enumerate() {
        if let PortIndex::Ethernet(place) = *port_index {
            tell_encapsulations_at(rt, ports, index + 1, place);
        }
    }
}
