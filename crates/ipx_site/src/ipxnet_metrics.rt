//! Prometheus metrics of a router's ipxnet ports.

ghost use Rattle.std.specs.Prelude.{◌≡◌, ◌++◌, IfOk, OnOk, codes, option_map, string_bytes};
ghost use Rattle.std.specs.List.{flat_map};
ghost use Rattle.ipx_site.specs.IpxnetFamilies.{clients_family, ipxnet_families, server_drops, servers_dropped_family};
ghost use Rattle.ipx_site.specs.KindMetrics.{ipxnet_ports, server_at, server_metrics};
ghost use Rattle.ipx_site.specs.MetricsText.{at_port_by, families_text, family_lines, sample_line};

use crate::family::{Family, put_each_of_port, put_family, put_of_port, put_one};
use crate::router_ports::{PortIndex, UdpRouterPorts};
use ipx_ipxnet_ports::PlaceSockets;
use ipxnet_server::{IpxnetServer, ServerCounts};
use std::alloc::{AllocError, Global};

const CLIENTS: Family = Family {
    name: "ipx_ipxnet_clients",
    help: "Players connected at the port",
    kind: "gauge",
};

const DROPPED: Family = Family {
    name: "ipx_ipxnet_dropped_total",
    help: "Datagrams from clients and packets to clients that were dropped, by reason",
    kind: "counter",
};

const UNKNOWN_SENDERS: Family = Family {
    name: "ipx_ipxnet_unknown_senders_total",
    help: "Datagrams from senders that may not register",
    kind: "counter",
};

const SENT: Family = Family {
    name: "ipx_ipxnet_transmit_packets_total",
    help: "Datagrams to clients that the system accepted for sending",
    kind: "counter",
};

/// What a router counts at a port for ipxnet.
#[derive(Clone, Copy, PartialEq, Eq)]
pub struct IpxnetPortMetrics {
    /// The number of the port. The first one is 1.
    pub number: usize,
    /// How many clients are registered.
    pub clients: u64,
    /// What was dropped, by reason.
    pub drops: ServerCounts,
}

/// What a router counts at its ports for ipxnet.
#[derive(Drop)]
pub struct IpxnetMetrics {
    pub ports: Vec<IpxnetPortMetrics>,
    /// The datagrams that came from nobody who may register at any of these ports.
    pub unknown_senders: u64,
    /// The datagrams for clients that the system took to be sent.
    pub sent: u64,
}

/// The ipxnet server of a port, if it has one.
fn server_at(ports: &UdpRouterPorts, port_index: PortIndex) -> Option<&IpxnetServer>
    ensures { option_map (λ s. s.now) result
        ≡ server_at ports.now.servers.servers.items port_index }
{
    match port_index {
        PortIndex::Datagrams(_) | PortIndex::Ethernet(_) => None,
        PortIndex::IpxnetServer(place) => ports.servers().servers().get(place),
    }
}

fn metrics_of(number: usize, server: &IpxnetServer) -> IpxnetPortMetrics
    ensures { result ≡ server_metrics number server.now }
{
    IpxnetPortMetrics {
        number,
        clients: server.clients().len() as u64,
        drops: server.counts(),
    }
}

/// What the port with this number counts, if it is a port for ipxnet.
fn metrics_at(
    ports: &UdpRouterPorts,
    number: usize,
    port_index: PortIndex,
) -> Option<IpxnetPortMetrics>
    ensures { result ≡ option_map (server_metrics number)
        (server_at ports.now.servers.servers.items port_index) }
{
    let server = server_at(ports, port_index)?;
    Some(metrics_of(number, server))
}

/// What a router counts at its ports for ipxnet, in their order.
pub fn ipxnet_metrics(alloc: Global, ports: &UdpRouterPorts) -> Result<IpxnetMetrics, AllocError>
    ensures ports { IfOk result (λ m. m.ports.items
        ≡ ipxnet_ports ports.now.servers.servers.items ports.now.port_indices.items) }
    ensures unknown_senders { IfOk result (λ m.
        m.unknown_senders ≡ ports.now.servers.sockets.nowhere) }
    ensures sent { IfOk result (λ m. m.sent ≡ ports.now.servers.sockets.sent) }
{
    let mut metrics = Vec::new(alloc);
    for (place, port_index) in ports.port_indices().iter().enumerate() {
        if let Some(here) = metrics_at(ports, place + 1, *port_index) {
            metrics.push(here)?;
        }
    }
    let sockets = ports.servers().sockets();
    Ok(IpxnetMetrics {
        ports: metrics,
        unknown_senders: sockets.from_nowhere(),
        sent: sockets.sent(),
    })
}

/// Writes what was dropped at the port with this number, by reason.
pub fn put_drops(text: &mut String, number: usize, counts: ServerCounts) -> Result<(), AllocError>
    ensures { OnOk result (string_bytes text.new ≡ string_bytes text.old
        ++ flat_map (sample_line (codes "ipx_ipxnet_dropped_total"))
        (at_port_by number (codes "reason") (server_drops counts))) }
{
    let metrics = [
        ("malformed", counts.malformed),
        ("node_taken", counts.node_taken),
        ("full_of_address", counts.full_of_address),
        ("full", counts.full),
        ("unregistered", counts.unregistered),
        ("other_source", counts.other_source),
        ("too_long", counts.too_long),
        ("no_such_node", counts.no_such_node),
        ("to_itself", counts.to_itself),
        ("ping_elsewhere", counts.ping_elsewhere),
        ("broadcast_elsewhere", counts.broadcast_elsewhere),
        ("from_elsewhere", counts.from_elsewhere),
        ("response", counts.response),
        ("not_behind", counts.not_behind),
        ("for_elsewhere", counts.for_elsewhere),
        ("rate_limited", counts.rate_limited),
        ("busy", counts.busy),
    ];
    put_each_of_port(text, &DROPPED, number, "reason", &metrics)
}

/// Writes how many clients each port has.
fn put_clients(text: &mut String, ports: &[IpxnetPortMetrics]) -> Result<(), AllocError>
    ensures { OnOk result
        (string_bytes text.new ≡ string_bytes text.old ++ family_lines (clients_family ports.now)) }
{
    put_family(text, &CLIENTS)?;
    for port in ports {
        put_of_port(text, &CLIENTS, port.number, port.clients)?;
    }
    Ok(())
}

/// Writes what each port dropped.
fn put_dropped(text: &mut String, ports: &[IpxnetPortMetrics]) -> Result<(), AllocError>
    ensures { OnOk result (string_bytes text.new
        ≡ string_bytes text.old ++ family_lines (servers_dropped_family ports.now)) }
{
    put_family(text, &DROPPED)?;
    for port in ports {
        put_drops(text, port.number, port.drops)?;
    }
    Ok(())
}

/// Writes the metrics of a router's ipxnet ports after its other metrics; nothing if it has none.
pub fn put_ipxnet_metrics(text: &mut String, metrics: &IpxnetMetrics) -> Result<(), AllocError>
    ensures { OnOk result (string_bytes text.new
        ≡ string_bytes text.old ++ families_text (ipxnet_families metrics.now)) }
{
    if metrics.ports.is_empty() {
        return Ok(());
    }
    put_clients(text, &metrics.ports)?;
    put_dropped(text, &metrics.ports)?;
    put_one(text, &UNKNOWN_SENDERS, metrics.unknown_senders)?;
    put_one(text, &SENT, metrics.sent)
}
