//! Prometheus metrics of the tunnels of a router's Ethernet ports.

ghost use Rattle.std.specs.Prelude.{◌≡◌, ◌++◌, IfOk, OnOk, codes, option_map, string_bytes};
ghost use Rattle.std.specs.List.{flat_map};
ghost use Rattle.ipx_site.specs.MetricsText.{at_port_by, families_text, family_lines, sample_line};
ghost use Rattle.ipx_site.specs.TunnelFamilies.{drop_reasons, drops_at_port, port_drops, tunnel_families, tunnel_family, tunnel_ports};

use crate::family::{Family, put_each_of_port, put_family};
use crate::router_ports::{PortIndex, UdpRouterPorts};
use ipx_ethernet_ports::{EthernetSockets, TunnelDrops};
use std::alloc::{AllocError, Global};

const DROPPED: Family = Family {
    name: "ipx_tunnel_dropped_total",
    help: "Datagrams of remotes that carry no frame in the tunnel of their port, by reason",
    kind: "counter",
};

/// What was dropped at a port because it had no frame in the tunnel of the port.
#[derive(Clone, Copy, PartialEq, Eq)]
pub struct TunnelPortMetrics {
    /// The number of the port. The first one is 1.
    pub number: usize,
    /// The datagrams, by reason.
    pub drops: TunnelDrops,
}

/// What was dropped so at each Ethernet port that has a tunnel.
#[derive(Drop)]
pub struct TunnelMetrics {
    pub ports: Vec<TunnelPortMetrics>,
}

/// What was dropped at a port because it had no frame in the tunnel. None if the port has no tunnel.
pub fn drops_at_port(sockets: &EthernetSockets, port_index: PortIndex) -> Option<TunnelDrops>
    ensures { result ≡ drops_at_port sockets.now.ethernet.items port_index }
{
    match port_index {
        PortIndex::Datagrams(_) | PortIndex::IpxnetServer(_) => None,
        PortIndex::Ethernet(place) => sockets.tunnel_drops(place),
    }
}

/// The same for the port with this number.
fn metrics_at(
    ports: &UdpRouterPorts,
    number: usize,
    port_index: PortIndex,
) -> Option<TunnelPortMetrics>
    ensures { result ≡ option_map (port_drops number)
        (drops_at_port ports.now.ethernet.sockets.ethernet.items port_index) }
{
    let drops = drops_at_port(ports.ethernet().sockets(), port_index)?;
    Some(TunnelPortMetrics { number, drops })
}

/// What was dropped at each port that has a tunnel, in their order.
pub fn tunnel_metrics(alloc: Global, ports: &UdpRouterPorts) -> Result<TunnelMetrics, AllocError>
    ensures { IfOk result (λ m. m.ports.items
        ≡ tunnel_ports ports.now.ethernet.sockets.ethernet.items ports.now.port_indices.items) }
{
    let mut metrics = Vec::new(alloc);
    for (place, port_index) in ports.port_indices().iter().enumerate() {
        if let Some(here) = metrics_at(ports, place + 1, *port_index) {
            metrics.push(here)?;
        }
    }
    Ok(TunnelMetrics { ports: metrics })
}

/// Writes what was dropped at the port with this number, by reason.
fn put_drops(text: &mut String, number: usize, drops: TunnelDrops) -> Result<(), AllocError>
    ensures { OnOk result (string_bytes text.new ≡ string_bytes text.old
        ++ flat_map (sample_line (codes "ipx_tunnel_dropped_total"))
        (at_port_by number (codes "reason") (drop_reasons drops))) }
{
    let metrics = [
        ("short", drops.short),
        ("not_vxlan", drops.not_vxlan),
        ("other_vni", drops.other_vni),
        ("control", drops.control),
        ("other_version", drops.other_version),
        ("other_session", drops.other_session),
        ("other_cookie", drops.other_cookie),
    ];
    put_each_of_port(text, &DROPPED, number, "reason", &metrics)
}

/// Writes what was dropped at each port.
fn put_ports(text: &mut String, ports: &[TunnelPortMetrics]) -> Result<(), AllocError>
    ensures { OnOk result
        (string_bytes text.new ≡ string_bytes text.old ++ family_lines (tunnel_family ports.now)) }
{
    put_family(text, &DROPPED)?;
    for port in ports {
        put_drops(text, port.number, port.drops)?;
    }
    Ok(())
}

/// The same; nothing if there is no port.
fn put_any(text: &mut String, ports: &[TunnelPortMetrics]) -> Result<(), AllocError>
    ensures { OnOk result (string_bytes text.new
        ≡ string_bytes text.old ++ families_text (tunnel_families ports.now)) }
{
    if ports.is_empty() {
        return Ok(());
    }
    put_ports(text, ports)
}

/// Writes what was dropped at each port that has a tunnel; nothing if no port has one.
pub fn put_tunnel_metrics(text: &mut String, metrics: &TunnelMetrics) -> Result<(), AllocError>
    ensures { OnOk result (string_bytes text.new
        ≡ string_bytes text.old ++ families_text (tunnel_families metrics.now.ports.items)) }
{
    put_any(text, &metrics.ports)
}
