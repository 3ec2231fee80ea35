//! All metrics of a router, as a text for Prometheus.

ghost use Rattle.std.specs.Prelude.{IfOk, string_bytes};
ghost use Rattle.ipx_site.specs.MetricsPage.{IsMetricsPage};

use crate::access_list_metrics::put_access_list_metrics;
use crate::frame_metrics::{EthernetMetrics, put_frame_metrics};
use crate::ipxnet_metrics::{IpxnetMetrics, put_ipxnet_metrics};
use crate::metrics::Metrics;
use crate::neighbour_metrics::put_neighbour_metrics;
use crate::port_metrics::put_port_metrics;
use crate::router_ports::PortIndex;
use crate::tunnel_metrics::{TunnelMetrics, put_tunnel_metrics};
use ipx_metrics::PortCounts;
use ipx_router::Router;
use ipx_sockets::PortFilterDrops;
use std::alloc::{AllocError, Global};

/// All that a router counts and knows at a moment.
#[derive(Clone, Copy)]
pub struct MetricsPage<'a> {
    pub totals: Metrics,
    /// The router, whose ports and neighbours are named.
    pub router: &'a Router,
    /// The time, in milliseconds since the start.
    pub now: u64,
    /// The counters of each port, in order.
    pub counters: &'a [PortCounts],
    /// The index of each port among those of its kind.
    pub port_indices: &'a [PortIndex],
    /// What access lists filtered at each RFC 1234 port, in order.
    pub filtered: &'a [PortFilterDrops],
    pub ethernet: &'a EthernetMetrics,
    pub tunnels: &'a TunnelMetrics,
    pub ipxnet: &'a IpxnetMetrics,
}

impl<'a> MetricsPage<'a> {
    /// The text of the metrics file.
    pub fn text(&self, alloc: Global) -> Result<String, AllocError>
        ensures { IfOk result (λ t. IsMetricsPage (record {
          totals = self.entry.now.totals;
          router = self.entry.now.router.now;
          now = self.entry.now.now;
          counters = self.entry.now.counters.now;
          port_indices = self.entry.now.port_indices.now;
          filtered = self.entry.now.filtered.now;
          ethernet = self.entry.now.ethernet.now;
          tunnels = self.entry.now.tunnels.now.ports.items;
          ipxnet = self.entry.now.ipxnet.now;
        }) (string_bytes t)) }
    {
        let mut text = self.totals.text(alloc)?;
        put_port_metrics(&mut text, alloc, self.router.ports(), self.counters)?;
        put_access_list_metrics(&mut text, alloc, self.port_indices, self.filtered)?;
        put_neighbour_metrics(&mut text, alloc, self.router, self.now)?;
        put_frame_metrics(&mut text, self.ethernet)?;
        put_tunnel_metrics(&mut text, self.tunnels)?;
        put_ipxnet_metrics(&mut text, self.ipxnet)?;
        Ok(text)
    }
}
