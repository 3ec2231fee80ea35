//! A router at a site, configured by a short file.
//!
//! [`do_route`] is the command of a router: [`start_router`], followed by [`run_router`].
//! [`do_ipxnet`] is that of a server for players, without a file.
#![tactic(auto)]

mod access_list_metrics;
mod client_log;
mod clients_file;
mod discovery;
mod drop_log;
mod ethernet_ports;
mod ethernet_totals;
mod family;
mod frame_log;
mod frame_metrics;
mod ipxnet_metrics;
mod ipxnet_ports;
mod ipxnet_totals;
mod known_text;
mod metrics;
mod metrics_page;
mod neighbour_metrics;
mod players;
mod port_metrics;
mod ready_ports;
mod registering;
mod repeat_log;
mod route_change_log;
mod router_counts;
mod router_ports;
mod router_runs;
mod routing;
mod running_router;
mod secret;
mod secret_file;
mod source_laws;
mod starting;
mod static_laws;
mod static_neighbours;
mod tunnel_log;
mod tunnel_metrics;
mod warnings;
mod written_files;

pub use access_list_metrics::put_access_list_metrics;
pub use client_log::{ClientChanges, ClientLog, PortClient};
pub use discovery::discovery_retry;
pub use drop_log::{DropReason, DropSummary};
pub use frame_log::FrameLine;
pub use frame_metrics::{EncapsulationLine, EthernetMetrics, EthernetPortMetrics};
pub use ipxnet_metrics::{IpxnetMetrics, IpxnetPortMetrics, put_drops};
pub use metrics::Metrics;
pub use metrics_page::MetricsPage;
pub use neighbour_metrics::put_neighbour_metrics;
pub use players::{do_ipxnet, ipxnet_file, start_ipxnet};
pub use port_metrics::put_port_metrics;
pub use router_ports::PortIndex;
pub use router_runs::run_router;
pub use routing::do_route;
pub use running_router::RunningRouter;
pub use source_laws::control_is_of_its_sender;
pub use starting::start_router;
pub use static_laws::{
    entries_of_files_meet_premises, routes_of_files_hold, routes_of_sites_hold,
    services_of_files_hold, services_of_sites_hold,
};
pub use static_neighbours::static_neighbours_of;
pub use tunnel_log::TunnelLine;
pub use tunnel_metrics::{TunnelMetrics, TunnelPortMetrics};
pub use written_files::{FileFault, WrittenFile};
