//! The configuration files of routers and hosts.
//!
//! [`read_site`] parses the file of a router, and [`read_host`] that of a host. [`load_site`] and
//! [`load_host`] read them from disk. [`check_site`] prints what a file says.
#![tactic(auto)]

mod allowed_peer;
mod checking;
mod config_file;
mod destination;
mod equality;
mod escaped;
mod ethernet_fields;
mod ethernet_values;
mod fault;
mod fault_line;
mod fields;
mod files;
mod host;
mod ipxnet_fields;
mod ipxnet_peers;
mod ipxnet_port;
mod key;
mod neighbours;
mod peer_lines;
mod port;
mod reading;
mod site;
mod start_lines;
mod static_fields;
mod static_lines;
mod static_lists;
mod static_tables;
mod static_values;
mod statics;
mod target;
mod text;
mod toml_text;
mod tunnel_fields;
mod tunnel_kind;
mod tunnel_lines;
mod tunnel_values;
mod values;

pub use allowed_peer::AllowedPeer;
pub use checking::{check_site, peers_to_remarks, write_checked, write_text};
pub use config_file::{ConfigFile, load_config, load_tables};
pub use destination::{dialed_ip, is_nowhere, is_on_own_network, peer_address_of, tell_nowhere};
pub use equality::{is_same_ip, is_same_node};
pub use escaped::Escaped;
pub use fault::ConfigError;
pub use fault_line::FaultLine;
pub use files::{load_host, load_site, site_in, tell_no_memory};
pub use host::{HostConfig, read_host};
pub use ipxnet_port::{IpxnetPortConfig, Peer};
pub use key::Key;
pub use reading::read_site;
pub use site::{
    Accept, Directed, EthernetPortConfig, Kind, PortConfig, RemotesConfig, Rfc1234PortConfig,
    RouterConfig,
};
pub use start_lines::{dotted, others, ports_to_texts, reached_to_text};
pub use statics::{StaticEntry, StaticItem, is_one_source};
pub use target::{Target, TargetFault};
pub use values::TEMPORARY;
