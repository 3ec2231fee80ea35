//! Source checks of a router: which packets it drops before it hears them.
//!
//! [`SourceChecked`] is a core of `ipx_carrier` over another one, such as a router's. It drops RIP
//! and SAP that another router forwarded, RIP and SAP from a group or from zero at an Ethernet port,
//! and packets for another network that claim to come from that same network. No conforming router
//! or host sends such a packet. A host that forges its source can have one forwarded.
#![tactic(auto)]

mod drops;
mod failed_check;
mod laws;
mod source_checked;

pub use drops::{SourceDropCount, SourceDrops};
pub use failed_check::CheckedPort;
pub use laws::{no_forwarded_packet_is_heard_as_control, no_group_is_heard_as_control};
pub use source_checked::SourceChecked;
