//! A port driver of a router or a host for Ethernet ports.
//!
//! [`EndSockets`] carries frames between ports and their remotes. [`EthernetPorts`] has a switch
//! for each port over them. What a remote sends is forwarded to the others, and the core gets what
//! is for it.
#![tactic(auto)]

mod end_sockets;
mod ethernet_ports;
mod memory;
mod reaching;
mod remotes;
mod socket;
mod sockets;
mod taking;
mod tunnel_drops;

pub use end_sockets::{EndSockets, FrameCame};
pub use ethernet_ports::EthernetPorts;
pub use memory::{MemoryEnds, MemoryFrame};
pub use remotes::Remotes;
pub use sockets::EthernetSockets;
pub use tunnel_drops::{TunnelDrop, TunnelDrops};
