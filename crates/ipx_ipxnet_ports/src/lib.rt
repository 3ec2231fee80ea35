//! A port driver of a router for the clients of DOSBox's ipxnet.
//!
//! [`PlaceSockets`] carries datagrams between addresses and ports. [`Servers`] has an ipxnet server
//! for each port over them. What a client sends is answered and sent to others, and the core gets
//! what is for it.
#![tactic(auto)]

mod allow;
mod front;
mod giving_on;
mod memory;
mod place_sockets;
mod server_ports;
mod sockets;

pub use allow::Allow;
pub use memory::{MemoryDatagram, MemoryPlaces};
pub use place_sockets::{DatagramCame, PlaceSockets};
pub use server_ports::Servers;
pub use sockets::{ServerSocket, ServerSockets, ip_of_sender};
