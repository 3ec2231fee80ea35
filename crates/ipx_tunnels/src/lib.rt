//! Tunnels for Ethernet frames over UDP: VXLAN and L2TPv3.
//!
//! A [`Tunnel`] says what precedes each frame in a datagram. [`Tunnel::put`] writes the header and
//! the frame, and [`Tunnel::strip`] reads the frame back. No memory is allocated.
#![tactic(auto)]

mod fault;
mod header;
mod laws;
mod stripping;
mod tunnel;

pub use fault::TunnelFault;
pub use header::MAX_HEADER_SIZE;
pub use laws::{peer_strips_what_was_put, tunnels_are_apart};
pub use tunnel::{Cookie, Session, Tunnel, Vni};
