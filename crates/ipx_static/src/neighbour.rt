//! A neighbour that advertises nothing itself.

use ipx_control::{RipEntry, ServiceEntry};
use ipx_wire::Node;

/// A neighbour on the network of a port that advertises nothing itself, and what it would
/// advertise.
#[derive(Drop)]
pub struct StaticNeighbour {
    /// The number of the port, from 1.
    pub port: u8,
    pub node: Node,
    /// The networks beyond it.
    pub routes: Vec<RipEntry>,
    /// The services that it offers, or that are beyond it.
    pub services: Vec<ServiceEntry>,
}
