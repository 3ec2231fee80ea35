//! The port of a router that has an ipxnet server.

use ipx_wire::{Network, Node};

/// What only the router knows, and makes the nodes of its clients from. Make it of random bytes,
/// and tell it nobody. While it and the network stay, a client's address has the same node.
#[derive(Clone, Copy, PartialEq, Eq)]
pub struct Secret(pub [u8; 32]);

/// The port of a router at which clients register.
#[derive(Clone, Copy, PartialEq, Eq)]
pub struct ServerPort {
    /// The network number that clients are told, other than 0. They send and expect it from then
    /// on.
    pub network: Network,
    /// The router's node there, other than FFFFFFFFFFFF.
    pub own: Node,
    /// The secret of the router.
    pub secret: Secret,
}
