//! A host that a network is made with.

use ipx_wire::{Network, Node, Socket};

/// A host: its network and node, and its router for other networks. If it listens at a socket, that
/// socket, and the number of buffers of each link that is accepted there.
///
/// The caller of the network must pass a network other than 0 and FFFFFFFF, and 1 to 8,192 buffers.
#[derive(Clone, Copy, Debug, PartialEq, Eq)]
pub struct Host {
    pub network: Network,
    pub node: Node,
    pub router: Node,
    pub listen: Option<(Socket, u16)>,
}
