//! Why something is dropped.

use ipx_wire::{IpxFault, Network, Node};
use std::net::SocketAddrV4;
use thiserror::Error;

/// Why a received datagram, or a packet of the core, is dropped.
#[derive(Clone, Copy, Debug, PartialEq, Eq, Error)]
pub enum ServerDrop {
    /// It is not a packet, for this cause.
    #[error("{0}")]
    Malformed(IpxFault),
    /// Its sender would be a new client whose node is taken: it is the router's or another client's.
    /// The value is the node.
    #[error("the client's node is already in use: {0}")]
    NodeTaken(Node),
    /// Its sender would be a new client, and its IP address has as many clients as one may have,
    /// all heard within the last minute.
    #[error("too many clients of one IP address")]
    FullOfAddress,
    /// Its sender would be a new client, and there are as many as allowed, all heard within the
    /// last minute.
    #[error("the server is full")]
    Full,
    /// No client is known at its source address, and its source node is not the one that a
    /// registration from there would be given.
    #[error("from an unregistered sender")]
    Unregistered,
    /// Its source node, which is the value, is not the one that its client was given.
    #[error("a client sent from a node that is not its own: {0}")]
    OtherSource(Node),
    /// It has more bytes than a client accepts. The value is how many.
    #[error("{0} bytes, a client accepts at most 1424")]
    TooLong(usize),
    /// No client here has its destination node, which is the value.
    #[error("no client has the node {0}")]
    NoSuchNode(Node),
    /// It is for the client that sent it.
    #[error("a client sent to itself")]
    ToItself,
    /// It is for the socket of registrations and pings on another network, which is the value.
    #[error("a ping for network {0}")]
    PingElsewhere(Network),
    /// It is for all nodes of another network, which is the value.
    #[error("a broadcast for network {0}")]
    BroadcastElsewhere(Network),
    /// It is only for the core, and its source network, which is the value, is neither 0 nor the
    /// port's.
    #[error("a client sent from network {0}")]
    FromElsewhere(Network),
    /// It is only for the core, and is a response of RIP or SAP, which advertises routes or
    /// services.
    #[error("a client advertised routes or services")]
    Response,
    /// It is from a joined router, and from a node of this network that no client there can have.
    /// That is 0, the router's here, the broadcast node or a client's here. The value is the node.
    #[error("a joined server sent from a node that is none of its clients: {0}")]
    NotBehind(Node),
    /// It is from a joined router, and for another network, which is the value.
    #[error("a joined server sent to network {0}")]
    ForElsewhere(Network),
    /// It is a flood of a client that has no token: a packet for all nodes here, or for a node that
    /// nobody has here, which goes to all joined routers. The value is the client's address.
    #[error("too many broadcasts of a client")]
    RateLimited(SocketAddrV4),
    /// It is a flood, whoever sent it, and the port has too few tokens for its copies.
    #[error("too many copies of broadcasts")]
    Busy,
}
