//! RIP packets: requests for networks, and reachable networks with their metrics.

use crate::rip::entries::RipEntries;
use ipx_wire::Network;

/// The size of an entry of a RIP packet, in bytes.
pub(crate) const RIP_ENTRY_SIZE: usize = 8;

/// The most entries of a RIP packet.
pub const RIP_MAX_ENTRIES: usize = 50;

/// An entry of a RIP packet (Novell IPX Router Specification, RIP packet structure).
#[derive(Clone, Copy, Debug, PartialEq, Eq)]
pub struct RipEntry {
    /// The network. In a request, FFFFFFFF asks for all networks.
    pub network: Network,
    /// The number of routers on the way: 16 or more mean that it is unreachable.
    pub hops: u16,
    /// The delay of the way, in ticks of 1/18 second.
    pub ticks: u16,
}

/// A RIP packet. At most 50 entries are read and written.
#[derive(Debug, Drop)]
pub enum Rip {
    /// Operation 1: the networks that are asked for.
    Request(Vec<RipEntry>),
    /// Operation 2: the networks that are advertised, with their metrics.
    Response(Vec<RipEntry>),
}

/// A RIP packet whose entries are borrowed from its bytes.
#[derive(Drop)]
pub enum RipBody<'a> {
    /// Operation 1: the networks that are asked for.
    Request(RipEntries<'a>),
    /// Operation 2: the networks that are advertised, with their metrics.
    Response(RipEntries<'a>),
}
