//! What was done with a datagram.

use ipx_wire::{IpxFault, SpxFault};
use spx_link::Received;

/// What an endpoint did with a datagram. Ids are those of its links.
#[derive(Clone, Copy, Debug, PartialEq, Eq)]
pub enum Arrived {
    /// It is no IPX packet.
    Bad(IpxFault),
    /// Its packet type is not SPX, or it is not for this host.
    NotOurs,
    /// Its body is no SPX packet.
    BadSpx(SpxFault),
    /// It asks for a connection to a socket that does not listen.
    NoListener,
    /// It asks for a connection, and there are 16 links already.
    NoRoom,
    /// It is for no link of this host, or the link does not know its sender.
    Stranger,
    /// It asked for a connection, and this link was made.
    Accepted(u16),
    /// A link's answer. A request that came again also gives `Repeat`, and is answered by another
    /// reply.
    Link(u16, Received),
}
