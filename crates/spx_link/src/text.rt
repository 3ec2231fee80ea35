//! The debug text of a link.

use crate::link::Link;
use std::fmt;

/// A connection id, in hex.
#[derive(Clone, Copy)]
struct Id(u16);

impl fmt::Debug for Id {
    fn fmt<W: fmt::Write>(&self, f: &mut fmt::Formatter<W>) -> fmt::Result {
        write!(f, "{:04x}", self.0)
    }
}

/// The state, the ids and addresses in hex, and the numbers. It also prints how many units are
/// queued, outstanding, held and kept ahead. It prints none of their data.
impl fmt::Debug for Link {
    fn fmt<W: fmt::Write>(&self, f: &mut fmt::Formatter<W>) -> fmt::Result {
        f.debug_struct("Link")
            .field("state", &self.state)
            .field("own", &Id(self.own))
            .field("peer", &Id(self.peer))
            .field("local", &self.local)
            .field("remote", &self.remote)
            .field("next", &self.next)
            .field("expected", &self.expected)
            .field("room", &self.room)
            .field("queued", &self.queue.len())
            .field("out", &self.out)
            .field("held", &self.buffers.held())
            .field("ahead", &self.buffers.ahead())
            .field("buffers", &self.buffers.size())
            .finish_non_exhaustive()
    }
}
