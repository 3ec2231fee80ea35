//! The packets that an endpoint sends.

ghost use Rattle.std.specs.Prelude.{◌≡◌, ◌≤◌, length};
ghost use Rattle.ipx_wire.specs.Assigned.{spx_max_packet_size};
ghost use Rattle.spx_messages.specs.Polls.{Polls};

mod turn;
mod writing;

use crate::endpoint::Endpoint;
use crate::poll::turn::poll_links;
use crate::poll::writing::HostAddress;
use ipx_wire::Node;

impl Endpoint {
    /// Writes one packet to the front of the buffer, and gives its next node and its length in
    /// bytes. After that, `sent` gives its link and kind. The caller must pass a buffer of 576 bytes.
    ///
    /// Links are polled in the order of their ids. `None` if no link has anything to send at this
    /// time. It allocates nothing.
    pub fn poll(&mut self, now: u64, room: &mut [u8]) -> Option<(Node, usize)>
        requires { spx_max_packet_size ≤ length room.old }
        ensures { Polls self.old now result room.old room.new self.new }
    {
        let place = HostAddress {
            network: self.network,
            node: self.node,
            router: self.router,
        };
        self.sent = None;
        let given = poll_links(place, &mut self.links, now, room)?;
        self.sent = Some((given.id, given.what));
        Some((given.next, given.count))
    }
}
