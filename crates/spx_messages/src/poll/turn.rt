//! A turn over the links of a host, in the order of their ids.

ghost use Rattle.std.specs.Prelude.{◌≡◌, ◌≤◌, IfNone, IfSome, None, drop, length, take};
ghost use Rattle.ipx_wire.specs.Assigned.{spx_max_packet_size};
ghost use Rattle.spx_link.specs.Links.{ChangesOnly, IsLive, link_at, polled};
ghost use Rattle.spx_link.specs.Poll.{poll_link};
ghost use Rattle.spx_messages.specs.EndpointTurns.{AllRest, GivesPacket, Turned};

use crate::poll::writing::{HostAddress, write_packet};
use ipx_wire::Node;
use spx_link::{Links, Sent};

/// The packet that a link gave: the link's id, what the packet is for, its next node, and its
/// length in bytes.
#[derive(Clone, Copy)]
pub struct Given {
    pub id: u16,
    pub what: Sent,
    pub next: Node,
    pub count: usize,
}

/// Polls the link of a live id, and writes the packet that it gives.
fn poll_one(
    place: HostAddress,
    links: &mut Links,
    id: u16,
    now: u64,
    room: &mut [u8],
) -> Option<Given>
    requires live { IsLive links.old id }
    requires room { spx_max_packet_size ≤ length room.old }
    ensures leaves { IfSome (link_at links.old id) (λ l.
        ChangesOnly links.old links.new id (poll_link l now).1) }
    ensures rests { IfNone result ((polled (link_at links.old id) now ≡ None)
        × (room.new ≡ room.old)) }
    ensures gives { IfSome result (λ g.
        GivesPacket place links.old id now g (take g.count room.new)) }
    ensures behind { IfSome result (λ g. drop g.count room.new ≡ drop g.count room.old) }
    ensures short { IfSome result (λ g. g.count ≤ spx_max_packet_size) }
{
    let link = links.get(id)?;
    let from = place.at(link.local());
    let to = link.remote();
    let packet = links.poll(id, now)?;
    let count = write_packet(from, to, &packet, room);
    Some(Given {
        id,
        what: packet.what,
        next: place.next_node(to),
        count,
    })
}

/// Polls the links in the order of their ids, up to the first that gives a packet, and writes that
/// packet.
pub fn poll_links(place: HostAddress, links: &mut Links, now: u64, room: &mut [u8]) -> Option<Given>
    requires room { spx_max_packet_size ≤ length room.old }
    ensures rests { IfNone result (AllRest links.old links.new now × (room.new ≡ room.old)) }
    ensures gives { IfSome result (λ g.
        Turned place links.old links.new now g (take g.count room.new)) }
    ensures behind { IfSome result (λ g. drop g.count room.new ≡ drop g.count room.old) }
    ensures short { IfSome result (λ g. g.count ≤ spx_max_packet_size) }
{
    let mut id = 0;
    while let Some(next) = links.after(id) {
        let given = poll_one(place, links, next, now, room);
        if given.is_some() {
            return given;
        }
        id = next;
    }
    None
}
