//! Look-ups of links in a list, by their ids.

ghost use Rattle.std.specs.Prelude.{◌≡◌, ◌<◌, ◌↔◌, ◌==◌, IsSome, IsTrue, Some, filter, is_some};
ghost use Rattle.std.specs.Prelude.{length, not, option_copied, position, slice_get};
ghost use Rattle.spx_link.specs.Leasts.{IsFrom, IsLeastId, HasGreaterId, lesser_of};
ghost use Rattle.spx_link.specs.Limits.{most_links};
ghost use Rattle.spx_link.specs.Links as spec;
ghost use Rattle.spx_link.specs.Links.{IsNextFree, link_of};

use crate::limits::MAX_LINKS;
use crate::link::Link;
use ipx_wire::Address;

/// The link of an id.
pub fn link_in(links: &[Link], id: u16) -> Option<&Link>
    ensures { option_copied result ≡ link_of links.now id }
{
    links.iter().find(|link| link.own == id)
}

/// Whether an id is live.
pub fn is_live(links: &[Link], id: u16) -> bool
    ensures { result ≡ is_some (link_of links.now id) }
{
    link_in(links, id).is_some()
}

fn position_in(links: &[Link], id: u16) -> Option<usize>
    ensures { result ≡ position (λ l. l.own == id) links.now }
{
    links.iter().position(|link| link.own == id)
}

/// The place of the link of a live id.
pub fn place_of(links: &[Link], id: u16) -> usize
    requires { IsSome (link_of links.now id) }
    ensures place { position (λ l. l.own == id) links.now ≡ Some result }
    ensures within { result < length links.now }
{
    position_in(links, id).unwrap()
}

/// The link at a place.
pub fn link_at_place(links: &[Link], place: usize) -> &Link
    requires { place < length links.now }
    ensures { slice_get links.now place ≡ Some result.now }
{
    &links[place]
}

/// The id that is `steps` after another: 0001 to FFFE upwards, then 0001 again.
fn id_after(last: u16, steps: u16) -> u16
    ensures { result ≡ spec.id_after last steps }
{
    ((u32::from(last) + u32::from(steps)) % 65534 + 1) as u16
}

/// The first free id after the one assigned last.
pub fn next_free(links: &[Link], last: u16) -> u16
    requires { length links.now < most_links }
    ensures { IsNextFree (record { last = last; links = links.now }) result }
{
    for steps in 0..MAX_LINKS as u16 {
        let id = id_after(last, steps);
        if !is_live(links, id) {
            return id;
        }
    }
    unreachable!()
}

/// The least id so far, after one more id that may count.
fn lesser(id: u16, counts: bool, least: Option<u16>) -> Option<u16>
    ensures { result ≡ lesser_of id counts least }
{
    if !counts {
        return least;
    }
    match least {
        Some(least) => Some(least.min(id)),
        None => Some(id),
    }
}

/// The least id above another.
pub fn least_above(links: &[Link], id: u16) -> Option<u16>
    ensures { IsLeastId (HasGreaterId id) links.now result }
{
    let mut least: Option<u16> = None;
    for link in links {
        least = lesser(link.own, is_over(link, id), least);
    }
    least
}

fn is_over(link: &Link, id: u16) -> bool
    ensures { IsTrue result ↔ HasGreaterId id link.now }
{
    id < link.own
}

/// The least id of the links that were accepted from this address and peer id.
pub fn least_accepted(links: &[Link], from: Address, peer_id: u16) -> Option<u16>
    ensures { IsLeastId (IsFrom from peer_id) links.now result }
{
    let mut least: Option<u16> = None;
    for link in links {
        least = lesser(link.own, is_from(link, from, peer_id), least);
    }
    least
}

fn is_from(link: &Link, from: Address, peer_id: u16) -> bool
    ensures { IsTrue result ↔ IsFrom from peer_id link.now }
{
    link.accepted && link.remote == from && link.peer == peer_id
}

/// Removes the link of an id.
pub fn remove_link(links: &mut Vec<Link>, id: u16)
    ensures { links.new.items ≡ filter (λ l. not (l.own == id)) links.old.items }
{
    links.retain(|link| link.own != id);
}
