//! The links of a host, by their ids.

ghost use Rattle.std.specs.Prelude.{◌≡◌, ◌≤◌, ◌<◌, ◌↔◌, ℕ, Err, IfOk, IfSome, IsSome, IsTrue};
ghost use Rattle.std.specs.Prelude.{MatchOption, None, OnErr, option_copied};
ghost use Rattle.std.specs.Bool.{OnFalse, OnTrue};
ghost use Rattle.spx_link.specs.Due.{IsNextDueOfAll};
ghost use Rattle.spx_link.specs.Limits.{most_links};
ghost use Rattle.spx_link.specs.Links.{Adds, IsAbove, IsAcceptedFrom, IsBetween, IsLeast, IsLive};
ghost use Rattle.spx_link.specs.Links.{IsNextFree, LinksView, Releases, count_of, link_at};
ghost use Rattle.spx_link.specs.Offer.{accepted_from, dialed};
ghost use Rattle.spx_link.specs.Sound.{AreIdsSound, ids_of};
ghost use Rattle.spx_link.specs.declared.fault.LinksFault.TheVariants as LinksFaults;

mod by_id;
mod lookup;

use crate::due::soonest;
use crate::fault::LinksFault;
use crate::limits::MAX_LINKS;
use crate::link::Link;
use crate::links::lookup::{is_live, least_above, least_accepted, link_in, next_free, remove_link};
use ipx_wire::{Address, Socket, SpxHeader};
use std::alloc::Global;
use std::marker::Model;

/// The links of a host, at most 16. Their ids are from 0001 to FFFE.
#[derive(Drop)]
pub struct Links {
    pub(crate) last: u16,
    pub(crate) links: Vec<Link>,
}

impl Model for Links {
    ghost Value = { LinksView };

    ghost view = { λ s. record { last = s.last; links = s.links.items } };

    ghost invariant = { λ s. AreIdsSound s.last (ids_of s.links.items) };
}

impl Links {
    /// An empty set of links.
    pub fn new(alloc: Global) -> Links
        ensures none { (id : ℕ) → link_at result id ≡ None }
        ensures count { count_of result ≡ 0 }
        ensures last { result.last ≡ 0 }
    {
        Links {
            last: 0,
            links: Vec::new(alloc),
        }
    }

    /// A new link, which requests a connection from a local socket to a remote address. The caller
    /// must pass 1 to 8,192 buffers.
    ///
    /// It is refused as `TooMany` if 16 links are held, otherwise only if out of memory.
    pub fn dial(
        &mut self,
        alloc: Global,
        socket: Socket,
        to: Address,
        buffers: u16,
        now: u64,
    ) -> Result<u16, LinksFault>
        ensures id { IfOk result (λ id. IsNextFree self.old id) }
        ensures adds { IfOk result
            (λ id. Adds self.old self.new id (dialed id socket to buffers now)) }
        ensures too_many { (result ≡ Err LinksFaults.TooMany) ↔ (count_of self.old ≡ most_links) }
        ensures unchanged { OnErr result (self.new ≡ self.old) }
    {
        if self.links.len() >= MAX_LINKS {
            return Err(LinksFault::TooMany);
        }
        let id = next_free(&self.links, self.last);
        let link = Link::dial(alloc, id, socket, to, buffers, now)?;
        self.links.push(link)?;
        self.last = id;
        Ok(id)
    }

    /// A new link for a request to a local socket. The caller must pass 1 to 8,192 buffers.
    ///
    /// It is refused as `dial` is.
    pub fn accept(
        &mut self,
        alloc: Global,
        socket: Socket,
        from: Address,
        request: &SpxHeader,
        buffers: u16,
        now: u64,
    ) -> Result<u16, LinksFault>
        ensures id { IfOk result (λ id. IsNextFree self.old id) }
        ensures adds { IfOk result
            (λ id. Adds self.old self.new id
            (accepted_from id socket from request.now buffers now)) }
        ensures too_many { (result ≡ Err LinksFaults.TooMany) ↔ (count_of self.old ≡ most_links) }
        ensures unchanged { OnErr result (self.new ≡ self.old) }
    {
        if self.links.len() >= MAX_LINKS {
            return Err(LinksFault::TooMany);
        }
        let id = next_free(&self.links, self.last);
        let link = Link::accept(alloc, id, socket, from, request, buffers, now)?;
        self.links.push(link)?;
        self.last = id;
        Ok(id)
    }

    /// The link of an id, if it is live.
    pub fn get(&self, id: u16) -> Option<&Link>
        ensures link { option_copied result ≡ link_at self.now id }
        ensures id { IfSome result (λ _. (0 < id) × (id < 65535)) }
    {
        link_in(&self.links, id)
    }

    /// The id, if its link has this local socket and remote address.
    pub fn find(&self, socket: Socket, from: Address, id: u16) -> Option<u16>
        ensures variant { IsSome result ↔ IsBetween self.now socket from id }
        ensures value { IfSome result (λ q. q ≡ id) }
    {
        let link = self.get(id)?;
        if link.local == socket && link.remote == from {
            Some(id)
        } else {
            None
        }
    }

    /// The link that was accepted from this address and peer id. If there are several, the least
    /// id.
    pub fn accepted(&self, from: Address, peer_id: u16) -> Option<u16>
        ensures { MatchOption result ((q : ℕ) → ¬ IsAcceptedFrom self.now from peer_id q)
            (IsLeast (IsAcceptedFrom self.now from peer_id)) }
    {
        least_accepted(&self.links, from, peer_id)
    }

    /// The least live id above another. Live ids are from 0001 to FFFE, and there are at most 16.
    pub fn after(&self, id: u16) -> Option<u16>
        ensures next { MatchOption result ((q : ℕ) → ¬ IsAbove self.now id q)
            (IsLeast (IsAbove self.now id)) }
        ensures ids { (q : ℕ) → IsLive self.now q → (0 < q) × (q < 65535) }
        ensures few { count_of self.now ≤ most_links }
    {
        least_above(&self.links, id)
    }

    /// The time, in milliseconds, before which a poll of any link gives nothing. From then on a
    /// poll of some link sends something or gives that link up. None if that needs a packet or a
    /// call first.
    pub fn next_due_of_all(&self) -> Option<u64>
        ensures { IsNextDueOfAll self.now result }
    {
        soonest(&self.links)
    }

    /// Removes the link of an id. Returns false if the id is not live.
    pub fn release(&mut self, id: u16) -> bool
        ensures live { IsTrue result ↔ IsLive self.old id }
        ensures released { OnTrue result (Releases self.old self.new id) }
        ensures unchanged { OnFalse result (self.new ≡ self.old) }
    {
        if !is_live(&self.links, id) {
            return false;
        }
        remove_link(&mut self.links, id);
        true
    }
}
