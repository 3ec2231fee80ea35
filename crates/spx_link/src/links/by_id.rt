//! The calls of a link, by its id.

ghost use Rattle.std.specs.Prelude.{◌≡◌, ◌≤◌, ◌<◌, ◌↔◌, [], All, Err, IfErr, IfOk, IfSome, IsOk};
ghost use Rattle.std.specs.Prelude.{IsOkUnless, IsTrue, None, OnErr, OnOk, Some, length};
ghost use Rattle.std.specs.Prelude.{option_map};
ghost use Rattle.std.specs.Borrow.{sem};
ghost use Rattle.spx_link.specs.Courses.{IsWhole};
ghost use Rattle.spx_link.specs.Due.{IsNextDue};
ghost use Rattle.spx_link.specs.Limits.{end_stream};
ghost use Rattle.spx_link.specs.Links.{ChangesOnly, IsLive, link_at, polled};
ghost use Rattle.spx_link.specs.LinksLending.{RestsSo};
ghost use Rattle.spx_link.specs.Offer as O;
ghost use Rattle.spx_link.specs.Picked.{carried_in};
ghost use Rattle.spx_link.specs.Poll as P;
ghost use Rattle.spx_link.specs.Receive as R;
ghost use Rattle.spx_link.specs.declared.fault.OfferFault.{OfferFault};
ghost use Rattle.spx_link.specs.declared.fault.OfferFault.TheVariants as OfferFaults;

use crate::fault::OfferFault;
use crate::links::Links;
use crate::links::lookup::{link_at_place, place_of};
use crate::outgoing::{Chosen, Outgoing};
use crate::received::Received;
use crate::unit::Unit;
use ipx_wire::SpxHeader;
use std::alloc::Global;

impl Links {
    /// `Link::poll` of the link with a live id. It needs no memory.
    #[inline(always)] // otherwise its result would pass through memory for each packet
    pub fn poll(&mut self, id: u16, now: u64) -> Option<Outgoing<'_>>
        requires { IsLive self.old id }
        ensures* leaves { sem 𝓛
            (RestsSo self.entry
            (λ s. IfSome (link_at self.old id)
            (λ l. ChangesOnly self.old s id (P.poll_link l now).1))) }
        ensures gives { option_map P.outgoing_view result ≡ polled (link_at self.old id) now }
        ensures fits { IfSome result (λ o. length o.body.now ≤ 534) }
    {
        let picked = self.choose(id, now);
        let chosen = picked.1?;
        Some(self.carry(picked.0, chosen))
    }

    /// Chooses the packet that the link of a live id sends, and returns the place of that link.
    fn choose(&mut self, id: u16, now: u64) -> (usize, Option<Chosen>)
        requires { IsLive self.old id }
        ensures within { result.0 < length self.new.links }
        ensures gives { option_map (carried_in self.new result.0) result.1
            ≡ polled (link_at self.old id) now }
        ensures leaves { IfSome (link_at self.old id)
            (λ l. ChangesOnly self.old self.new id (P.poll_link l now).1) }
    {
        let place = place_of(&self.links, id);
        let chosen = self.links[place].choose(now);
        (place, chosen)
    }

    /// The packet of the link at a place, with the body that it carries.
    fn carry(&self, place: usize, chosen: Chosen) -> Outgoing<'_>
        requires { place < length self.now.links }
        ensures body { P.outgoing_view result ≡ carried_in self.now place chosen }
        ensures fits { length result.body.now ≤ 534 }
    {
        link_at_place(&self.links, place).carry(chosen)
    }

    /// `Link::next_due` of the link with a live id.
    pub fn next_due(&self, id: u16) -> Option<u64>
        requires { IsLive self.now id }
        ensures { IfSome (link_at self.now id) (λ l. IsNextDue l result) }
    {
        let place = place_of(&self.links, id);
        self.links[place].next_due()
    }

    /// `Link::is_all_acked` of the link with a live id.
    pub fn is_all_acked(&self, id: u16) -> bool
        requires { IsLive self.now id }
        ensures { IfSome (link_at self.now id) (λ l. IsTrue result ↔ IsWhole l) }
    {
        let place = place_of(&self.links, id);
        self.links[place].is_all_acked()
    }

    /// `Link::receive` of the link with a live id. It needs no memory. The caller must pass a body of at
    /// most 534 bytes.
    pub fn receive(&mut self, id: u16, header: &SpxHeader, body: &[u8], now: u64) -> Received
        requires live { IsLive self.old id }
        requires fits { length body.now ≤ 534 }
        ensures gives { IfSome (link_at self.old id)
            (λ l. result ≡ (R.receive_link l header.now body.now).0) }
        ensures leaves { IfSome (link_at self.old id)
            (λ l. ChangesOnly self.old self.new id (R.receive_link l header.now body.now).1) }
    {
        let place = place_of(&self.links, id);
        self.links[place].receive(header, body, now)
    }

    /// `Link::offer` of the link with a live id. The caller must pass streams under FE.
    pub fn offer(&mut self, alloc: Global, id: u16, units: Vec<Unit>) -> Result<(), OfferFault>
        requires live { IsLive self.old id }
        requires streams { All (λ u. u.stream < end_stream) units.items }
        ensures ok { IfSome (link_at self.old id)
            (λ l. OnOk result (ChangesOnly self.old self.new id (O.offer_link l units.items))) }
        ensures refused { IfSome (link_at self.old id)
            (λ l. (f : OfferFault) → O.refusal l.state ≡ Some f → result ≡ Err f) }
        ensures memory { IfSome (link_at self.old id)
            (λ l. O.refusal l.state ≡ None → IsOkUnless result OfferFaults.OutOfMemory) }
        ensures empty { IfSome (link_at self.old id)
            (λ l. O.refusal l.state ≡ None → units.items ≡ [] → IsOk result) }
        ensures unchanged { OnErr result (self.new ≡ self.old) }
    {
        let place = place_of(&self.links, id);
        self.links[place].offer(alloc, units)
    }

    /// `Link::end` of the link with a live id.
    pub fn end(&mut self, alloc: Global, id: u16) -> Result<(), OfferFault>
        requires { IsLive self.old id }
        ensures ok { IfSome (link_at self.old id)
            (λ l. OnOk result (ChangesOnly self.old self.new id (O.end_link l))) }
        ensures refused { IfSome (link_at self.old id)
            (λ l. (f : OfferFault) → O.refusal l.state ≡ Some f → result ≡ Err f) }
        ensures memory { IfSome (link_at self.old id)
            (λ l. O.refusal l.state ≡ None → IsOkUnless result OfferFaults.OutOfMemory) }
        ensures unchanged { OnErr result (self.new ≡ self.old) }
    {
        let place = place_of(&self.links, id);
        self.links[place].end(alloc)
    }

    /// `Link::take` of the link with a live id. It needs no memory.
    pub fn take(&mut self, id: u16) -> Option<Unit>
        requires { IsLive self.old id }
        ensures gives { IfSome (link_at self.old id) (λ l. result ≡ (O.take_link l).0) }
        ensures leaves { IfSome (link_at self.old id)
            (λ l. ChangesOnly self.old self.new id (O.take_link l).1) }
    {
        let place = place_of(&self.links, id);
        self.links[place].take()
    }

    /// `Link::discard` of the link with a live id. It needs no memory.
    pub fn discard(&mut self, id: u16)
        requires { IsLive self.old id }
        ensures { IfSome (link_at self.old id)
            (λ l. ChangesOnly self.old self.new id (O.take_link l).1) }
    {
        let place = place_of(&self.links, id);
        self.links[place].discard();
    }

    /// `Link::owe_reply` of the link with a live id.
    pub fn owe_reply(&mut self, id: u16)
        requires { IsLive self.old id }
        ensures { IfSome (link_at self.old id)
            (λ l. ChangesOnly self.old self.new id (O.owe_reply_link l)) }
    {
        let place = place_of(&self.links, id);
        self.links[place].owe_reply();
    }

    /// `Link::pace` of the link with a live id.
    pub fn pace(&mut self, id: u16, window: u16, manual: bool)
        requires { IsLive self.old id }
        ensures { IfSome (link_at self.old id)
            (λ l. ChangesOnly self.old self.new id (O.pace_link l window manual)) }
    {
        let place = place_of(&self.links, id);
        self.links[place].pace(window, manual);
    }

    /// `Link::again` of the link with a live id.
    pub fn again(&mut self, id: u16, place: u16)
        requires { IsLive self.old id }
        ensures { IfSome (link_at self.old id)
            (λ l. ChangesOnly self.old self.new id (O.again_link l place)) }
    {
        let at = place_of(&self.links, id);
        self.links[at].again(place);
    }

    /// `Link::lose` of the link with a live id.
    pub fn lose(&mut self, id: u16)
        requires { IsLive self.old id }
        ensures { IfSome (link_at self.old id)
            (λ l. ChangesOnly self.old self.new id (O.lose_link l)) }
    {
        let place = place_of(&self.links, id);
        self.links[place].lose();
    }
}
