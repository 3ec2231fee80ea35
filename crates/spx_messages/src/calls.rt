//! The calls of a user of connections.

ghost use Rattle.std.specs.Prelude.{◌≡◌, ◌≢◌, ◌<◌, ◌↔◌, ◌⊎◌, Err, IfErr, IfOk, IfSome, IsOk, None, OnErr, OnOk, Some, true};
ghost use Rattle.spx_link.specs.Limits.{most_links};
ghost use Rattle.spx_link.specs.Links.{IsNextFree, count_of};
ghost use Rattle.spx_link.specs.Offer.{again_link, dialed, end_link, offer_link, pace_link, refusal};
ghost use Rattle.spx_link.specs.declared.fault.LinksFault.TheVariants as LinksFaults;
ghost use Rattle.spx_link.specs.declared.fault.OfferFault.{OfferFault};
ghost use Rattle.spx_link.specs.declared.fault.OfferFault.TheVariants as OfferFaults;
ghost use Rattle.spx_messages.specs.Cut.{cut_of};
ghost use Rattle.spx_messages.specs.Message.{cut_fault, message_view};
ghost use Rattle.spx_messages.specs.declared.message_fault.MessageFault.{MessageFault};
ghost use Rattle.spx_messages.specs.declared.message_fault.MessageFault.TheVariants as MessageFaults;
ghost use Rattle.spx_messages.specs.Changes.{AddsEnd, ChangesEnd, ReleasesEnd, SameBut};
ghost use Rattle.spx_messages.specs.EndpointView.{held_at};
ghost use Rattle.spx_messages.specs.Taking.{IsPushed, result_view, take_end};
ghost use Rattle.spx_messages.specs.declared.fault.EndFault.TheVariants as EndFaults;

use crate::cutting::cut;
use crate::endpoint::Endpoint;
use crate::fault::EndFault;
use crate::links::link_of;
use crate::message::Message;
use crate::parts::forget;
use crate::taken::Taken;
use crate::taking::take_from;
use ipx_wire::{Address, Socket};
use std::alloc::Global;

impl Endpoint {
    /// Asks for a connection from a local socket to an address, and gives the id of its link. The
    /// caller must pass 1 to 8,192 buffers.
    ///
    /// It is refused if there are 16 links, and otherwise only if it is out of memory.
    pub fn dial(
        &mut self,
        alloc: Global,
        socket: Socket,
        to: Address,
        buffers: u16,
        now: u64,
    ) -> Result<u16, EndFault>
        ensures id { IfOk result (λ id. IsNextFree self.old.links id) }
        ensures adds { IfOk result (λ id.
            AddsEnd self.old self.new id (dialed id socket to buffers now)) }
        ensures too_many { (result ≡ Err (EndFaults.Links LinksFaults.TooMany))
            ↔ (count_of self.old.links ≡ most_links) }
        ensures fault { IfErr result (λ f. (f ≡ EndFaults.Links LinksFaults.TooMany)
            ⊎ (f ≡ EndFaults.Links LinksFaults.OutOfMemory)) }
        ensures unchanged { OnErr result (SameBut self.old self.new) }
        ensures said { self.new.said ≡ self.old.said }
        ensures heard { self.new.heard ≡ self.old.heard }
    {
        let id = self.links.dial(alloc, socket, to, buffers, now)?;
        forget(&mut self.parts, id);
        Ok(id)
    }

    /// Splits a message into units and queues them on a link.
    ///
    /// The first of these faults refuses it: no link has the id; the message is too long, or of
    /// stream FE or FF; the link is not open yet, or is ending. Out of memory may come in place of
    /// the last one, or if there is no fault.
    pub fn send(&mut self, alloc: Global, id: u16, message: &Message) -> Result<(), EndFault>
        ensures unknown { (result ≡ Err EndFaults.NoSuchEnd) ↔ (held_at self.old id ≡ None) }
        ensures uncut { IfSome (held_at self.old id) (λ _. (f : MessageFault)
            → cut_fault (message_view message.now) ≡ Some f → result ≡ Err (EndFaults.Message f)) }
        ensures refused { IfSome (held_at self.old id) (λ h.
            cut_fault (message_view message.now) ≡ None → (f : OfferFault)
            → refusal h.link.state ≡ Some f
            → (result ≡ Err (EndFaults.Offer f))
            ⊎ (result ≡ Err (EndFaults.Message MessageFaults.OutOfMemory))) }
        ensures memory { IfSome (held_at self.old id) (λ h.
            cut_fault (message_view message.now) ≡ None → refusal h.link.state ≡ None
            → IfErr result (λ f. (f ≡ EndFaults.Message MessageFaults.OutOfMemory)
            ⊎ (f ≡ EndFaults.Offer OfferFaults.OutOfMemory))) }
        ensures ok { IfSome (held_at self.old id) (λ h. OnOk result (ChangesEnd self.old self.new id
            (record h { link = offer_link h.link (cut_of (message_view message.now)) }))) }
        ensures unchanged { OnErr result (SameBut self.old self.new) }
        ensures said { self.new.said ≡ self.old.said }
        ensures heard { self.new.heard ≡ self.old.heard }
    {
        link_of(&self.links, id)?;
        let units = cut(alloc, message)?;
        self.links.offer(alloc, id, units)?;
        Ok(())
    }

    /// Asks for the end of a connection. What was sent before goes out first.
    ///
    /// The first of these faults refuses it: no link has the id; the link is not open yet, or is
    /// ending; out of memory. If it is refused, nothing changes.
    pub fn close(&mut self, alloc: Global, id: u16) -> Result<(), EndFault>
        ensures unknown { (result ≡ Err EndFaults.NoSuchEnd) ↔ (held_at self.old id ≡ None) }
        ensures refused { IfSome (held_at self.old id) (λ h. (f : OfferFault)
            → refusal h.link.state ≡ Some f → result ≡ Err (EndFaults.Offer f)) }
        ensures memory { IfSome (held_at self.old id) (λ h. refusal h.link.state ≡ None
            → IfErr result (λ f. f ≡ EndFaults.Offer OfferFaults.OutOfMemory)) }
        ensures ok { IfSome (held_at self.old id) (λ h. OnOk result
            (ChangesEnd self.old self.new id (record h { link = end_link h.link }))) }
        ensures unchanged { OnErr result (SameBut self.old self.new) }
        ensures said { self.new.said ≡ self.old.said }
        ensures heard { self.new.heard ≡ self.old.heard }
    {
        link_of(&self.links, id)?;
        self.links.end(alloc, id)?;
        Ok(())
    }

    /// Takes the first unit that a link holds, and gives the message that it completes, if any.
    ///
    /// If the message grew over 65,535 bytes, it is refused as `Overlong`, that unit is removed,
    /// and the link becomes lost. Out of memory and an unknown id change nothing.
    pub fn take(&mut self, alloc: Global, id: u16) -> Result<Taken, EndFault>
        ensures unknown { (result ≡ Err EndFaults.NoSuchEnd) ↔ (held_at self.old id ≡ None) }
        ensures takes { IfSome (held_at self.old id) (λ h.
            result ≢ Err (EndFaults.Message MessageFaults.OutOfMemory)
            → (result_view result ≡ (take_end h).0)
            × ChangesEnd self.old self.new id (take_end h).1) }
        ensures memory { IfSome (held_at self.old id) (λ h.
            result ≡ Err (EndFaults.Message MessageFaults.OutOfMemory)
            → IsPushed h × SameBut self.old self.new) }
        ensures unchanged { held_at self.old id ≡ None → SameBut self.old self.new }
        ensures said { self.new.said ≡ self.old.said }
        ensures heard { self.new.heard ≡ self.old.heard }
    {
        take_from(alloc, &mut self.links, &mut self.parts, id)
    }

    /// Limits the outstanding units of a link to `window` from now on. A window over 8,192 acts as
    /// 8,192. If `manual`, units are retransmitted only when `again` asks for it, and not 500
    /// milliseconds after they were sent. A caller that sets `manual` must make these calls,
    /// or a lost unit stays lost.
    ///
    /// It is refused only if no link has the id.
    pub fn pace(&mut self, id: u16, window: u16, manual: bool) -> Result<(), EndFault>
        ensures unknown { (result ≡ Err EndFaults.NoSuchEnd) ↔ (held_at self.old id ≡ None) }
        ensures fault { IfErr result (λ f. f ≡ EndFaults.NoSuchEnd) }
        ensures ok { IfSome (held_at self.old id) (λ h. OnOk result (ChangesEnd self.old self.new id
            (record h { link = pace_link h.link window manual }))) }
        ensures unchanged { OnErr result (SameBut self.old self.new) }
        ensures said { self.new.said ≡ self.old.said }
        ensures heard { self.new.heard ≡ self.old.heard }
    {
        link_of(&self.links, id)?;
        self.links.pace(id, window, manual);
        Ok(())
    }

    /// Retransmits the outstanding unit at this index, from 0, at the next poll of the link. It
    /// does so only if the link retransmits manually, and a unit is outstanding at the index.
    ///
    /// It is refused only if no link has the id.
    pub fn again(&mut self, id: u16, place: u16) -> Result<(), EndFault>
        ensures unknown { (result ≡ Err EndFaults.NoSuchEnd) ↔ (held_at self.old id ≡ None) }
        ensures fault { IfErr result (λ f. f ≡ EndFaults.NoSuchEnd) }
        ensures ok { IfSome (held_at self.old id) (λ h. OnOk result (ChangesEnd self.old self.new id
            (record h { link = again_link h.link place }))) }
        ensures unchanged { OnErr result (SameBut self.old self.new) }
        ensures said { self.new.said ≡ self.old.said }
        ensures heard { self.new.heard ≡ self.old.heard }
    {
        link_of(&self.links, id)?;
        self.links.again(id, place);
        Ok(())
    }

    /// Removes a link, and its partial message. Call it after the connection is done or lost: the
    /// peer is told nothing. It is refused only if no link has the id.
    pub fn release(&mut self, id: u16) -> Result<(), EndFault>
        ensures unknown { (result ≡ Err EndFaults.NoSuchEnd) ↔ (held_at self.old id ≡ None) }
        ensures fault { IfErr result (λ f. f ≡ EndFaults.NoSuchEnd) }
        ensures ok { OnOk result (ReleasesEnd self.old self.new id) }
        ensures unchanged { OnErr result (SameBut self.old self.new) }
        ensures said { self.new.said ≡ self.old.said }
        ensures heard { self.new.heard ≡ self.old.heard }
    {
        if !self.links.release(id) {
            return Err(EndFault::NoSuchEnd);
        }
        forget(&mut self.parts, id);
        Ok(())
    }
}
