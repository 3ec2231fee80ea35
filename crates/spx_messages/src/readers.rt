//! Getters of an endpoint's connections.

ghost use Rattle.std.specs.Prelude.{◌≡◌, ◌↔◌, Err, IfErr, IfOk, IfSome, IsTrue, None, Ok, option_copied};
ghost use Rattle.spx_link.specs.Courses.{IsWhole};
ghost use Rattle.spx_link.specs.Due.{IsNextDueOfAll};
ghost use Rattle.spx_link.specs.LinkView.{numbers_of};
ghost use Rattle.spx_link.specs.Offer.{first_of};
ghost use Rattle.spx_messages.specs.EndpointView.{held_at};
ghost use Rattle.spx_messages.specs.declared.fault.EndFault.TheVariants as EndFaults;

use crate::endpoint::Endpoint;
use crate::fault::EndFault;
use crate::links::link_of;
use spx_link::{Numbers, Sent, State, Unit};

impl Endpoint {
    /// The state of a link. It is refused if no link has the id, and so are `numbers`,
    /// `is_all_acked` and `peek`. Check it before `send`, which needs Live, and to see that a
    /// connection is done or lost.
    pub fn state(&self, id: u16) -> Result<State, EndFault>
        ensures unknown { (result ≡ Err EndFaults.NoSuchEnd) ↔ (held_at self.now id ≡ None) }
        ensures known { IfSome (held_at self.now id) (λ h. result ≡ Ok h.link.state) }
    {
        let link = link_of(&self.links, id)?;
        Ok(link.state())
    }

    /// The sequence numbers and counts of a link, for a status display.
    pub fn numbers(&self, id: u16) -> Result<Numbers, EndFault>
        ensures unknown { (result ≡ Err EndFaults.NoSuchEnd) ↔ (held_at self.now id ≡ None) }
        ensures known { IfSome (held_at self.now id) (λ h. result ≡ Ok (numbers_of h.link)) }
    {
        let link = link_of(&self.links, id)?;
        Ok(link.numbers())
    }

    /// Whether the end of the connection is queued, and the peer has acknowledged everything that
    /// was queued, including the end. It shows that a connection is done: the peer has then read
    /// everything.
    pub fn is_all_acked(&self, id: u16) -> Result<bool, EndFault>
        ensures unknown { (result ≡ Err EndFaults.NoSuchEnd) ↔ (held_at self.now id ≡ None) }
        ensures known { IfSome (held_at self.now id) (λ h.
            IfOk result (λ whole. IsTrue whole ↔ IsWhole h.link)) }
        ensures fault { IfErr result (λ f. f ≡ EndFaults.NoSuchEnd) }
    {
        let link = link_of(&self.links, id)?;
        Ok(link.is_all_acked())
    }

    /// The unit that the next `take` of this link takes, if it holds one.
    pub fn peek(&self, id: u16) -> Result<Option<&Unit>, EndFault>
        ensures unknown { (result ≡ Err EndFaults.NoSuchEnd) ↔ (held_at self.now id ≡ None) }
        ensures known { IfSome (held_at self.now id) (λ h.
            IfOk result (λ u. option_copied u ≡ first_of h.link.held)) }
        ensures fault { IfErr result (λ f. f ≡ EndFaults.NoSuchEnd) }
    {
        let link = link_of(&self.links, id)?;
        Ok(link.peek())
    }

    /// The link and the kind of the packet that the last poll wrote. `None` if it wrote none.
    pub fn sent(&self) -> Option<(u16, Sent)>
        ensures { result ≡ self.now.said }
    {
        self.sent
    }

    /// The id of the link that read the last datagram, or `None`. A repeated request is answered by
    /// another reply, and no link reads it.
    pub fn heard(&self) -> Option<u16>
        ensures { result ≡ self.now.heard }
    {
        self.heard
    }

    /// The time in milliseconds before which a poll gives nothing. From then on, polls send
    /// something or give a link up. `None` if that needs a datagram or a call first.
    pub fn next_due(&self) -> Option<u64>
        ensures { IsNextDueOfAll self.now.links result }
    {
        self.links.next_due_of_all()
    }
}
