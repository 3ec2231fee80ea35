//! When a link next acts by itself. Until then its caller may sleep.

ghost use Rattle.std.specs.Prelude.{◌≡◌};
ghost use Rattle.spx_link.specs.Due as spec;
ghost use Rattle.spx_link.specs.Due.{IsNextDue};
ghost use Rattle.spx_link.specs.Poll as P;

use crate::limits::RESEND_AFTER;
use crate::link::Link;
use crate::queue::earlier;
use crate::state::State;

impl Link {
    /// The time, in milliseconds, before which every poll gives nothing. From then on a poll sends
    /// something or gives the link up. None if that needs a packet or a call first.
    ///
    /// A caller that has polled until nothing was given may sleep until then, or until a packet
    /// arrives.
    pub fn next_due(&self) -> Option<u64>
        ensures { IsNextDue self.now result }
    {
        self.due()
    }

    /// The same time, by the rules of `poll`.
    pub(crate) fn due(&self) -> Option<u64>
        ensures { result ≡ spec.due_link self.now }
    {
        match self.state {
            State::Opening => self.request_due(),
            State::Lost => None,
            _ => self.joined_due(),
        }
    }

    fn request_due(&self) -> Option<u64>
        ensures { result ≡ spec.request_due self.now }
    {
        if self.asked_count == 0 {
            return Some(0);
        }
        again_at(self.asked_at)
    }

    fn joined_due(&self) -> Option<u64>
        ensures { result ≡ spec.joined_due self.now }
    {
        if self.owes_reply || self.owes_confirm || self.may_send() || self.owes_ack {
            return Some(0);
        }
        self.working_due()
    }

    fn working_due(&self) -> Option<u64>
        ensures { result ≡ spec.working_due self.now }
    {
        if !self.is_working() {
            return None;
        }
        if self.manual {
            return self.asked_due();
        }
        match self.queue.first_sent(usize::from(self.out)) {
            Some(at) => again_at(at),
            None => self.probe_due(),
        }
    }

    fn asked_due(&self) -> Option<u64>
        ensures { result ≡ spec.asked_due self.now (P.asked_again self.now) }
    {
        if self.asked_again().is_some() {
            return Some(0);
        }
        if self.out == 0 {
            self.probe_due()
        } else {
            None
        }
    }

    fn probe_due(&self) -> Option<u64>
        ensures { result ≡ spec.probe_due self.now }
    {
        if self.is_waiting() && self.room == 0 {
            again_at(self.spoke)
        } else {
            None
        }
    }
}

/// When a packet that was sent at a given time is retransmitted.
fn again_at(at: u64) -> Option<u64>
    ensures { result ≡ spec.again_at at }
{
    at.checked_add(RESEND_AFTER)
}

/// When the first of some links is due.
pub fn soonest(links: &[Link]) -> Option<u64>
    ensures { result ≡ spec.soonest links.now }
{
    let mut soonest = None;
    for link in links {
        soonest = sooner(link.due(), soonest);
    }
    soonest
}

/// The earlier of two times, if there are any.
fn sooner(due: Option<u64>, other: Option<u64>) -> Option<u64>
    ensures { result ≡ spec.sooner due other }
{
    match due {
        None => other,
        Some(due) => Some(earlier(due, other)),
    }
}
