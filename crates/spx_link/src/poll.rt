//! What a link sends: the rules of `poll`, in the order in which they are tried.

ghost use Rattle.std.specs.Prelude.{◌≡◌, ◌≤◌, ◌<◌, IfSome, IsTrue, length, option_map, slice_get};
ghost use Rattle.std.specs.Prelude.{Some, ℕ};
ghost use Rattle.std.specs.Borrow.{sem};
ghost use Rattle.spx_link.specs.LinkView.{LinkView};
ghost use Rattle.spx_link.specs.Lending.{LoanEndsAs};
ghost use Rattle.spx_link.specs.Poll as spec;
ghost use Rattle.spx_link.specs.Chosen.{carried};

use crate::limits::{CONFIRM_STREAM, END_STREAM, MAX_MANUAL_PROBES, MAX_SENDS, MAX_UNITS, NO_ID};
use crate::link::Link;
use crate::outgoing::{Chosen, Outgoing, Sent};
use crate::queue::due;
use crate::state::State;
use crate::unit::Unit;
use ipx_wire::SpxHeader;

impl Link {
    /// The packet to send at this time, if there is one.
    ///
    /// It needs no memory. A link is lost if a request, unit or probe was sent ten times without an
    /// answer. On a manual link retransmitted units are not counted, only requests and probes, and
    /// probes are sent up to sixty times.
    pub fn poll(&mut self, now: u64) -> Option<Outgoing<'_>>
        ensures* leaves { sem 𝓛 (LoanEndsAs self.entry (spec.poll_link self.old now).1) }
        ensures gives { option_map spec.outgoing_view result ≡ (spec.poll_link self.old now).0 }
        ensures fits { IfSome result (λ o. length o.body.now ≤ 534) }
    {
        let chosen = self.choose(now)?;
        Some(self.carry(chosen))
    }

    /// The packet with the body that it carries.
    pub(crate) fn carry(&self, chosen: Chosen) -> Outgoing<'_>
        ensures body { spec.outgoing_view result ≡ carried self.now chosen }
        ensures fits { length result.body.now ≤ 534 }
    {
        let body = match chosen.place {
            Some(place) if place < self.queue.len() => {
                self.queue.at_place(place).0.body.as_slice()
            }
            _ => &[],
        };
        Outgoing {
            what: chosen.what,
            header: chosen.header,
            body,
        }
    }

    /// Chooses the packet to send.
    pub(crate) fn choose(&mut self, now: u64) -> Option<Chosen>
        ensures gives { option_map (carried self.new) result ≡ (spec.poll_link self.old now).0 }
        ensures leaves { self.new ≡ (spec.poll_link self.old now).1 }
    {
        match self.state {
            State::Opening => self.poll_request(now),
            State::Lost => None,
            _ => self.poll_reply(now),
        }
    }

    fn poll_request(&mut self, now: u64) -> Option<Chosen>
        ensures gives { option_map (carried self.new) result ≡ (spec.poll_request self.old now).0 }
        ensures leaves { self.new ≡ (spec.poll_request self.old now).1 }
    {
        if self.asked_count != 0 && !due(self.asked_at, now) {
            return None;
        }
        if self.asked_count >= MAX_SENDS {
            self.state = State::Lost;
            return None;
        }
        let request = self.plain(Sent::Request, true, 0, NO_ID);
        self.asked_at = now;
        self.asked_count += 1;
        self.spoke = now;
        Some(request)
    }

    fn poll_reply(&mut self, now: u64) -> Option<Chosen>
        ensures gives { option_map (carried self.new) result ≡ (spec.poll_reply self.old now).0 }
        ensures leaves { self.new ≡ (spec.poll_reply self.old now).1 }
    {
        if !self.owes_reply {
            return self.poll_confirm(now);
        }
        let reply = self.plain(Sent::Reply, false, 0, self.peer);
        self.owes_reply = false;
        self.owes_ack = false;
        self.spoke = now;
        Some(reply)
    }

    fn poll_confirm(&mut self, now: u64) -> Option<Chosen>
        ensures gives { option_map (carried self.new) result ≡ (spec.poll_confirm self.old now).0 }
        ensures leaves { self.new ≡ (spec.poll_confirm self.old now).1 }
    {
        if !self.owes_confirm {
            return self.poll_unit(now);
        }
        let confirmation = self.plain(Sent::Confirm, false, CONFIRM_STREAM, self.peer);
        self.owes_confirm = false;
        self.owes_ack = false;
        self.spoke = now;
        Some(confirmation)
    }

    #[tactic(auto, using(crate::proofs::IsPresent::slice_get_after_set))]
    fn poll_unit(&mut self, now: u64) -> Option<Chosen>
        ensures gives { option_map (carried self.new) result ≡ (spec.poll_unit self.old now).0 }
        ensures leaves { self.new ≡ (spec.poll_unit self.old now).1 }
    {
        if !self.may_send() {
            return self.poll_again(now);
        }
        let place = usize::from(self.out);
        let (unit, _) = self.queue.at_place(place);
        let packet = self.with_unit(Sent::Unit, unit, place, self.next);
        self.queue.mark_sent(place, now, 1);
        self.out += 1;
        self.next = self.next.wrapping_add(1);
        self.room -= 1;
        self.owes_ack = false;
        self.spoke = now;
        Some(packet)
    }

    fn poll_again(&mut self, now: u64) -> Option<Chosen>
        ensures gives { option_map (carried self.new) result ≡ (spec.poll_again self.old now).0 }
        ensures leaves { self.new ≡ (spec.poll_again self.old now).1 }
    {
        match self.late(now) {
            Some(place) => self.send_again(place, now),
            None => self.poll_ack(now),
        }
    }

    #[tactic(auto, using(crate::proofs::IsPresent::slice_get_after_set))]
    fn send_again(&mut self, place: u16, now: u64) -> Option<Chosen>
        requires sent { place < self.old.out }
        requires queued { place < length self.old.queue }
        ensures gives { option_map (carried self.new) result
            ≡ (spec.poll_late self.old now (Some place)).0 }
        ensures leaves { self.new ≡ (spec.poll_late self.old now (Some place)).1 }
    {
        let at = usize::from(place);
        let (unit, stamp) = self.queue.at_place(at);
        let count = stamp.count;
        if count >= MAX_SENDS {
            self.state = State::Lost;
            return None;
        }
        let seq = self.base().wrapping_add(place);
        let packet = self.with_unit(Sent::Again, unit, at, seq);
        let sent = self.count_again(count);
        self.queue.mark_sent(at, now, sent);
        self.again = None;
        self.owes_ack = false;
        self.spoke = now;
        Some(packet)
    }

    /// How often a unit was sent, counting this retransmission. One that `again` asks for is not
    /// counted.
    fn count_again(&self, count: u8) -> u8
        requires { count < 10 }
        ensures { result ≡ spec.count_again self.now count }
    {
        if !self.manual { count + 1 } else { count }
    }

    fn poll_ack(&mut self, now: u64) -> Option<Chosen>
        ensures gives { option_map (carried self.new) result ≡ (spec.poll_ack self.old now).0 }
        ensures leaves { self.new ≡ (spec.poll_ack self.old now).1 }
    {
        if !self.owes_ack {
            return self.poll_probe(now);
        }
        let acknowledgement = self.plain(Sent::Ack, false, 0, self.peer);
        self.owes_ack = false;
        self.spoke = now;
        Some(acknowledgement)
    }

    fn poll_probe(&mut self, now: u64) -> Option<Chosen>
        ensures gives { option_map (carried self.new) result ≡ (spec.poll_probe self.old now).0 }
        ensures leaves { self.new ≡ (spec.poll_probe self.old now).1 }
    {
        if !self.may_probe(now) {
            return None;
        }
        if self.probes >= self.most_probes() {
            self.state = State::Lost;
            return None;
        }
        let probe = self.plain(Sent::Probe, true, 0, self.peer);
        self.probes += 1;
        self.spoke = now;
        Some(probe)
    }

    /// How many probes are sent without an answer before the link is lost.
    fn most_probes(&self) -> u8
        ensures { result ≡ spec.most_probes self.now }
    {
        if !self.manual {
            MAX_SENDS
        } else {
            MAX_MANUAL_PROBES
        }
    }

    pub(crate) fn is_waiting(&self) -> bool
        ensures { result ≡ spec.is_waiting self.now }
    {
        usize::from(self.out) < self.queue.len()
    }

    pub(crate) fn may_send(&self) -> bool
        ensures { result ≡ spec.may_send self.now }
    {
        self.is_working()
            && self.is_waiting()
            && 0 < self.room
            && self.out < MAX_UNITS
            && self.out < self.window
    }

    fn may_probe(&self, now: u64) -> bool
        ensures { result ≡ spec.may_probe self.now now }
    {
        self.is_working()
            && self.is_waiting()
            && self.room == 0
            && self.out == 0
            && due(self.spoke, now)
    }

    fn late(&mut self, now: u64) -> Option<u16>
        ensures value { result ≡ spec.late_if_working self.old now }
        ensures sent { IfSome result (λ place. place < self.old.out) }
        ensures queued { IfSome result (λ place. place < length self.old.queue) }
        ensures same { self.new ≡ self.old }
    {
        if !self.is_working() {
            return None;
        }
        if self.manual {
            return self.asked_again();
        }
        let place = self.queue.first_due(usize::from(self.out), now)?;
        Some(place as u16)
    }

    /// The place that `again` asked for, if a unit is outstanding there.
    pub(crate) fn asked_again(&self) -> Option<u16>
        ensures value { result ≡ spec.asked_again self.now }
        ensures sent { IfSome result (λ place. place < self.now.out) }
        ensures queued { IfSome result (λ place. place < length self.now.queue) }
    {
        match self.again {
            Some(place) if place < self.out && usize::from(place) < self.queue.len() => Some(place),
            _ => None,
        }
    }

    fn allocation(&self) -> u16
        ensures { result ≡ spec.allocation self.now }
    {
        self.expected.wrapping_add(self.free()).wrapping_sub(1)
    }

    fn plain(&self, what: Sent, wants_ack: bool, stream: u8, to_id: u16) -> Chosen
        ensures packet { carried self.now result ≡ spec.plain self.now what wants_ack stream to_id }
        ensures alone { result.place ≡ None }
    {
        let header = SpxHeader {
            system: true,
            wants_ack,
            last: false,
            stream,
            from_id: self.own,
            to_id,
            seq: self.next,
            ack: self.expected,
            limit: self.allocation(),
        };
        Chosen {
            what,
            header,
            place: None,
        }
    }

    /// The number of the first unit that is sent and not acknowledged.
    pub(crate) fn base(&self) -> u16
        ensures { result ≡ spec.base self.now }
    {
        self.next.wrapping_sub(self.out)
    }

    fn with_unit(&self, what: Sent, unit: &Unit, place: usize, seq: u16) -> Chosen
        ensures what { result.what ≡ what }
        ensures header { result.header ≡ (spec.with_unit self.now what unit.now seq).header }
        ensures place { result.place ≡ Some place }
    {
        let header = SpxHeader {
            system: false,
            wants_ack: true,
            last: unit.last && unit.stream != END_STREAM,
            stream: unit.stream,
            from_id: self.own,
            to_id: self.peer,
            seq,
            ack: self.expected,
            limit: self.allocation(),
        };
        Chosen {
            what,
            header,
            place: Some(place),
        }
    }
}
