//! How a link handles a packet.

ghost use Rattle.std.specs.Prelude.{◌≡◌, ◌≤◌, ◌<◌, length};
ghost use Rattle.spx_link.specs.LinkView as view;
ghost use Rattle.spx_link.specs.SequenceMarks.{acknowledged};
ghost use Rattle.spx_link.specs.Receive as spec;

use crate::limits::{CONFIRM_STREAM, END_STREAM, MAX_WINDOW, NO_ID};
use crate::link::Link;
use crate::received::Received;
use crate::state::State;
use ipx_wire::SpxHeader;

/// Whether a packet carries no unit. The system bit says so, with two exceptions: an end is a unit,
/// and its confirmation is none.
fn is_system(header: &SpxHeader) -> bool
    ensures { result ≡ spec.is_system header.now }
{
    header.system && header.stream != END_STREAM || header.stream == CONFIRM_STREAM
}

/// The state after the peer's end was received.
fn after_end(state: State) -> State
    ensures { result ≡ spec.after_end state }
{
    match state {
        State::Confirmed | State::Lost => state,
        _ => State::PeerEnded,
    }
}

impl Link {
    /// Reads a packet from the peer. The caller must pass a body of at most 534 bytes.
    ///
    /// It needs no memory. The body of a unit that is kept is copied once, into its buffer.
    pub fn receive(&mut self, header: &SpxHeader, body: &[u8], _now: u64) -> Received
        requires { length body.now ≤ 534 }
        ensures gives { result ≡ (spec.receive_link self.old header.now body.now).0 }
        ensures leaves { self.new ≡ (spec.receive_link self.old header.now body.now).1 }
    {
        match self.state {
            State::Lost => Received::Stranger,
            State::Opening => self.receive_reply(header),
            _ => self.receive_joined(header, body),
        }
    }

    fn receive_reply(&mut self, header: &SpxHeader) -> Received
        ensures gives { result ≡ (spec.receive_reply self.old header.now).0 }
        ensures leaves { self.new ≡ (spec.receive_reply self.old header.now).1 }
    {
        if !self.is_reply(header) {
            return Received::Stranger;
        }
        self.state = State::Live;
        self.peer = header.from_id;
        self.read_numbers(header);
        Received::Joined
    }

    fn is_reply(&self, header: &SpxHeader) -> bool
        ensures { result ≡ spec.is_reply self.now header.now }
    {
        header.system
            && header.stream == 0
            && !header.wants_ack
            && header.to_id == self.own
            && 0 < header.from_id
            && header.from_id < NO_ID
    }

    fn receive_joined(&mut self, header: &SpxHeader, body: &[u8]) -> Received
        requires { length body.now ≤ 534 }
        ensures gives { result ≡ (spec.receive_joined self.old header.now body.now).0 }
        ensures leaves { self.new ≡ (spec.receive_joined self.old header.now body.now).1 }
    {
        if header.to_id != self.own || header.from_id != self.peer {
            return Received::Stranger;
        }
        self.read_numbers(header);
        if is_system(header) {
            self.read_system(header)
        } else {
            self.read_unit(header, body)
        }
    }

    /// Reads the acknowledge number and the allocation, which every packet carries.
    fn read_numbers(&mut self, header: &SpxHeader)
        ensures { self.new ≡ spec.read_numbers self.old header.now }
    {
        self.read_ack(header.ack);
        self.read_limit(header.limit);
        self.probes = 0;
    }

    fn read_ack(&mut self, ack: u16)
        ensures { self.new ≡ spec.read_ack ack self.old }
    {
        let count = self.acknowledged(ack);
        self.queue.drop_first(count);
        self.out -= count;
    }

    fn acknowledged(&self, ack: u16) -> u16
        ensures value { result ≡ acknowledged self.now.next self.now.out ack }
        ensures within { result ≤ self.now.out }
    {
        let beyond = ack.wrapping_sub(self.base());
        if beyond <= self.out { beyond } else { 0 }
    }

    pub(crate) fn read_limit(&mut self, limit: u16)
        ensures { self.new ≡ spec.read_limit limit self.old }
    {
        let beyond = limit.wrapping_add(1).wrapping_sub(self.next);
        if self.room < beyond && beyond <= MAX_WINDOW {
            self.room = beyond;
        }
    }

    fn read_system(&mut self, header: &SpxHeader) -> Received
        ensures gives { result ≡ (spec.read_system self.old header.now).0 }
        ensures leaves { self.new ≡ (spec.read_system self.old header.now).1 }
    {
        self.owes_ack = self.owes_ack || header.wants_ack;
        if self.may_confirm(header) {
            self.state = State::Confirmed;
            Received::Confirmed
        } else {
            Received::System
        }
    }

    fn may_confirm(&self, header: &SpxHeader) -> bool
        ensures { result ≡ spec.may_confirm self.now header.now }
    {
        header.stream == CONFIRM_STREAM
            && self.end_queued
            && self.queue.is_empty()
            && !matches!(self.state, State::Confirmed)
    }

    fn read_unit(&mut self, header: &SpxHeader, body: &[u8]) -> Received
        requires { length body.now ≤ 534 }
        ensures gives { result ≡ (spec.read_unit self.old header.now body.now).0 }
        ensures leaves { self.new ≡ (spec.read_unit self.old header.now body.now).1 }
    {
        if self.beyond_expected(header) >= 32768 {
            self.repeat(header);
            return Received::Repeat;
        }
        if self.peer_ended {
            return Received::Ahead;
        }
        self.in_turn(header, body)
    }

    /// Handles a unit that was received before.
    fn repeat(&mut self, header: &SpxHeader)
        ensures { self.new ≡ spec.repeated self.old header.now }
    {
        if header.stream == END_STREAM && self.peer_ended {
            self.owes_confirm = true;
        } else {
            self.owes_ack = true;
        }
    }

    fn in_turn(&mut self, header: &SpxHeader, body: &[u8]) -> Received
        requires { length body.now ≤ 534 }
        ensures gives { result ≡ (spec.in_turn self.old header.now body.now).0 }
        ensures leaves { self.new ≡ (spec.in_turn self.old header.now body.now).1 }
    {
        if self.beyond_expected(header) < self.free() {
            return self.keep(header, body);
        }
        self.owes_ack = true;
        Received::OverAllocation
    }

    /// Keeps a unit at its place, unless it was kept before.
    fn keep(&mut self, header: &SpxHeader, body: &[u8]) -> Received
        requires free { spec.beyond_expected self.old header.now < view.free self.old }
        requires fits { length body.now ≤ 534 }
        ensures gives { result ≡ (spec.keep self.old header.now body.now).0 }
        ensures leaves { self.new ≡ (spec.keep self.old header.now body.now).1 }
    {
        let place = self.beyond_expected(header);
        if self.buffers.is_taken(place) {
            self.owes_ack = true;
            return Received::Repeat;
        }
        self.buffers.put(place, header, body);
        self.settle()
    }

    /// Holds the units that are now in order.
    fn settle(&mut self) -> Received
        ensures gives { result ≡ (spec.settle self.old self.old.ahead).0 }
        ensures leaves { self.new ≡ (spec.settle self.old self.old.ahead).1 }
    {
        let risen = self.buffers.settle();
        self.expected = self.expected.wrapping_add(risen.count);
        if !risen.ended {
            self.owes_ack = true;
            return Received::Kept;
        }
        self.peer_ended = true;
        self.owes_confirm = true;
        self.state = after_end(self.state);
        Received::PeerEnded
    }

    /// How far a unit is ahead of the expected one.
    fn beyond_expected(&self, header: &SpxHeader) -> u16
        ensures { result ≡ spec.beyond_expected self.now header.now }
    {
        header.seq.wrapping_sub(self.expected)
    }
}
