//! The pacer of the connection of a sending host.

ghost use Rattle.std.specs.Prelude.{◌≡◌, ◌≤◌, ◌+◌, IfOk, IfSome, IsNone, List, Some, ℕ};
ghost use Rattle.ipx_wire.specs.Ipx.{BeginsWith, PacketView};
ghost use Rattle.ipx_wire.specs.Spx.{IsSpx};
ghost use Rattle.ipx_wire.specs.declared.spx.packet.SpxHeader.{SpxHeader};
ghost use Rattle.spx_congestion.specs.Pacing.{made_pacer};
ghost use Rattle.spx_messages.specs.EndpointView.{held_at};
ghost use Rattle.ipx_host.specs.Paced.{FollowsPlan, HoldsBack, IsAwake, NotesDatagram, NotesPoll};
ghost use Rattle.ipx_host.specs.Paced.{Plans, is_given_up as is_given_up_by, paced_due};
ghost use Rattle.ipx_host.specs.Paced.{paced_numbers};

use ipx_wire::{OutOfMemory, decode, decode_spx};
use spx_congestion::{Pacer, Plan, SentKind};
use spx_link::{Numbers, Received, State};
use spx_messages::{Arrived, Endpoint};
use std::alloc::Global;

/// A paced connection: its id, and its pacer.
#[derive(Drop)]
pub struct Paced {
    id: u16,
    pacer: Pacer,
}

/// Applies a plan to the link of an id for the next poll. The link becomes manual.
fn follow(endpoint: &mut Endpoint, id: u16, plan: Plan, given_up: bool)
    ensures follows { IfSome (held_at endpoint.old id)
        (λ h. FollowsPlan given_up id plan h endpoint.old endpoint.new) }
    ensures said { endpoint.new.said ≡ endpoint.old.said }
    ensures heard { endpoint.new.heard ≡ endpoint.old.heard }
{
    if given_up {
        let _ = endpoint.release(id);
        return;
    }
    let _ = endpoint.pace(id, plan.window, true);
    if let Some(place) = plan.again {
        let _ = endpoint.again(id, place);
    }
}

/// Returns the datastream type of an SPX packet.
fn stream_of(bytes: &[u8]) -> Option<u8>
    ensures { (p : PacketView) (h : SpxHeader) (body : List ℕ) → BeginsWith bytes.now p
        → IsSpx h body p.body → result ≡ Some h.stream }
{
    let packet = decode(bytes).ok()?;
    let (header, _) = decode_spx(packet.body).ok()?;
    Some(header.stream)
}

impl Paced {
    /// Creates the pacer of a connection that is about to be requested.
    pub fn new(alloc: Global, id: u16) -> Result<Paced, OutOfMemory>
        ensures { IfOk result (λ p. p ≡ record { id = id; pacer = made_pacer }) }
    {
        let pacer = Pacer::new(alloc)?;
        Ok(Paced { id, pacer })
    }

    /// Returns whether the connection is given up: ten timeouts in a row while it sends units.
    fn is_given_up(&self, endpoint: &Endpoint) -> bool
        ensures { IfSome (held_at endpoint.now self.now.id)
            (λ h. result ≡ is_given_up_by self.now.pacer h.link) }
    {
        match endpoint.state(self.id) {
            Ok(State::Live | State::Ending) => self.pacer.has_given_up(),
            _ => false,
        }
    }

    /// Applies the plan of the pacer to the link for the next poll. The link becomes manual. If the
    /// connection is given up, its link is released.
    fn plan(&mut self, endpoint: &mut Endpoint, now: u64)
        ensures { Plans (Some self.old) now (Some self.new) endpoint.old endpoint.new }
    {
        let Ok(numbers) = endpoint.numbers(self.id) else {
            return;
        };
        let plan = self.pacer.plan(numbers, now);
        let given_up = self.is_given_up(endpoint);
        follow(endpoint, self.id, plan, given_up);
    }

    /// Updates the pacer after a poll of the endpoint. If the endpoint returned a packet, it wrote
    /// the packet to the start of these bytes.
    fn gave(&mut self, endpoint: &Endpoint, bytes: &[u8], now: u64)
        ensures { NotesPoll (Some self.old) endpoint.now bytes.now now (Some self.new) }
    {
        let Some((id, what)) = endpoint.sent() else {
            return;
        };
        let Ok(numbers) = endpoint.numbers(self.id) else {
            return;
        };
        if id == self.id {
            let gave = SentKind::of(what, stream_of(bytes).unwrap_or(0));
            self.pacer.gave(gave, numbers, now);
        }
    }

    /// Updates the pacer after a datagram, for which the endpoint returned this result. `before`
    /// has the numbers of the link before the datagram.
    fn heard(&mut self, endpoint: &Endpoint, arrived: Arrived, before: Option<Numbers>, now: u64)
        ensures { NotesDatagram (Some self.old) arrived before now endpoint.now (Some self.new) }
    {
        let Arrived::Link(id, received) = arrived else {
            return;
        };
        if id != self.id {
            return;
        }
        if let Received::Stranger = received {
            return;
        }
        let Ok(numbers) = endpoint.numbers(self.id) else {
            return;
        };
        let joined = received == Received::Joined;
        let before = before.unwrap_or(numbers);
        self.pacer.heard(before, numbers, joined, now);
    }
}

/// Returns the time at which the plan of the paced connection, if there is one, may change.
pub fn due_of(paced: &Option<Paced>, now: u64) -> Option<u64>
    ensures value { result ≡ paced_due paced.now now }
    ensures soon { HoldsBack paced.now → IfSome result (λ at. at ≤ now + 1) }
    ensures bound { IfSome result (λ at. at ≤ now + 60000) }
    ensures rests { IsNone result → HoldsBack paced.now → ⊥ }
    ensures asleep { IsNone result → IsAwake paced.now → ⊥ }
    ensures awake { IfSome result (λ _. IsAwake paced.now) }
{
    let paced = paced.as_ref()?;
    paced.pacer.next_due(now)
}

/// Applies the plan of the pacer to the paced connection, if there is one. Must be called before
/// each poll.
pub fn plan(paced: &mut Option<Paced>, endpoint: &mut Endpoint, now: u64)
    ensures { Plans paced.old now paced.new endpoint.old endpoint.new }
{
    if let Some(paced) = paced {
        paced.plan(endpoint, now);
    }
}

/// Updates the pacer after a poll, which wrote these bytes.
pub fn note_poll(paced: &mut Option<Paced>, endpoint: &Endpoint, bytes: &[u8], now: u64)
    ensures { NotesPoll paced.old endpoint.now bytes.now now paced.new }
{
    if let Some(paced) = paced {
        paced.gave(endpoint, bytes, now);
    }
}

/// Returns the numbers of the link of the paced connection, if there is one.
pub fn numbers_of(paced: &Option<Paced>, endpoint: &Endpoint) -> Option<Numbers>
    ensures { result ≡ paced_numbers paced.now endpoint.now }
{
    let paced = paced.as_ref()?;
    endpoint.numbers(paced.id).ok()
}

/// Updates the pacer after a datagram, for which the endpoint returned this result. `before` has
/// the numbers of the paced link before the datagram, if the link was there.
pub fn note_datagram(
    paced: &mut Option<Paced>,
    endpoint: &Endpoint,
    arrived: Arrived,
    before: Option<Numbers>,
    now: u64,
)
    ensures { NotesDatagram paced.old arrived before now endpoint.now paced.new }
{
    if let Some(paced) = paced {
        paced.heard(endpoint, arrived, before, now);
    }
}
