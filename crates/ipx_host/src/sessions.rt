//! The connections that a listening host accepted.

ghost use Rattle.std.specs.Prelude.{◌≡◌, ◌↔◌, Some, map};
ghost use Rattle.spx_link.specs.declared.state.State.TheVariants as States;
ghost use Rattle.ipx_host.specs.SessionActions.{IsSessionAction, IsOver, IsToAsk, is_unheard, phase_asked, phase_heard};
ghost use Rattle.ipx_host.specs.Sessions.{heard_by, has_spoken, is_of_node, is_silent, is_unanswered, is_unheard_of};
ghost use Rattle.ipx_host.specs.declared.sessions.SessionAction.TheVariants as ActionsOfSessions;
ghost use Rattle.ipx_config.specs.AllowedPeers.{home_network};

use ipx_wire::{Address, Network};
use spx_link::State;

/// How long a connection is kept after its end was received, from its last datagram, in
/// milliseconds. A peer that lost the confirmation asks again at least each second.
pub const LINGER: u64 = 3000;

/// How long an open connection is silent before it is probed, in milliseconds.
pub const KEEPALIVE_AFTER: u64 = 60_000;

/// How long to wait for the first data of a connection before it is probed, in milliseconds.
pub const FIRST_DATA_TIMEOUT: u64 = 1000;

/// How long to wait for the first data of a connection before it may be evicted, in milliseconds:
/// half a second longer, so that it can answer the probe.
const UNANSWERED_AFTER: u64 = 1500;

/// How long a connection is silent before it may be evicted for a new request, in milliseconds.
pub const EVICT_AFTER: u64 = 10_000;

/// The phase of an accepted connection.
#[derive(Clone, Copy, PartialEq, Eq)]
pub enum Phase {
    /// Nothing was received since it was accepted.
    New,
    /// Nothing was received since it was accepted, and it was probed.
    NewProbed,
    /// Something was received.
    Open,
    /// It was silent, and was probed.
    KeepaliveSent,
    /// Its end was taken, and everything before it.
    Ended,
}

impl Phase {
    /// Whether nothing was received since the connection was accepted.
    pub fn is_unheard(self) -> bool
        ensures { result ≡ is_unheard self }
    {
        matches!(self, Phase::New | Phase::NewProbed)
    }

    /// The phase after a probe.
    pub fn asked(self) -> Phase
        ensures { result ≡ phase_asked self }
    {
        match self {
            Phase::New => Phase::NewProbed,
            Phase::Open => Phase::KeepaliveSent,
            phase => phase,
        }
    }
}

/// The network that an address is on, for a host of a network: 0 is its own.
fn home_of(own: Network, address: &Address) -> Network
    ensures { result.0 ≡ home_network own address.now }
{
    if address.network == Network::LOCAL {
        own
    } else {
        address.network
    }
}

/// A connection that was accepted.
#[derive(Clone, Copy)]
pub struct Session {
    pub id: u16,
    pub from: Address,
    /// When it was accepted, last received something, or last could not be probed.
    pub heard: u64,
    pub phase: Phase,
}

impl Session {
    /// Records that something was received at this time.
    pub fn hear(&mut self, now: u64)
        ensures { self.new ≡ record self.old {
          heard = now;
          phase = phase_heard self.old.phase;
        } }
    {
        self.heard = now;
        if self.phase != Phase::Ended {
            self.phase = Phase::Open;
        }
    }

    /// Whether something was received since it was accepted.
    pub fn is_heard(&self) -> bool
        ensures { result ≡ has_spoken self.now }
    {
        !self.phase.is_unheard()
    }

    /// Whether nothing was received, and it was accepted, or could not be probed, at least 1.5
    /// seconds ago. So it did not answer the probe within half a second.
    pub fn is_unanswered(&self, now: u64) -> bool
        ensures { result ≡ is_unanswered now self.now }
    {
        self.phase.is_unheard() && now.saturating_sub(self.heard) >= UNANSWERED_AFTER
    }

    /// Whether nothing was received for ten seconds, or it could not be probed for that long.
    pub fn is_silent(&self, now: u64) -> bool
        ensures { result ≡ is_silent now self.now }
    {
        now.saturating_sub(self.heard) >= EVICT_AFTER
    }

    /// Whether it belongs to the node of an address, as a host of a network sees it.
    pub fn is_of_node(&self, own: Network, from: &Address) -> bool
        ensures { result ≡ is_of_node own from.now self.now }
    {
        home_of(own, &self.from) == home_of(own, from) && self.from.node == from.node
    }

    /// Whether nothing was received, and it belongs to the node of an address.
    pub fn is_unheard_of(&self, own: Network, from: &Address) -> bool
        ensures { result ≡ is_unheard_of own from.now self.now }
    {
        self.phase.is_unheard() && self.is_of_node(own, from)
    }

    /// Records the time if this is the connection that received the datagram.
    fn note(&mut self, heard: u16, now: u64)
        ensures { self.new ≡ heard_by heard now self.old }
    {
        if self.id == heard {
            self.hear(now);
        }
    }
}

/// Records in the connections which of them received a datagram at this time.
pub fn hear_one(sessions: &mut [Session], heard: u16, moment: u64)
    ensures { sessions.new ≡ map (heard_by heard moment) sessions.old }
{
    for session in sessions.iter_mut() {
        session.note(heard, moment);
    }
}

/// What to do with a connection.
#[derive(Clone, Copy, PartialEq, Eq)]
pub enum SessionAction {
    /// It is kept.
    Stays,
    /// It is kept, and probed.
    Asks,
    /// It has ended, and its slot is free.
    Over,
    /// It was given up before its end was received.
    GivenUp,
}

/// What to do with a connection in this phase, by the state of its link (None if it is gone) and
/// how many milliseconds it was silent.
pub fn session_action(phase: Phase, state: Option<State>, silent: u64) -> SessionAction
    ensures fate { IsSessionAction result phase state silent }
    ensures given_up { (result ≡ ActionsOfSessions.GivenUp) ↔ (state ≡ Some States.Lost) }
    ensures over { (result ≡ ActionsOfSessions.Over) ↔ IsOver phase state silent }
    ensures asks { (result ≡ ActionsOfSessions.Asks) ↔ IsToAsk phase state silent }
{
    match (phase, state) {
        (_, Some(State::Lost)) => SessionAction::GivenUp,
        (_, None | Some(State::Confirmed)) => SessionAction::Over,
        (Phase::Ended, _) if silent >= LINGER => SessionAction::Over,
        (Phase::Open, _) if silent >= KEEPALIVE_AFTER => SessionAction::Asks,
        (Phase::New, _) if silent >= FIRST_DATA_TIMEOUT => SessionAction::Asks,
        _ => SessionAction::Stays,
    }
}
