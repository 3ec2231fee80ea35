//! Who gets a slot among the connections of a host that listens, and which connection is evicted for a
//! new request.

ghost use Rattle.std.specs.Prelude.{◌≡◌, ◌↔◌, ◌<◌, ◌≤◌, ◌&&◌, true, count_by, is_some, length, map, nat_lt, position, vec_capacity, IfSome, IsTrue};
ghost use Rattle.std.specs.List.{list_any};
ghost use Rattle.ipx_host.specs.Sessions.{Admits, Asks, Evicts, IsAskedUnless, HasNoPlaceFor, KeepsHeard, LetsLinkGo, LetsLinksGo, MakesSpace, TakesMessages, goes_before, has_more, heard_by, has_spoken, is_at_limit, is_first_own, is_of_node, is_unanswered, is_own_silent, is_to_go, is_unheard_of, may_go, may_go_for, place_of_any, place_of_own, place_of_own_unanswered, place_to_free, protects, raised_if, session_at};

use crate::sessions::{Session, hear_one};
use ipx_wire::{Address, Network};
use spx_link::State;
use spx_messages::{Endpoint, Message};
use std::alloc::Global;

/// The most connections that a host holds.
pub const MAX_SESSIONS: usize = 16;

/// The most connections of one node.
const MAX_OF_NODE: usize = 8;

/// The most connections of one node that were not heard from yet.
const MAX_UNHEARD: usize = 4;

/// Forgets the link of an id.
pub fn let_link_go(endpoint: &mut Endpoint, id: u16)
    ensures { LetsLinkGo endpoint.old endpoint.new id }
{
    let _ = endpoint.release(id);
}

/// Forgets the links of connections.
fn let_links_go(endpoint: &mut Endpoint, sessions: &[Session])
    ensures { LetsLinksGo sessions.now endpoint.old endpoint.new }
{
    for session in sessions {
        let_link_go(endpoint, session.id);
    }
}

/// Whether data was received on any connection.
fn is_any_heard(sessions: &[Session]) -> bool
    ensures { result ≡ list_any has_spoken sessions.now }
{
    sessions.iter().any(|session| session.is_heard())
}

/// The number of connections of the node of an address.
fn count_of_node(sessions: &[Session], own: Network, from: &Address) -> usize
    ensures { result ≡ count_by (is_of_node own from.now) sessions.now }
{
    sessions
        .iter()
        .filter(|session| session.is_of_node(own, from))
        .count()
}

/// The number of connections of the node of an address that were not heard from.
fn count_unheard_of(sessions: &[Session], own: Network, from: &Address) -> usize
    ensures { result ≡ count_by (is_unheard_of own from.now) sessions.now }
{
    sessions
        .iter()
        .filter(|session| session.is_unheard_of(own, from))
        .count()
}

/// Whether the node of an address is at its limit: it has 8 connections, or 4 that were not heard
/// from.
fn is_at_limit(sessions: &[Session], own: Network, from: &Address) -> bool
    ensures { result ≡ is_at_limit own from.now sessions.now }
{
    count_of_node(sessions, own, from) >= MAX_OF_NODE
        || count_unheard_of(sessions, own, from) >= MAX_UNHEARD
}

/// Whether a host of a network has no slot for a connection from an address: with `once` if one was
/// heard from; if 16 are held, or 8 of its node, or 4 of its node that were not heard from.
fn is_full_on(own: Network, once: bool, sessions: &[Session], from: &Address) -> bool
    ensures { IsTrue result ↔ HasNoPlaceFor once own from.now sessions.now }
{
    if once && is_any_heard(sessions) {
        return true;
    }
    sessions.len() >= MAX_SESSIONS || is_at_limit(sessions, own, from)
}

/// `is_full_on` for the network of an endpoint.
fn is_full(endpoint: &Endpoint, once: bool, sessions: &[Session], from: &Address) -> bool
    ensures { IsTrue result ↔ HasNoPlaceFor once endpoint.now.network from.now sessions.now }
{
    is_full_on(endpoint.network(), once, sessions, from)
}

/// Holds an accepted connection if there is a free slot. Otherwise its link is released, and it is
/// turned away. Returns whether it was turned away.
pub fn hold(
    once: bool,
    endpoint: &mut Endpoint,
    sessions: &mut Vec<Session>,
    session: Session,
) -> bool
    requires { 16 ≤ vec_capacity sessions.old }
    ensures admits { Admits once session endpoint.old endpoint.new
        sessions.old.items sessions.new.items }
    ensures turned_away { IsTrue result
        ↔ HasNoPlaceFor once endpoint.old.network session.from sessions.old.items }
    ensures room { 16 ≤ vec_capacity sessions.new }
{
    if is_full(endpoint, once, sessions, &session.from) || sessions.push(session).is_err() {
        let_link_go(endpoint, session.id);
        return true;
    }
    false
}

/// The place of the first connection on which data was received.
fn place_of_heard(sessions: &[Session]) -> Option<usize>
    ensures place { result ≡ position has_spoken sessions.now }
    ensures there { IfSome result (λ place. place < length sessions.now) }
{
    sessions.iter().position(|session| session.is_heard())
}

/// The place of the first connection that is unanswered.
fn place_of_unanswered(sessions: &[Session], moment: u64) -> Option<usize>
    ensures place { result ≡ position (is_unanswered moment) sessions.now }
    ensures there { IfSome result (λ place. place < length sessions.now) }
{
    sessions
        .iter()
        .position(|session| session.is_unanswered(moment))
}

/// Whether a connection of the node of an address was not heard from.
fn is_any_unheard_of(sessions: &[Session], own: Network, from: &Address) -> bool
    ensures { result ≡ list_any (is_unheard_of own from.now) sessions.now }
{
    sessions
        .iter()
        .any(|session| session.is_unheard_of(own, from))
}

/// Whether a connection may be evicted: it is silent, and its peer has not ended. What a peer sent
/// before its end is kept until it is taken.
fn may_go(endpoint: &Endpoint, session: &Session, moment: u64) -> bool
    ensures { result ≡ may_go endpoint.now moment session.now }
{
    session.is_silent(moment) && endpoint.state(session.id) == Ok(State::Live)
}

/// Whether the node of an address has more connections than the node of another.
fn has_more(sessions: &[Session], own: Network, from: &Address, other: &Address) -> bool
    ensures { result ≡ has_more own sessions.now from.now other.now }
{
    count_of_node(sessions, own, from) > count_of_node(sessions, own, other)
}

/// Whether a connection that has sent no data yet protects another from being evicted for a request.
/// It does if it is of the node that asks, or of another node than that connection. So a flood in
/// the name of one node evicts at most one connection in 1.5 seconds. One in two nodes' names evicts
/// at most five, which then protect each other.
fn protects(own: Network, asker: &Address, session: &Session, other: &Session) -> bool
    ensures { result ≡ protects own asker.now session.now other.now }
{
    other.phase.is_unheard()
        && (other.is_of_node(own, asker) || !other.is_of_node(own, &session.from))
}

/// Whether any connection protects this one from being evicted.
fn is_protected(own: Network, sessions: &[Session], asker: &Address, session: &Session) -> bool
    ensures { result ≡ list_any (protects own asker.now session.now) sessions.now }
{
    sessions
        .iter()
        .any(|other| protects(own, asker, session, other))
}

/// Whether a connection may be evicted for a request from an address: it is of the node of that
/// address, or its node has more connections than that node, and it is not protected.
fn may_go_for(
    own: Network,
    endpoint: &Endpoint,
    sessions: &[Session],
    moment: u64,
    asker: &Address,
    session: &Session,
) -> bool
    ensures { result ≡ may_go_for own endpoint.now moment asker.now sessions.now session.now }
{
    may_go(endpoint, session, moment)
        && (session.is_of_node(own, asker) || has_more(sessions, own, &session.from, asker))
        && !is_protected(own, sessions, asker, session)
}

/// Whether a connection is evicted in preference to another: it may be evicted for the request, and
/// its node has more connections, or as many and it was silent for longer.
fn goes_before(
    own: Network,
    endpoint: &Endpoint,
    sessions: &[Session],
    moment: u64,
    asker: &Address,
    session: &Session,
    other: &Session,
) -> bool
    ensures { result
        ≡ goes_before own endpoint.now moment asker.now sessions.now session.now other.now }
{
    may_go_for(own, endpoint, sessions, moment, asker, session)
        && (has_more(sessions, own, &session.from, &other.from)
            || (!has_more(sessions, own, &other.from, &session.from)
                && session.heard < other.heard))
}

/// Whether another connection goes before this one.
fn goes_any_before(
    own: Network,
    endpoint: &Endpoint,
    sessions: &[Session],
    moment: u64,
    asker: &Address,
    session: &Session,
) -> bool
    ensures { result ≡ list_any
        (λ d. goes_before own endpoint.now moment asker.now sessions.now d session.now) sessions.now }
{
    sessions.iter().any(|other| goes_before(own, endpoint, sessions, moment, asker, other, session))
}

/// Whether a connection is evicted for a request from an address: it may be, and no other goes
/// before it.
fn is_to_go(
    own: Network,
    endpoint: &Endpoint,
    sessions: &[Session],
    moment: u64,
    asker: &Address,
    session: &Session,
) -> bool
    ensures { result ≡ is_to_go own endpoint.now moment asker.now sessions.now session.now }
{
    may_go_for(own, endpoint, sessions, moment, asker, session)
        && !goes_any_before(own, endpoint, sessions, moment, asker, session)
}

/// The place of the silent connection that is evicted for a request, if there is one.
fn place_of_silent(
    own: Network,
    endpoint: &Endpoint,
    sessions: &[Session],
    moment: u64,
    asker: &Address,
) -> Option<usize>
    ensures place { result
        ≡ position (is_to_go own endpoint.now moment asker.now sessions.now) sessions.now }
    ensures there { IfSome result (λ place. place < length sessions.now) }
{
    sessions.iter().position(|session| is_to_go(own, endpoint, sessions, moment, asker, session))
}

/// The place of the connection that is evicted for a request of a node that is below its limit: the
/// first unanswered one, or if there is none, and without `once`, a silent one of that node or of a
/// node that has more connections.
fn place_of_any(
    once: bool,
    own: Network,
    endpoint: &Endpoint,
    sessions: &[Session],
    moment: u64,
    asker: &Address,
) -> Option<usize>
    ensures place { result ≡ place_of_any once own endpoint.now moment asker.now sessions.now }
    ensures there { IfSome result (λ place. place < length sessions.now) }
{
    let unanswered = place_of_unanswered(sessions, moment);
    if once || unanswered.is_some() {
        unanswered
    } else {
        place_of_silent(own, endpoint, sessions, moment, asker)
    }
}

/// Whether a connection of the node of an address may be evicted.
fn is_own_silent(
    own: Network,
    endpoint: &Endpoint,
    moment: u64,
    from: &Address,
    session: &Session,
) -> bool
    ensures { result ≡ is_own_silent own endpoint.now moment from.now session.now }
{
    may_go(endpoint, session, moment) && session.is_of_node(own, from)
}

/// Whether another of them was silent for longer.
fn is_any_own_before(
    own: Network,
    endpoint: &Endpoint,
    sessions: &[Session],
    moment: u64,
    from: &Address,
    session: &Session,
) -> bool
    ensures { result ≡ list_any (λ d. is_own_silent own endpoint.now moment from.now d
        && nat_lt d.heard session.now.heard) sessions.now }
{
    sessions.iter().any(|other| {
        is_own_silent(own, endpoint, moment, from, other) && other.heard < session.heard
    })
}

/// Whether a connection is evicted for another one of its node: it may be, and none of them was
/// silent for longer.
fn is_first_own(
    own: Network,
    endpoint: &Endpoint,
    sessions: &[Session],
    moment: u64,
    from: &Address,
    session: &Session,
) -> bool
    ensures { result ≡ is_first_own own endpoint.now moment from.now sessions.now session.now }
{
    is_own_silent(own, endpoint, moment, from, session)
        && !is_any_own_before(own, endpoint, sessions, moment, from, session)
}

/// The place of the first unanswered connection of the node of an address.
fn place_of_own_unanswered(
    own: Network,
    sessions: &[Session],
    moment: u64,
    from: &Address,
) -> Option<usize>
    ensures place { result ≡ place_of_own_unanswered own moment from.now sessions.now }
    ensures there { IfSome result (λ place. place < length sessions.now) }
{
    sessions.iter().position(|session| session.is_unanswered(moment)
        && session.is_of_node(own, from))
}

/// The place of the connection of the node of an address that is silent for longest, if one may be
/// evicted.
fn place_of_own_silent(
    own: Network,
    endpoint: &Endpoint,
    sessions: &[Session],
    moment: u64,
    from: &Address,
) -> Option<usize>
    ensures place { result
        ≡ position (is_first_own own endpoint.now moment from.now sessions.now) sessions.now }
    ensures there { IfSome result (λ place. place < length sessions.now) }
{
    sessions.iter().position(|session| is_first_own(own, endpoint, sessions, moment, from, session))
}

/// The place of the connection that is evicted for another one of its own node, if the node has as
/// many as it may have: the first unanswered one, or if each was heard from, and without `once`, a
/// silent one.
fn place_of_own(
    once: bool,
    own: Network,
    endpoint: &Endpoint,
    sessions: &[Session],
    moment: u64,
    from: &Address,
) -> Option<usize>
    ensures place { result ≡ place_of_own once own endpoint.now moment from.now sessions.now }
    ensures there { IfSome result (λ place. place < length sessions.now) }
{
    if !is_at_limit(sessions, own, from) {
        return None;
    }
    let unanswered = place_of_own_unanswered(own, sessions, moment, from);
    if once || unanswered.is_some() {
        return unanswered;
    }
    if is_any_unheard_of(sessions, own, from) {
        return None;
    }
    place_of_own_silent(own, endpoint, sessions, moment, from)
}

/// `place_of_own` for the network of the endpoint.
fn place_of_own_in(
    once: bool,
    endpoint: &Endpoint,
    sessions: &[Session],
    moment: u64,
    from: &Address,
) -> Option<usize>
    ensures place { result
        ≡ place_of_own once endpoint.now.network endpoint.now moment from.now sessions.now }
    ensures there { IfSome result (λ place. place < length sessions.now) }
{
    place_of_own(once, endpoint.network(), endpoint, sessions, moment, from)
}

/// The place of the connection that is evicted for a request that found no link. A node that is at its
/// limit evicts only its own connections.
fn place_to_evict(
    once: bool,
    own: Network,
    endpoint: &Endpoint,
    sessions: &[Session],
    moment: u64,
    asker: &Address,
) -> Option<usize>
    ensures place { result ≡ place_to_free once own endpoint.now moment asker.now sessions.now }
    ensures there { IfSome result (λ place. place < length sessions.now) }
{
    if is_at_limit(sessions, own, asker) {
        place_of_own(once, own, endpoint, sessions, moment, asker)
    } else {
        place_of_any(once, own, endpoint, sessions, moment, asker)
    }
}

/// `place_to_evict` for the network of the endpoint.
fn place_in(
    once: bool,
    endpoint: &Endpoint,
    sessions: &[Session],
    moment: u64,
    asker: &Address,
) -> Option<usize>
    ensures place { result
        ≡ place_to_free once endpoint.now.network endpoint.now moment asker.now sessions.now }
    ensures there { IfSome result (λ place. place < length sessions.now) }
{
    place_to_evict(once, endpoint.network(), endpoint, sessions, moment, asker)
}

/// Evicts the connection at a place, and releases its link. Returns the connection, if there is such
/// a place.
fn evict_at(
    endpoint: &mut Endpoint,
    sessions: &mut Vec<Session>,
    place: Option<usize>,
) -> Option<Session>
    requires room { 16 ≤ vec_capacity sessions.old }
    requires there { IfSome place (λ place. place < length sessions.old.items) }
    ensures evicts { Evicts place endpoint.old endpoint.new sessions.old.items sessions.new.items }
    ensures one { is_some result ≡ is_some place }
    ensures gone { result ≡ session_at place sessions.old.items }
    ensures network { endpoint.new.network ≡ endpoint.old.network }
    ensures room { 16 ≤ vec_capacity sessions.new }
{
    let session = sessions.remove(place?);
    let_link_go(endpoint, session.id);
    Some(session)
}

/// If data was received on a connection, keeps only the first such one, and releases the others and
/// their links.
fn keep_heard(endpoint: &mut Endpoint, sessions: &mut Vec<Session>)
    requires { 16 ≤ vec_capacity sessions.old }
    ensures keeps { KeepsHeard true endpoint.old endpoint.new sessions.old.items sessions.new.items }
    ensures room { 16 ≤ vec_capacity sessions.new }
{
    let Some(place) = place_of_heard(sessions) else {
        return;
    };
    let heard = sessions.remove(place);
    let_links_go(endpoint, sessions);
    sessions.clear();
    let _ = sessions.push(heard);
}

/// Records that a connection received something at this time. With `once`, all other connections
/// are released.
pub fn hear_session(
    once: bool,
    endpoint: &mut Endpoint,
    sessions: &mut Vec<Session>,
    id: u16,
    moment: u64,
)
    requires { 16 ≤ vec_capacity sessions.old }
    ensures heard { KeepsHeard once endpoint.old endpoint.new
        (map (heard_by id moment) sessions.old.items) sessions.new.items }
    ensures room { 16 ≤ vec_capacity sessions.new }
{
    hear_one(sessions, id, moment);
    if once {
        keep_heard(endpoint, sessions);
    }
}

/// Evicts a connection for a request from an address that found no link, and releases its link: only
/// one of its own node, if that is at its limit. Returns the connection, if there was one to evict.
pub fn make_space(
    once: bool,
    endpoint: &mut Endpoint,
    sessions: &mut Vec<Session>,
    moment: u64,
    asker: &Address,
) -> Option<Session>
    requires { 16 ≤ vec_capacity sessions.old }
    ensures makes { MakesSpace once moment asker.now endpoint.old endpoint.new
        sessions.old.items sessions.new.items }
    ensures one { is_some result ≡ is_some (place_to_free once
        endpoint.old.network endpoint.old moment asker.now sessions.old.items) }
    ensures gone { result ≡ session_at (place_to_free once endpoint.old.network endpoint.old moment
        asker.now sessions.old.items) sessions.old.items }
    ensures room { 16 ≤ vec_capacity sessions.new }
{
    let place = place_in(once, endpoint, sessions, moment, asker);
    evict_at(endpoint, sessions, place)
}

/// Evicts a connection of the node of an address, if the node has as many as it may have and asks
/// for one more. Returns the connection, if there was one to evict.
pub fn make_space_of_own(
    once: bool,
    endpoint: &mut Endpoint,
    sessions: &mut Vec<Session>,
    moment: u64,
    from: &Address,
) -> Option<Session>
    requires { 16 ≤ vec_capacity sessions.old }
    ensures evicts { Evicts (place_of_own once endpoint.old.network endpoint.old moment from.now
        sessions.old.items) endpoint.old endpoint.new sessions.old.items sessions.new.items }
    ensures one { is_some result ≡ is_some (place_of_own once endpoint.old.network endpoint.old
        moment from.now sessions.old.items) }
    ensures gone { result ≡ session_at (place_of_own once endpoint.old.network endpoint.old moment
        from.now sessions.old.items) sessions.old.items }
    ensures network { endpoint.new.network ≡ endpoint.old.network }
    ensures room { 16 ≤ vec_capacity sessions.new }
{
    let place = place_of_own_in(once, endpoint, sessions, moment, from);
    evict_at(endpoint, sessions, place)
}

/// The count, plus one if `more`; at most the greatest u64.
pub fn count_if(more: bool, count: u64) -> u64
    ensures { result ≡ raised_if more count }
{
    if more { count.saturating_add(1) } else { count }
}

/// Whether the link of an id takes messages.
fn takes_messages(endpoint: &Endpoint, id: u16) -> bool
    ensures { IsTrue result ↔ TakesMessages endpoint.now id }
{
    endpoint.state(id) == Ok(State::Live)
}

/// Probes a connection with a message of no bytes. A peer that is there acknowledges it; otherwise
/// the link is Lost some five seconds later. If its link takes no messages, or memory is refused,
/// nothing is sent. The silence is then counted from now, and the connection is probed again
/// later. Returns whether memory was refused.
pub fn ask(alloc: Global, endpoint: &mut Endpoint, session: &mut Session, moment: u64) -> bool
    ensures asks { Asks moment endpoint.old endpoint.new session.old session.new }
    // Memory was refused exactly if the link takes messages, and the message was not queued.
    ensures asked { IsAskedUnless result endpoint.old endpoint.new session.old session.new }
{
    if !takes_messages(endpoint, session.id) {
        session.heard = moment;
        return false;
    }
    let nothing = Message {
        stream: 0,
        body: Vec::new(alloc),
    };
    match endpoint.send(alloc, session.id, &nothing) {
        Ok(()) => {
            session.phase = session.phase.asked();
            false
        }
        Err(_) => {
            session.heard = moment;
            true
        }
    }
}
