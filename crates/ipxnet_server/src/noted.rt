//! Addresses that registered, or were those of clients before a restart, have not yet shown their
//! node, and are still to be pinged.

ghost use Rattle.std.specs.Prelude.{◌≡◌, ◌≤◌, ◌<◌, ◌+◌, ◌-◌, [], IfOk, drop, find, length, option_copied, true};
ghost use Rattle.std.specs.Vec.{vec_capacity, vec_len};
ghost use Rattle.ipxnet_server.specs.NotedPlaces.{AreFewNotesOfEachIp, has_note_room, is_note_of_ip, is_noted, max_noted, note_that_goes, noted_again, noted_but, noted_left, noted_with, noted_without, notes_of_ip, places_noted, places_noted_again};

use crate::ask_times::NoteCause;
use std::alloc::{AllocError, Global};
use std::marker::Model;
use std::net::SocketAddrV4;

/// How many addresses are noted at most.
pub const MAX_NOTED: usize = 64;

/// How many addresses are noted at most that have one IP address.
pub const MAX_ADDRESS_NOTED: usize = 16;

/// An address that is still to be pinged.
#[derive(Clone, Copy, Debug, PartialEq, Eq)]
pub struct Noted {
    /// The address.
    pub place: SocketAddrV4,
    /// When it was noted, in ms. This stays if it registers again while it is noted.
    pub since: u64,
    /// Why it was noted, which says when it is pinged.
    pub cause: NoteCause,
}

/// The noted addresses, in the order in which they were noted.
#[derive(Drop)]
pub struct NotedPlaces {
    known: Vec<Noted>,
}

impl Model for NotedPlaces {
    ghost use Rattle.std.specs.Prelude.{List};
    ghost use Rattle.std.specs.Vec.{vec_capacity};
    ghost use Rattle.ipxnet_server.specs.declared.noted.Noted.{Noted};
    ghost use Rattle.ipxnet_server.specs.ServerInside.{AreNoted};

    ghost Value = { List Noted };

    ghost view = { λ n. n.known.items };

    ghost invariant = { λ n. AreNoted n.known.items (vec_capacity n.known) };
}

/// Removes the address, if it is noted.
fn leave_out(known: &mut Vec<Noted>, place: SocketAddrV4)
    ensures items { known.new.items ≡ noted_without place known.old.items }
    ensures fewer { vec_len known.new ≤ vec_len known.old }
    ensures capacity { vec_capacity known.new ≡ vec_capacity known.old }
{
    known.retain(|noted| noted.place != place);
}

/// Removes one address, if there is one.
fn leave_out_one(known: &mut Vec<Noted>, one: Option<Noted>)
    ensures items { known.new.items ≡ noted_but one known.old.items }
    ensures fewer { vec_len known.new ≤ vec_len known.old }
    ensures capacity { vec_capacity known.new ≡ vec_capacity known.old }
{
    if let Some(noted) = one {
        leave_out(known, noted.place);
    }
}

/// Removes the addresses whose second ping was due at the last turn of pings, which was at `pinged`.
fn leave_out_asked(known: &mut Vec<Noted>, pinged: u64)
    ensures items { known.new.items ≡ noted_left pinged known.old.items }
    ensures fewer { vec_len known.new ≤ vec_len known.old }
    ensures capacity { vec_capacity known.new ≡ vec_capacity known.old }
{
    known.retain(|noted| pinged.saturating_sub(noted.since) < noted.cause.second_ask());
}

/// Removes the address that was noted before all others, if there is no room for another.
fn make_space(known: &mut Vec<Noted>)
    requires { vec_len known.old ≤ max_noted }
    ensures items { known.new.items
        ≡ drop (length known.old.items + 1 - max_noted) known.old.items }
    ensures room { vec_len known.new < max_noted }
    ensures capacity { vec_capacity known.new ≡ vec_capacity known.old }
{
    if known.len() == MAX_NOTED {
        known.remove(0);
    }
}

/// Whether a place is among the noted addresses.
fn is_one(known: &[Noted], place: SocketAddrV4) -> bool
    ensures { result ≡ is_noted place known.now }
{
    known.iter().any(|noted| noted.place == place)
}

/// Whether an address has the IP address of a place.
fn is_of_ip(noted: &Noted, place: SocketAddrV4) -> bool
    ensures { result ≡ is_note_of_ip place noted.now }
{
    noted.place.ip().octets() == place.ip().octets()
}

/// How many addresses have the IP address of a place.
fn count_of_ip(known: &[Noted], place: SocketAddrV4) -> usize
    ensures { result ≡ length (notes_of_ip place known.now) }
{
    known.iter().filter(|noted| is_of_ip(noted, place)).count()
}

/// The first address that has the IP address of a place.
fn find_of_ip(known: &[Noted], place: SocketAddrV4) -> Option<&Noted>
    ensures { option_copied result ≡ find (is_note_of_ip place) known.now }
{
    known.iter().find(|noted| is_of_ip(noted, place))
}

/// Whether one more address is noted without removing another.
fn has_room(known: &[Noted], place: SocketAddrV4) -> bool
    ensures { result ≡ has_note_room place known.now }
{
    known.len() < MAX_NOTED && count_of_ip(known, place) < MAX_ADDRESS_NOTED
}

/// The address that goes if one more of its IP address is noted.
fn one_that_goes(known: &[Noted], place: SocketAddrV4) -> Option<Noted>
    ensures { result ≡ note_that_goes place known.now }
{
    if count_of_ip(known, place) < MAX_ADDRESS_NOTED {
        return None;
    }
    find_of_ip(known, place).copied()
}

impl NotedPlaces {
    /// No address yet. This takes the memory for all of them.
    pub fn new(alloc: Global) -> Result<NotedPlaces, AllocError>
        ensures { IfOk result (λ n. n ≡ []) }
    {
        let known = Vec::with_capacity(alloc, MAX_NOTED)?;
        Ok(NotedPlaces { known })
    }

    /// The noted addresses, in the order in which they were noted.
    pub fn all(&self) -> &[Noted]
        ensures all { result.now ≡ self.now }
        ensures few { length self.now ≤ max_noted }
        ensures each { AreFewNotesOfEachIp self.now }
    {
        &self.known
    }

    /// Forgets the addresses whose second ping was due at the last turn of pings, which was at
    /// `pinged`.
    pub fn age(&mut self, pinged: u64)
        ensures { self.new ≡ noted_left pinged self.old }
    {
        leave_out_asked(&mut self.known, pinged);
    }

    /// Forgets an address.
    pub fn forget(&mut self, place: SocketAddrV4)
        ensures { self.new ≡ noted_without place self.old }
    {
        leave_out(&mut self.known, place);
    }

    /// Notes one more address, as the last one. If its IP address has too many, or if there are too
    /// many, the one that was noted before the others is removed.
    fn add(&mut self, place: SocketAddrV4, now: u64)
        ensures { self.new ≡ noted_with place now self.old }
    {
        let goes = one_that_goes(&self.known, place);
        leave_out_one(&mut self.known, goes);
        make_space(&mut self.known);
        let last = self.known.len();
        let noted = Noted {
            place,
            since: now,
            cause: NoteCause::Registration,
        };
        self.known.insert(last, noted).unwrap();
    }

    /// Notes one more address, of a client before a restart, as the last one.
    fn add_again(&mut self, place: SocketAddrV4, now: u64)
        requires { has_note_room place self.old ≡ true }
        ensures { self.new ≡ noted_again place now self.old }
    {
        let before = self.known.len();
        let noted = Noted {
            place,
            since: now,
            cause: NoteCause::Restart(before),
        };
        self.known.insert(before, noted).unwrap();
    }

    /// Notes an address that was that of a client before a restart, unless it is noted already, or
    /// there is no room. The notes of others stay as they are.
    pub fn put_again(&mut self, place: SocketAddrV4, now: u64)
        ensures { self.new ≡ places_noted_again place now self.old }
    {
        if !is_one(&self.known, place) && has_room(&self.known, place) {
            self.add_again(place, now);
        }
    }

    /// Notes an address that registered now. If it is noted already, its note stays as it is:
    /// otherwise whoever registers in its name again and again would put off its pings for ever.
    pub fn put(&mut self, place: SocketAddrV4, now: u64)
        ensures { self.new ≡ places_noted place now self.old }
    {
        if !is_one(&self.known, place) {
            self.add(place, now);
        }
    }
}
