//! IP addresses that register again and again, and of which nobody becomes a client.

ghost use Rattle.std.specs.Prelude.{◌≡◌, ◌≤◌, [], IfOk, None, length};
ghost use Rattle.std.specs.Vec.{vec_capacity, vec_len};
ghost use Rattle.ipxnet_server.specs.Attempts.{attempts_after, attempts_left, attempts_of_ip, attempts_of_other_ips, attempts_with, is_attempt_of_ip, is_logged_attempt, max_attempts, no_repeats, repeats_raised};

use crate::counts::saturating_increment;
use std::alloc::{AllocError, Global};
use std::marker::Model;
use std::net::SocketAddrV4;

/// A registration is told if so many others came from its IP address, within so many milliseconds
/// before it.
const ATTEMPTS_BEFORE: usize = 2;

const ATTEMPT_MS: u64 = 60_000;

/// How many registrations are remembered at most.
const MAX_ATTEMPTS: usize = 64;

/// A registration from an IP address of which nobody is a client.
#[derive(Clone, Copy)]
pub struct Attempt {
    /// Where it came from.
    pub place: SocketAddrV4,
    /// When it came, in ms.
    pub at: u64,
}

/// How often an IP address registered three times within a minute, while nobody there was a client.
#[derive(Clone, Copy, Debug, PartialEq, Eq)]
pub struct Repeats {
    /// How often. It stays at the greatest u64.
    pub count: u64,
    /// Where the last of these registrations came from.
    pub last: Option<SocketAddrV4>,
}

/// The last registrations from IP addresses of which nobody is a client, in their order.
#[derive(Drop)]
pub struct Attempts {
    recent: Vec<Attempt>,
    repeats: Repeats,
}

impl Model for Attempts {
    ghost use Rattle.std.specs.Vec.{vec_capacity};
    ghost use Rattle.ipxnet_server.specs.Attempts.{AttemptsView};
    ghost use Rattle.ipxnet_server.specs.ServerInside.{AreAttempts};

    ghost Value = { AttemptsView };

    ghost view = { λ a. record { recent = a.recent.items; repeats = a.repeats } };

    ghost invariant = { λ a. AreAttempts a.recent.items (vec_capacity a.recent) };
}

/// Removes those that came a minute ago or earlier.
fn leave_out_old(recent: &mut Vec<Attempt>, now: u64)
    ensures items { recent.new.items ≡ attempts_left now recent.old.items }
    ensures fewer { vec_len recent.new ≤ vec_len recent.old }
    ensures capacity { vec_capacity recent.new ≡ vec_capacity recent.old }
{
    recent.retain(|attempt| now.saturating_sub(attempt.at) < ATTEMPT_MS);
}

/// Whether an attempt has the IP address of a place.
fn is_of_ip(attempt: &Attempt, place: SocketAddrV4) -> bool
    ensures { result ≡ is_attempt_of_ip place attempt.now }
{
    attempt.place.ip().octets() == place.ip().octets()
}

/// How many attempts have the IP address of a place.
fn count_of_ip(recent: &[Attempt], place: SocketAddrV4) -> usize
    ensures { result ≡ length (attempts_of_ip place recent.now) }
{
    recent
        .iter()
        .filter(|attempt| is_of_ip(attempt, place))
        .count()
}

/// Removes those that have the IP address of a place.
fn leave_out_ip(recent: &mut Vec<Attempt>, place: SocketAddrV4)
    ensures items { recent.new.items ≡ attempts_of_other_ips place recent.old.items }
    ensures fewer { vec_len recent.new ≤ vec_len recent.old }
    ensures capacity { vec_capacity recent.new ≡ vec_capacity recent.old }
{
    recent.retain(|attempt| !is_of_ip(attempt, place));
}

/// Remembers one more, as the last one. If there are too many, the first one is removed.
fn remember(recent: &mut Vec<Attempt>, attempt: Attempt)
    requires few { vec_len recent.old ≤ max_attempts }
    requires room { max_attempts ≤ vec_capacity recent.old }
    ensures items { recent.new.items ≡ attempts_with attempt recent.old.items }
    ensures few { vec_len recent.new ≤ max_attempts }
    ensures capacity { vec_capacity recent.new ≡ vec_capacity recent.old }
{
    if recent.len() == MAX_ATTEMPTS {
        recent.remove(0);
    }
    recent.push_reserved(attempt);
}

impl Repeats {
    /// It has not happened yet.
    pub fn new() -> Repeats
        ensures { result ≡ no_repeats }
    {
        Repeats {
            count: 0,
            last: None,
        }
    }

    /// It happened once more, by a registration from a place.
    fn count(&mut self, place: SocketAddrV4)
        ensures { self.new ≡ repeats_raised place self.old }
    {
        saturating_increment(&mut self.count);
        self.last = Some(place);
    }
}

impl Attempts {
    /// None yet. This takes the memory for all of them.
    pub fn new(alloc: Global) -> Result<Attempts, AllocError>
        ensures { IfOk result (λ a. a ≡ record { recent = []; repeats = no_repeats }) }
    {
        let recent = Vec::with_capacity(alloc, MAX_ATTEMPTS)?;
        Ok(Attempts {
            recent,
            repeats: Repeats::new(),
        })
    }

    /// How often an IP address registered three times within a minute.
    pub fn repeats(&self) -> Repeats
        ensures { result ≡ self.now.repeats }
    {
        self.repeats
    }

    /// Somebody registered from a place, and nobody of its IP address is a client. The third within a
    /// minute is counted, and the IP address begins anew.
    pub fn put(&mut self, place: SocketAddrV4, now: u64)
        ensures { self.new ≡ attempts_after place now self.old }
    {
        leave_out_old(&mut self.recent, now);
        if count_of_ip(&self.recent, place) < ATTEMPTS_BEFORE {
            remember(&mut self.recent, Attempt { place, at: now });
        } else {
            leave_out_ip(&mut self.recent, place);
            self.repeats.count(place);
        }
    }
}
