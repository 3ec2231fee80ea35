//! The units that a link has to send.

ghost use Rattle.std.specs.Prelude.{◌≡◌, ◌+◌, ◌++◌, ◌≤◌, ◌<◌, ◌==◌, [], ◌∷◌, drop, take, map, set};
ghost use Rattle.std.specs.Prelude.{position, slice_get, length, true, List, OnOk, OnErr, IsOk};
ghost use Rattle.std.specs.Prelude.{IfSome, Some};
ghost use Rattle.spx_link.specs.Due as D;
ghost use Rattle.spx_link.specs.LinkView as view;
ghost use Rattle.spx_link.specs.Offer as spec;
ghost use Rattle.spx_link.specs.Queues.{IsFound, IsSearched};
ghost use Rattle.spx_link.specs.Sequences.{with_stamp};
ghost use Rattle.spx_link.specs.declared.queue.Queued.{Queued};

use crate::limits::RESEND_AFTER;
use crate::stamped::{Sequence, Stamp};
use crate::unit::Unit;
use std::alloc::{AllocError, Global};
use std::marker::Model;

/// A unit to send. Once it was sent, `at` is the time of the last sending and `count` is how often
/// it was sent.
#[derive(Drop)]
pub struct Queued {
    pub unit: Unit,
    pub at: u64,
    pub count: u8,
}

/// Whether what was sent at a given time is to be sent again.
pub fn due(at: u64, now: u64) -> bool
    ensures { result ≡ view.due at now }
{
    now >= at && now - at >= RESEND_AFTER
}

/// Units to send, in order.
///
/// The first `searched` of them were each sent at `since` or later, so none of these is due before
/// `since` is. The search for a due unit continues after them.
#[derive(Drop)]
pub struct Queue {
    units: Sequence,
    searched: usize,
    since: u64,
}

impl Model for Queue {
    ghost Value = { List Queued };

    ghost view = { λ q. q.units };

    ghost invariant = { λ q. IsSearched q.units q.searched q.since };
}

impl Queue {
    /// An empty queue.
    pub fn new(alloc: Global) -> Queue
        ensures { result ≡ [] }
    {
        Queue {
            units: Sequence::new(alloc),
            searched: 0,
            since: u64::MAX,
        }
    }

    /// The number of units.
    pub fn len(&self) -> usize
        ensures { result ≡ length self.now }
    {
        self.units.len()
    }

    /// Whether there are no units.
    pub fn is_empty(&self) -> bool
        ensures { result ≡ (length self.now == 0) }
    {
        self.units.len() == 0
    }

    /// The unit at a place, and its stamp.
    pub fn at_place(&self, place: usize) -> (&Unit, Stamp)
        requires { place < length self.now }
        ensures { slice_get self.now place ≡ Some (with_stamp result.0.now result.1) }
    {
        self.units.get(place)
    }

    /// The place of the first sent unit that is to be sent again.
    pub fn first_due(&mut self, sent: usize, now: u64) -> Option<usize>
        ensures place { result ≡ position (λ q. view.due q.at now) (take sent self.old) }
        ensures same { self.new ≡ self.old }
    {
        let end = sent.min(self.units.len());
        let from = go_on(&self.units, self.searched, self.since, end, now);
        let found = search(&self.units, from, end, now);
        self.searched = found.place;
        self.since = found.since;
        if found.place < end {
            Some(found.place)
        } else {
            None
        }
    }

    /// The earliest time at which one of the sent units was last sent.
    pub fn first_sent(&self, sent: usize) -> Option<u64>
        ensures { result ≡ D.earliest (take sent self.now) }
    {
        earliest(&self.units, sent)
    }

    /// Removes the first `count` units.
    pub fn drop_first(&mut self, count: u16)
        ensures { self.new ≡ drop count self.old }
    {
        self.units.drop_first(count);
        self.searched = self.searched.saturating_sub(usize::from(count));
    }

    /// Records that the unit at a place was sent at this time, `count` times in all.
    pub fn mark_sent(&mut self, place: usize, now: u64, count: u8)
        requires { place < length self.old }
        ensures { IfSome (slice_get self.old place)
            (λ q. self.new
            ≡ set self.old place (record { unit = q.unit; at = now; count = count })) }
    {
        self.units.stamp(place, Stamp { at: now, count });
        self.since = self.since.min(now);
    }

    /// Queues a unit that was not sent yet.
    pub fn push(&mut self, unit: Unit) -> Result<(), AllocError>
        ensures ok { OnOk result (self.new ≡ self.old ++ spec.queued unit ∷ []) }
        ensures err { OnErr result (self.new ≡ self.old) }
    {
        self.units.push(unsent(unit))
    }

    /// Queues units that were not sent yet, in order, or none of them.
    pub fn push_all(&mut self, units: Vec<Unit>) -> Result<(), AllocError>
        ensures ok { OnOk result (self.new ≡ self.old ++ map spec.queued units.items) }
        ensures err { OnErr result (self.new ≡ self.old) }
        ensures empty { units.items ≡ [] → IsOk result }
    {
        self.units.push_all(units)
    }
}

/// How far a search came: to the first unit that is due, or past the last one. The units before
/// were sent at `since` or later.
#[derive(Clone, Copy)]
struct Found {
    place: usize,
    since: u64,
}

/// Where a search continues: after the searched units, or from the first unit once one of them may
/// be due.
fn go_on(units: &Sequence, searched: usize, since: u64, end: usize, now: u64) -> Found
    requires { IsSearched units.now searched since }
    ensures { IsFound units.now end now result.place result.since }
{
    if due(since, now) {
        return Found {
            place: 0,
            since: u64::MAX,
        };
    }
    Found {
        place: searched.min(end),
        since,
    }
}

/// Continues a search, to the first unit that is due or to the end of the range.
fn search(units: &Sequence, from: Found, end: usize, now: u64) -> Found
    requires within { end ≤ length units.now }
    requires from { IsFound units.now end now from.place from.since }
    ensures came { IsFound units.now end now result.place result.since }
    ensures stops { result.place < end
        → IfSome (slice_get units.now result.place) (λ q. view.due q.at now ≡ true) }
{
    let mut since = from.since;
    for place in from.place..end {
        let at = units.get(place).1.at;
        if due(at, now) {
            return Found { place, since };
        }
        since = since.min(at);
    }
    Found { place: end, since }
}

/// The earliest time at which one of the sent units was last sent.
fn earliest(units: &Sequence, sent: usize) -> Option<u64>
    ensures { result ≡ D.earliest (take sent units.now) }
{
    let mut least = None;
    for place in 0..sent.min(units.len()) {
        least = Some(earlier(units.get(place).1.at, least));
    }
    least
}

/// The earlier of a time and another, if there is one.
pub fn earlier(at: u64, least: Option<u64>) -> u64
    ensures { result ≡ D.earlier at least }
{
    match least {
        Some(least) => at.min(least),
        None => at,
    }
}

/// A unit that was not sent yet.
fn unsent(unit: Unit) -> Queued
    ensures { result ≡ spec.queued unit }
{
    Queued {
        unit,
        at: 0,
        count: 0,
    }
}
