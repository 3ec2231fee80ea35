//! Units to send, and when each of them was sent.

ghost use Rattle.std.specs.Prelude.{◌≡◌, ◌+◌, ◌++◌, ◌≤◌, ◌<◌, ◌==◌, [], ◌∷◌, drop, length, map};
ghost use Rattle.std.specs.Prelude.{replicate, set, slice_get, List, IfSome, OnErr, OnOk, IsOk, Some};
ghost use Rattle.std.specs.VecDeque.{deque_capacity, deque_len};
ghost use Rattle.spx_link.specs.Offer as spec;
ghost use Rattle.spx_link.specs.Sequences.{paired, with_stamp, unsent};
ghost use Rattle.spx_link.specs.declared.queue.Queued.{Queued};

use crate::queue::Queued;
use crate::unit::Unit;
use std::alloc::{AllocError, Global};
use std::collections::VecDeque;
use std::marker::Model;

/// The time at which a unit was last sent, and how often it was sent. Both are 0 if it was not sent
/// yet.
#[derive(Clone, Copy)]
pub struct Stamp {
    pub at: u64,
    pub count: u8,
}

/// Units to send, in order, with a stamp for each in a second sequence. So a search for a time
/// reads only 16 bytes for each unit, and not the data.
#[derive(Drop)]
pub struct Sequence {
    units: VecDeque<Unit>,
    stamps: VecDeque<Stamp>,
}

impl Model for Sequence {
    ghost Value = { List Queued };

    ghost view = { λ s. paired s.units.items s.stamps.items };

    ghost invariant = { λ s. length s.stamps.items ≡ length s.units.items };
}

impl Sequence {
    /// An empty sequence.
    pub fn new(alloc: Global) -> Sequence
        ensures { result ≡ [] }
    {
        Sequence {
            units: VecDeque::new(alloc),
            stamps: VecDeque::new(alloc),
        }
    }

    /// The number of units.
    pub fn len(&self) -> usize
        ensures { result ≡ length self.now }
    {
        self.units.len()
    }

    /// The unit at a place, and its stamp.
    pub fn get(&self, place: usize) -> (&Unit, Stamp)
        requires { place < length self.now }
        ensures { slice_get self.now place ≡ Some (with_stamp result.0.now result.1) }
    {
        (&self.units[place], self.stamps[place])
    }

    /// Removes the first `count` units.
    pub fn drop_first(&mut self, count: u16)
        ensures { self.new ≡ drop count self.old }
    {
        drop_front(&mut self.units, count);
        drop_front(&mut self.stamps, count);
    }

    /// Sets the stamp of the unit at a place.
    pub fn stamp(&mut self, place: usize, stamp: Stamp)
        requires { place < length self.old }
        ensures { IfSome (slice_get self.old place)
            (λ q. self.new ≡ set self.old place (with_stamp q.unit stamp)) }
    {
        write(&mut self.stamps, place, stamp);
    }

    /// Appends a unit.
    pub fn push(&mut self, queued: Queued) -> Result<(), AllocError>
        ensures ok { OnOk result (self.new ≡ self.old ++ queued ∷ []) }
        ensures err { OnErr result (self.new ≡ self.old) }
    {
        self.stamps.reserve(1)?;
        self.units.reserve(1)?;
        self.stamps.push_back_reserved(Stamp {
            at: queued.at,
            count: queued.count,
        });
        self.units.push_back_reserved(queued.unit);
        Ok(())
    }

    /// Appends units that were not sent yet, in order, or none of them.
    pub fn push_all(&mut self, units: Vec<Unit>) -> Result<(), AllocError>
        ensures ok { OnOk result (self.new ≡ self.old ++ map spec.queued units.items) }
        ensures err { OnErr result (self.new ≡ self.old) }
        ensures empty { units.items ≡ [] → IsOk result }
    {
        if units.is_empty() {
            return Ok(());
        }
        let count = units.len();
        self.stamps.reserve(count)?;
        append(&mut self.units, units)?;
        add_unsent(&mut self.stamps, count);
        Ok(())
    }
}

/// Removes the first `count` items of a queue.
fn drop_front<T: Drop>(queue: &mut VecDeque<T>, count: u16)
    ensures { queue.new.items ≡ drop count queue.old.items }
{
    for _ in 0..count {
        let _gone = queue.pop_front();
    }
}

/// Replaces the stamp at a place.
fn write(stamps: &mut VecDeque<Stamp>, place: usize, stamp: Stamp)
    requires { place < length stamps.old.items }
    ensures { stamps.new.items ≡ set stamps.old.items place stamp }
{
    stamps[place] = stamp;
}

/// Appends units. If the queue is empty, it takes over their allocation and copies nothing.
fn append(queue: &mut VecDeque<Unit>, units: Vec<Unit>) -> Result<(), AllocError>
    ensures ok { OnOk result (queue.new.items ≡ queue.old.items ++ units.items) }
    ensures err { OnErr result (queue.new.items ≡ queue.old.items) }
{
    if queue.is_empty() {
        *queue = VecDeque::from_vec(units);
        return Ok(());
    }
    queue.append(&mut VecDeque::from_vec(units))
}

/// Appends `count` stamps of units that were not sent yet, for which there is room.
fn add_unsent(stamps: &mut VecDeque<Stamp>, count: usize)
    requires { deque_len stamps.old + count ≤ deque_capacity stamps.old }
    ensures { stamps.new.items ≡ stamps.old.items ++ replicate count unsent }
{
    for _ in 0..count {
        stamps.push_back_reserved(Stamp { at: 0, count: 0 });
    }
}
