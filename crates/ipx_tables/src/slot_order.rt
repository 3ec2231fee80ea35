//! An ordered list whose items stay in their slots: only the slot numbers move.

ghost use Rattle.std.specs.Prelude.{◌≡◌, ℕ, ◌+◌, ◌≤◌, ◌<◌, ◌^◌, ◌++◌, [], not, length, IfNone, IfSome, OnOk, insert, remove, slice_index_or, slice_set};
ghost use Rattle.std.specs.List.{filter};
ghost use Rattle.std.specs.Vec.{vec_capacity, vec_len};
ghost use Rattle.ipx_tables.specs.Content.{is_young};
ghost use Rattle.ipx_tables.specs.Marks.{IsEarliest};
ghost use Rattle.ipx_tables.specs.SlotOrder.{is_young_in};

use crate::marks::{Mark, put_mark, remove_expired, remove_expiry, settle_first};
use crate::moments::{Timed, counts};
use std::alloc::{AllocError, Global};
use std::collections::VecDeque;
use std::marker::Model;

/// Items in order. Each stays in its slot while others are inserted and removed.
#[derive(Drop)]
pub struct SlotOrder<T: Timed + Copy> {
    slots: Vec<T>,
    /// The numbers of the slots in use, in the order of the items.
    used: Vec<u32>,
    /// The numbers of the free slots. There is space for all numbers, so none can be lost.
    free: Vec<u32>,
    /// A mark for each slot in use, by time. If an item gets a later time, its mark stays where it
    /// is, and is corrected when offers expire.
    marks: VecDeque<Mark>,
}

impl<T: Timed + Copy> Model for SlotOrder<T> {
    ghost use Rattle.std.specs.Prelude.{length};
    ghost use Rattle.std.specs.Vec.{vec_capacity};
    ghost use Rattle.std.specs.VecDeque.{deque_capacity};
    ghost use Rattle.ipx_tables.specs.Marks.{AreMarked};
    ghost use Rattle.ipx_tables.specs.SlotOrder.{SlotOrderView, AreSlots, lying_in};

    ghost Value = { SlotOrderView T };

    ghost view = { λ t. record {
      items = lying_in t.slots.items t.used.items;
      room = length t.slots.items;
    } };

    ghost invariant = { λ t. AreSlots t.slots.items t.used.items t.free.items
        (vec_capacity t.used) (vec_capacity t.free)
        × AreMarked T.moment t.slots.items t.used.items t.marks.items (deque_capacity t.marks) };
}

impl<T: Timed + Copy> SlotOrder<T> {
    /// An empty list. It allocates nothing yet.
    pub fn new(alloc: Global) -> Self
        ensures { result.items ≡ [] }
    {
        SlotOrder {
            slots: Vec::new(alloc),
            used: Vec::new(alloc),
            free: Vec::new(alloc),
            marks: VecDeque::new(alloc),
        }
    }

    /// The number of items.
    #[inline]
    pub fn len(&self) -> usize
        ensures len { result ≡ length self.now.items }
        ensures few { result < 2 ^ 63 }
    {
        self.used.len()
    }

    /// The item at an index.
    #[inline]
    pub fn get(&self, at: usize) -> &T
        requires { at < length self.now.items }
        ensures { result.now ≡ slice_index_or self.now.items at result.now }
    {
        &self.slots[self.used[at] as usize]
    }

    /// Replaces the item at an index. Its mark stays, unless it would be later than the item.
    pub fn set(&mut self, at: usize, item: T)
        requires { at < length self.old.items }
        ensures items { self.new.items ≡ slice_set self.old.items at item }
        ensures room { self.new.room ≡ self.old.room }
    {
        let number = self.used[at];
        let before = self.slots[number as usize].moment();
        self.slots[number as usize] = item;
        let moment = item.moment();
        if moment < before {
            remove_expiry(&mut self.marks, number);
            put_mark(
                &mut self.marks,
                Mark {
                    moment,
                    place: number,
                },
            );
        }
    }

    /// Makes a free slot if there is none. The content of a free slot does not matter.
    pub fn make_space(&mut self, item: T) -> Result<(), AllocError>
        ensures items { self.new.items ≡ self.old.items }
        ensures room { OnOk result (length self.new.items < self.new.room) }
    {
        if !self.free.is_empty() {
            return Ok(());
        }
        let Ok(number) = u32::try_from(self.slots.len()) else {
            return Err(AllocError);
        };
        self.used.reserve(1)?;
        self.free.reserve(self.slots.len() + 1)?;
        self.marks.reserve(1)?;
        self.slots.push(item)?;
        self.free.push_reserved(number);
        Ok(())
    }

    /// Inserts an item. There is a free slot for it.
    pub fn insert(&mut self, at: usize, item: T)
        requires within { at ≤ length self.old.items }
        requires room { length self.old.items < self.old.room }
        ensures items { self.new.items ≡ insert self.old.items at item }
        ensures room { self.new.room ≡ self.old.room }
    {
        if let Some(number) = self.free.pop() {
            self.slots[number as usize] = item;
            let _put = self.used.insert(at, number);
            put_mark(
                &mut self.marks,
                Mark {
                    moment: item.moment(),
                    place: number,
                },
            );
        }
    }

    /// Removes an item, and frees its slot.
    pub fn take_out(&mut self, at: usize) -> T
        requires { at < length self.old.items }
        ensures item { result ≡ slice_index_or self.old.items at result }
        ensures items { self.new.items ≡ remove self.old.items at }
        ensures room { self.new.room ≡ self.old.room }
        ensures spare { length self.new.items < self.new.room }
    {
        let number = self.used.remove(at);
        self.free.push_reserved(number);
        remove_expiry(&mut self.marks, number);
        self.slots[number as usize]
    }

    /// An item with the earliest time.
    pub fn oldest(&mut self) -> Option<T>
        ensures oldest { IfSome result (IsEarliest T.moment self.old.items) }
        ensures none { IfNone result (self.old.items ≡ []) }
        ensures items { self.new.items ≡ self.old.items }
    {
        settle_first(&mut self.marks, &self.slots);
        let mark = self.marks.front()?;
        Some(self.slots[mark.place as usize])
    }

    /// Removes each item that is expired at this time.
    pub fn expire(&mut self, now: u64)
        ensures items { self.new.items ≡ filter (λ x. is_young now (T.moment x)) self.old.items }
        ensures room { self.new.room ≡ self.old.room }
    {
        remove_expired(&mut self.marks, &self.slots, now);
        free_old(&self.slots, &self.used, &mut self.free, now);
        use_young(&self.slots, &mut self.used, now);
    }
}

/// Whether the item in a slot is valid.
fn counts_in<T: Timed + Copy>(slots: &[T], number: u32, now: u64) -> bool
    ensures { result ≡ is_young_in T.moment now slots.now number }
{
    match slots.get(number as usize) {
        None => false,
        Some(item) => counts(now, item.moment()),
    }
}

/// Frees the slots of expired items.
fn free_old<T: Timed + Copy>(slots: &[T], used: &[u32], free: &mut Vec<u32>, now: u64)
    requires { length used.now + vec_len free.old ≤ vec_capacity free.old }
    ensures items { free.new.items
        ≡ free.old.items ++ filter (λ n. not (is_young_in T.moment now slots.now n)) used.now }
    ensures capacity { vec_capacity free.new ≡ vec_capacity free.old }
{
    for number in used {
        if !counts_in(slots, *number, now) {
            free.push_reserved(*number);
        }
    }
}

/// Keeps the slots of valid items in use.
fn use_young<T: Timed + Copy>(slots: &[T], used: &mut Vec<u32>, now: u64)
    ensures items { used.new.items ≡ filter (is_young_in T.moment now slots.now) used.old.items }
    ensures capacity { vec_capacity used.new ≡ vec_capacity used.old }
{
    used.retain(|number| counts_in(slots, *number, now));
}
