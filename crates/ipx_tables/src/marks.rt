//! Marks of the slots in use, in the order of their times.

ghost use Rattle.std.specs.Prelude.{◌≡◌, ℕ, ◌-◌, ◌≤◌, ◌<◌, ◌==◌, ◌∷◌, nat_le, true, false, not, length, map, take, IfNone, IfSome, slice_index_or};
ghost use Rattle.std.specs.List.{All, AllWithin, filter, list_any};
ghost use Rattle.std.specs.List.Sorted.{IsPermutation};
ghost use Rattle.std.specs.VecDeque.{deque_capacity, deque_len};
ghost use Rattle.ipx_tables.specs.Content.{is_young};
ghost use Rattle.ipx_tables.specs.Marks.{AreByTime, HaveDistinctSlots, IsNoLater, IsRightMark, is_late_mark, places_of, right_mark};
ghost use Rattle.ipx_tables.specs.SlotOrder.{is_young_in};

use crate::moments::{Timed, counts};
use std::collections::VecDeque;

/// The number of a slot, and the time of the item in it, or an earlier time.
#[derive(Clone, Copy, Debug)]
pub struct Mark {
    pub moment: u64,
    pub place: u32,
}

/// Inserts a mark after those that are not later. There is space for it.
pub fn put_mark(marks: &mut VecDeque<Mark>, mark: Mark)
    requires by_time { AreByTime marks.old.items }
    requires room { deque_len marks.old < deque_capacity marks.old }
    ensures by_time { AreByTime marks.new.items }
    ensures put { IsPermutation (mark ∷ marks.old.items) marks.new.items }
    ensures capacity { deque_capacity marks.old ≤ deque_capacity marks.new }
{
    if none_later(marks, mark.moment) {
        marks.push_back_reserved(mark);
        return;
    }
    let at = marks.partition_point(|other| other.moment <= mark.moment);
    let _put = marks.insert(at, mark);
}

/// Whether no mark is later than this time. The last mark decides it.
fn none_later(marks: &VecDeque<Mark>, moment: u64) -> bool
    ensures last { (d : Mark) → 0 < length marks.now.items → result
        ≡ nat_le (slice_index_or marks.now.items (length marks.now.items - 1) d).moment moment }
    ensures none { length marks.now.items ≡ 0 → result ≡ true }
{
    match marks.back() {
        None => true,
        Some(last) => last.moment <= moment,
    }
}

/// The index of the mark of a slot.
fn place_of_mark(marks: &VecDeque<Mark>, place: u32) -> Option<usize>
    ensures there { IfSome result (λ i. i < length marks.now.items) }
    ensures is { IfSome result
        (λ i. (d : Mark) → (slice_index_or marks.now.items i d).place ≡ place) }
    ensures absent { IfNone result ((i : ℕ) (d : Mark) → i < length marks.now.items
        → (slice_index_or marks.now.items i d).place ≡ place → ⊥) }
{
    marks.iter().position(|mark| mark.place == place)
}

/// Removes the mark of a slot.
pub fn remove_expiry(marks: &mut VecDeque<Mark>, place: u32)
    requires { HaveDistinctSlots marks.old.items }
    ensures items { marks.new.items ≡ filter (λ m. not (m.place == place)) marks.old.items }
    ensures capacity { deque_capacity marks.new ≡ deque_capacity marks.old }
{
    if let Some(at) = place_of_mark(marks, place) {
        let _gone = marks.remove(at);
    }
}

/// The number of marks whose times are expired. They are the first ones.
fn old_marks(marks: &VecDeque<Mark>, now: u64) -> usize
    requires { AreByTime marks.now.items }
    ensures bound { result ≤ length marks.now.items }
    ensures old { AllWithin (λ m. is_young now m.moment ≡ false) marks.now.items 0 result }
    ensures young { AllWithin (λ m. is_young now m.moment ≡ true)
        marks.now.items result (length marks.now.items) }
{
    marks.partition_point(|mark| !counts(now, mark.moment))
}

/// Removes the marks whose times are expired.
fn cut_off_old(marks: &mut VecDeque<Mark>, now: u64)
    requires { AreByTime marks.old.items }
    ensures items { marks.new.items ≡ filter (λ m. is_young now m.moment) marks.old.items }
    ensures capacity { deque_capacity marks.new ≡ deque_capacity marks.old }
{
    let old = old_marks(marks, now);
    let young = marks.len() - old;
    marks.rotate_left(old);
    marks.truncate(young);
}

/// Whether a mark is late: its time is not that of the item in its slot.
fn is_late<T: Timed + Copy>(slots: &[T], mark: Mark) -> bool
    ensures { result ≡ is_late_mark T.moment slots.now mark }
{
    match slots.get(mark.place as usize) {
        None => false,
        Some(item) => item.moment() != mark.moment,
    }
}

/// Whether one of the first `count` marks is late.
fn any_late<T: Timed + Copy>(slots: &[T], marks: &VecDeque<Mark>, count: usize) -> bool
    requires { count ≤ length marks.now.items }
    ensures { result ≡ list_any (is_late_mark T.moment slots.now) (take count marks.now.items) }
{
    marks.range(..count).any(|mark| is_late(slots, *mark))
}

/// The mark, corrected to the time of the item in its slot.
fn right<T: Timed + Copy>(slots: &[T], mark: Mark) -> Mark
    ensures { result ≡ right_mark T.moment slots.now mark }
{
    match slots.get(mark.place as usize) {
        None => mark,
        Some(item) => Mark {
            moment: item.moment(),
            place: mark.place,
        },
    }
}

/// Corrects each mark to the time of the item in its slot.
fn put_right<T: Timed + Copy>(marks: &mut [Mark], slots: &[T])
    ensures { marks.new ≡ map (right_mark T.moment slots.now) marks.old }
{
    for mark in marks.iter_mut() {
        *mark = right(slots, *mark);
    }
}

/// Corrects all marks, and sorts them.
fn settle_row<T: Timed + Copy>(marks: &mut [Mark], slots: &[T])
    requires { All (λ m. m.place < length slots.now) marks.old }
    ensures by_time { AreByTime marks.new }
    ensures places { IsPermutation (places_of marks.old) (places_of marks.new) }
    ensures right { All (IsRightMark T.moment slots.now) marks.new }
{
    put_right(marks, slots);
    marks.sort_unstable_by_key(|mark| mark.moment);
}

/// Corrects all marks, and sorts them.
fn settle_all<T: Timed + Copy>(marks: &mut VecDeque<Mark>, slots: &[T])
    requires { All (λ m. m.place < length slots.now) marks.old.items }
    ensures by_time { AreByTime marks.new.items }
    ensures places { IsPermutation (places_of marks.old.items) (places_of marks.new.items) }
    ensures right { All (IsRightMark T.moment slots.now) marks.new.items }
    ensures capacity { deque_capacity marks.new ≡ deque_capacity marks.old }
{
    settle_row(marks.make_contiguous(), slots);
}

/// If the first mark is late, corrects all marks.
pub fn settle_first<T: Timed + Copy>(marks: &mut VecDeque<Mark>, slots: &[T])
    requires real { All (λ m. m.place < length slots.now) marks.old.items }
    requires by_time { AreByTime marks.old.items }
    requires no_later { All (IsNoLater T.moment slots.now) marks.old.items }
    ensures by_time { AreByTime marks.new.items }
    ensures places { IsPermutation (places_of marks.old.items) (places_of marks.new.items) }
    ensures no_later { All (IsNoLater T.moment slots.now) marks.new.items }
    ensures right { (d : Mark) → 0 < length marks.new.items
        → IsRightMark T.moment slots.now (slice_index_or marks.new.items 0 d) }
    ensures capacity { deque_capacity marks.new ≡ deque_capacity marks.old }
{
    let first = marks.len().min(1);
    if any_late(slots, marks, first) {
        settle_all(marks, slots);
    }
}

/// If one of the expired marks is late, corrects all marks.
fn settle_old<T: Timed + Copy>(marks: &mut VecDeque<Mark>, slots: &[T], now: u64)
    requires real { All (λ m. m.place < length slots.now) marks.old.items }
    requires by_time { AreByTime marks.old.items }
    requires no_later { All (IsNoLater T.moment slots.now) marks.old.items }
    ensures by_time { AreByTime marks.new.items }
    ensures places { IsPermutation (places_of marks.old.items) (places_of marks.new.items) }
    ensures no_later { All (IsNoLater T.moment slots.now) marks.new.items }
    ensures right { All (λ m. is_young now m.moment ≡ false → IsRightMark T.moment slots.now m)
        marks.new.items }
    ensures capacity { deque_capacity marks.new ≡ deque_capacity marks.old }
{
    let old = old_marks(marks, now);
    if any_late(slots, marks, old) {
        settle_all(marks, slots);
    }
}

/// Removes the marks of expired items. They are at the front, after late marks were corrected.
pub fn remove_expired<T: Timed + Copy>(marks: &mut VecDeque<Mark>, slots: &[T], now: u64)
    requires real { All (λ m. m.place < length slots.now) marks.old.items }
    requires by_time { AreByTime marks.old.items }
    requires no_later { All (IsNoLater T.moment slots.now) marks.old.items }
    ensures by_time { AreByTime marks.new.items }
    ensures places { IsPermutation
        (filter (is_young_in T.moment now slots.now) (places_of marks.old.items))
        (places_of marks.new.items) }
    ensures no_later { All (IsNoLater T.moment slots.now) marks.new.items }
    ensures capacity { deque_capacity marks.new ≡ deque_capacity marks.old }
{
    settle_old(marks, slots, now);
    cut_off_old(marks, now);
}
