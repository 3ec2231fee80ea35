//! Offers in the order of key and source.

ghost use Rattle.std.specs.Prelude.{◌≡◌, ℕ, ◌+◌, ◌^◌, ◌<◌, ◌≤◌, [], List, length, IfNone, IfSome, IfOk, IfErr, OnOk, OnErr, insert, remove, slice_index_or, slice_set};
ghost use Rattle.std.specs.List.{filter};
ghost use Rattle.std.specs.Ordering.{is_eq};
ghost use Rattle.std.specs.declared.cmp.Ordering.TheVariants.{Less, Greater};
ghost use Rattle.ipx_tables.specs.Content.{is_young, pair_cmp, pair_of};
ghost use Rattle.ipx_tables.specs.Expiry.{IsOldest};
ghost use Rattle.ipx_tables.specs.Sorted.{IsAtKey, IsGapFor, IsRising};

use crate::offer::Offer;
use crate::slot_order::SlotOrder;
use crate::source::Source;
use std::alloc::{AllocError, Global};
use std::cmp::Ordering;
use std::marker::Model;

/// Offers by key and source, with at most one for each key and source.
#[derive(Drop)]
pub struct OfferStore<K: Ord + Copy, M: Copy> {
    offers: SlotOrder<Offer<K, M>>,
    /// The index after the offer that was learned last, or the index of a removed one. The next
    /// search tries it first.
    next: usize,
}

impl<K: Ord + Copy, M: Copy> Model for OfferStore<K, M> {
    ghost use Rattle.std.specs.Prelude.{List};
    ghost use Rattle.ipx_tables.specs.declared.offer.Offer.{Offer};
    ghost use Rattle.ipx_tables.specs.Content.{pair_cmp, pair_of};
    ghost use Rattle.ipx_tables.specs.Sorted.{IsRising};

    ghost Value = { List (Offer K M) };

    ghost view = { λ s. s.offers.items };

    ghost invariant = { λ s. IsRising (pair_cmp K.cmp) pair_of s.offers.items };
}

impl<K: Ord + Copy, M: Copy> OfferStore<K, M> {
    /// No offers. It allocates nothing yet.
    pub fn new(alloc: Global) -> Self
        ensures { result ≡ [] }
    {
        OfferStore {
            offers: SlotOrder::new(alloc),
            next: 0,
        }
    }

    /// The number of offers.
    pub fn len(&self) -> usize
        ensures len { result ≡ length self.now }
        ensures few { result < 2 ^ 63 }
        ensures rising { IsRising (pair_cmp K.cmp) pair_of self.now }
    {
        self.offers.len()
    }

    /// Reads an offer, and adds one to the number of offers that were read.
    #[inline]
    pub fn read(&self, at: usize, steps: &mut usize) -> &Offer<K, M>
        requires within { at < length self.now }
        requires few { steps.old + 1 < 2 ^ 64 }
        ensures offer { result.now ≡ slice_index_or self.now at result.now }
        ensures steps { steps.new ≡ steps.old + 1 }
    {
        *steps += 1;
        self.offers.get(at)
    }

    /// Reads an offer during a walk, without a count.
    #[inline]
    pub fn get(&self, at: usize) -> &Offer<K, M>
        requires { at < length self.now }
        ensures { result.now ≡ slice_index_or self.now at result.now }
    {
        self.offers.get(at)
    }

    /// Whether the offers at two indices have equal keys.
    #[inline]
    pub fn tie(&self, a: usize, b: usize) -> bool
        requires first { a < length self.now }
        requires second { b < length self.now }
        ensures { (d : Offer K M) → result ≡ is_eq
            (K.cmp (slice_index_or self.now a d).key (slice_index_or self.now b d).key) }
    {
        let key = &self.offers.get(a).key;
        key.cmp(&self.offers.get(b).key).is_eq()
    }

    /// The index of the offer of a key and source, or the index where it would be inserted.
    pub fn place_of(&self, key: K, source: Source) -> Result<usize, usize>
        ensures found { IfOk result (IsAtKey (pair_cmp K.cmp) pair_of self.now (key, source)) }
        ensures absent { IfErr result (IsGapFor (pair_cmp K.cmp) pair_of self.now (key, source)) }
    {
        place_in(&self.offers, self.next, key, source)
    }

    /// The index of an offer that was learned first, and the time at which it was learned.
    pub fn oldest(&mut self) -> Option<(usize, u64)>
        ensures oldest { IfSome result (λ o. IsOldest self.old o.0 o.1) }
        ensures none { IfNone result (self.old ≡ []) }
        ensures same { self.new ≡ self.old }
    {
        let oldest = self.offers.oldest()?;
        let Ok(at) = place_in(&self.offers, self.next, oldest.key, oldest.source) else {
            return None;
        };
        Some((at, oldest.heard))
    }

    /// Removes an offer.
    pub fn take_out(&mut self, at: usize)
        requires { at < length self.old }
        ensures items { self.new ≡ remove self.old at }
        ensures rising { IsRising (pair_cmp K.cmp) pair_of self.new }
    {
        let _gone = self.offers.take_out(at);
        self.next = at;
    }

    /// Removes each offer that is expired at this time.
    pub fn expire(&mut self, now: u64)
        ensures { self.new ≡ filter (λ o. is_young now o.heard) self.old }
    {
        self.offers.expire(now);
    }

    /// Replaces the offer of a key and source.
    pub fn replace(&mut self, at: usize, offer: Offer<K, M>)
        requires { IsAtKey (pair_cmp K.cmp) pair_of self.old (pair_of offer) at }
        ensures items { self.new ≡ slice_set self.old at offer }
        ensures rising { IsRising (pair_cmp K.cmp) pair_of self.new }
    {
        self.offers.set(at, offer);
        self.next = at.saturating_add(1);
    }

    /// Adds the offer of a new key and source. Memory is allocated before anything is changed.
    pub fn add(&mut self, at: usize, offer: Offer<K, M>) -> Result<(), AllocError>
        requires { IsGapFor (pair_cmp K.cmp) pair_of self.old (pair_of offer) at }
        ensures added { OnOk result (self.new ≡ insert self.old at offer) }
        ensures refused { OnErr result (self.new ≡ self.old) }
        ensures rising { IsRising (pair_cmp K.cmp) pair_of self.new }
    {
        self.offers.make_space(offer)?;
        self.offers.insert(at, offer);
        self.next = at.saturating_add(1);
        Ok(())
    }
}

/// Compares an offer with a key and source: by key, and then by source.
fn pair_order<K: Ord + Copy, M: Copy>(offer: &Offer<K, M>, key: &K, source: Source) -> Ordering
    ensures { result ≡ pair_cmp K.cmp (pair_of offer.now) (key.now, source) }
{
    match offer.key.cmp(key) {
        Ordering::Equal => offer.source.cmp(&source),
        unequal => unequal,
    }
}

/// The index of the offer of a key and source, or the index where it would be inserted. One index
/// is tried first, and then the side of it that remains is searched.
fn place_in<K: Ord + Copy, M: Copy>(
    offers: &SlotOrder<Offer<K, M>>,
    first: usize,
    key: K,
    source: Source,
) -> Result<usize, usize>
    requires { IsRising (pair_cmp K.cmp) pair_of offers.now.items }
    ensures found { IfOk result (IsAtKey (pair_cmp K.cmp) pair_of offers.now.items (key, source)) }
    ensures absent { IfErr result
        (IsGapFor (pair_cmp K.cmp) pair_of offers.now.items (key, source)) }
{
    let end = offers.len();
    if first >= end {
        return search(offers, 0, end, key, source);
    }
    match pair_order(offers.get(first), &key, source) {
        Ordering::Less => search(offers, first + 1, end, key, source),
        Ordering::Equal => Ok(first),
        Ordering::Greater => search(offers, 0, first, key, source),
    }
}

/// The same by binary search from `low` to `high`. All offers before that range are lower, and all
/// after it are higher.
fn search<K: Ord + Copy, M: Copy>(
    offers: &SlotOrder<Offer<K, M>>,
    mut low: usize,
    mut high: usize,
    key: K,
    source: Source,
) -> Result<usize, usize>
    requires rising { IsRising (pair_cmp K.cmp) pair_of offers.now.items }
    requires ordered { low ≤ high }
    requires within { high ≤ length offers.now.items }
    requires below { (j : ℕ) (d : Offer K M) → j < low
        → pair_cmp K.cmp (pair_of (slice_index_or offers.now.items j d)) (key, source) ≡ Less }
    requires above { (j : ℕ) (d : Offer K M) → high ≤ j → j < length offers.now.items
        → pair_cmp K.cmp (pair_of (slice_index_or offers.now.items j d)) (key, source) ≡ Greater }
    ensures found { IfOk result (IsAtKey (pair_cmp K.cmp) pair_of offers.now.items (key, source)) }
    ensures absent { IfErr result
        (IsGapFor (pair_cmp K.cmp) pair_of offers.now.items (key, source)) }
{
    while low < high {
        let mid = low + (high - low) / 2;
        match pair_order(offers.get(mid), &key, source) {
            Ordering::Less => low = mid + 1,
            Ordering::Equal => return Ok(mid),
            Ordering::Greater => high = mid,
        }
    }
    Err(low)
}
