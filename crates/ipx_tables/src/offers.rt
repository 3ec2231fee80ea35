//! A table of offers.

ghost use Rattle.std.specs.Prelude.{◌≡◌, ℕ, ◌≤◌, ◌<◌, ◌+◌, ◌^◌, ◌↔◌, false, true, [], Some, None, Ok, Err, IsOk, IsSome, OnOk, OnErr, IfSome, IfNone, IfOk, IfErr, length, is_some, count_by, All, if◌then◌else◌};
ghost use Rattle.std.specs.Ordering.{is_eq};
ghost use Rattle.ipx_tables.specs.Content.{IsTable, content, pair_of, heard_key, after_hear, keys_after_hear, after_age, is_young};
ghost use Rattle.ipx_tables.specs.Room.{Grows, IsFull};
ghost use Rattle.ipx_tables.specs.Best.{IsBest, NoneCounts};
ghost use Rattle.ipx_tables.specs.Inventory.{IsInventory};
ghost use Rattle.ipx_tables.specs.Listing.{IsListing};

use crate::ageing::expire;
use crate::fault::TableFault;
use crate::finding::best_in;
use crate::inventory::{Inventory, offers_on};
use crate::metric::Metric;
use crate::moments::expiry;
use crate::offer::Offer;
use crate::offer_store::OfferStore;
use crate::source::Source;
use crate::walk::{Bests, bests_on};
use std::alloc::Global;
use std::marker::Model;

/// A table of offers. It keeps the last offer of each neighbour for each key until the offer
/// expires.
///
/// Times are milliseconds. They may go back: an offer with a later time than `now` has age 0.
#[derive(Drop)]
pub struct Offers<K: Ord + Copy, M: Metric + Copy> {
    capacity: usize,
    /// No offer expires before this time. It may be too early, which costs only a search for the
    /// oldest offer.
    none_old_before: u64,
    offer_store: OfferStore<K, M>,
}

impl<K: Ord + Copy, M: Metric + Copy> Model for Offers<K, M> {
    ghost use Rattle.ipx_tables.specs.Content.{Table, IsTable};
    ghost use Rattle.ipx_tables.specs.Expiry.{NoneOldBefore};

    ghost Value = { Table K M };

    ghost view = { λ o. record { capacity = o.capacity; offers = o.offer_store } };

    ghost invariant = { λ o. IsTable K.cmp (record { capacity = o.capacity; offers = o.offer_store })
        × NoneOldBefore o.none_old_before o.offer_store };
}

impl<K: Ord + Copy, M: Metric + Copy> Offers<K, M> {
    /// An empty table for at most `capacity` offers. It allocates nothing yet.
    pub fn new(alloc: Global, capacity: usize) -> Self
        ensures capacity { result.capacity ≡ capacity }
        ensures empty { result.offers ≡ [] }
    {
        Offers {
            capacity,
            none_old_before: u64::MAX,
            offer_store: OfferStore::new(alloc),
        }
    }

    /// Learns an offer: it replaces the last one of this key and source. A dead metric removes it.
    ///
    /// Only a new key and source can be refused: `Full` if the table already has `capacity` offers,
    /// `OutOfMemory` if it could not grow. A refusal leaves the table as it was. If keys differ but
    /// compare as equal, the table keeps the one learned last.
    pub fn hear(
        &mut self,
        _alloc: Global,
        key: K,
        source: Source,
        metric: M,
        now: u64,
    ) -> Result<(), TableFault>
        ensures heard { OnOk result
            ((p : K × Source) → content K.cmp self.new.offers p
            ≡ after_hear K.cmp M.dead (content K.cmp self.old.offers) (key, source) metric now p) }
        ensures keys { OnOk result
            ((p : K × Source) → heard_key K.cmp self.new.offers p
            ≡ keys_after_hear K.cmp M.dead (heard_key K.cmp self.old.offers)
            (key, source) metric p) }
        ensures refused { OnErr result (self.new ≡ self.old) }
        ensures capacity { self.new.capacity ≡ self.old.capacity }
        ensures valid { IsTable K.cmp self.new }

        // When each refusal comes.
        ensures full { (result ≡ Err TableFault.Full)
            ↔ IsFull K.cmp M.dead self.old (key, source) metric }
        ensures out_of_memory { result ≡ Err TableFault.OutOfMemory
            → Grows K.cmp M.dead self.old (key, source) metric }
        ensures no_memory_if_dead { M.dead metric ≡ true → IsOk result }
        ensures no_memory_if_there { IsSome (content K.cmp self.old.offers (key, source))
            → IsOk result }

        // The number of offers after the call.
        ensures many { OnOk result
            (length self.new.offers
            + (if is_some (content K.cmp self.old.offers (key, source)) then 1 else 0)
            ≡ length self.old.offers + (if M.dead metric then 0 else 1)) }
    {
        let place = self.offer_store.place_of(key, source);
        if metric.dead() {
            if let Ok(at) = place {
                self.offer_store.take_out(at);
            }
            return Ok(());
        }
        self.none_old_before = self.none_old_before.min(expiry(now));
        let offer = Offer {
            key,
            source,
            metric,
            heard: now,
        };
        match place {
            Ok(at) => {
                self.offer_store.replace(at, offer);
                Ok(())
            }
            Err(_) if self.offer_store.len() >= self.capacity => Err(TableFault::Full),
            Err(at) => {
                self.offer_store.add(at, offer)?;
                Ok(())
            }
        }
    }

    /// Removes each offer that was learned three minutes ago or earlier.
    ///
    /// Usually no offer is that old, and one comparison shows it.
    #[inline]
    pub fn age(&mut self, now: u64)
        ensures aged { (p : K × Source) → content K.cmp self.new.offers p
            ≡ after_age (content K.cmp self.old.offers) now p }
        ensures keys { (p : K × Source) → heard_key K.cmp self.new.offers p
            ≡ (if is_some (content K.cmp self.new.offers p)
            then heard_key K.cmp self.old.offers p else None) }
        ensures many { length self.new.offers
            ≡ count_by (λ o. is_young now o.heard) self.old.offers }
        ensures fewer { length self.new.offers ≤ length self.old.offers }
        ensures capacity { self.new.capacity ≡ self.old.capacity }
        ensures valid { IsTable K.cmp self.new }
    {
        if now < self.none_old_before {
            return;
        }
        self.none_old_before = expire(&mut self.offer_store, now);
    }

    /// The best valid offer of this key. An offer is valid for less than three minutes.
    pub fn best(&self, key: &K, now: u64) -> Option<(Source, M)>
        ensures least { IfSome result
            (IsBest M.before (content K.cmp self.now.offers) key.now now) }
        ensures none { IfNone result (NoneCounts (content K.cmp self.now.offers) key.now now) }
        ensures valid { IsTable K.cmp self.now }
    {
        self.best_steps(key, now).0
    }

    /// The best offer, and the number of offers that were read to find it. That is each offer of
    /// the key, at most one more, and at most one for each binary digit of the number of offers in
    /// the table.
    pub fn best_steps(&self, key: &K, now: u64) -> (Option<(Source, M)>, usize)
        ensures least { IfSome result.0
            (IsBest M.before (content K.cmp self.now.offers) key.now now) }
        ensures none { IfNone result.0 (NoneCounts (content K.cmp self.now.offers) key.now now) }
        ensures steps { (digits : ℕ) → length self.now.offers < 2 ^ digits
            → result.1 ≤ count_by (λ o. is_eq (K.cmp o.key key.now)) self.now.offers + 1 + digits }
        // Each offer of the key is read.
        ensures all_read { count_by (λ o. is_eq (K.cmp o.key key.now)) self.now.offers ≤ result.1 }
        ensures valid { IsTable K.cmp self.now }
    {
        let (best, steps) = best_in(&self.offer_store, *key, now);
        match best {
            None => (None, steps),
            Some(best) => (Some((best.source, best.metric)), steps),
        }
    }

    /// Iterates over the keys that have a valid offer, in order, each with its best one. It
    /// allocates nothing.
    pub fn bests(&self, now: u64) -> Bests<'_, K, M>
        ensures listed { IsListing K.cmp M.before (content K.cmp self.now.offers) now result }
        ensures keys { All
            (λ item. heard_key K.cmp self.now.offers (item.0, item.1) ≡ Some item.0) result }
        ensures none { ((key : K) → NoneCounts (content K.cmp self.now.offers) key now)
            → result ≡ [] }
        ensures valid { IsTable K.cmp self.now }
    {
        let _offers = self.offer_store.len();
        bests_on(&self.offer_store, now)
    }

    /// Iterates over all offers, also old ones, by key and then by source. It allocates nothing.
    pub fn offers(&self) -> Inventory<'_, K, M>
        ensures inventory { IsInventory K.cmp (content K.cmp self.now.offers) result }
        ensures keys { All (λ o. heard_key K.cmp self.now.offers (pair_of o) ≡ Some o.key) result }
        ensures valid { IsTable K.cmp self.now }
    {
        let _offers = self.offer_store.len();
        offers_on(&self.offer_store)
    }

    /// The keys that have a valid offer, in order, each with its best one. It only fails with
    /// `OutOfMemory`.
    pub fn list(&self, alloc: Global, now: u64) -> Result<Vec<(K, Source, M)>, TableFault>
        ensures listed { IfOk result
            (λ v. IsListing K.cmp M.before (content K.cmp self.now.offers) now v.items) }
        ensures keys { IfOk result
            (λ v. All
            (λ item. heard_key K.cmp self.now.offers (item.0, item.1) ≡ Some item.0)
            v.items) }
        ensures fault { IfErr result (λ e. e ≡ TableFault.OutOfMemory) }
        ensures no_memory_if_none { ((key : K)
            → NoneCounts (content K.cmp self.now.offers) key now) → IsOk result }
        ensures valid { IsTable K.cmp self.now }
    {
        let mut listed = with_space(alloc, self.offer_store.len());
        for item in self.bests(now) {
            listed.push(item)?;
        }
        Ok(listed)
    }
}

/// An empty list, with space for so many items if that much memory is available at once.
fn with_space<T>(alloc: Global, count: usize) -> Vec<T>
    ensures { result.items ≡ [] }
{
    match Vec::with_capacity(alloc, count) {
        Ok(list) => list,
        Err(_) => Vec::new(alloc),
    }
}
