//! An iterator over the best offer of each key.

ghost use Rattle.std.specs.Prelude.{◌≡◌, ◌+◌, ◌^◌, ◌<◌, ◌∷◌, [], true, false, not, OnSome, drop, IfSome, IfNone, MatchOption, option_copied};
ghost use Rattle.std.specs.Ordering.{is_eq};
ghost use Rattle.ipx_tables.specs.Walk.{IsLone, bests_of, item_of};

use crate::finding::better_one;
use crate::metric::Metric;
use crate::moments::counts;
use crate::offer::Offer;
use crate::offer_store::OfferStore;
use crate::source::Source;
use std::marker::Model;

/// The keys that have a valid offer, in order, each with its best one. It allocates nothing.
#[derive(Drop)]
pub struct Bests<'a, K: Ord + Copy, M: Metric + Copy> {
    offer_store: &'a OfferStore<K, M>,
    at: usize,
    now: u64,
}

impl<'a, K: Ord + Copy, M: Metric + Copy> Model for Bests<'a, K, M> {
    ghost use Rattle.std.specs.Prelude.{List, drop};
    ghost use Rattle.ipx_tables.specs.declared.source.Source.{Source};
    ghost use Rattle.ipx_tables.specs.Walk.{bests_of};

    ghost Value = { List (K × Source × M) };

    ghost view = { λ b. bests_of K.cmp M.before b.now (drop b.at b.offer_store.now) };
}

/// The best offer of each key of a store.
pub fn bests_on<K: Ord + Copy, M: Metric + Copy>(
    offer_store: &OfferStore<K, M>,
    now: u64,
) -> Bests<'_, K, M>
    ensures { result ≡ bests_of K.cmp M.before now offer_store.now }
{
    Bests {
        offer_store,
        at: 0,
        now,
    }
}

impl<'a, K: Ord + Copy, M: Metric + Copy> Iterator for Bests<'a, K, M> {
    ghost use Rattle.std.specs.Iterator.{YieldsFirst, item_count};

    type Item = (K, Source, M);

    ghost next_gives = { YieldsFirst (λ items. items) };

    ghost remaining = { item_count (λ items. items) };

    fn next(&mut self) -> Option<(K, Source, M)> {
        if let Some(lone) = lone_at(self.offer_store, self.at, self.now) {
            self.at += 1;
            return Some((lone.key, lone.source, lone.metric));
        }
        let (best, at) = next_best(self.offer_store, self.at, self.now);
        self.at = at;
        let best = best?;
        Some((best.key, best.source, best.metric))
    }
}

/// Whether the offer at an index is valid, and the next one has another key.
#[inline]
fn is_lone<K: Ord + Copy, M: Copy>(offer_store: &OfferStore<K, M>, at: usize, now: u64) -> bool
    ensures { result ≡ true → IsLone K.cmp now offer_store.now at }
{
    let end = offer_store.len();
    if at >= end || !counts(now, offer_store.get(at).heard) {
        return false;
    }
    at + 1 == end || !offer_store.tie(at, at + 1)
}

/// The offer at an index, if it is valid and the next one has another key. Usually a key has one
/// offer, and then no other is read.
#[inline]
fn lone_at<K: Ord + Copy, M: Metric + Copy>(
    offer_store: &OfferStore<K, M>,
    at: usize,
    now: u64,
) -> Option<Offer<K, M>>
    ensures within { OnSome result (at < 2 ^ 63) }
    ensures found { IfSome result (λ o. bests_of K.cmp M.before now (drop at offer_store.now)
        ≡ item_of o ∷ bests_of K.cmp M.before now (drop (at + 1) offer_store.now)) }
{
    let _offers = offer_store.len();
    if is_lone(offer_store, at, now) {
        return Some(*offer_store.get(at));
    }
    None
}

/// Whether an offer is held, and it has another key than this.
fn is_past<K: Ord + Copy, M: Copy>(held: Option<&Offer<K, M>>, key: K) -> bool
    ensures { MatchOption (option_copied held.entry) (result ≡ false) (λ h. is_eq (K.cmp h.key key) ≡ not result) }
{
    match held {
        None => false,
        Some(held) => !held.key.cmp(&key).is_eq(),
    }
}

/// The best offer of the first key that has a valid one, from an index on. The second result is an
/// index after the offers of that key.
#[inline(never)] // keeps the loop over single offers small
fn next_best<K: Ord + Copy, M: Metric + Copy>(
    offer_store: &OfferStore<K, M>,
    from: usize,
    now: u64,
) -> (Option<Offer<K, M>>, usize)
    ensures found { IfSome result.0 (λ o. bests_of K.cmp M.before now (drop from offer_store.now)
        ≡ item_of o ∷ bests_of K.cmp M.before now (drop result.1 offer_store.now)) }
    ensures none { IfNone result.0 ((bests_of K.cmp M.before now (drop from offer_store.now) ≡ [])
        × (bests_of K.cmp M.before now (drop result.1 offer_store.now) ≡ [])) }
{
    let mut held: Option<&Offer<K, M>> = None;
    let mut at = from;
    let end = offer_store.len();
    while at < end {
        let offer = offer_store.get(at);
        if is_past(held, offer.key) {
            return (held.copied(), at);
        }
        if counts(now, offer.heard) {
            held = Some(better_one(held, offer));
        }
        at += 1;
    }
    (held.copied(), at)
}
