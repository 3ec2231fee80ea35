//! The best offer of a key, and the number of offers that are read to find it.

ghost use Rattle.std.specs.Prelude.{◌≡◌, ◌≤◌, ◌<◌, ◌+◌, ◌^◌, ℕ, true, false, None, length, slice_index_or, count_by, option_copied};
ghost use Rattle.std.specs.Ordering.{is_eq, is_lt};
ghost use Rattle.ipx_tables.specs.Best.{rank_cmp};
ghost use Rattle.ipx_tables.specs.OfferScan.{best_from, better_of, is_candidate, offer_beats};

use crate::metric::Metric;
use crate::moments::counts;
use crate::offer::Offer;
use crate::offer_store::OfferStore;
use crate::source::Source;
use std::cmp::Ordering;

/// Compares two offers, the better one first: by metric, then by lower port and lower neighbour.
pub fn rank<M: Metric + Copy>(a: (Source, M), b: (Source, M)) -> Ordering
    ensures { result ≡ rank_cmp M.before a b }
{
    if a.1.before(&b.1) {
        Ordering::Less
    } else if b.1.before(&a.1) {
        Ordering::Greater
    } else {
        a.0.cmp(&b.0)
    }
}

/// Whether the first is better.
pub fn better<K: Copy, M: Metric + Copy>(a: &Offer<K, M>, b: &Offer<K, M>) -> bool
    ensures { result ≡ offer_beats M.before a.now b.now }
{
    rank((a.source, a.metric), (b.source, b.metric)).is_lt()
}

/// The better of an offer and the held one, if there is one. Nothing is copied.
pub fn better_one<'a, K: Copy, M: Metric + Copy>(
    held: Option<&'a Offer<K, M>>,
    offer: &'a Offer<K, M>,
) -> &'a Offer<K, M>
    ensures { result.now ≡ better_of (offer_beats M.before) (option_copied held.entry) offer.now }
{
    match held {
        None => offer,
        Some(held) => {
            if better(offer, held) {
                return offer;
            }
            held
        }
    }
}

/// The first index whose key is not below this one. Each offer that is read halves the range.
fn first_of<K: Ord + Copy, M: Copy>(
    offer_store: &OfferStore<K, M>,
    key: K,
    steps: &mut usize,
) -> usize
    requires { steps.old + 65 < 2 ^ 64 }
    ensures within { result ≤ length offer_store.now }
    ensures below { (j : ℕ) (o : Offer K M) → j < result
        → is_lt (K.cmp (slice_index_or offer_store.now j o).key key) ≡ true }
    ensures above { (j : ℕ) (o : Offer K M) → result ≤ j → j < length offer_store.now
        → is_lt (K.cmp (slice_index_or offer_store.now j o).key key) ≡ false }
    ensures cost { (digits : ℕ) → length offer_store.now < 2 ^ digits → steps.new ≤ steps.old + digits }
{
    let mut low = 0;
    let mut high = offer_store.len();
    while low < high {
        let mid = low + (high - low) / 2;
        let offer = offer_store.read(mid, steps);
        if offer.key.cmp(&key).is_lt() {
            low = mid + 1;
        } else {
            high = mid;
        }
    }
    low
}

/// The best valid offer of a key, and the number of offers that were read.
pub fn best_in<K: Ord + Copy, M: Metric + Copy>(
    offer_store: &OfferStore<K, M>,
    key: K,
    now: u64,
) -> (Option<Offer<K, M>>, usize)
    ensures best { result.0
        ≡ best_from (is_candidate K.cmp key now) (offer_beats M.before) None offer_store.now }
    ensures cost { (digits : ℕ) → length offer_store.now < 2 ^ digits
        → result.1 ≤ count_by (λ o. is_eq (K.cmp o.key key)) offer_store.now + 1 + digits }
    ensures all_read { count_by (λ o. is_eq (K.cmp o.key key)) offer_store.now ≤ result.1 }
{
    let mut steps = 0;
    let mut at = first_of(offer_store, key, &mut steps);
    let mut best: Option<&Offer<K, M>> = None;
    let end = offer_store.len();
    while at < end {
        let offer = offer_store.read(at, &mut steps);
        if !offer.key.cmp(&key).is_eq() {
            return (best.copied(), steps);
        }
        if counts(now, offer.heard) {
            best = Some(better_one(best, offer));
        }
        at += 1;
    }
    (best.copied(), steps)
}
