//! Removal of expired offers.

ghost use Rattle.std.specs.Prelude.{◌≡◌, ℕ, ◌+◌, ◌^◌, ◌<◌, ◌≤◌, length, IfNone, IfSome, OnSome};
ghost use Rattle.std.specs.List.{filter};
ghost use Rattle.ipx_tables.specs.Content.{is_young};
ghost use Rattle.ipx_tables.specs.Expiry.{NoneOldBefore};

use crate::moments::{counts, expiry};
use crate::offer_store::OfferStore;

/// How many offers are removed one by one, before all other expired ones are removed together.
const FEW: u32 = 16;

/// Removes each expired offer: a few one by one, and all others together. The result is the time
/// until which all others stay valid.
#[inline(never)] // keeps only the comparison inline in callers
pub fn expire<K: Ord + Copy, M: Copy>(offer_store: &mut OfferStore<K, M>, now: u64) -> u64
    ensures young { offer_store.new ≡ filter (λ o. is_young now o.heard) offer_store.old }
    ensures until { NoneOldBefore result offer_store.new }
    ensures no_later { (moment : ℕ) → moment < 2 ^ 64 → NoneOldBefore moment offer_store.new
        → moment ≤ result }
{
    for _ in 0..FEW {
        if let Some(until) = take_old(offer_store, now) {
            return until;
        }
    }
    keep_all_young(offer_store, now)
}

/// Removes one expired offer. If there is none, the result is the time until which all offers stay
/// valid.
fn take_old<K: Ord + Copy, M: Copy>(offer_store: &mut OfferStore<K, M>, now: u64) -> Option<u64>
    ensures same { filter (λ o. is_young now o.heard) offer_store.new
        ≡ filter (λ o. is_young now o.heard) offer_store.old }
    ensures fewer { IfNone result (length offer_store.new + 1 ≡ length offer_store.old) }
    ensures young { OnSome result (offer_store.new ≡ filter (λ o. is_young now o.heard) offer_store.new) }
    ensures until { IfSome result (λ until. NoneOldBefore until offer_store.new) }
    ensures no_later { IfSome result (λ until. (moment : ℕ) → moment < 2 ^ 64
        → NoneOldBefore moment offer_store.new → moment ≤ until) }
{
    let Some((at, moment)) = offer_store.oldest() else {
        return Some(u64::MAX);
    };
    if counts(now, moment) {
        return Some(expiry(moment));
    }
    offer_store.take_out(at);
    None
}

/// Removes all expired offers together. The result is the time until which the others stay valid.
fn keep_all_young<K: Ord + Copy, M: Copy>(offer_store: &mut OfferStore<K, M>, now: u64) -> u64
    ensures young { offer_store.new ≡ filter (λ o. is_young now o.heard) offer_store.old }
    ensures until { NoneOldBefore result offer_store.new }
    ensures no_later { (moment : ℕ) → moment < 2 ^ 64 → NoneOldBefore moment offer_store.new
        → moment ≤ result }
{
    offer_store.expire(now);
    match offer_store.oldest() {
        None => u64::MAX,
        Some((_, moment)) => expiry(moment),
    }
}
