//! The offers of a table that count at a time, and the best of them.

ghost use Rattle.std.specs.Prelude.{◌≡◌, IfOk};
ghost use Rattle.ipx_tables.specs.Content.{content, is_young};
ghost use Rattle.ipx_tables.specs.Listing.{listed_key};
ghost use Rattle.ipx_tables.specs.Sorted.{IsRising};
ghost use Rattle.ipx_table_dump.specs.StillPresent.{ArePresent, is_among_best};

use ipx_tables::{Metric, Offer, Offers, Source};
use std::alloc::{AllocError, Global};

/// How long an offer counts after it was heard, in milliseconds.
const LIFE: u64 = 180_000;

/// Whether an offer that was heard at `heard` counts at `now`.
fn counts(now: u64, heard: u64) -> bool
    ensures { result ≡ is_young now heard }
{
    now.saturating_sub(heard) < LIFE
}

/// Each offer of a table that counts, by key and then by source.
pub fn offers_at<K: Ord + Copy, M: Metric + Copy>(
    alloc: Global,
    table: &Offers<K, M>,
    now: u64,
) -> Result<Vec<Offer<K, M>>, AllocError>
    ensures { IfOk result (λ v. ArePresent K.cmp (content K.cmp table.now.offers) now v.items) }
{
    let mut offers = Vec::new(alloc);
    for offer in table.offers() {
        if counts(now, offer.heard) {
            offers.push(offer)?;
        }
    }
    Ok(offers)
}

/// Whether an offer is one of those that are listed as best.
pub fn is_among_best<K: Ord + Copy, M: Copy>(bests: &[(K, Source, M)], offer: &Offer<K, M>) -> bool
    requires { IsRising K.cmp listed_key bests.now }
    ensures { result ≡ is_among_best K.cmp bests.now offer.now }
{
    match bests.binary_search_by_key(&offer.key, |best| best.0) {
        Ok(at) => bests[at].1.cmp(&offer.source).is_eq(),
        Err(_) => false,
    }
}
