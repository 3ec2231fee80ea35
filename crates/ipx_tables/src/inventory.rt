//! An iterator over all offers.

ghost use Rattle.std.specs.Prelude.{◌≡◌};

use crate::offer::Offer;
use crate::offer_store::OfferStore;
use std::marker::Model;

/// All offers of a table, also old ones, by key and then by source. It allocates nothing.
#[derive(Drop)]
pub struct Inventory<'a, K: Ord + Copy, M: Copy> {
    offer_store: &'a OfferStore<K, M>,
    at: usize,
}

impl<'a, K: Ord + Copy, M: Copy> Model for Inventory<'a, K, M> {
    ghost use Rattle.std.specs.Prelude.{List, drop};
    ghost use Rattle.ipx_tables.specs.declared.offer.Offer.{Offer};

    ghost Value = { List (Offer K M) };

    ghost view = { λ i. drop i.at i.offer_store.now };
}

/// All offers of a store.
pub fn offers_on<K: Ord + Copy, M: Copy>(offer_store: &OfferStore<K, M>) -> Inventory<'_, K, M>
    ensures { result ≡ offer_store.now }
{
    Inventory { offer_store, at: 0 }
}

impl<'a, K: Ord + Copy, M: Copy> Iterator for Inventory<'a, K, M> {
    ghost use Rattle.std.specs.Iterator.{YieldsFirst, item_count};

    type Item = Offer<K, M>;

    ghost next_gives = { YieldsFirst (λ items. items) };

    ghost remaining = { item_count (λ items. items) };

    fn next(&mut self) -> Option<Offer<K, M>> {
        if self.at >= self.offer_store.len() {
            return None;
        }
        let offer = *self.offer_store.get(self.at);
        self.at += 1;
        Some(offer)
    }
}
