//! Neighbours, and how much each of them advertises.

ghost use Rattle.std.specs.Prelude.{◌≡◌, ◌+◌, ◌^◌, ◌<◌, IfOk};
ghost use Rattle.std.specs.BTreeMap.{get};
ghost use Rattle.std.specs.Option.{unwrap_or};
ghost use Rattle.ipx_tables.specs.Content.{source_cmp};
ghost use Rattle.ipx_table_dump.specs.Advertisers.{AreAdvertisers, nothing_advertised, with_advertisement};

use crate::advertisements::Advertisement;
use ipx_tables::{Source, sources_are_distinct};
use std::alloc::{AllocError, Global};
use std::collections::BTreeMap;

/// What a neighbour advertises: how many networks and services, and when the last of them was
/// heard.
#[derive(Clone, Copy)]
pub struct Advertiser {
    pub networks: usize,
    pub services: usize,
    pub heard: u64,
}

const NOTHING: Advertiser = Advertiser {
    networks: 0,
    services: 0,
    heard: 0,
};

/// The counts of a neighbour after one more advertisement.
fn with_advertisement(before: Advertiser, saying: &Advertisement) -> Advertiser
    requires networks { before.networks + 1 < 2 ^ 64 }
    requires services { before.services + 1 < 2 ^ 64 }
    ensures { result ≡ with_advertisement before saying.now }
{
    let heard = before.heard.max(saying.heard);
    if saying.of_network {
        return Advertiser {
            networks: before.networks + 1,
            heard,
            ..before
        };
    }
    Advertiser {
        services: before.services + 1,
        heard,
        ..before
    }
}

/// The counts of a neighbour so far.
fn counted_before(advertisers: &BTreeMap<Source, Advertiser>, source: Source) -> Advertiser
    ensures { result ≡ unwrap_or (get source_cmp advertisers.now source) nothing_advertised }
{
    advertisers.get(&source).copied().unwrap_or(NOTHING)
}

/// Each neighbour with an advertisement, by port and node, and its counts.
pub fn advertisers_of(
    alloc: Global,
    said: &[Advertisement],
) -> Result<BTreeMap<Source, Advertiser>, AllocError>
    ensures { IfOk result (λ m. AreAdvertisers said.now m.entries) }
{
    sources_are_distinct();
    let mut advertisers = BTreeMap::new(alloc);
    for saying in said {
        let before = counted_before(&advertisers, saying.source);
        advertisers.insert(saying.source, with_advertisement(before, saying))?;
    }
    let _many = advertisers.len();
    Ok(advertisers)
}
