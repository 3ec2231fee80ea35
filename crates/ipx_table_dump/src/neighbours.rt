//! The first neighbours, by port and node.

ghost use Rattle.std.specs.Prelude.{◌≡◌, IfOk, take};
ghost use Rattle.ipx_table_dump.specs.FirstAdvertisers.{AreFirstAdvertisers};

use crate::advertisers::Advertiser;
use crate::valid_offers::offers_at;
use crate::writing::advertisers_in;
use ipx_tables::{RouteTable, ServiceTable, Source};
use std::alloc::{AllocError, Global};
use std::collections::BTreeMap;

/// The most neighbours that are listed.
const MAX: usize = 256;

fn first_of(
    alloc: Global,
    advertisers: &BTreeMap<Source, Advertiser>,
) -> Result<Vec<(Source, Advertiser)>, AllocError>
    ensures { IfOk result (λ v. v.items ≡ take 256 advertisers.now.entries) }
{
    let mut first = Vec::new(alloc);
    for (source, teller) in advertisers {
        if first.len() < MAX {
            first.push((*source, *teller))?;
        }
    }
    Ok(first)
}

/// The first 256 neighbours, by port and node, with offers that count at `now`, in milliseconds,
/// and how many each has.
pub fn first_advertisers(
    alloc: Global,
    routes: &RouteTable,
    services: &ServiceTable,
    now: u64,
) -> Result<Vec<(Source, Advertiser)>, AllocError>
    ensures { IfOk result (λ v. AreFirstAdvertisers routes.now services.now now v.items) }
{
    let known_routes = offers_at(alloc, routes, now)?;
    let known_services = offers_at(alloc, services, now)?;
    let advertisers = advertisers_in(alloc, &known_routes, &known_services)?;
    first_of(alloc, &advertisers)
}
