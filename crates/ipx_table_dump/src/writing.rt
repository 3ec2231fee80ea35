//! What a router knows, as text.

ghost use Rattle.std.specs.Prelude.{◌++◌, IfOk, string_bytes, true, false};
ghost use Rattle.ipx_tables.specs.Content.{content};
ghost use Rattle.ipx_tables.specs.Listing.{IsListing};
ghost use Rattle.ipx_table_dump.specs.Advertisers.{AreAdvertisers, advertisements};
ghost use Rattle.ipx_table_dump.specs.TableText.{IsTables};

use crate::advertisements::add_advertisements;
use crate::advertiser_lines::put_advertisers;
use crate::advertisers::{Advertiser, advertisers_of};
use crate::route_lines::{RouteOffer, put_networks};
use crate::service_lines::{ServiceOffer, put_services};
use crate::valid_offers::offers_at;
use ipx_router::Port;
use ipx_tables::{Metric, Offers, RouteTable, ServiceTable, Source};
use std::alloc::{AllocError, Global};
use std::collections::BTreeMap;

/// The best offer of each key of a table.
fn bests<K: Ord + Copy, M: Metric + Copy>(
    alloc: Global,
    table: &Offers<K, M>,
    now: u64,
) -> Result<Vec<(K, Source, M)>, AllocError>
    ensures { IfOk result
        (λ v. IsListing K.cmp M.before (content K.cmp table.now.offers) now v.items) }
{
    match table.list(alloc, now) {
        Ok(listed) => Ok(listed),
        Err(_) => Err(AllocError),
    }
}

/// The neighbours that advertise networks and services.
pub fn advertisers_in(
    alloc: Global,
    networks: &[RouteOffer],
    services: &[ServiceOffer],
) -> Result<BTreeMap<Source, Advertiser>, AllocError>
    ensures { IfOk result (λ m. AreAdvertisers
        (advertisements true networks.now ++ advertisements false services.now) m.entries) }
{
    let mut said = Vec::new(alloc);
    add_advertisements(&mut said, true, networks)?;
    add_advertisements(&mut said, false, services)?;
    advertisers_of(alloc, &said)
}

/// What a router with these ports and tables knows at `now`, in milliseconds, as text.
pub fn tables_to_text(
    alloc: Global,
    ports: &[Port],
    routes: &RouteTable,
    services: &ServiceTable,
    now: u64,
) -> Result<String, AllocError>
    ensures { IfOk result
        (λ t. IsTables ports.now routes.now services.now now (string_bytes t)) }
{
    let known_routes = offers_at(alloc, routes, now)?;
    let best_routes = bests(alloc, routes, now)?;
    let known_services = offers_at(alloc, services, now)?;
    let best_services = bests(alloc, services, now)?;
    let advertisers = advertisers_in(alloc, &known_routes, &known_services)?;
    let mut text = String::new(alloc);
    put_networks(&mut text, ports, now, &best_routes, &known_routes)?;
    put_services(&mut text, now, &best_services, &known_services)?;
    put_advertisers(&mut text, now, &advertisers)?;
    Ok(text)
}
