//! The lines of networks.

ghost use Rattle.std.specs.Prelude.{◌≡◌, ◌++◌, OnOk, string_bytes};
ghost use Rattle.std.specs.List.{flat_map};
ghost use Rattle.ipx_tables.specs.Listing.{listed_key};
ghost use Rattle.ipx_tables.specs.Route.{network_cmp};
ghost use Rattle.ipx_tables.specs.Sorted.{IsRising};
ghost use Rattle.ipx_table_dump.specs.StillPresent.{is_among_best};
ghost use Rattle.ipx_table_dump.specs.TableText.{network_lines, own_line, own_lines, route_offer_line};

use crate::valid_offers::is_among_best;
use crate::words::{put_head, put_heard, put_network, put_source, seconds_since};
use ipx_router::Port;
use ipx_tables::{Offer, RouteMetric, Source};
use ipx_wire::Network;
use std::alloc::AllocError;

/// A network that a neighbour advertised.
pub type RouteOffer = Offer<Network, RouteMetric>;

fn put_own(text: &mut String, number: usize, port: &Port) -> Result<(), AllocError>
    ensures { OnOk result
        (string_bytes text.new ≡ string_bytes text.old ++ own_line number port.now) }
{
    put_network(text, port.network)?;
    let cost = port.cost;
    write!(text, " own port {number} cost {cost}\n")
}

/// The lines of the networks of ports.
fn put_owns(text: &mut String, ports: &[Port]) -> Result<(), AllocError>
    ensures { OnOk result
        (string_bytes text.new ≡ string_bytes text.old ++ own_lines 1 ports.now) }
{
    let mut number: usize = 1;
    for port in ports {
        put_own(text, number, port)?;
        number += 1;
    }
    Ok(())
}

fn put_route(text: &mut String, best: bool, now: u64, offer: &RouteOffer) -> Result<(), AllocError>
    ensures { OnOk result
        (string_bytes text.new ≡ string_bytes text.old ++ route_offer_line best now offer.now) }
{
    put_network(text, offer.key)?;
    put_source(text, offer.source)?;
    let hops = offer.metric.hops;
    let ticks = offer.metric.ticks;
    write!(text, " hops {hops} ticks {ticks}")?;
    put_heard(text, best, seconds_since(now, offer.heard))
}

/// The lines of networks that neighbours advertised.
fn put_routes(
    text: &mut String,
    bests: &[(Network, Source, RouteMetric)],
    now: u64,
    offers: &[RouteOffer],
) -> Result<(), AllocError>
    requires { IsRising network_cmp listed_key bests.now }
    ensures { OnOk result (string_bytes text.new ≡ string_bytes text.old
        ++ flat_map (λ o. route_offer_line (is_among_best network_cmp bests.now o) now o) offers.now) }
{
    for offer in offers {
        put_route(text, is_among_best(bests, offer), now, offer)?;
    }
    Ok(())
}

/// Appends the section of networks to a text: those of ports, and those that neighbours advertised.
pub fn put_networks(
    text: &mut String,
    ports: &[Port],
    now: u64,
    bests: &[(Network, Source, RouteMetric)],
    offers: &[RouteOffer],
) -> Result<(), AllocError>
    requires { IsRising network_cmp listed_key bests.now }
    ensures { OnOk result (string_bytes text.new
        ≡ string_bytes text.old ++ network_lines ports.now now bests.now offers.now) }
{
    put_head(text, "networks", ports.len() + offers.len())?;
    put_owns(text, ports)?;
    put_routes(text, bests, now, offers)
}
