//! A table of routes: two neighbours advertise a network, one withdraws its route, and the other's
//! expires.

use anyhow::Result;
use ipx_tables::{RouteMetric, RouteTable, Source, route_table};
use ipx_wire::{Network, Node};
use std::alloc::Global;

const NETWORK: Network = Network(0x22);

/// A neighbour on port 1, by its node's last byte.
fn neighbour(last: u8) -> Source {
    Source {
        port: 1,
        neighbour: Node([0, 0, 0x7f, 0, 0, last]),
    }
}

/// The metric of the network that a neighbour advertises.
fn metric(ticks: u16, hops: u16) -> RouteMetric {
    RouteMetric { ticks, hops }
}

fn print_best(rt: &impl Print, routes: &RouteTable, now: u64) -> Result<()> {
    let Some((_, metric)) = routes.best(&NETWORK, now) else {
        println!(rt; "table: no route")?;
        return Ok(());
    };
    let ticks = metric.ticks;
    let hops = metric.hops;
    println!(rt; "table: {ticks} ticks, {hops} hops")?;
    Ok(())
}

/// Two neighbours advertise the network, and one withdraws its route.
fn hear(rt: &impl Print, alloc: Global, routes: &mut RouteTable) -> Result<()> {
    routes.hear(alloc, NETWORK, neighbour(3), metric(3, 5), 0)?;
    routes.hear(alloc, NETWORK, neighbour(4), metric(4, 1), 0)?;
    print_best(rt, routes, 0)?;
    routes.hear(alloc, NETWORK, neighbour(3), metric(3, 16), 0)?;
    print_best(rt, routes, 179_999)
}

/// Fewer ticks are the better route, 16 hops withdraw an offer, and after three minutes an offer is
/// expired. Times are milliseconds.
pub fn hear_and_age(rt: &impl Print, alloc: Global) -> Result<()> {
    let mut routes = route_table(alloc);
    hear(rt, alloc, &mut routes)?;
    routes.age(180_000);
    print_best(rt, &routes, 180_000)
}
