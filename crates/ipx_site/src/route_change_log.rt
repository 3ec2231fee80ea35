//! Logs the networks and services of others that a router learns and loses.

ghost use Rattle.std.specs.Prelude.{◌≡◌, IfOk, OnErr, OnOk, length, map};
ghost use Rattle.ipx_tables.specs.Content.{content};
ghost use Rattle.ipx_tables.specs.Listing.{IsListing};
ghost use Rattle.ipx_site.specs.KnownNow.{AreNetworksKnown, AreServicesKnown, LeavesKnown};
ghost use Rattle.ipx_site.specs.NewRouters.{HasSeenNothing};

use ipx_config::Escaped;
use ipx_router::Router;
use ipx_sockets::Noun;
use ipx_tables::{Metric, Offers, RouteMetric, ServiceKey, ServiceMetric, Source};
use ipx_wire::{Network, OutOfMemory};
use log::{Log, info};
use std::alloc::Global;

/// The most lines of networks, and of services, that are logged at once; the rest are counted.
const MAX_LINES: usize = 64;

/// The networks and services that were known at the last look.
#[derive(Drop)]
pub struct RouteChangeLog {
    networks: Vec<Network>,
    services: Vec<ServiceKey>,
}

/// A key of a table, a network or a service, as the log reports it learned or lost.
trait Told: Ord + Copy {
    /// What a neighbour advertises for it.
    type Offered: Metric + Copy;

    /// The word for such keys.
    const NOUN: Noun;

    /// Logs that it is known, from this source.
    fn tell_known<R: Log>(&self, rt: &R, source: Source, offered: Self::Offered);

    fn tell_lost<R: Log>(&self, rt: &R);
}

impl Told for Network {
    type Offered = RouteMetric;

    const NOUN: Noun = Noun {
        one: "network",
        many: "networks",
    };

    fn tell_known<R: Log>(&self, rt: &R, source: Source, offered: RouteMetric) {
        let network = *self;
        let port = source.port;
        let node = source.neighbour;
        let hops = offered.hops;
        let ticks = offered.ticks;
        info!(rt; target: "ipx",
            "route added: network {network} via port {port} node {node} hops {hops} ticks {ticks}");
    }

    fn tell_lost<R: Log>(&self, rt: &R) {
        let network = *self;
        info!(rt; target: "ipx", "route lost: network {network}");
    }
}

impl Told for ServiceKey {
    type Offered = ServiceMetric;

    const NOUN: Noun = Noun {
        one: "service",
        many: "services",
    };

    fn tell_known<R: Log>(&self, rt: &R, source: Source, offered: ServiceMetric) {
        let kind = self.kind;
        let name = Escaped(&self.name);
        let network = offered.at.network;
        let node = offered.at.node;
        let socket = offered.at.socket;
        let port = source.port;
        let hops = offered.hops;
        info!(rt; target: "ipx",
            "service added: {kind:04x} {name} at {network} {node} {socket} via port {port} hops {hops}");
    }

    fn tell_lost<R: Log>(&self, rt: &R) {
        let kind = self.kind;
        let name = Escaped(&self.name);
        info!(rt; target: "ipx", "service lost: {kind:04x} {name}");
    }
}

/// Logs how many more there were than are logged at once.
fn tell_rest<R: Log>(rt: &R, noun: Noun, what: &str, count: usize) {
    if count > MAX_LINES {
        let rest = count - MAX_LINES;
        let noun = noun.of(rest as u64);
        info!(rt; target: "ipx", "{rest} more {noun} {what}");
    }
}

/// Logs the keys that were not known before.
fn tell_new<R: Log, K: Told>(rt: &R, known: &[K], held: &[(K, Source, K::Offered)]) {
    let mut count: usize = 0;
    for item in held {
        if known.binary_search(&item.0).is_err() {
            if count < MAX_LINES {
                item.0.tell_known(rt, item.1, item.2);
            }
            count = count.saturating_add(1);
        }
    }
    tell_rest(rt, K::NOUN, "added", count);
}

/// Logs the keys that are no longer known.
fn tell_gone<R: Log, K: Told>(rt: &R, known: &[K], held: &[(K, Source, K::Offered)]) {
    let mut count: usize = 0;
    for key in known {
        if held.binary_search_by(|item| item.0.cmp(key)).is_err() {
            if count < MAX_LINES {
                key.tell_lost(rt);
            }
            count = count.saturating_add(1);
        }
    }
    tell_rest(rt, K::NOUN, "lost", count);
}

/// The keys of a table that have a valid offer now, each with its best one.
fn held_in<K: Ord + Copy, M: Metric + Copy>(
    alloc: Global,
    table: &Offers<K, M>,
    now: u64,
) -> Result<Vec<(K, Source, M)>, OutOfMemory>
    ensures { IfOk result
        (λ v. IsListing K.cmp M.before (content K.cmp table.now.offers) now v.items) }
{
    match table.list(alloc, now) {
        Ok(held) => Ok(held),
        Err(_) => Err(OutOfMemory),
    }
}

/// The key of one of these.
fn key_in<K: Copy, M: Copy>(item: &(K, Source, M)) -> K
    ensures { result ≡ item.now.0 }
{
    item.0
}

/// The keys of these, in order.
fn keys_of<K: Copy, M: Copy>(alloc: Global, held: &[(K, Source, M)]) -> Result<Vec<K>, OutOfMemory>
    ensures { IfOk result (λ v. v.items ≡ map (λ item. item.0) held.now) }
{
    let keys = held
        .iter()
        .map(|item| key_in(item))
        .collect::<Vec<K>>(alloc)?;
    Ok(keys)
}

/// The networks that a router knows now, in order. It logs those that are new and those that are
/// gone.
fn look_at_networks<R: Log>(
    rt: &R,
    alloc: Global,
    known: &[Network],
    router: &Router,
    now: u64,
) -> Result<Vec<Network>, OutOfMemory>
    ensures { IfOk result (λ v. AreNetworksKnown router.now now v.items) }
{
    let held = held_in(alloc, router.routes(), now)?;
    let networks = keys_of(alloc, &held)?;
    tell_new(rt, known, &held);
    tell_gone(rt, known, &held);
    Ok(networks)
}

/// The services that a router knows now, in order. It logs those that are new and those that are
/// gone.
fn look_at_services<R: Log>(
    rt: &R,
    alloc: Global,
    known: &[ServiceKey],
    router: &Router,
    now: u64,
) -> Result<Vec<ServiceKey>, OutOfMemory>
    ensures { IfOk result (λ v. AreServicesKnown router.now now v.items) }
{
    let held = held_in(alloc, router.services(), now)?;
    let services = keys_of(alloc, &held)?;
    tell_new(rt, known, &held);
    tell_gone(rt, known, &held);
    Ok(services)
}

impl RouteChangeLog {
    /// Nothing is known yet.
    pub fn new(alloc: Global) -> RouteChangeLog
        ensures { HasSeenNothing result }
    {
        RouteChangeLog {
            networks: Vec::new(alloc),
            services: Vec::new(alloc),
        }
    }

    /// How many networks of others were known at the last look.
    pub fn networks(&self) -> usize
        ensures { result ≡ length self.now.networks.items }
    {
        self.networks.len()
    }

    /// How many services were known at the last look.
    pub fn services(&self) -> usize
        ensures { result ≡ length self.now.services.items }
    {
        self.services.len()
    }

    /// Looks at what a router knows now, and logs a line for each network and service that is new
    /// or lost since the last look.
    pub fn look<R: Log>(
        &mut self,
        rt: &R,
        alloc: Global,
        router: &Router,
        now: u64,
    ) -> Result<(), OutOfMemory>
        ensures networks { OnOk result (AreNetworksKnown router.now now self.new.networks.items) }
        ensures services { OnOk result (AreServicesKnown router.now now self.new.services.items) }
        // If out of memory, the services stay, so that what is new or lost is logged later. The
        // networks stay, or are those known now.
        ensures refused { OnErr result (LeavesKnown router.now now self.old self.new) }
    {
        self.networks = look_at_networks(rt, alloc, &self.networks, router, now)?;
        self.services = look_at_services(rt, alloc, &self.services, router, now)?;
        Ok(())
    }
}
