//! The router.

ghost use Rattle.std.specs.Prelude.{◌≡◌, ◌≤◌, [], length, true, All, IfOk, IfErr, OnOk, OnErr, Some, None};
ghost use Rattle.ipx_router.specs.NewRouter.{IsOwnNetwork, ports_fault};
ghost use Rattle.ipx_router.specs.Knowledge.{AreTables, HoldsKnown, KeepsAllButOffers, known_at, tables};
ghost use Rattle.ipx_router.specs.RouterPackets.{AreOwn, sendings};
ghost use Rattle.ipx_router.specs.Ports.{AreOnPorts, IsPort};
ghost use Rattle.ipx_router.specs.OutcomeView.{IsOnPort, replies_of, router_outcome};
ghost use Rattle.ipx_router.specs.InPlaceView.{ChangesOnlyPacket, outcome_in};
ghost use Rattle.ipx_router.specs.Answer.{Receives};
ghost use Rattle.ipx_router.specs.OutOfMemoryCases.{RunsOutOfMemory, RunsOutOfMemoryInPlace};
ghost use Rattle.ipx_router.specs.Forwarded.{ForwardsOneHopOn};
ghost use Rattle.ipx_router.specs.Starting.{AreStarts};
ghost use Rattle.ipx_router.specs.Advertisements.{HasToTell, IsNextAdvertisement, TellsIfDue, is_due};

use crate::advertising::{next_time, tell_at};
use crate::answering::receive_at;
use crate::fault::NewFault;
use crate::in_place::receive_in_place_at;
use crate::networks::duplicate_network;
use crate::outcome::{InPlace, Outcome, Reply};
use crate::port::{Port, PortNow};
use crate::starting::ask_all;
use ipx_tables::{RouteTable, ServiceTable, route_table, service_table};
use ipx_wire::OutOfMemory;
use std::alloc::Global;
use std::marker::Model;

/// A router: its ports, numbered from 1, and what it learned from its neighbours.
#[derive(Drop)]
pub struct Router {
    ports: Vec<Port>,
    routes: RouteTable,
    services: ServiceTable,
    advertised_at: Option<u64>,
}

impl Model for Router {
    ghost use Rattle.ipx_router.specs.RouterView.{RouterView};
    ghost use Rattle.ipx_router.specs.Ports.{IsSound};

    ghost Value = { RouterView };

    ghost view = { λ r. record {
      ports = r.ports.items;
      routes = r.routes;
      services = r.services;
      advertised_at = r.advertised_at;
    } };

    ghost invariant = { λ r. IsSound r.ports.items (r.routes, r.services) };
}

impl Router {
    /// Makes a router of these ports. They are numbered from 1 in their order. It has learned
    /// nothing yet.
    ///
    /// The caller must pass networks other than 0, which means the local network, and FFFFFFFF, which
    /// means all networks. Any other fault of the ports is returned as `NewFault`.
    pub fn new(alloc: Global, ports: Vec<Port>) -> Result<Router, NewFault>
        requires { All IsOwnNetwork ports.items }
        ensures ports { IfOk result (λ r. r.ports ≡ ports.items) }
        ensures knows_nothing { IfOk result (λ r.
            (r.routes.offers ≡ []) × (r.services.offers ≡ []) × (r.advertised_at ≡ None)) }
        ensures room { IfOk result (λ r. (r.routes.capacity ≡ 1024) × (r.services.capacity ≡ 4096)) }
        ensures valid { IfOk result (λ r. AreTables (tables r)) }
        ensures networks { IfOk result (λ r. All IsOwnNetwork r.ports) }
        ensures sound { OnOk result (ports_fault ports.items ≡ None) }
        ensures fault { IfErr result (λ f. ports_fault ports.items ≡ Some f) }
    {
        if ports.is_empty() {
            return Err(NewFault::NoPorts);
        }
        if ports.len() > 16 {
            return Err(NewFault::TooManyPorts(ports.len()));
        }
        if let Some(network) = duplicate_network(&ports) {
            return Err(NewFault::TwinNetwork(network));
        }
        Ok(Router {
            ports,
            routes: route_table(alloc),
            services: service_table(alloc),
            advertised_at: None,
        })
    }

    /// Its ports, 1 to 16. The first is port 1. Check their number before you pass a port to
    /// `receive`.
    pub fn ports(&self) -> &[Port]
        ensures ports { result.now ≡ self.now.ports }
        ensures count { (1 ≤ length self.now.ports) × (length self.now.ports ≤ 16) }
        ensures valid { AreTables (tables self.now) }
        ensures networks { All IsOwnNetwork self.now.ports }
    {
        self.ports.as_slice()
    }

    fn port_of(&self, number: u8) -> Port
        requires first { 1 ≤ number }
        requires last { number ≤ length self.now.ports }
        ensures { IsPort self.now.ports number result }
    {
        self.ports[number as usize - 1]
    }

    /// Handles bytes that came in on a port. Call it for each datagram, as soon as it arrives.
    ///
    /// `port` is the number of one of the router's ports, which the caller must pass. `now` is a time in
    /// milliseconds. Offers that are three minutes old are removed first, and stay removed whatever
    /// the answer is. If memory runs out, the entries before that were learned, and the others were
    /// not.
    pub fn receive(
        &mut self,
        alloc: Global,
        port: u8,
        bytes: &[u8],
        now: u64,
    ) -> Result<Outcome, OutOfMemory>
        requires first { 1 ≤ port }
        requires last { port ≤ length self.old.ports }
        ensures answer { IfOk result (λ o. Receives self.old port bytes.now now (router_outcome o) self.new) }
        ensures refused { OnErr result (RunsOutOfMemory self.old port bytes.now now self.new) }
        ensures one_hop_on { IfOk result (λ o. ForwardsOneHopOn self.old port bytes.now (router_outcome o)) }
        ensures there { IfOk result (λ o. IsOnPort (length self.old.ports) (router_outcome o)) }
        // No packet that the router makes itself is an SPX packet.
        ensures own { IfOk result (λ o. AreOwn (replies_of (router_outcome o))) }
        ensures rest { KeepsAllButOffers self.old self.new }
        ensures valid { AreTables (tables self.new) }
        ensures networks { All IsOwnNetwork self.new.ports }
        ensures told { self.new.advertised_at ≡ self.old.advertised_at }
    {
        let at = PortNow {
            number: port,
            port: self.port_of(port),
            now,
        };
        receive_at(
            alloc,
            &self.ports,
            &mut self.routes,
            &mut self.services,
            at,
            bytes,
        )
    }

    /// The same, in a buffer that the router may change. A packet to forward is changed in place,
    /// and that allocates nothing. It suits a caller that has one buffer for all datagrams.
    ///
    /// Bytes after that packet do not change. If no packet is forwarded, or memory runs out, no
    /// byte changes.
    pub fn receive_in_place(
        &mut self,
        alloc: Global,
        port: u8,
        bytes: &mut [u8],
        now: u64,
    ) -> Result<InPlace, OutOfMemory>
        requires first { 1 ≤ port }
        requires last { port ≤ length self.old.ports }
        ensures answer { IfOk result (λ o.
            Receives self.old port bytes.old now (outcome_in bytes.new o) self.new) }
        ensures refused { OnErr result (RunsOutOfMemoryInPlace self.old port bytes.old now self.new) }
        ensures one_hop_on { IfOk result (λ o.
            ForwardsOneHopOn self.old port bytes.old (outcome_in bytes.new o)) }
        ensures there { IfOk result (λ o. IsOnPort (length self.old.ports) (outcome_in bytes.new o)) }
        ensures own { IfOk result (λ o. AreOwn (replies_of (outcome_in bytes.new o))) }
        ensures changes { IfOk result (ChangesOnlyPacket bytes.old bytes.new) }
        ensures stays { OnErr result (bytes.new ≡ bytes.old) }
        ensures rest { KeepsAllButOffers self.old self.new }
        ensures valid { AreTables (tables self.new) }
        ensures networks { All IsOwnNetwork self.new.ports }
        ensures told { self.new.advertised_at ≡ self.old.advertised_at }
    {
        let at = PortNow {
            number: port,
            port: self.port_of(port),
            now,
        };
        receive_in_place_at(
            alloc,
            &self.ports,
            &mut self.routes,
            &mut self.services,
            at,
            bytes,
        )
    }

    /// The packets by which the router asks its neighbours for all routes and services. Call it
    /// once, at the start.
    pub fn start(&self, alloc: Global) -> Result<Vec<Reply>, OutOfMemory>
        ensures asks { IfOk result (λ v. AreStarts 1 self.now.ports (sendings v.items)) }
        ensures there { IfOk result (λ v. AreOnPorts (length self.now.ports) (sendings v.items)) }
        ensures own { IfOk result (λ v. AreOwn (sendings v.items)) }
    {
        ask_all(alloc, &self.ports)
    }

    /// The packets that advertise routes and services to the neighbours, if an advertisement is
    /// due. The first is due at once, and the next 60,000 milliseconds after the last. Call it
    /// regularly. `now` is a time in milliseconds.
    ///
    /// Offers that are three minutes old are removed first, and stay removed whatever the answer
    /// is. It allocates only if an advertisement is due and there is something to advertise. If
    /// memory runs out, the advertisement is still due.
    pub fn tell(&mut self, alloc: Global, now: u64) -> Result<Vec<Reply>, OutOfMemory>
        ensures tells { IfOk result (λ v.
            TellsIfDue (known_at self.old now) self.old.advertised_at now (sendings v.items) self.new.advertised_at) }
        ensures refused { OnErr result ((is_due self.old.advertised_at now ≡ true)
            × HasToTell (known_at self.old now) now × (self.new.advertised_at ≡ self.old.advertised_at)) }
        ensures known { HoldsKnown (known_at self.old now) (tables self.new) }
        ensures there { IfOk result (λ v. AreOnPorts (length self.old.ports) (sendings v.items)) }
        ensures own { IfOk result (λ v. AreOwn (sendings v.items)) }
        ensures rest { KeepsAllButOffers self.old self.new }
        ensures valid { AreTables (tables self.new) }
        ensures networks { All IsOwnNetwork self.new.ports }
    {
        tell_at(
            alloc,
            &self.ports,
            &mut self.routes,
            &mut self.services,
            &mut self.advertised_at,
            now,
        )
    }

    /// The learned routes. The table may still hold old offers. They are not used: queries of the
    /// table that take a time leave them out.
    pub fn routes(&self) -> &RouteTable
        ensures { result.now ≡ self.now.routes }
    {
        &self.routes
    }

    /// The learned services, with old offers in the same way.
    pub fn services(&self) -> &ServiceTable
        ensures { result.now ≡ self.now.services }
    {
        &self.services
    }

    /// The time in milliseconds at which the next advertisement is due. Before that, `tell` gives
    /// nothing. `None` means that the time would not fit into 64 bits.
    ///
    /// A caller that waits for datagrams wakes at this time, and calls `tell`.
    pub fn next_advertisement(&self) -> Option<u64>
        ensures { IsNextAdvertisement self.now.advertised_at result }
    {
        next_time(self.advertised_at)
    }
}
