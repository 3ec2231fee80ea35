//! A core that limits general queries, narrow queries and directed broadcasts.

ghost use Rattle.std.specs.Prelude.{◌≡◌, ◌<◌, IfOk, OnErr, OnOk};
ghost use Rattle.ipx_rate_limits.specs.DirectedBroadcasts.{IsDirectedBroadcast, no_directed_drops};
ghost use Rattle.ipx_rate_limits.specs.RateLimiter.{HearsBroadcast, HearsNarrow, HearsQuery, IsGeneralQuery, IsNarrowQuery, HearOutOfMemoryBelow, no_query_drops};
ghost use Rattle.ipx_rate_limits.specs.TokenBuckets.{fresh_buckets};

use crate::directed_broadcast::{DirectedBroadcast, DirectedDrops, directed_broadcast_in};
use crate::port_buckets::PortBuckets;
use crate::querier::{Querier, QueryDrops, general_query_from, narrow_query_from};
use crate::token_buckets::TokenBuckets;
use ipx_carrier::Core;
use ipx_router::Port;
use ipx_static::RestartDiscovery;
use ipx_wire::{Node, OutOfMemory};
use std::alloc::{AllocError, Global};
use std::marker::Model;

/// A core over another one. It drops and counts general queries of nodes that ask too often, and
/// narrow queries and directed broadcasts over a limit. A general query is a RIP request for all
/// networks, or a SAP query for all services or all of a type. A narrow query is a SAP query for
/// the nearest service of a type, or a RIP request that names its networks. All else goes to the core
/// below as it comes.
///
/// A querier is a node at a port. For general queries it has 8 tokens, of which one comes back each
/// second. For narrow queries it has half as many as its port, of which two come back each second.
/// All queriers at a port also share the tokens of the port. A query takes a token of both, or of
/// neither, also if the core below runs out of memory for it, since that has worked then. Of each
/// kind, at most 1,024 queriers with missing tokens are remembered. If there are
/// that many, a new querier has no token. A directed broadcast takes a token of the port by which it
/// leaves.
pub struct RateLimiter<C: Core + Drop> {
    core: C,
    ports: Vec<Port>,
    buckets: TokenBuckets,
    kept: QueryDrops,
    directed: DirectedDrops,
}

impl<C: Core + Drop> Drop for RateLimiter<C> {
    fn drop(self) {
        let RateLimiter {
            core: _,
            ports: _,
            buckets: _,
            kept: _,
            directed: _,
        } = self;
    }
}

impl<C: Core + Drop> Model for RateLimiter<C> {
    ghost use Rattle.ipx_rate_limits.specs.RateLimiter.{RateLimiterView};

    ghost Value = { RateLimiterView C };

    ghost view = { λ s. record {
      core = s.core;
      ports = s.ports.items;
      buckets = s.buckets;
      kept = s.kept;
      directed = s.directed;
    } };
}

impl<C: Core + Drop> RateLimiter<C> {
    /// A rate limiter over this core, for a router with these ports and their limits. No query has
    /// come yet.
    pub fn new(
        alloc: Global,
        core: C,
        ports: Vec<Port>,
        limits: Vec<PortBuckets>,
    ) -> Result<RateLimiter<C>, AllocError>
        ensures core { IfOk result (λ s. s.core ≡ core) }
        ensures ports { IfOk result (λ s. s.ports ≡ ports.items) }
        ensures fresh { IfOk result (λ s. (s.buckets ≡ fresh_buckets limits.items)
            × (s.kept ≡ no_query_drops) × (s.directed ≡ no_directed_drops)) }
    {
        let buckets = TokenBuckets::new(alloc, limits)?;
        Ok(RateLimiter {
            core,
            ports,
            buckets,
            kept: QueryDrops::none(),
            directed: DirectedDrops::none(),
        })
    }

    /// The core below, for inspection between two runs.
    pub fn core(&self) -> &C
        ensures { result.now ≡ self.now.core }
    {
        &self.core
    }

    /// The number of dropped queries, and who sent the last one.
    pub fn kept(&self) -> QueryDrops
        ensures { result ≡ self.now.kept }
    {
        self.kept
    }

    /// The number of dropped directed broadcasts, and the sender of the last one.
    pub fn directed(&self) -> DirectedDrops
        ensures { result ≡ self.now.directed }
    {
        self.directed
    }

    /// Passes on a general query that came by a port, or drops it.
    fn hear_query(
        &mut self,
        alloc: Global,
        port: usize,
        querier: Querier,
        bytes: &[u8],
        now: u64,
    ) -> Result<(), OutOfMemory>
        requires there { port < C.port_count self.old.core }
        requires asks { IsGeneralQuery self.old.ports port bytes.now querier }
        ensures heard { OnOk result (HearsQuery C.hears self.old port bytes.now now self.new) }
        ensures refused { OnErr result
            (HearOutOfMemoryBelow C.hear_out_of_memory self.old port bytes.now now self.new) }
        ensures count { C.port_count self.new.core ≡ C.port_count self.old.core }
    {
        if !self.buckets.has_token(querier, now) {
            QueryDrops::saturating_increment(&mut self.kept, querier);
            return Ok(());
        }
        let heard = self.core.hear(alloc, port, bytes, now);
        self.buckets.take_token(querier, now);
        heard
    }

    /// Passes on a narrow query that came by a port, or drops it.
    fn hear_narrow(
        &mut self,
        alloc: Global,
        port: usize,
        querier: Querier,
        bytes: &[u8],
        now: u64,
    ) -> Result<(), OutOfMemory>
        requires there { port < C.port_count self.old.core }
        requires asks { IsNarrowQuery self.old.ports port bytes.now querier }
        ensures heard { OnOk result (HearsNarrow C.hears self.old port bytes.now now self.new) }
        ensures refused { OnErr result
            (HearOutOfMemoryBelow C.hear_out_of_memory self.old port bytes.now now self.new) }
        ensures count { C.port_count self.new.core ≡ C.port_count self.old.core }
    {
        if !self.buckets.has_narrow_token(querier, now) {
            QueryDrops::saturating_increment(&mut self.kept, querier);
            return Ok(());
        }
        let heard = self.core.hear(alloc, port, bytes, now);
        self.buckets.take_narrow_token(querier, now);
        heard
    }

    /// Passes on a directed broadcast that came by a port, or drops it.
    fn hear_directed(
        &mut self,
        alloc: Global,
        port: usize,
        broadcast: DirectedBroadcast,
        bytes: &[u8],
        now: u64,
    ) -> Result<(), OutOfMemory>
        requires there { port < C.port_count self.old.core }
        requires directed { IsDirectedBroadcast self.old.ports self.old.buckets.ports port bytes.now
            broadcast }
        ensures heard { OnOk result (HearsBroadcast C.hears self.old port bytes.now now self.new) }
        ensures refused { OnErr result
            (HearOutOfMemoryBelow C.hear_out_of_memory self.old port bytes.now now self.new) }
        ensures count { C.port_count self.new.core ≡ C.port_count self.old.core }
    {
        if !self.buckets.has_directed_token(broadcast.leaves_by, now) {
            self.directed.saturating_increment(broadcast.from);
            return Ok(());
        }
        let heard = self.core.hear(alloc, port, bytes, now);
        self.buckets.take_directed_token(broadcast.leaves_by, now);
        heard
    }
}

impl<C: RestartDiscovery + Drop> RestartDiscovery for RateLimiter<C> {
    ghost use Rattle.ipx_rate_limits.specs.RateLimiter.{asking_below};

    ghost asking_again = { asking_below C.asking_again };

    fn restart_discovery(&mut self) {
        self.core.restart_discovery();
    }
}

impl<C: Core + Drop> Core for RateLimiter<C> {
    ghost use Rattle.ipx_rate_limits.specs.RateLimiter.{GivesBelow, HearsRateLimited, HearOutOfMemoryBelow, NextOutOfMemoryBelow};

    ghost port_count = { λ s. C.port_count s.core };

    ghost hears = { HearsRateLimited C.hears };

    ghost gives = { GivesBelow C.gives };

    ghost hear_out_of_memory = { HearOutOfMemoryBelow C.hear_out_of_memory };

    ghost next_out_of_memory = { NextOutOfMemoryBelow C.next_out_of_memory };

    fn ports(&self) -> usize {
        self.core.ports()
    }

    fn hear(
        &mut self,
        alloc: Global,
        port: usize,
        bytes: &[u8],
        now: u64,
    ) -> Result<(), OutOfMemory> {
        if let Some(querier) = general_query_from(&self.ports, port, bytes) {
            return self.hear_query(alloc, port, querier, bytes, now);
        }
        if let Some(querier) = narrow_query_from(&self.ports, port, bytes) {
            return self.hear_narrow(alloc, port, querier, bytes, now);
        }
        if let Some(broadcast) = directed_broadcast_in(
            &self.ports,
            self.buckets.ports(),
            port,
            bytes,
        ) {
            return self.hear_directed(alloc, port, broadcast, bytes, now);
        }
        self.core.hear(alloc, port, bytes, now)
    }

    fn next(
        &mut self,
        alloc: Global,
        now: u64,
        room: &mut [u8],
    ) -> Result<Option<(usize, Node, usize)>, OutOfMemory> {
        self.core.next(alloc, now, room)
    }
}
