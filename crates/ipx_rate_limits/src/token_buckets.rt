//! The tokens of the nodes that send queries to a router, and those of its ports.

ghost use Rattle.std.specs.Prelude.{◌≡◌, ◌<◌, ◌↔◌, ◌^◌, true, IsTrue, IfOk};
ghost use Rattle.ipx_rate_limits.specs.PortBuckets.{at_port, directed_has, with_directed_taken};
ghost use Rattle.ipx_rate_limits.specs.TokenBuckets.{HasNarrowToken, HasToken, fresh_buckets, narrow_clock, with_narrow_token_taken, with_token_taken};

use crate::node_buckets::NodeBuckets;
use crate::port_buckets::{
    PortBuckets, has_directed, has_narrow, has_query, narrow_burst, take_directed, take_narrow,
    take_query,
};
use crate::querier::Querier;
use std::alloc::{AllocError, Global};
use std::marker::Model;

/// How many tokens for general queries each node has. One comes back each second.
const OWN_TOKENS: u32 = 8;

/// How many tokens for narrow queries come back to each node in a second.
const NARROW_PER_SECOND: u128 = 2;

/// The nodes that ask with their tokens, and the ports with theirs.
#[derive(Drop)]
pub struct TokenBuckets {
    queriers: NodeBuckets,
    narrow: NodeBuckets,
    ports: Vec<PortBuckets>,
}

impl Model for TokenBuckets {
    ghost use Rattle.ipx_rate_limits.specs.TokenBuckets.{TokenBucketsView};

    ghost Value = { TokenBucketsView };

    ghost view = { λ a. record {
      queriers = a.queriers;
      narrow = a.narrow;
      ports = a.ports.items;
    } };
}

/// The time of the clock of narrow queries.
fn narrow_clock(now: u64) -> u128
    ensures clock { result ≡ narrow_clock now }
    ensures fits { result < 2 ^ 80 }
{
    NARROW_PER_SECOND * u128::from(now)
}

impl TokenBuckets {
    /// Nobody has sent a query at these ports yet.
    pub fn new(alloc: Global, ports: Vec<PortBuckets>) -> Result<TokenBuckets, AllocError>
        ensures { IfOk result (λ a. a ≡ fresh_buckets ports.items) }
    {
        Ok(TokenBuckets {
            queriers: NodeBuckets::new(alloc)?,
            narrow: NodeBuckets::new(alloc)?,
            ports,
        })
    }

    /// The buckets of the ports.
    pub fn ports(&self) -> &[PortBuckets]
        ensures { result.now ≡ self.now.ports }
    {
        &self.ports
    }

    /// Whether a node and its port have a token at `now`, in milliseconds, for a general query, and
    /// the node can be remembered.
    pub fn has_token(&self, querier: Querier, now: u64) -> bool
        ensures { IsTrue result ↔ HasToken self.now querier now }
    {
        self.queriers.may_ask(OWN_TOKENS, querier, u128::from(now))
            && has_query(&self.ports, querier.port, now)
    }

    /// Takes that token of a node, and one of its port. Both must have one at that time.
    pub fn take_token(&mut self, querier: Querier, now: u64)
        requires { HasToken self.old querier now }
        ensures { self.new ≡ with_token_taken self.old querier now }
    {
        self.queriers
            .take_token(OWN_TOKENS, querier, u128::from(now));
        take_query(&mut self.ports, querier.port, now);
    }

    /// Whether a node and its port have a token at `now`, in milliseconds, for a narrow query,
    /// and the node can be remembered.
    pub fn has_narrow_token(&self, querier: Querier, now: u64) -> bool
        ensures { IsTrue result ↔ HasNarrowToken self.now querier now }
    {
        let burst = narrow_burst(&self.ports, querier.port);
        self.narrow.may_ask(burst, querier, narrow_clock(now))
            && has_narrow(&self.ports, querier.port, now)
    }

    /// Takes that token of a node, and one of its port. Both must have one at that time.
    pub fn take_narrow_token(&mut self, querier: Querier, now: u64)
        requires { HasNarrowToken self.old querier now }
        ensures { self.new ≡ with_narrow_token_taken self.old querier now }
    {
        let burst = narrow_burst(&self.ports, querier.port);
        self.narrow.take_token(burst, querier, narrow_clock(now));
        take_narrow(&mut self.ports, querier.port, now);
    }

    /// Whether a directed broadcast may leave by a port at `now`, in milliseconds.
    pub fn has_directed_token(&self, port: usize, now: u64) -> bool
        ensures { result ≡ directed_has (at_port self.now.ports port) now }
    {
        has_directed(&self.ports, port, now)
    }

    /// Takes a token of that port for a directed broadcast. The port must have one at that time, or
    /// need none.
    pub fn take_directed_token(&mut self, port: usize, now: u64)
        requires { directed_has (at_port self.old.ports port) now ≡ true }
        ensures { self.new ≡ record self.old { ports = with_directed_taken self.old.ports port now } }
    {
        take_directed(&mut self.ports, port, now);
    }
}
