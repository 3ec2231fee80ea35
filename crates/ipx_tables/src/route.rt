//! Routes to networks.

ghost use Rattle.std.specs.Prelude.{◌≡◌, ◌+◌, [], min};
ghost use Rattle.ipx_tables.specs.Route.{route_before, route_dead, route_one_more, route_strict};

use crate::metric::Metric;
use crate::offers::Offers;
use ipx_wire::Network;
use std::alloc::Global;

/// The distance to a network: ticks of 1/18 second first, then the number of routers on the way.
#[derive(Clone, Copy, Debug, PartialEq, Eq, PartialOrd, Ord)]
pub struct RouteMetric {
    pub ticks: u16,
    pub hops: u16,
}

impl Metric for RouteMetric {
    ghost before = { route_before };

    ghost dead = { route_dead };

    ghost one_more = { route_one_more };

    ghost strict = { route_strict };

    fn before(&self, other: &RouteMetric) -> bool {
        self.cmp(other).is_lt()
    }

    fn dead(&self) -> bool {
        self.hops >= 16
    }

    fn one_more(&self) -> RouteMetric
        ensures { result ≡ record self.now { hops = min (self.now.hops + 1) 16 } }
    {
        RouteMetric {
            ticks: self.ticks,
            hops: self.hops.saturating_add(1).min(16),
        }
    }
}

/// The learned routes, by network.
pub type RouteTable = Offers<Network, RouteMetric>;

/// The most offers of routes that a router holds.
pub const MAX_ROUTES: usize = 1024;

/// An empty table for `MAX_ROUTES` offers.
pub fn route_table(alloc: Global) -> RouteTable
    ensures capacity { result.capacity ≡ 1024 }
    ensures empty { result.offers ≡ [] }
{
    Offers::new(alloc, MAX_ROUTES)
}
