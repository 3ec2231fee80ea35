//! Services and their addresses.

ghost use Rattle.std.specs.Prelude.{◌≡◌, ◌+◌, [], min};
ghost use Rattle.std.proofs.Common.{rules};
ghost use Rattle.std.specs.Cmp.{partial_order_from_own_ties};
ghost use Rattle.std.specs.Cmp.Lexicographic.{slice_cmp};
ghost use Rattle.std.specs.Cmp.Rules.{comparing};
ghost use Rattle.std.specs.Ordering.{as_partial_cmp, nat_cmp, on, then_cmp};
ghost use Rattle.ipx_tables.specs.Service.{service_before, service_dead, service_one_more, service_strict};

use crate::by_number::name_order;
use crate::metric::Metric;
use crate::offers::Offers;
use ipx_wire::Address;
use std::alloc::Global;
use std::cmp::Ordering;

/// The name of a service: its type, and all 48 bytes of its name.
#[derive(Clone, Copy, Debug, PartialEq, Eq)]
pub struct ServiceKey {
    pub kind: u16,
    pub name: [u8; 48],
}

impl Ord for ServiceKey {
    ghost cmp = { then_cmp (on (λ k. k.kind) nat_cmp) (on (λ k. k.name) (slice_cmp nat_cmp)) };

    ghost total = { Prim.search (comparing, rules) };

    ghost matches_partial_cmp = { Prim.search (comparing, rules) };

    ghost matches_eq = { Prim.search (comparing, rules) };

    fn cmp(&self, other: &ServiceKey) -> Ordering {
        match self.kind.cmp(&other.kind) {
            Ordering::Equal => name_order(&self.name, &other.name),
            unequal => unequal,
        }
    }
}

impl PartialOrd for ServiceKey {
    ghost partial_cmp = { as_partial_cmp
        (then_cmp (on (λ k. k.kind) nat_cmp) (on (λ k. k.name) (slice_cmp nat_cmp))) };

    ghost laws = { partial_order_from_own_ties
        (Prim.search (comparing, rules)) (Prim.search (comparing, rules)) };

    fn partial_cmp(&self, other: &ServiceKey) -> Option<Ordering> {
        Some(self.cmp(other))
    }
}

/// The distance to a service, and its address.
#[derive(Clone, Copy, Debug, PartialEq, Eq, PartialOrd, Ord)]
pub struct ServiceMetric {
    pub hops: u16,
    pub at: Address,
}

impl Metric for ServiceMetric {
    ghost before = { service_before };

    ghost dead = { service_dead };

    ghost one_more = { service_one_more };

    ghost strict = { service_strict };

    fn before(&self, other: &ServiceMetric) -> bool {
        self.cmp(other).is_lt()
    }

    fn dead(&self) -> bool {
        self.hops >= 16
    }

    fn one_more(&self) -> ServiceMetric
        ensures { result ≡ record self.now { hops = min (self.now.hops + 1) 16 } }
    {
        ServiceMetric {
            hops: self.hops.saturating_add(1).min(16),
            at: self.at,
        }
    }
}

/// The learned services, by type and name.
pub type ServiceTable = Offers<ServiceKey, ServiceMetric>;

/// The most offers of services that a router holds.
pub const MAX_SERVICES: usize = 4096;

/// An empty table for `MAX_SERVICES` offers.
pub fn service_table(alloc: Global) -> ServiceTable
    ensures capacity { result.capacity ≡ 4096 }
    ensures empty { result.offers ≡ [] }
{
    Offers::new(alloc, MAX_SERVICES)
}
