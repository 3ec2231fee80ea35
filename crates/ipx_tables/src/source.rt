//! The source of an offer.

ghost use Rattle.std.proofs.Common.{rules};
ghost use Rattle.std.specs.Cmp.{partial_order_from_own_ties};
ghost use Rattle.std.specs.Cmp.Lexicographic.{slice_cmp};
ghost use Rattle.std.specs.Cmp.Rules.{comparing};
ghost use Rattle.std.specs.Ordering.{as_partial_cmp, nat_cmp, on, then_cmp};

use crate::by_number::node_order;
use ipx_wire::Node;
use std::cmp::Ordering;

/// The router that made an offer, and the port on which it arrived. Ports are numbered from 1.
#[derive(Clone, Copy, Debug, PartialEq, Eq)]
pub struct Source {
    pub port: u8,
    pub neighbour: Node,
}

impl Ord for Source {
    ghost cmp = { then_cmp (on (λ s. s.port) nat_cmp)
        (on (λ s. s.neighbour.0) (slice_cmp nat_cmp)) };

    ghost total = { Prim.search (comparing, rules) };

    ghost matches_partial_cmp = { Prim.search (comparing, rules) };

    ghost matches_eq = { Prim.search (comparing, rules) };

    fn cmp(&self, other: &Source) -> Ordering {
        match self.port.cmp(&other.port) {
            Ordering::Equal => node_order(&self.neighbour.0, &other.neighbour.0),
            unequal => unequal,
        }
    }
}

impl PartialOrd for Source {
    ghost partial_cmp = { as_partial_cmp (then_cmp (on (λ s. s.port) nat_cmp)
        (on (λ s. s.neighbour.0) (slice_cmp nat_cmp))) };

    ghost laws = { partial_order_from_own_ties
        (Prim.search (comparing, rules)) (Prim.search (comparing, rules)) };

    fn partial_cmp(&self, other: &Source) -> Option<Ordering> {
        Some(self.cmp(other))
    }
}
