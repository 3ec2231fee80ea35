//! Laws of tables, which follow from their contracts.

ghost use Rattle.std.specs.Prelude.{◌≡◌, ◌↔◌, ℕ, List, Some, None, length};
ghost use Rattle.ipx_tables.specs.Order.{IsStrictTotal, EqualOnlyIfSame};
ghost use Rattle.ipx_tables.specs.Content.{Content, Table, IsTable, content, source_cmp};
ghost use Rattle.ipx_tables.specs.TableCalls.{Call, after_calls, IsLastWord};
ghost use Rattle.ipx_tables.specs.Best.{IsBest, is_better, rank_cmp};
ghost use Rattle.ipx_tables.specs.Listing.{IsListing};
ghost use Rattle.ipx_tables.specs.Route.{network_cmp, route_before};
ghost use Rattle.ipx_tables.specs.Service.{service_before, service_key_cmp};

use crate::metric::Metric;
use crate::route::RouteMetric;
use crate::service::{ServiceKey, ServiceMetric};
use crate::source::Source;
use ipx_wire::Network;

/// After any accepted calls of a table, it holds an offer exactly if that is the last word of its
/// key and source. The offer was learned last, is not unreachable, and no later `age` found it old.
pub fn last_word_is_held<K: Ord + Copy, M: Metric + Copy>()
    ensures { (calls : List (Call K M)) (p : K × Source) (metric : M) (moment : ℕ)
        → (after_calls K.cmp M.dead (λ q. None) calls p ≡ Some (metric, moment))
        ↔ IsLastWord K.cmp M.dead calls p metric moment }
{}

/// No two sources compare as equal.
pub fn sources_are_distinct()
    ensures { EqualOnlyIfSame source_cmp }
{}

/// Of two different offers of a key, exactly one is better.
pub fn one_is_better<M: Metric + Copy>()
    ensures apart { EqualOnlyIfSame (rank_cmp M.before) }
    ensures strict { IsStrictTotal (is_better M.before) }
{}

/// A key has at most one best offer.
pub fn one_best<K: Ord + Copy, M: Metric + Copy>()
    ensures { (c : Content K M) (key : K) (now : ℕ) (a b : Source × M)
        → IsBest M.before c key now a → IsBest M.before c key now b → a ≡ b }
{}

/// If no two keys compare as equal, a table has one listing.
pub fn one_listing<K: Ord + Copy, M: Metric + Copy>()
    ensures { EqualOnlyIfSame K.cmp
        → (c : Content K M) (now : ℕ) (a b : List (K × Source × M))
        → IsListing K.cmp M.before c now a → IsListing K.cmp M.before c now b → a ≡ b }
{}

/// A table of routes has one listing.
pub fn route_listing_is_one()
    ensures { (c : Content Network RouteMetric) (now : ℕ)
        (a b : List (Network × Source × RouteMetric))
        → IsListing network_cmp route_before c now a
        → IsListing network_cmp route_before c now b
        → a ≡ b }
{
    one_listing::<Network, RouteMetric>();
}

/// A table of services has one listing.
pub fn service_listing_is_one()
    ensures { (c : Content ServiceKey ServiceMetric) (now : ℕ)
        (a b : List (ServiceKey × Source × ServiceMetric))
        → IsListing service_key_cmp service_before c now a
        → IsListing service_key_cmp service_before c now b
        → a ≡ b }
{
    one_listing::<ServiceKey, ServiceMetric>();
}

/// The number of offers of a table follows from what it says.
pub fn content_counts<K: Ord + Copy, M: Metric + Copy>()
    ensures { (a b : Table K M) → IsTable K.cmp a → IsTable K.cmp b
        → ((p : K × Source) → content K.cmp a.offers p ≡ content K.cmp b.offers p)
        → length a.offers ≡ length b.offers }
{}
