//! How many queries and directed broadcasts a router hears.
//!
//! [`RateLimiter`] is a core over another one. It has [`TokenBuckets`] for those that ask, and
//! [`PortBuckets`] for the ports.
#![tactic(auto)]

mod directed_broadcast;
mod node_buckets;
mod port_buckets;
mod port_limits;
mod querier;
mod query_rate;
mod rate_limiter;
mod token_buckets;

pub use directed_broadcast::{DirectedBroadcast, DirectedDrops, directed_broadcast_in};
pub use port_buckets::PortBuckets;
pub use port_limits::limits_of;
pub use querier::{Querier, QueryDrops, general_query_from};
pub use query_rate::{
    directed_rate_is_bounded, each_hearing_is_limited, each_query_is_limited,
    narrow_rate_is_bounded, node_narrow_rate_is_bounded, port_query_rate_is_bounded,
    query_rate_is_bounded,
};
pub use rate_limiter::RateLimiter;
pub use token_buckets::TokenBuckets;
