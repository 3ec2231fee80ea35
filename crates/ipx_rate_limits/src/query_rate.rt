//! Laws on how many queries and directed broadcasts pass a rate limiter. They do nothing.

ghost use Rattle.ipx_rate_limits.specs.QueryRate.{IsDirectedRateBounded, IsEachHearingLimited, IsEachQueryLimited, IsNarrowRateBounded};
ghost use Rattle.ipx_rate_limits.specs.QueryRate.{IsNodeNarrowRateBounded, IsPortQueryRateBounded, IsQueryRateBounded, Reaches};

use ipx_carrier::Core;
use ipx_control::{bytes_are_one_rip, bytes_are_one_sap};
use ipx_wire::bytes_are_one_packet;

/// The laws below are of cores that the core below a `RateLimiter` is reached by: it hears what comes
/// in, or runs out of memory as it does. This one says that they are of each `hear` of a `RateLimiter`.
pub fn each_hearing_is_limited<C: Core>()
    ensures { IsEachHearingLimited C.hears C.hear_out_of_memory }
{}

/// No query escapes: whatever comes in, the core below gets no general query and no narrow query
/// that did not take its token, of its node and of its port.
pub fn each_query_is_limited<C: Core>()
    ensures { IsEachQueryLimited (Reaches C.hears C.hear_out_of_memory) }
{
    bytes_are_one_packet();
    bytes_are_one_rip();
    bytes_are_one_sap();
}

/// Datagrams come to a `RateLimiter` over a core, at times that do not go back. Between any two
/// times, the core below gets at most eight general queries of one querier, and one more for each
/// second between the two.
pub fn query_rate_is_bounded<C: Core>()
    ensures { IsQueryRateBounded (Reaches C.hears C.hear_out_of_memory) }
{}

/// The same holds for all queriers at a port together, with the limit of the port: its burst, and
/// its rate for each second between the two times.
pub fn port_query_rate_is_bounded<C: Core>()
    ensures { IsPortQueryRateBounded (Reaches C.hears C.hear_out_of_memory) }
{}

/// The same holds for the narrow queries of one node: at most half of what its
/// port may pass at once, and two more for each second.
pub fn node_narrow_rate_is_bounded<C: Core>()
    ensures { IsNodeNarrowRateBounded (Reaches C.hears C.hear_out_of_memory) }
{}

/// The same holds for the narrow queries that come by a port, with its limit of
/// these.
pub fn narrow_rate_is_bounded<C: Core>()
    ensures { IsNarrowRateBounded (Reaches C.hears C.hear_out_of_memory) }
{}

/// The same holds for the directed broadcasts that leave by a port, if they are limited there.
pub fn directed_rate_is_bounded<C: Core>()
    ensures { IsDirectedRateBounded (Reaches C.hears C.hear_out_of_memory) }
{}
