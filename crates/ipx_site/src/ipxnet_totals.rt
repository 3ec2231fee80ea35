//! Totals over the servers of a router's ports for ipxnet.

ghost use Rattle.std.specs.Prelude.{◌≡◌};
ghost use Rattle.ipx_site.specs.IpxnetTotals.{IsLastFlood, busy_in, client_count_in, flood_from, full_in, full_of_address_in, later_flood, rate_limited_in};

use ipxnet_server::{IpxnetServer, LimitedFlood};
use std::net::SocketAddrV4;

/// The number of clients. Saturates at the greatest u64.
pub fn client_count(servers: &[IpxnetServer]) -> u64
    ensures { result ≡ client_count_in servers.now }
{
    let mut total: u64 = 0;
    for server in servers {
        total = total.saturating_add(server.clients().len() as u64);
    }
    total
}

/// The number of datagrams of new players that were dropped because all places of their port were
/// taken. Saturates at the greatest u64.
pub fn full(servers: &[IpxnetServer]) -> u64
    ensures { result ≡ full_in servers.now }
{
    let mut total: u64 = 0;
    for server in servers {
        total = total.saturating_add(server.counts().full);
    }
    total
}

/// The number of those that were dropped because all places of their IP address were taken.
/// Saturates at the greatest u64.
pub fn full_of_address(servers: &[IpxnetServer]) -> u64
    ensures { result ≡ full_of_address_in servers.now }
{
    let mut total: u64 = 0;
    for server in servers {
        total = total.saturating_add(server.counts().full_of_address);
    }
    total
}

/// The number of broadcasts of players that were dropped because their player had sent too many.
/// Saturates at the greatest u64.
pub fn rate_limited(servers: &[IpxnetServer]) -> u64
    ensures { result ≡ rate_limited_in servers.now }
{
    let mut total: u64 = 0;
    for server in servers {
        total = total.saturating_add(server.counts().rate_limited);
    }
    total
}

/// The number of broadcasts that were dropped because their port had sent too many copies.
/// Saturates at the greatest u64.
pub fn busy(servers: &[IpxnetServer]) -> u64
    ensures { result ≡ busy_in servers.now }
{
    let mut total: u64 = 0;
    for server in servers {
        total = total.saturating_add(server.counts().busy);
    }
    total
}

/// The last broadcast that was dropped because its player had sent too many.
pub fn last_limited(servers: &[IpxnetServer]) -> Option<LimitedFlood>
    ensures { IsLastFlood servers.now result }
{
    let mut last: Option<LimitedFlood> = None;
    for server in servers {
        last = later(last, server.last_limited());
    }
    last
}

/// The IP address and UDP port of the player of a flood, if there was one.
pub fn flood_from(flood: Option<LimitedFlood>) -> Option<SocketAddrV4>
    ensures { result ≡ flood_from flood }
{
    match flood {
        Some(flood) => Some(flood.from),
        None => None,
    }
}

/// The later of two, if there is any; the second one if they are of one time.
fn later(a: Option<LimitedFlood>, b: Option<LimitedFlood>) -> Option<LimitedFlood>
    ensures { result ≡ later_flood a b }
{
    match (a, b) {
        (Some(a), Some(b)) => Some(if a.at <= b.at { b } else { a }),
        (Some(a), None) => Some(a),
        (None, b) => b,
    }
}
