//! The limits at the ports of a router, as its file sets them.

ghost use Rattle.std.specs.Prelude.{◌≡◌, IfOk};
ghost use Rattle.ipx_rate_limits.specs.PortLimits.{buckets_of_port, directed_bucket, has_group_nodes, limits_of, narrow_limit, query_limit};

use crate::port_buckets::PortBuckets;
use ipx_config::{Directed, Kind, PortConfig};
use std::alloc::{AllocError, Global};
use token_bucket::{RateLimit, TokenBucket};

/// The usual limit of a port, for general queries and for directed broadcasts.
const USUAL: RateLimit = RateLimit {
    burst: 16,
    per_second: 8,
};

/// The limit that all clients of an ipxnet port share for general queries.
const CLIENTS: RateLimit = RateLimit {
    burst: 2,
    per_second: 1,
};

/// The limit of a port for narrow queries.
const NARROW: RateLimit = RateLimit {
    burst: 64,
    per_second: 32,
};

/// The limit that all clients of an ipxnet port share for narrow queries.
const CLIENTS_NARROW: RateLimit = RateLimit {
    burst: 8,
    per_second: 4,
};

/// A limit that lets nothing pass.
const NEVER: RateLimit = RateLimit {
    burst: 0,
    per_second: 0,
};

/// The limit of the general queries that come by a port of this kind.
fn query_limit(kind: Kind) -> RateLimit
    ensures { result ≡ query_limit kind }
{
    match kind {
        Kind::Rfc1234 | Kind::Ethernet => USUAL,
        Kind::Ipxnet => CLIENTS,
    }
}

/// The limit of the narrow queries that come by a port of this kind.
fn narrow_limit(kind: Kind) -> RateLimit
    ensures { result ≡ narrow_limit kind }
{
    match kind {
        Kind::Rfc1234 | Kind::Ethernet => NARROW,
        Kind::Ipxnet => CLIENTS_NARROW,
    }
}

/// The limit of the directed broadcasts that leave by a port; None if there is no limit.
fn directed_bucket(directed: Directed) -> Option<TokenBucket>
    ensures { result ≡ directed_bucket directed }
{
    match directed {
        Directed::Never => Some(TokenBucket::full(NEVER)),
        Directed::Few => Some(TokenBucket::full(USUAL)),
        Directed::Always => None,
    }
}

/// Whether a node at a port of this kind can be a group of stations. At a port for ipxnet the router
/// makes all nodes, and none is a group.
fn has_group_nodes(kind: Kind) -> bool
    ensures { result ≡ has_group_nodes kind }
{
    match kind {
        Kind::Ethernet => true,
        Kind::Rfc1234 | Kind::Ipxnet => false,
    }
}

fn buckets_of_port(port: &PortConfig) -> PortBuckets
    ensures { result ≡ buckets_of_port port.now }
{
    PortBuckets {
        queries: TokenBucket::full(query_limit(port.kind())),
        narrow: TokenBucket::full(narrow_limit(port.kind())),
        directed: directed_bucket(port.directed()),
        groups: has_group_nodes(port.kind()),
    }
}

/// The buckets of the ports of a file, each full.
pub fn limits_of(alloc: Global, ports: &[PortConfig]) -> Result<Vec<PortBuckets>, AllocError>
    ensures { IfOk result (λ v. v.items ≡ limits_of ports.now) }
{
    ports.iter().map(buckets_of_port).collect(alloc)
}
