//! The token buckets of a port.

ghost use Rattle.std.specs.Prelude.{◌≡◌, true};
ghost use Rattle.ipx_rate_limits.specs.PortBuckets.{at_port, directed_has, directed_taken, has_groups, narrow_has, narrow_taken, query_has, query_taken, with_directed_taken, with_narrow_taken, with_query_taken};
ghost use Rattle.ipx_rate_limits.specs.TokenBuckets.{node_narrow};

use token_bucket::TokenBucket;

/// What is limited at a port.
#[derive(Clone, Copy, PartialEq, Eq)]
pub struct PortBuckets {
    /// The general queries that come by it, of all nodes together.
    pub queries: TokenBucket,
    /// The narrow queries that come by it, of all nodes together.
    pub narrow: TokenBucket,
    /// The directed broadcasts that leave by it. None means that they are not limited.
    pub directed: Option<TokenBucket>,
    /// Whether a packet for a group of nodes also counts as a directed broadcast, since a switch
    /// sends it to each remote.
    pub groups: bool,
}

impl PortBuckets {
    fn take_query(&mut self, now: u64)
        requires { query_has self.old now ≡ true }
        ensures { self.new ≡ query_taken now self.old }
    {
        self.queries.take_tokens(1, now);
    }

    fn take_narrow(&mut self, now: u64)
        requires { narrow_has self.old now ≡ true }
        ensures { self.new ≡ narrow_taken now self.old }
    {
        self.narrow.take_tokens(1, now);
    }

    fn has_directed(&self, now: u64) -> bool
        ensures { result ≡ directed_has self.now now }
    {
        match &self.directed {
            Some(bucket) => bucket.has_tokens(1, now),
            None => true,
        }
    }

    fn take_directed(&mut self, now: u64)
        requires { directed_has self.old now ≡ true }
        ensures { self.new ≡ directed_taken now self.old }
    {
        if let Some(bucket) = &mut self.directed {
            bucket.take_tokens(1, now);
        }
    }
}

/// Whether the nodes at a port have a token for a general query.
pub fn has_query(ports: &[PortBuckets], port: usize, now: u64) -> bool
    ensures { result ≡ query_has (at_port ports.now port) now }
{
    match ports.get(port) {
        Some(buckets) => buckets.queries.has_tokens(1, now),
        None => false,
    }
}

/// Whether what leaves by a port for a group of nodes is a directed broadcast.
pub fn has_groups(ports: &[PortBuckets], port: usize) -> bool
    ensures { result ≡ has_groups ports.now port }
{
    match ports.get(port) {
        Some(buckets) => buckets.groups,
        None => false,
    }
}

/// Takes that token.
pub fn take_query(ports: &mut [PortBuckets], port: usize, now: u64)
    requires { query_has (at_port ports.old port) now ≡ true }
    ensures { ports.new ≡ with_query_taken ports.old port now }
{
    if port < ports.len() {
        ports[port].take_query(now);
    }
}

/// How many tokens for narrow queries one node at a port has: half of those of the port.
pub fn narrow_burst(ports: &[PortBuckets], port: usize) -> u32
    ensures { result ≡ (node_narrow (at_port ports.now port)).burst }
{
    match ports.get(port) {
        Some(buckets) => buckets.narrow.limit.burst / 2,
        None => 0,
    }
}

/// Whether the nodes at a port have a token for a narrow query.
pub fn has_narrow(ports: &[PortBuckets], port: usize, now: u64) -> bool
    ensures { result ≡ narrow_has (at_port ports.now port) now }
{
    match ports.get(port) {
        Some(buckets) => buckets.narrow.has_tokens(1, now),
        None => false,
    }
}

/// Takes that token.
pub fn take_narrow(ports: &mut [PortBuckets], port: usize, now: u64)
    requires { narrow_has (at_port ports.old port) now ≡ true }
    ensures { ports.new ≡ with_narrow_taken ports.old port now }
{
    if port < ports.len() {
        ports[port].take_narrow(now);
    }
}

/// Whether a port has a token for a directed broadcast that leaves by it, or needs none.
pub fn has_directed(ports: &[PortBuckets], port: usize, now: u64) -> bool
    ensures { result ≡ directed_has (at_port ports.now port) now }
{
    match ports.get(port) {
        Some(buckets) => buckets.has_directed(now),
        None => false,
    }
}

/// Takes that token.
pub fn take_directed(ports: &mut [PortBuckets], port: usize, now: u64)
    requires { directed_has (at_port ports.old port) now ≡ true }
    ensures { ports.new ≡ with_directed_taken ports.old port now }
{
    if port < ports.len() {
        ports[port].take_directed(now);
    }
}
