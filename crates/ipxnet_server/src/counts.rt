//! How much a server dropped.

ghost use Rattle.std.specs.Prelude.{◌≡◌};
ghost use Rattle.ipxnet_server.specs.ServerCounted.{drop_counted, drops_raised, no_drops};

use crate::drops::ServerDrop;

/// How much was dropped, with a count for each cause in `ServerDrop`. Each stays at the greatest
/// u64.
#[derive(Clone, Copy, Debug, PartialEq, Eq)]
pub struct ServerCounts {
    pub malformed: u64,
    pub node_taken: u64,
    pub full_of_address: u64,
    pub full: u64,
    pub unregistered: u64,
    pub other_source: u64,
    pub too_long: u64,
    pub no_such_node: u64,
    pub to_itself: u64,
    pub ping_elsewhere: u64,
    pub broadcast_elsewhere: u64,
    pub from_elsewhere: u64,
    pub response: u64,
    pub not_behind: u64,
    pub for_elsewhere: u64,
    pub rate_limited: u64,
    pub busy: u64,
}

/// Adds one to a count, which stays at the greatest u64.
pub(crate) fn saturating_increment(count: &mut u64)
    ensures { count.new ≡ drops_raised count.old }
{
    *count = count.saturating_add(1);
}

impl ServerCounts {
    /// Nothing was dropped yet.
    pub fn new() -> ServerCounts
        ensures { result ≡ no_drops }
    {
        ServerCounts {
            malformed: 0,
            node_taken: 0,
            full_of_address: 0,
            full: 0,
            unregistered: 0,
            other_source: 0,
            too_long: 0,
            no_such_node: 0,
            to_itself: 0,
            ping_elsewhere: 0,
            broadcast_elsewhere: 0,
            from_elsewhere: 0,
            response: 0,
            not_behind: 0,
            for_elsewhere: 0,
            rate_limited: 0,
            busy: 0,
        }
    }

    /// Adds one to the count of this cause.
    pub fn count(&mut self, drop: ServerDrop)
        ensures { self.new ≡ drop_counted drop self.old }
    {
        match drop {
            ServerDrop::Malformed(_) => saturating_increment(&mut self.malformed),
            ServerDrop::NodeTaken(_) => saturating_increment(&mut self.node_taken),
            ServerDrop::FullOfAddress => saturating_increment(&mut self.full_of_address),
            ServerDrop::Full => saturating_increment(&mut self.full),
            ServerDrop::Unregistered => saturating_increment(&mut self.unregistered),
            ServerDrop::OtherSource(_) => saturating_increment(&mut self.other_source),
            ServerDrop::TooLong(_) => saturating_increment(&mut self.too_long),
            ServerDrop::NoSuchNode(_) => saturating_increment(&mut self.no_such_node),
            ServerDrop::ToItself => saturating_increment(&mut self.to_itself),
            ServerDrop::PingElsewhere(_) => saturating_increment(&mut self.ping_elsewhere),
            ServerDrop::BroadcastElsewhere(_) => saturating_increment(
                &mut self.broadcast_elsewhere,
            ),
            ServerDrop::FromElsewhere(_) => saturating_increment(&mut self.from_elsewhere),
            ServerDrop::Response => saturating_increment(&mut self.response),
            ServerDrop::NotBehind(_) => saturating_increment(&mut self.not_behind),
            ServerDrop::ForElsewhere(_) => saturating_increment(&mut self.for_elsewhere),
            ServerDrop::RateLimited(_) => saturating_increment(&mut self.rate_limited),
            ServerDrop::Busy => saturating_increment(&mut self.busy),
        }
    }
}
