//! Limits on floods: what is for all nodes here, or for a node that nobody has here.

ghost use Rattle.std.specs.Prelude.{◌≡◌, Ok, count_by, false};
ghost use Rattle.ipxnet_server.specs.declared.recipients.Recipients.{Recipients};
ghost use Rattle.ipxnet_server.specs.ServerFloods.{copied_hears, copies_left, copies_of, is_client_limited, is_port_busy, limited_gives, limited_hears, server_copying, server_flooding, server_giving, server_limiting};
ghost use Rattle.ipxnet_server.specs.ServerHears.{is_joined_taker, is_taker, takers_of};

use crate::disposition::Disposition;
use crate::drops::ServerDrop;
use crate::recipients::Recipients;
use crate::server::IpxnetServer;
use std::net::SocketAddrV4;
use token_bucket::RateLimit;

/// The limit of all floods of a port together, in copies that are sent.
pub const COPIES_LIMIT: RateLimit = RateLimit {
    burst: 200_000,
    per_second: 100_000,
};

/// A packet for all that was dropped, because its sender had sent too many.
#[derive(Clone, Copy, Debug, PartialEq, Eq)]
pub struct LimitedFlood {
    /// The address of the client.
    pub from: SocketAddrV4,
    /// When it came, in ms.
    pub at: u64,
}

impl IpxnetServer {
    /// How many clients are among these.
    fn clients_among(&self, takers: Recipients) -> usize
        ensures { result ≡ count_by (λ c. is_taker takers c.place) self.now.clients }
    {
        self.clients
            .all()
            .iter()
            .filter(|client| takers.has(client.place))
            .count()
    }

    /// How many joined routers are among these.
    fn routers_among(&self, takers: Recipients) -> usize
        ensures { result ≡ count_by (λ r. is_joined_taker takers r) self.now.routers }
    {
        self.joined
            .routers()
            .iter()
            .filter(|router| takers.has_router(**router))
            .count()
    }

    /// How many copies of bytes for these are sent.
    fn copies_of(&self, takers: Recipients) -> u128
        ensures { result ≡ copies_of self.now takers }
    {
        self.clients_among(takers) as u128 + self.routers_among(takers) as u128
    }

    /// Whether bytes for these are a flood, and the port has too few tokens for it.
    fn is_busy(&self, takers: Recipients, now: u64) -> bool
        ensures { result ≡ is_port_busy self.now takers now }
    {
        takers.is_flood() && !self.copies.has_tokens(self.copies_of(takers), now)
    }

    /// Bytes for these are sent. If they are a flood, it takes a token of the port for each copy.
    fn take_copies(&mut self, takers: Recipients, now: u64)
        requires { is_port_busy self.old takers now ≡ false }
        ensures { self.new ≡ record self.old { copies = copies_left self.old takers now } }
    {
        if takers.is_flood() {
            let copies = self.copies_of(takers);
            self.copies.take_tokens(copies, now);
        }
    }

    /// Who gets bytes of the core, or why they are dropped, if these would get them.
    pub(crate) fn limit_given(
        &self,
        given: Result<Recipients, ServerDrop>,
        now: u64,
    ) -> Result<Recipients, ServerDrop>
        ensures limited { result ≡ limited_gives self.now given now }
        ensures free { (takers : Recipients) → result ≡ Ok takers
            → is_port_busy self.now takers now ≡ false }
    {
        match given {
            Ok(takers) if self.is_busy(takers, now) => Err(ServerDrop::Busy),
            given => given,
        }
    }

    /// A packet of the core is sent to these, which takes the tokens of the port, or it is dropped.
    pub(crate) fn keep_given(&mut self, given: Result<Recipients, ServerDrop>, now: u64)
        requires { (takers : Recipients) → given ≡ Ok takers
            → is_port_busy self.old takers now ≡ false }
        ensures { self.new ≡ server_giving given now self.old }
    {
        match given {
            Ok(takers) => self.take_copies(takers, now),
            Err(drop) => self.counts.count(drop),
        }
    }

    /// Whether a datagram is a flood of the client at an address, which has no token.
    fn is_client_limited(&self, heard: Disposition, from: SocketAddrV4, now: u64) -> bool
        ensures { result ≡ is_client_limited self.now heard from now }
    {
        heard.is_client_flood() && !self.flooders.may_flood(from, now)
    }

    /// A datagram is passed on. If it is a flood, it takes its tokens.
    fn flood(&mut self, heard: Disposition, from: SocketAddrV4, now: u64)
        requires client { is_client_limited self.old heard from now ≡ false }
        requires port { is_port_busy self.old (takers_of heard) now ≡ false }
        ensures { self.new ≡ server_flooding heard from now self.old }
    {
        self.take_copies(heard.takers(), now);
        if heard.is_client_flood() {
            self.flooders.take_token(from, now);
        }
    }

    /// What becomes of a datagram, if its client has a token or needs none.
    fn limit_copies(&mut self, heard: Disposition, from: SocketAddrV4, now: u64) -> Disposition
        requires { is_client_limited self.old heard from now ≡ false }
        ensures value { result ≡ copied_hears self.old heard now }
        ensures server { self.new ≡ server_copying self.old heard from now }
    {
        if self.is_busy(heard.takers(), now) {
            self.counts.count(ServerDrop::Busy);
            return Disposition::Dropped(ServerDrop::Busy);
        }
        self.flood(heard, from, now);
        heard
    }

    /// What becomes of a datagram, given what becomes of it without limits.
    pub(crate) fn limit(&mut self, heard: Disposition, from: SocketAddrV4, now: u64) -> Disposition
        ensures value { result ≡ limited_hears self.old heard from now }
        ensures server { self.new ≡ server_limiting self.old heard from now }
    {
        if self.is_client_limited(heard, from, now) {
            let drop = ServerDrop::RateLimited(from);
            self.counts.count(drop);
            self.limited = Some(LimitedFlood { from, at: now });
            return Disposition::Dropped(drop);
        }
        self.limit_copies(heard, from, now)
    }

    /// The last flood of a client that was dropped because the client had no token.
    pub fn last_limited(&self) -> Option<LimitedFlood>
        ensures { result ≡ self.now.limited }
    {
        self.limited
    }
}
