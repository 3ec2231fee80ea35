//! When a server pings its clients, and those who registered.

ghost use Rattle.std.specs.Prelude.{◌≡◌, []};
ghost use Rattle.ipx_wire.specs.Ipx.{IsIpx, packet_of};
ghost use Rattle.ipxnet_server.specs.Pings.{IsNextPing};
ghost use Rattle.ipxnet_server.specs.ServerHears.{is_ping_due, router_ping, server_pinging};

use crate::datagrams::ping_from;
use crate::disposition::bytes_of;
use crate::pings::{PingTurn, next_ask, next_ping, sooner};
use crate::server::IpxnetServer;
use ipx_wire::IPX_HEADER_SIZE;

impl IpxnetServer {
    /// Begins a turn of pings at time `now`, in ms, and forgets the clients that were silent for
    /// five minutes. Send `ping` to each of `clients` that the turn pings, and to each of `noted`
    /// that it asks. What answers it is heard like any packet, so a client that answers is not
    /// forgotten, and who registered becomes one. It allocates no memory.
    pub fn begin_pings(&mut self, now: u64) -> PingTurn
        ensures turn { result ≡ record { before = self.old.pinged; now = now } }
        ensures server { self.new ≡ server_pinging now self.old }
    {
        self.age(now);
        let turn = PingTurn {
            before: self.pinged,
            now,
        };
        self.pinged = now;
        turn
    }

    /// When the next turn of pings is due, in ms, if no datagram comes before. None if no clock can
    /// show that time.
    pub fn next_pings(&self) -> Option<u64>
        ensures { IsNextPing (is_ping_due self.now) result }
    {
        sooner(
            next_ping(self.pinged, self.clients.all()),
            next_ask(self.pinged, self.noted.all()),
        )
    }

    /// The ping of the router, as it is sent to silent clients.
    pub fn ping(&self) -> [u8; IPX_HEADER_SIZE]
        ensures { IsIpx (packet_of (router_ping self.now.port) []) result [] }
    {
        bytes_of(ping_from(self.port))
    }
}
