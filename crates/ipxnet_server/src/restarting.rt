//! Who was a client of a server before its router was started again.

ghost use Rattle.std.specs.Prelude.{◌≡◌};
ghost use Rattle.ipxnet_server.specs.Restarts.{server_noting_again};

use crate::server::IpxnetServer;
use std::net::SocketAddrV4;

impl IpxnetServer {
    /// Notes an address that was that of a client before the router was started again, at time
    /// `now`, in ms. It is then pinged about 1 s and 4 s later, as `begin_pings` says, and is a client
    /// once it shows its node. Nothing is noted for an address that is noted, of a client or of a
    /// joined router, nor if 64 are noted, or 16 of its IP address. It allocates no memory.
    pub fn note_again(&mut self, place: SocketAddrV4, now: u64)
        ensures { self.new ≡ server_noting_again place now self.old }
    {
        if self.clients.at(place).is_some() || self.joined.has(place) {
            return;
        }
        self.noted.put_again(place, now);
    }
}
