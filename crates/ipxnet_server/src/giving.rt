//! Who gets a packet of the core.

ghost use Rattle.std.specs.Prelude.{◌≡◌, ℕ, IfOk, None, Ok, Option, Some, false, is_some, length, true};
ghost use Rattle.ipx_wire.specs.declared.ipx.fault.IpxFault.{IpxFault};
ghost use Rattle.ipx_wire.specs.Ipx.{BeginsWith, PacketView, ipx_fault};
ghost use Rattle.ipx_wire.specs.declared.ipx.packet.IpxHeader.{IpxHeader};
ghost use Rattle.std.specs.declared.net.socket_addr.SocketAddrV4.{SocketAddrV4};
ghost use Rattle.ipxnet_server.specs.declared.recipients.Recipients.TheVariants.{One};
ghost use Rattle.ipxnet_server.specs.ServerClients.{client_at};
ghost use Rattle.ipxnet_server.specs.ServerFloods.{packet_gives, server_giving};
ghost use Rattle.ipxnet_server.specs.ServerHears.{is_from_server, is_joined_taker, server_aged, server_gives};

use crate::datagrams::{
    comes_from_here, header_of, is_for_service, is_too_long, joined_takers_of, takers_of_all,
};
use crate::drops::ServerDrop;
use crate::recipients::Recipients;
use crate::server::IpxnetServer;
use ipx_wire::{IpxHeader, Node};

impl IpxnetServer {
    /// Which clients and joined routers a packet of the core for a node is sent to, or why it is
    /// dropped. The time `now` is in ms. A packet for all nodes that is for the socket of RIP or
    /// SAP is sent to nobody. One that comes from the network of the port is sent to no joined
    /// router. One for all of them is dropped if the port has too few tokens for the copies. It
    /// allocates no memory.
    pub fn give(&mut self, node: Node, packet: &[u8], now: u64) -> Result<Recipients, ServerDrop>
        // Who gets it, if the bytes begin with a packet, and if they are none.
        ensures packet { (p : PacketView) → BeginsWith packet.now p
            → result ≡ packet_gives self.old node (Some p.header) (length packet.now) now }
        ensures malformed { (f : IpxFault) → ipx_fault packet.now ≡ Some f
            → result ≡ packet_gives self.old node None (length packet.now) now }
        ensures server { self.new ≡ server_giving result now (server_aged now self.old) }
        // The one client that it goes to is known.
        ensures taker { (place : SocketAddrV4) → result ≡ Ok (One place)
            → is_some (client_at place self.new.clients) ≡ true }
        // No joined router gets what comes from the network of the port: there it would be taken
        // for a packet of a client here.
        ensures own { (p : PacketView) → BeginsWith packet.now p
            → is_from_server self.old.port p.header ≡ true → IfOk result (λ takers.
            (place : SocketAddrV4) → is_joined_taker takers place ≡ false) }
    {
        self.age(now);
        let takers = self.takers(node, header_of(packet), packet.len());
        let given = self.limit_given(takers, now);
        self.keep_given(given, now);
        given
    }

    /// Which clients and joined routers a packet of the core, with this header and of `size` bytes,
    /// is sent to.
    fn takers(
        &self,
        node: Node,
        header: Option<IpxHeader>,
        size: usize,
    ) -> Result<Recipients, ServerDrop>
        ensures { result ≡ server_gives self.now node header size }
    {
        if is_too_long(size) {
            return Err(ServerDrop::TooLong(size));
        }
        if node == Node::BROADCAST {
            return Ok(takers_of_all(is_for_service(header)));
        }
        match self.clients.of_node(node) {
            Some(client) => Ok(Recipients::One(client.place)),
            None if self.routers().is_empty() || comes_from_here(self.port, header) => {
                Err(ServerDrop::NoSuchNode(node))
            }
            None => Ok(joined_takers_of(self.joined.of_node(node))),
        }
    }
}
