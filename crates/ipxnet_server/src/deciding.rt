//! What becomes of a packet, from the clients that are known.

ghost use Rattle.std.specs.Prelude.{◌≡◌, [], None, false, true};
ghost use Rattle.ipx_wire.specs.Ipx.{packet_view};
ghost use Rattle.ipxnet_server.specs.PeerServers.{is_joined_place};
ghost use Rattle.ipxnet_server.specs.ServerClients.{client_at, client_of_node, is_address_full, is_server_full, node_of_place};
ghost use Rattle.ipxnet_server.specs.ServerHears.{client_hears, hear_remote, is_node_here, is_not_behind, joined_hears, server_hears};
ghost use Rattle.ipxnet_server.specs.ServerHears.{server_hears_from, server_hears_here, registration_drop, registration_hears, makes_client, stranger_drop, stranger_hears};

use crate::client_node::node_of;
use crate::clients::Client;
use crate::datagrams::{
    answer_with_node, elsewhere, is_for_all, is_from_here, is_too_long, joined_takers_of,
    joined_to_all, joined_to_one, registers, stays, to_all, to_router,
};
use crate::disposition::Disposition;
use crate::drops::ServerDrop;
use crate::server::IpxnetServer;
use ipx_wire::{IpxHeader, Node, Packet};
use std::net::SocketAddrV4;

impl IpxnetServer {
    /// Whether a node is the router's, the broadcast node or a client's. No new client can have that.
    fn is_here(&self, node: Node) -> bool
        ensures { result ≡ is_node_here self.now.port self.now.clients node }
    {
        node == self.port.own || node == Node::BROADCAST || self.clients.of_node(node).is_some()
    }

    /// Whether no client of a joined router can have a node.
    fn is_not_behind(&self, node: Node) -> bool
        ensures { result ≡ is_not_behind self.now.port self.now.clients node }
    {
        node == Node([0; 6]) || self.is_here(node)
    }

    /// Why a registration is refused, from an address where no client is known.
    fn refuses(&self, from: SocketAddrV4, now: u64) -> Option<ServerDrop>
        ensures { result ≡ registration_drop self.now from now }
    {
        let node = node_of(self.port, from);
        if self.is_here(node) {
            return Some(ServerDrop::NodeTaken(node));
        }
        if self.clients.is_address_full(from, now) {
            return Some(ServerDrop::FullOfAddress);
        }
        if self.clients.is_full(now) {
            return Some(ServerDrop::Full);
        }
        None
    }

    /// Why a packet makes its sender no client, at an address where none is known.
    fn refuses_stranger(
        &self,
        from: SocketAddrV4,
        header: IpxHeader,
        now: u64,
    ) -> Option<ServerDrop>
        ensures { result ≡ stranger_drop self.now from header now }
    {
        if header.from.node != node_of(self.port, from) {
            return Some(ServerDrop::Unregistered);
        }
        self.refuses(from, now)
    }

    /// Whether a packet, in a datagram of `size` bytes, makes its sender a client.
    pub(crate) fn admits(
        &self,
        from: SocketAddrV4,
        header: IpxHeader,
        size: usize,
        now: u64,
    ) -> bool
        ensures admits { result ≡ makes_client self.now from header size now }
        ensures apart { result ≡ true → is_joined_place from self.now.routers ≡ false }
        ensures no_client { result ≡ true → client_at from self.now.clients ≡ None }
        ensures room { result ≡ true
            → (is_address_full now from self.now.clients ≡ false)
            × (is_server_full self.now.max_clients now self.now.clients ≡ false) }
        ensures free { result ≡ true
            → client_of_node (node_of_place self.now.port from) self.now.clients ≡ None }
    {
        !self.joined.has(from)
            && !registers(header, size)
            && self.clients.at(from).is_none()
            && self.refuses_stranger(from, header, now).is_none()
    }

    /// What becomes of a registration.
    fn registration(&self, from: SocketAddrV4, now: u64, known: Option<Client>) -> Disposition
        ensures { result ≡ registration_hears self.now from now known }
    {
        if let Some(client) = known {
            return Disposition::Registered(answer_with_node(self.port, client.node));
        }
        match self.refuses(from, now) {
            Some(drop) => Disposition::Dropped(drop),
            None => {
                let node = node_of(self.port, from);
                Disposition::Registered(answer_with_node(self.port, node))
            }
        }
    }

    /// What becomes of a packet for one node here that no client has.
    fn to_remote(&self, node: Node, size: usize) -> Disposition
        ensures { result ≡ hear_remote self.now node size }
    {
        if self.routers().is_empty() {
            return Disposition::Dropped(ServerDrop::NoSuchNode(node));
        }
        if is_too_long(size) {
            return Disposition::Dropped(ServerDrop::TooLong(size));
        }
        Disposition::ToJoined(joined_takers_of(self.joined.of_node(node)))
    }

    /// What becomes of a packet for one node here.
    fn to_node(&self, from: SocketAddrV4, header: IpxHeader, size: usize) -> Disposition
        ensures { result ≡ client_hears self.now from header size
            (client_of_node header.to.node self.now.clients) }
    {
        match self.clients.of_node(header.to.node) {
            None => self.to_remote(header.to.node, size),
            Some(client) if client.place == from => Disposition::Dropped(ServerDrop::ToItself),
            Some(_) if is_too_long(size) => Disposition::Dropped(ServerDrop::TooLong(size)),
            Some(client) => Disposition::ToClient(client.place),
        }
    }

    /// What becomes of a packet for the network of the port.
    fn here(&self, from: SocketAddrV4, packet: &Packet<'_>, size: usize) -> Disposition
        ensures { result ≡ server_hears_here self.now from (packet_view packet.now) size }
    {
        if is_for_all(packet.header) {
            return to_all(self.port, from, packet, size);
        }
        if packet.header.to.node == self.port.own {
            return to_router(self.port, packet);
        }
        self.to_node(from, packet.header, size)
    }

    /// What becomes of a packet from an address where no client is known, and none became one.
    fn from_stranger(&self, from: SocketAddrV4, header: IpxHeader, now: u64) -> Disposition
        ensures { result ≡ stranger_hears (stranger_drop self.now from header now) }
    {
        match self.refuses_stranger(from, header, now) {
            Some(drop) => Disposition::Dropped(drop),
            None => Disposition::Dropped(ServerDrop::Unregistered),
        }
    }

    /// What becomes of a packet from a client's address, if a client is known there.
    fn from_client(
        &self,
        from: SocketAddrV4,
        packet: &Packet<'_>,
        size: usize,
        now: u64,
        known: Option<Client>,
    ) -> Disposition
        ensures { result ≡ server_hears_from self.now from (packet_view packet.now) size now known }
    {
        let header = packet.header;
        let Some(client) = known else {
            return self.from_stranger(from, header, now);
        };
        if header.from.node != client.node {
            return Disposition::Dropped(ServerDrop::OtherSource(header.from.node));
        }
        if stays(self.port, header) {
            return self.here(from, packet, size);
        }
        elsewhere(self.port, packet)
    }

    /// What becomes of a packet of a joined router.
    fn from_joined(&self, from: SocketAddrV4, header: IpxHeader, size: usize) -> Disposition
        ensures { result ≡ joined_hears self.now from header size }
    {
        if !stays(self.port, header) {
            return Disposition::Dropped(ServerDrop::ForElsewhere(header.to.network));
        }
        if is_from_here(self.port, header) && self.is_not_behind(header.from.node) {
            return Disposition::Dropped(ServerDrop::NotBehind(header.from.node));
        }
        if is_for_all(header) {
            return joined_to_all(self.port, from, header, size);
        }
        joined_to_one(
            self.port,
            from,
            header,
            size,
            self.clients.of_node(header.to.node),
        )
    }

    /// What becomes of a packet.
    pub(crate) fn outcome(
        &self,
        from: SocketAddrV4,
        packet: &Packet<'_>,
        size: usize,
        now: u64,
    ) -> Disposition
        ensures { result ≡ server_hears self.now from (packet_view packet.now) size now }
    {
        if self.joined.has(from) {
            return self.from_joined(from, packet.header, size);
        }
        let known = self.clients.at(from);
        if registers(packet.header, size) {
            return self.registration(from, now, known);
        }
        self.from_client(from, packet, size, now, known)
    }
}
