//! The ipxnet server of a port.

ghost use Rattle.std.specs.Prelude.{◌≡◌, ◌≤◌, ◌&&◌, ◌⊎◌, ℕ, All, List, [], IfOk, None, Ok, Option, Some, false, is_some, length, nat_le, true};
ghost use Rattle.ipx_wire.specs.declared.ipx.fault.IpxFault.{IpxFault};
ghost use Rattle.ipx_wire.specs.Ipx.{BeginsWith, IsIpx, PacketView, ipx_fault, packet_of};
ghost use Rattle.ipx_wire.specs.declared.ipx.packet.IpxHeader.{IpxHeader};
ghost use Rattle.ipxnet_server.specs.declared.disposition.Disposition.TheVariants.{Dropped, FromJoined, Registered};
ghost use Rattle.ipxnet_server.specs.declared.drops.ServerDrop.TheVariants.{Malformed};
ghost use Rattle.std.specs.declared.net.socket_addr.SocketAddrV4.{SocketAddrV4};
ghost use Rattle.ipx_wire.specs.declared.address.Node.{Node};
ghost use Rattle.ipxnet_server.specs.declared.recipients.Recipients.{Recipients};
ghost use Rattle.ipxnet_server.specs.declared.recipients.Recipients.TheVariants.{One};
ghost use Rattle.ipxnet_server.specs.ServerClients.{AreFewOfEachIp, EachClientOnce, HasPlaceNode, client_at, client_heard, client_of_node, clients_left, max_server_clients, node_of_place, replaced_after, was_heard_within};
ghost use Rattle.ipxnet_server.specs.ServerHears.{BecameClient, IsAnswer, answer_of, goes_to_core, is_joined_taker, is_of_client, is_registration, is_taker};
ghost use Rattle.ipxnet_server.specs.ServerHears.{joined_server, server_admitting, server_aged, server_dropping, server_hearing, server_knowing, server_learned, server_met, server_noting};
ghost use Rattle.ipxnet_server.specs.ServerHears.{server_hears, may_reach_core, new_server, takers_join, takers_of, takers_reach};
ghost use Rattle.ipxnet_server.specs.ServerFloods.{packet_hears, server_heard};
ghost use Rattle.ipxnet_server.specs.ServerInside.{IsSoundHearing, MayKnow};
ghost use Rattle.ipxnet_server.specs.PeerServers.{is_joined_place, max_remote_clients};
ghost use Rattle.ipxnet_server.specs.NotedPlaces.{AreFewNotesOfEachIp, max_noted};

use crate::attempts::{Attempts, Repeats};
use crate::client_node::node_of;
use crate::clients::{Client, Clients, MAX_CLIENTS};
use crate::counts::ServerCounts;
use crate::datagrams::header_of;
use crate::disposition::Disposition;
use crate::drops::ServerDrop;
use crate::flooders::Flooders;
use crate::limiting::{COPIES_LIMIT, LimitedFlood};
use crate::noted::{Noted, NotedPlaces};
use crate::peer_servers::{Joined, RemoteClient};
use crate::port::ServerPort;
use crate::recipients::Recipients;
use ipx_wire::{Node, decode};
use std::alloc::{AllocError, Global};
use std::marker::Model;
use std::net::SocketAddrV4;
use token_bucket::TokenBucket;

/// An ipxnet server: it registers clients and forwards packets between them. It may be joined to
/// the servers of other routers.
#[derive(Drop)]
pub struct IpxnetServer {
    pub(crate) port: ServerPort,
    pub(crate) clients: Clients,
    pub(crate) counts: ServerCounts,
    pub(crate) joined: Joined,
    pub(crate) pinged: u64,
    pub(crate) noted: NotedPlaces,
    pub(crate) attempts: Attempts,
    pub(crate) flooders: Flooders,
    pub(crate) copies: TokenBucket,
    pub(crate) limited: Option<LimitedFlood>,
}

impl Model for IpxnetServer {
    ghost use Rattle.std.specs.Prelude.{All};
    ghost use Rattle.ipxnet_server.specs.ServerClients.{HasPlaceNode};
    ghost use Rattle.ipxnet_server.specs.ServerHears.{ServerView};

    ghost Value = { ServerView };

    ghost view = { λ l. record {
      port = l.port;
      max_clients = l.clients.max_clients;
      clients = l.clients.known;
      counts = l.counts;
      routers = l.joined.routers;
      far = l.joined.far;
      pinged = l.pinged;
      noted = l.noted;
      attempts = l.attempts;
      flooders = l.flooders;
      copies = l.copies;
      limited = l.limited;
    } };

    ghost invariant = { λ l. All (HasPlaceNode l.port) l.clients.known };
}

impl IpxnetServer {
    /// Whether a server may be limited to `max_clients` clients: 1 to `MAX_CLIENTS`.
    pub fn may_have(max_clients: usize) -> bool
        ensures { result ≡ (nat_le 1 max_clients && nat_le max_clients max_server_clients) }
    {
        1 <= max_clients && max_clients <= MAX_CLIENTS
    }

    /// A server of a port, with at most `max_clients` clients, which must be 1 to 150. It is joined to no
    /// router, and knows no client. Only this and `IpxnetServer::joined_to` allocate memory.
    pub fn new(
        alloc: Global,
        port: ServerPort,
        max_clients: usize,
    ) -> Result<IpxnetServer, AllocError>
        requires some { 1 ≤ max_clients }
        requires few { max_clients ≤ max_server_clients }
        ensures { IfOk result (λ l. l ≡ new_server port max_clients) }
    {
        IpxnetServer::joined_to(alloc, port, max_clients, Vec::new(alloc))
    }

    /// The same server, joined to those of the routers at these addresses as one network. Each of
    /// these must name all others, have the same network number, and have its own node. An address
    /// is the one that the router sends from.
    pub fn joined_to(
        alloc: Global,
        port: ServerPort,
        max_clients: usize,
        routers: Vec<SocketAddrV4>,
    ) -> Result<IpxnetServer, AllocError>
        requires some { 1 ≤ max_clients }
        requires few { max_clients ≤ max_server_clients }
        ensures { IfOk result (λ l. l ≡ joined_server port max_clients routers.items) }
    {
        let clients = Clients::new(alloc, max_clients)?;
        let joined = Joined::new(alloc, routers)?;
        let noted = NotedPlaces::new(alloc)?;
        let attempts = Attempts::new(alloc)?;
        let flooders = Flooders::new(alloc)?;
        Ok(IpxnetServer {
            port,
            clients,
            counts: ServerCounts::new(),
            joined,
            pinged: 0,
            noted,
            attempts,
            flooders,
            copies: TokenBucket::full(COPIES_LIMIT),
            limited: None,
        })
    }

    /// The port.
    pub fn port(&self) -> ServerPort
        ensures { result ≡ self.now.port }
    {
        self.port
    }

    /// How much was dropped.
    pub fn counts(&self) -> ServerCounts
        ensures { result ≡ self.now.counts }
    {
        self.counts
    }

    /// The clients, in the order in which they were last heard. No two have one address, and no two
    /// have one node. Each has the node of its address. At most 16 have one IP address.
    pub fn clients(&self) -> &[Client]
        ensures all { result.now ≡ self.now.clients }
        ensures once { EachClientOnce self.now.clients }
        ensures each { AreFewOfEachIp self.now.clients }
        ensures nodes { All (HasPlaceNode self.now.port) self.now.clients }
        ensures few { length self.now.clients ≤ self.now.max_clients }
        ensures max_clients { self.now.max_clients ≤ max_server_clients }
    {
        self.clients.all()
    }

    /// The addresses of the routers that the server is joined to.
    pub fn routers(&self) -> &[SocketAddrV4]
        ensures { result.now ≡ self.now.routers }
    {
        self.joined.routers()
    }

    /// The clients of joined routers, in the order in which they were last heard.
    pub fn remote_clients(&self) -> &[RemoteClient]
        ensures all { result.now ≡ self.now.far }
        ensures few { length self.now.far ≤ max_remote_clients }
        ensures none { self.now.routers ≡ [] → self.now.far ≡ [] }
    {
        self.joined.remote_clients()
    }

    /// The addresses that registered, have shown nothing, and are still to be pinged, in the order in
    /// which they were noted. At most 16 have one IP address.
    pub fn noted(&self) -> &[Noted]
        ensures all { result.now ≡ self.now.noted }
        ensures few { length self.now.noted ≤ max_noted }
        ensures each { AreFewNotesOfEachIp self.now.noted }
    {
        self.noted.all()
    }

    /// How often an IP address of which nobody was a client registered three times within a minute,
    /// and where the last of these registrations came from: do the answers reach it? Of the last 64
    /// registrations at most two of an IP address are remembered.
    pub fn repeats(&self) -> Repeats
        ensures { result ≡ self.now.attempts.repeats }
    {
        self.attempts.repeats()
    }

    /// Whether bytes with these takers are sent to the joined router at an address.
    pub fn joins(&self, takers: Recipients, place: SocketAddrV4) -> bool
        ensures { result ≡ takers_join self.now takers place }
    {
        self.joined.has(place) && takers.has_router(place)
    }

    /// Whether bytes with these takers are sent to an address: a client is known there, and it is
    /// one of them.
    pub fn reaches(&self, takers: Recipients, place: SocketAddrV4) -> bool
        ensures { result ≡ takers_reach self.now takers place }
    {
        self.clients.at(place).is_some() && takers.has(place)
    }

    /// What becomes of a datagram.
    fn decide(&self, from: SocketAddrV4, bytes: &[u8], now: u64) -> Disposition
        ensures malformed { (f : IpxFault) → ipx_fault bytes.now ≡ Some f
            → result ≡ Dropped (Malformed f) }
        ensures packet { (p : PacketView) → BeginsWith bytes.now p
            → result ≡ server_hears self.now from p (length bytes.now) now }
        ensures sound { IsSoundHearing self.now from (length bytes.now) result }
    {
        match decode(bytes) {
            Ok(packet) => self.outcome(from, &packet, bytes.len(), now),
            Err(fault) => Disposition::Dropped(ServerDrop::Malformed(fault)),
        }
    }

    /// Who sent from an address becomes a client. Its node is at no joined router then.
    fn admit(&mut self, from: SocketAddrV4, now: u64)
        requires no_client { client_at from self.old.clients ≡ None }
        requires free { client_of_node (node_of_place self.old.port from) self.old.clients
            ≡ None }
        ensures admits { self.new ≡ server_admitting from now self.old }
        ensures few { length self.new.clients ≤ self.new.max_clients }
    {
        let node = node_of(self.port, from);
        self.noted.forget(from);
        self.joined.forget(node);
        self.clients.put(node, from, now);
    }

    /// The client at an address was heard.
    fn note_heard(&mut self, from: SocketAddrV4, now: u64)
        ensures { self.new ≡ server_knowing from now self.old }
    {
        self.clients.hear(from, now);
    }

    /// An address registered.
    fn note(&mut self, from: SocketAddrV4, now: u64)
        ensures { self.new ≡ server_noting from now self.old }
    {
        if self.clients.at(from).is_some() {
            return;
        }
        self.noted.put(from, now);
        if !self.clients.has_ip_of(from) {
            self.attempts.put(from, now);
        }
    }

    /// Makes the sender of a datagram a client, if its packet does that.
    fn recognise(&mut self, from: SocketAddrV4, bytes: &[u8], now: u64)
        requires few { length self.old.clients ≤ self.old.max_clients }
        ensures packet { (p : PacketView) → BeginsWith bytes.now p
            → self.new ≡ server_met from p.header (length bytes.now) now self.old }
        ensures malformed { (f : IpxFault) → ipx_fault bytes.now ≡ Some f → self.new ≡ self.old }
        ensures known { MayKnow from now self.old self.new }
        ensures few { length self.new.clients ≤ self.new.max_clients }
    {
        let Some(header) = header_of(bytes) else {
            return;
        };
        if self.admits(from, header, bytes.len(), now) {
            self.admit(from, now);
        }
    }

    /// The joined router at an address showed where a node is, or nothing.
    fn learn_remote(&mut self, told: Option<Node>, from: SocketAddrV4, now: u64)
        requires { is_joined_place from self.old.routers ≡ true }
        ensures { self.new ≡ server_learned told from now self.old }
    {
        if let Some(node) = told {
            self.joined.put(node, from, now);
        }
    }

    /// Records what became of a datagram: its cause if it was dropped, otherwise that its sender
    /// registered or was heard.
    fn keep(&mut self, heard: Disposition, from: SocketAddrV4, now: u64)
        requires joined { (told : Option Node) (takers : Recipients) → heard ≡ FromJoined told takers
            → is_joined_place from self.old.routers ≡ true }
        ensures { self.new ≡ server_hearing heard from now self.old }
    {
        match heard {
            Disposition::Dropped(drop) => self.counts.count(drop),
            Disposition::FromJoined(told, _) => self.learn_remote(told, from, now),
            Disposition::Registered(_) => self.note(from, now),
            Disposition::Pinged(_, _)
            | Disposition::ToClient(_)
            | Disposition::ToOthers(_)
            | Disposition::ToOthersAndCore(_)
            | Disposition::ToJoined(_)
            | Disposition::ToCore
            | Disposition::PingAnswered => self.note_heard(from, now),
        }
    }

    /// Forgets the clients that were silent for five minutes, those of joined routers that were
    /// silent for a day, and the noted addresses whose second ping was due at the last turn.
    pub(crate) fn age(&mut self, now: u64)
        ensures aged { self.new ≡ server_aged now self.old }
        ensures few { length self.new.clients ≤ self.new.max_clients }
        ensures once { EachClientOnce self.new.clients }
    {
        self.clients.age(now);
        self.joined.age(now);
        self.noted.age(self.pinged);
    }

    /// What becomes of a datagram that came from an address at time `now`, in ms: what is answered,
    /// which clients and joined routers the bytes are sent to, and whether the core gets them. It
    /// allocates no memory.
    ///
    /// Call it with each datagram. First send the answer to that address. Then send the bytes, as
    /// they arrived, to each client and joined router among the takers. A registration changes no
    /// client. A dropped datagram changes only the count of its cause, unless it makes its sender a
    /// client, or is a flood over a limit, whose sender was heard. Each call forgets the clients that
    /// were silent for five minutes.
    pub fn hear(&mut self, from: SocketAddrV4, bytes: &[u8], now: u64) -> Disposition
        // What becomes of it, if the bytes are no packet, and if they begin with one.
        ensures malformed { (f : IpxFault) → ipx_fault bytes.now ≡ Some f
            → result ≡ Dropped (Malformed f) }
        ensures packet { (p : PacketView) → BeginsWith bytes.now p
            → result ≡ packet_hears self.old from p (length bytes.now) now }
        // What the server is then. A packet finds its sender among the clients, if it makes it one.
        ensures server { (p : PacketView) → BeginsWith bytes.now p
            → self.new ≡ server_heard self.old from p (length bytes.now) now }
        ensures unread { (f : IpxFault) → ipx_fault bytes.now ≡ Some f
            → self.new ≡ server_dropping (Malformed f) (server_aged now self.old) }
        ensures stays { (self.new.port ≡ self.old.port) × (self.new.max_clients ≡ self.old.max_clients)
            × (self.new.routers ≡ self.old.routers) × (self.new.pinged ≡ self.old.pinged) }
        // It is never sent back to its sender, except as an answer. A registration has an answer of
        // as many bytes.
        ensures back { is_taker (takers_of result) from ≡ false }
        ensures as_many { (header : IpxHeader) (answer : List ℕ) → result ≡ Registered header
            → IsAnswer result answer → length answer ≡ length bytes.now }
        ensures no_longer { (answer : List ℕ) → IsAnswer result answer
            → length answer ≤ length bytes.now }
        // A registration changes no client. Who sent a datagram that is no registration and is not
        // dropped is then a client, or it is a joined router. The one client that it is sent to is
        // known.
        ensures registration { (p : PacketView) → BeginsWith bytes.now p
            → is_registration p.header (length bytes.now) ≡ true
            → self.new.clients ≡ clients_left now self.old.clients }
        ensures sender { is_of_client result ≡ true → client_at from self.new.clients
            ≡ Some (client_heard (node_of_place self.old.port from) from now
            (client_at from (clients_left now self.old.clients))) }
        // Who was heard less than a minute ago stays a client, whatever came.
        ensures remains { (place : SocketAddrV4) (c : Client)
            → client_at place self.old.clients ≡ Some c
            → was_heard_within replaced_after now c ≡ true
            → is_some (client_at place self.new.clients) ≡ true }
        ensures taker { (place : SocketAddrV4) → takers_of result ≡ One place
            → is_some (client_at place self.new.clients) ≡ true }
        // The core gets nothing that comes from another network, and no response of RIP or SAP.
        ensures core { (p : PacketView) → BeginsWith bytes.now p → goes_to_core result ≡ true
            → may_reach_core self.old.port p ≡ true }
        // What came from a joined router is sent to no joined router and not to the core. It is not
        // answered, and makes no client.
        ensures ring { is_joined_place from self.old.routers ≡ true
            → (place : SocketAddrV4) → is_joined_taker (takers_of result) place ≡ false }
        ensures apart { is_joined_place from self.old.routers ≡ true → goes_to_core result ≡ false }
        ensures unanswered { is_joined_place from self.old.routers ≡ true → answer_of result ≡ None }
        ensures members { is_joined_place from self.old.routers ≡ true
            → self.new.clients ≡ clients_left now self.old.clients }
        // Nothing that comes from elsewhere than a joined router shows where a remote client is. It
        // only removes the node of its sender, if that became a client.
        ensures told { is_joined_place from self.old.routers ≡ false
            → (self.new.far ≡ (server_aged now self.old).far)
            ⊎ BecameClient from (server_aged now self.old) self.new }
    {
        self.age(now);
        self.recognise(from, bytes, now);
        let heard = self.decide(from, bytes, now);
        self.keep(heard, from, now);
        self.limit(heard, from, now)
    }
}
