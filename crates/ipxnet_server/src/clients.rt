//! The clients of an ipxnet server.

ghost use Rattle.std.specs.Prelude.{◌≡◌, ◌≤◌, ◌<◌, ◌+◌, ◌-◌, ◌++◌, ◌∷◌, [], None, IfOk, drop, filter, find, is_some, length, not, option_copied, true};
ghost use Rattle.std.specs.Vec.{vec_capacity, vec_len};
ghost use Rattle.ipxnet_server.specs.ServerClients.{AreFewOfEachIp, EachClientOnce, is_address_full, is_server_full, client_at, client_of_node, client_that_goes, clients_but, clients_heard, clients_left};
ghost use Rattle.ipxnet_server.specs.ServerClients.{clients_of_ip, clients_with, has_client_node, is_client_at, is_client_of_ip, max_server_clients};

use ipx_wire::Node;
use std::alloc::{AllocError, Global};
use std::marker::Model;
use std::net::SocketAddrV4;

/// The most clients that a server may have, as `IpxnetServer::may_have` says.
pub const MAX_CLIENTS: usize = 150;

/// A client is forgotten after this many milliseconds of silence: five minutes.
pub const FORGOTTEN_AFTER_MS: u64 = 300_000;

/// If there is no room for another client, one is forgotten after this many milliseconds of
/// silence: a minute.
pub const REPLACED_AFTER_MS: u64 = 60_000;

/// The most clients that may have one IP address.
pub const MAX_ADDRESS_CLIENTS: usize = 16;

/// A client: it registered, and has sent with the node that it was given.
#[derive(Clone, Copy, Debug, PartialEq, Eq)]
pub struct Client {
    /// The node that it was given.
    pub node: Node,
    /// Its address.
    pub place: SocketAddrV4,
    /// When it became a client, in ms.
    pub since: u64,
    /// When it was last heard, in ms.
    pub heard: u64,
}

/// The clients of a server, in the order in which they were last heard.
#[derive(Drop)]
pub struct Clients {
    known: Vec<Client>,
    max_clients: usize,
}

impl Model for Clients {
    ghost use Rattle.std.specs.Vec.{vec_capacity};
    ghost use Rattle.ipxnet_server.specs.ServerInside.{AreClients, ClientsView};

    ghost Value = { ClientsView };

    ghost view = { λ c. record { max_clients = c.max_clients; known = c.known.items } };

    ghost invariant = { λ c. AreClients c.max_clients c.known.items (vec_capacity c.known) };
}

/// Removes the client at an address.
fn leave_out(known: &mut Vec<Client>, place: SocketAddrV4)
    ensures items { known.new.items ≡ filter (λ c. not (is_client_at place c)) known.old.items }
    ensures fewer { vec_len known.new ≤ vec_len known.old }
    ensures capacity { vec_capacity known.new ≡ vec_capacity known.old }
{
    known.retain(|client| client.place != place);
}

/// Removes the client at an address where one is known.
fn leave_out_known(known: &mut Vec<Client>, place: SocketAddrV4)
    requires { is_some (client_at place known.old.items) ≡ true }
    ensures items { known.new.items ≡ filter (λ c. not (is_client_at place c)) known.old.items }
    ensures room { vec_len known.new < vec_len known.old }
    ensures capacity { vec_capacity known.new ≡ vec_capacity known.old }
{
    leave_out(known, place);
}

/// Removes a client, if there is one.
fn leave_out_one(known: &mut Vec<Client>, client: Option<Client>)
    ensures items { known.new.items ≡ clients_but client known.old.items }
    ensures fewer { vec_len known.new ≤ vec_len known.old }
    ensures capacity { vec_capacity known.new ≡ vec_capacity known.old }
{
    if let Some(client) = client {
        leave_out(known, client.place);
    }
}

/// Removes the clients that were silent for five minutes.
fn leave_out_silent(known: &mut Vec<Client>, now: u64)
    ensures items { known.new.items ≡ clients_left now known.old.items }
    ensures fewer { vec_len known.new ≤ vec_len known.old }
    ensures capacity { vec_capacity known.new ≡ vec_capacity known.old }
{
    known.retain(|client| now.saturating_sub(client.heard) < FORGOTTEN_AFTER_MS);
}

/// Removes the client that was heard before all others, if there is no room for another.
fn make_space(known: &mut Vec<Client>, max_clients: usize)
    requires some { 1 ≤ max_clients }
    requires few { vec_len known.old ≤ max_clients }
    ensures items { known.new.items ≡ drop (length known.old.items + 1 - max_clients) known.old.items }
    ensures room { vec_len known.new < max_clients }
    ensures capacity { vec_capacity known.new ≡ vec_capacity known.old }
{
    if known.len() == max_clients {
        known.remove(0);
    }
}

/// The client at an address.
fn find_place(known: &[Client], place: SocketAddrV4) -> Option<&Client>
    ensures { option_copied result ≡ find (is_client_at place) known.now }
{
    known.iter().find(|client| client.place == place)
}

/// The client of a node.
fn find_node(known: &[Client], node: Node) -> Option<&Client>
    ensures { option_copied result ≡ find (has_client_node node) known.now }
{
    known.iter().find(|client| client.node == node)
}

/// Whether a client has the IP address of a place.
fn is_of_ip(client: &Client, place: SocketAddrV4) -> bool
    ensures { result ≡ is_client_of_ip place client.now }
{
    client.place.ip().octets() == place.ip().octets()
}

/// How many clients have the IP address of a place.
fn count_of_ip(known: &[Client], place: SocketAddrV4) -> usize
    ensures { result ≡ length (clients_of_ip place known.now) }
{
    known
        .iter()
        .filter(|client| is_of_ip(client, place))
        .count()
}

/// The first client that has the IP address of a place.
fn find_of_ip(known: &[Client], place: SocketAddrV4) -> Option<&Client>
    ensures { option_copied result ≡ find (is_client_of_ip place) known.now }
{
    known.iter().find(|client| is_of_ip(client, place))
}

/// The client that goes if one more of its IP address becomes one.
fn one_that_goes(known: &[Client], place: SocketAddrV4) -> Option<Client>
    ensures { result ≡ client_that_goes place known.now }
{
    if count_of_ip(known, place) < MAX_ADDRESS_CLIENTS {
        return None;
    }
    find_of_ip(known, place).copied()
}

impl Clients {
    /// No clients yet. This takes the memory for all of them.
    pub fn new(alloc: Global, max_clients: usize) -> Result<Clients, AllocError>
        requires some { 1 ≤ max_clients }
        requires few { max_clients ≤ max_server_clients }
        ensures { IfOk result (λ c. c ≡ record { max_clients = max_clients; known = [] }) }
    {
        let known = Vec::with_capacity(alloc, max_clients)?;
        Ok(Clients { known, max_clients })
    }

    /// The clients, in the order in which they were last heard.
    pub fn all(&self) -> &[Client]
        ensures all { result.now ≡ self.now.known }
        ensures once { EachClientOnce self.now.known }
        ensures each { AreFewOfEachIp self.now.known }
        ensures few { length self.now.known ≤ self.now.max_clients }
        ensures max_clients { self.now.max_clients ≤ max_server_clients }
    {
        &self.known
    }

    /// Forgets the clients that were silent for five minutes.
    pub fn age(&mut self, now: u64)
        ensures left { self.new ≡ record self.old { known = clients_left now self.old.known } }
        ensures few { length self.new.known ≤ self.new.max_clients }
        ensures once { EachClientOnce self.new.known }
    {
        leave_out_silent(&mut self.known, now);
    }

    /// The client at an address.
    pub fn at(&self, place: SocketAddrV4) -> Option<Client>
        ensures { result ≡ client_at place self.now.known }
    {
        find_place(&self.known, place).copied()
    }

    /// The client of a node.
    pub fn of_node(&self, node: Node) -> Option<Client>
        ensures { result ≡ client_of_node node self.now.known }
    {
        find_node(&self.known, node).copied()
    }

    /// Whether a client has the IP address of a place.
    pub fn has_ip_of(&self, place: SocketAddrV4) -> bool
        ensures { result ≡ is_some (find (is_client_of_ip place) self.now.known) }
    {
        find_of_ip(&self.known, place).is_some()
    }

    /// Whether there is no room for one more of the IP address of a place: it has as many clients
    /// as one may have, all heard within the last minute.
    pub fn is_address_full(&self, place: SocketAddrV4, now: u64) -> bool
        ensures { result ≡ is_address_full now place self.now.known }
    {
        match one_that_goes(&self.known, place) {
            Some(first) => now.saturating_sub(first.heard) < REPLACED_AFTER_MS,
            None => false,
        }
    }

    /// Whether there is no room for one more: there are as many as allowed, all heard within the
    /// last minute.
    pub fn is_full(&self, now: u64) -> bool
        ensures { result ≡ is_server_full self.now.max_clients now self.now.known }
    {
        if self.known.len() < self.max_clients {
            return false;
        }
        match self.known.first() {
            Some(first) => now.saturating_sub(first.heard) < REPLACED_AFTER_MS,
            None => true,
        }
    }

    /// A new client sent from an address where none is known, by a node that no other client has.
    /// If its IP address has too many, or if there are too many, the one heard before the others is
    /// removed.
    pub fn put(&mut self, node: Node, place: SocketAddrV4, now: u64)
        requires no_client { client_at place self.old.known ≡ None }
        requires free { client_of_node node self.old.known ≡ None }
        ensures put { self.new ≡ record self.old {
          known = clients_with self.old.max_clients node place now self.old.known;
        } }
        ensures few { length self.new.known ≤ self.new.max_clients }
    {
        let goes = one_that_goes(&self.known, place);
        leave_out_one(&mut self.known, goes);
        make_space(&mut self.known, self.max_clients);
        let last = self.known.len();
        let client = Client {
            node,
            place,
            since: now,
            heard: now,
        };
        self.known.insert(last, client).unwrap();
    }

    /// The client at an address is heard, if one is known there.
    pub fn hear(&mut self, place: SocketAddrV4, now: u64)
        ensures heard { self.new ≡ record self.old {
          known = clients_heard place now self.old.known;
        } }
        ensures few { length self.new.known ≤ self.new.max_clients }
    {
        let Some(client) = self.at(place) else {
            return;
        };
        leave_out_known(&mut self.known, place);
        let last = self.known.len();
        let client = Client {
            heard: now,
            ..client
        };
        self.known.insert(last, client).unwrap();
    }
}
