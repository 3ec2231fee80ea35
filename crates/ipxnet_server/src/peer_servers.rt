//! The routers that a server is joined to, and their clients.

ghost use Rattle.std.specs.Prelude.{◌≡◌, ◌≤◌, ◌<◌, ◌+◌, ◌-◌, [], IfOk, None, drop, filter, find, length, not, option_copied, true};
ghost use Rattle.std.specs.Vec.{vec_capacity, vec_len};
ghost use Rattle.ipxnet_server.specs.PeerServers.{remote_client_of, remote_clients_but, remote_clients_heard, remote_clients_left, has_remote_node, is_joined_place, max_remote_clients};

use ipx_wire::Node;
use std::alloc::{AllocError, Global};
use std::marker::Model;
use std::net::SocketAddrV4;

/// How many clients of joined routers are known at most.
pub const MAX_REMOTE_CLIENTS: usize = 1024;

/// A client of a joined router is forgotten after this many milliseconds of silence: a day.
pub const REMOTE_FORGOTTEN_AFTER_MS: u64 = 86_400_000;

/// A client of a joined router.
#[derive(Clone, Copy, Debug, PartialEq, Eq)]
pub struct RemoteClient {
    /// Its node, as that router showed.
    pub node: Node,
    /// The router's address.
    pub router: SocketAddrV4,
    /// When it was last heard, in ms.
    pub heard: u64,
}

/// The routers that a server is joined to, and their clients, in the order in which these were last
/// heard.
#[derive(Drop)]
pub struct Joined {
    routers: Vec<SocketAddrV4>,
    far: Vec<RemoteClient>,
}

impl Model for Joined {
    ghost use Rattle.std.specs.Vec.{vec_capacity};
    ghost use Rattle.ipxnet_server.specs.ServerInside.{AreRemoteClients, JoinedView};

    ghost Value = { JoinedView };

    ghost view = { λ j. record { routers = j.routers.items; far = j.far.items } };

    ghost invariant = { λ j. AreRemoteClients j.routers.items j.far.items (vec_capacity j.far) };
}

/// Whether one of these is at an address.
fn is_one(routers: &[SocketAddrV4], place: SocketAddrV4) -> bool
    ensures { result ≡ is_joined_place place routers.now }
{
    routers.iter().any(|router| *router == place)
}

/// Removes the client of a node.
fn leave_out(far: &mut Vec<RemoteClient>, node: Node)
    ensures items { far.new.items ≡ remote_clients_but node far.old.items }
    ensures fewer { vec_len far.new ≤ vec_len far.old }
    ensures capacity { vec_capacity far.new ≡ vec_capacity far.old }
{
    far.retain(|client| client.node != node);
}

/// Removes the clients that were silent for a day.
fn leave_out_silent(far: &mut Vec<RemoteClient>, now: u64)
    ensures items { far.new.items ≡ remote_clients_left now far.old.items }
    ensures fewer { vec_len far.new ≤ vec_len far.old }
    ensures capacity { vec_capacity far.new ≡ vec_capacity far.old }
{
    far.retain(|client| now.saturating_sub(client.heard) < REMOTE_FORGOTTEN_AFTER_MS);
}

/// Removes the client that was heard before all others, if there is no room for another.
fn make_space(far: &mut Vec<RemoteClient>)
    requires { vec_len far.old ≤ max_remote_clients }
    ensures items { far.new.items
        ≡ drop (length far.old.items + 1 - max_remote_clients) far.old.items }
    ensures room { vec_len far.new < max_remote_clients }
    ensures capacity { vec_capacity far.new ≡ vec_capacity far.old }
{
    if far.len() == MAX_REMOTE_CLIENTS {
        far.remove(0);
    }
}

/// The client of a node.
fn find_node(far: &[RemoteClient], node: Node) -> Option<&RemoteClient>
    ensures { option_copied result ≡ find (has_remote_node node) far.now }
{
    far.iter().find(|client| client.node == node)
}

impl Joined {
    /// These routers, and none of their clients yet. This takes the memory for all of those.
    pub fn new(alloc: Global, routers: Vec<SocketAddrV4>) -> Result<Joined, AllocError>
        ensures { IfOk result (λ j. j ≡ record { routers = routers.items; far = [] }) }
    {
        let far = Vec::with_capacity(alloc, MAX_REMOTE_CLIENTS)?;
        Ok(Joined { routers, far })
    }

    /// The routers' addresses.
    pub fn routers(&self) -> &[SocketAddrV4]
        ensures { result.now ≡ self.now.routers }
    {
        &self.routers
    }

    /// Their clients, in the order in which they were last heard.
    pub fn remote_clients(&self) -> &[RemoteClient]
        ensures far { result.now ≡ self.now.far }
        ensures few { length self.now.far ≤ max_remote_clients }
        ensures none { self.now.routers ≡ [] → self.now.far ≡ [] }
    {
        &self.far
    }

    /// Whether one of the routers is at an address.
    pub fn has(&self, place: SocketAddrV4) -> bool
        ensures { result ≡ is_joined_place place self.now.routers }
    {
        is_one(&self.routers, place)
    }

    /// The client of a node.
    pub fn of_node(&self, node: Node) -> Option<RemoteClient>
        ensures { result ≡ remote_client_of node self.now.far }
    {
        find_node(&self.far, node).copied()
    }

    /// Forgets the clients that were silent for a day.
    pub fn age(&mut self, now: u64)
        ensures { self.new ≡ record self.old { far = remote_clients_left now self.old.far } }
    {
        leave_out_silent(&mut self.far, now);
    }

    /// The client of a node is at none of the routers.
    pub fn forget(&mut self, node: Node)
        ensures { self.new ≡ record self.old { far = remote_clients_but node self.old.far } }
    {
        leave_out(&mut self.far, node);
    }

    /// The client of a node is heard through the router at an address. If there are too many, the
    /// one heard before all others is removed.
    pub fn put(&mut self, node: Node, router: SocketAddrV4, now: u64)
        requires { is_joined_place router self.old.routers ≡ true }
        ensures { self.new ≡ record self.old {
          far = remote_clients_heard node router now self.old.far;
        } }
    {
        self.forget(node);
        make_space(&mut self.far);
        let last = self.far.len();
        let client = RemoteClient {
            node,
            router,
            heard: now,
        };
        self.far.insert(last, client).unwrap();
    }
}
