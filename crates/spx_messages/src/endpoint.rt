//! The endpoint of a host.

ghost use Rattle.std.specs.Prelude.{◌≡◌, ◌<◌, ◌≤◌, ℕ, IfOk, None, OnErr, OnOk};
ghost use Rattle.spx_messages.specs.Changes.{Listens, SameBut};
ghost use Rattle.spx_link.specs.Links.{count_of};
ghost use Rattle.spx_messages.specs.EndpointView.{buffers_at, held_at};
ghost use Rattle.ipx_wire.specs.declared.address.Socket.{Socket};

use crate::listening::{Listener, add_listener};
use crate::parts::Part;
use ipx_wire::{Network, Node, OutOfMemory, Socket};
use spx_link::{Links, Sent};
use std::alloc::Global;
use std::marker::Model;

/// The connections of a host: its links by their ids, and the partial messages.
///
/// Times are in milliseconds and are passed in. `poll` gives its packets, and `receive` reads
/// datagrams.
#[derive(Drop)]
pub struct Endpoint {
    pub(crate) network: Network,
    pub(crate) node: Node,
    pub(crate) router: Node,
    pub(crate) listening: Vec<Listener>,
    pub(crate) links: Links,
    pub(crate) parts: Vec<Part>,
    pub(crate) sent: Option<(u16, Sent)>,
    pub(crate) heard: Option<u16>,
}

impl Model for Endpoint {
    ghost use Rattle.spx_messages.specs.EndpointView.{EndpointView};

    ghost Value = { EndpointView };

    ghost view = { λ e. record {
      network = e.network;
      node = e.node;
      router = e.router;
      listening = e.listening.items;
      links = e.links;
      parts = e.parts.items;
      said = e.sent;
      heard = e.heard;
    } };
}

impl Endpoint {
    /// The endpoint of a host with this network and node. Its packets for other networks go to the
    /// node `router`. It allocates nothing.
    pub fn new(alloc: Global, network: Network, node: Node, router: Node) -> Endpoint
        ensures network { result.network ≡ network }
        ensures node { result.node ≡ node }
        ensures router { result.router ≡ router }
        ensures nobody { (id : ℕ) → held_at result id ≡ None }
        ensures last { result.links.last ≡ 0 }
        ensures count { count_of result.links ≡ 0 }
        ensures no_listener { (socket : Socket) → buffers_at result socket ≡ None }
        ensures said { result.said ≡ None }
        ensures heard { result.heard ≡ None }
    {
        Endpoint {
            network,
            node,
            router,
            listening: Vec::new(alloc),
            links: Links::new(alloc),
            parts: Vec::new(alloc),
            sent: None,
            heard: None,
        }
    }

    /// Accepts connections at a socket from now on, each with so many buffers. The caller must pass 1 to
    /// 8,192 buffers. If the socket listens already, its number of buffers is replaced, and nothing
    /// is allocated.
    pub fn listen(
        &mut self,
        _alloc: Global,
        socket: Socket,
        buffers: u16,
    ) -> Result<(), OutOfMemory>
        ensures ok { OnOk result (Listens self.old self.new socket buffers) }
        ensures unchanged { OnErr result (SameBut self.old self.new) }
        ensures memory { OnErr result (buffers_at self.old socket ≡ None) }
        ensures said { self.new.said ≡ self.old.said }
        ensures heard { self.new.heard ≡ self.old.heard }
    {
        add_listener(&mut self.listening, socket, buffers)
    }
}
