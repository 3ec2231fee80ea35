//! The events of a network.

use crate::place::Place;
use ipx_wire::{Address, Network, Node, Socket};
use spx_messages::Message;

/// Something that can be polled: a host or a router, by its number from 0.
#[derive(Clone, Copy, Debug, PartialEq, Eq)]
pub enum Member {
    Host(usize),
    Router(usize),
}

/// One step of a network. Ends and parcels are numbered from 0, in the order in which they were
/// made.
#[derive(Drop)]
pub enum Event {
    /// A host asks for a connection from one of its sockets to an address. The caller must pass 1 to
    /// 8,192 buffers.
    Dial {
        host: usize,
        socket: Socket,
        to: Address,
        buffers: u16,
    },
    /// A message is handed in at an end, to be sent.
    Send {
        who: usize,
        message: Message,
    },
    /// A unit is taken from an end.
    Take {
        who: usize,
    },
    /// An end is asked to end its connection.
    Close {
        who: usize,
    },
    /// Limits the outstanding units of an end's link to a window, and sets whether it retransmits
    /// by time or manually. No end refuses it.
    Pace {
        who: usize,
        window: u16,
        manual: bool,
    },
    /// Asks an end's link to retransmit the unit at an index. No end refuses it.
    Again {
        who: usize,
        place: u16,
    },
    /// An end is released, with its link.
    Release {
        who: usize,
    },
    /// Sets the time, in milliseconds.
    Tick {
        now: u64,
    },
    /// A host or a router is polled for packets to send.
    Poll {
        member: Member,
    },
    /// A parcel is delivered to a place on its network.
    Deliver {
        parcel: usize,
        place: Place,
    },
    /// A packet is injected from outside.
    Inject {
        segment: Network,
        next: Node,
        bytes: Vec<u8>,
    },
}
