//! The entries of a log.

use spx_messages::Message;

/// A unit that was taken: its datastream type, whether it ends a message, and its data, which take
/// no more space than their bytes.
#[derive(Drop)]
pub struct TakenUnit {
    pub stream: u8,
    pub last: bool,
    pub body: Vec<u8>,
}

/// What happened in a network, one thing at a time. Ends, parcels, hosts and routers are numbered
/// from 0. `who` is an end.
#[derive(Drop)]
pub enum Entry {
    /// A host opened an end. Its link has so many buffers.
    Opened {
        who: usize,
        host: usize,
        buffers: u16,
    },
    /// A request made an end.
    Accepted {
        who: usize,
        parcel: usize,
        buffers: u16,
    },
    /// The reply to its request arrived at an end.
    Joined {
        who: usize,
        parcel: usize,
    },
    /// A message was handed in at an end, to be sent.
    HandIn {
        who: usize,
        message: Message,
    },
    /// A complete message was handed out by an end.
    HandOut {
        who: usize,
        message: Message,
    },
    /// A unit was taken from an end.
    UnitTaken {
        who: usize,
        unit: TakenUnit,
    },
    /// An end was asked to end its connection.
    EndAsked {
        who: usize,
    },
    /// An end has read a packet.
    Got {
        who: usize,
        parcel: usize,
    },
    /// An end was released.
    Released {
        who: usize,
    },
    /// An end sent a unit for the first time.
    Unit {
        who: usize,
        parcel: usize,
    },
    /// An end retransmitted a unit.
    Again {
        who: usize,
        parcel: usize,
    },
    /// An end sent a packet without a unit.
    System {
        who: usize,
        parcel: usize,
    },
    /// A router sent a packet that it made itself.
    Told {
        router: usize,
        parcel: usize,
    },
    /// A router forwarded a packet.
    Carried {
        from: usize,
        parcel: usize,
    },
    /// A packet was injected from outside.
    Injected {
        parcel: usize,
    },
}
