//! Numbers that depend on the result of a call, so that no call can be optimized away.

use crate::faults::reason_number;
use ipx_router::{InPlace, Outcome, Reply};
use ipx_wire::{Address, Node, Packet, SpxHeader};
use spx_link::{Sent, Unit};
use spx_messages::{Arrived, Message};

/// The digest of what came before and one number more.
pub fn mixed(digest: u64, number: u64) -> u64 {
    digest.wrapping_mul(31).wrapping_add(number)
}

fn node_number(node: Node) -> u64 {
    let Node([a, b, c, d, e, f]) = node;
    u64::from_be_bytes([0, 0, a, b, c, d, e, f])
}

fn address_digest(address: Address) -> u64 {
    let place = u64::from(address.network.0) ^ node_number(address.node);
    mixed(place, u64::from(address.socket.0))
}

/// The digest of each field of a packet.
pub fn packet_digest(packet: &Packet<'_>) -> u64 {
    let header = packet.header;
    let kinds = u64::from(u16::from_be_bytes([header.hops, header.kind]));
    let ends = address_digest(header.to) ^ address_digest(header.from);
    mixed(kinds ^ ends, packet.body.len() as u64)
}

fn byte_at(bytes: &[u8], at: usize) -> u64 {
    bytes.get(at).copied().map_or(0, u64::from)
}

/// The digest of a packet that leaves.
fn sent_digest(port: u8, next: Node, bytes: &[u8]) -> u64 {
    let count = bytes.len();
    let ends = byte_at(bytes, 4) ^ byte_at(bytes, count.saturating_sub(1));
    let place = mixed(u64::from(port), node_number(next));
    mixed(place ^ ends, count as u64)
}

fn reply_digest(reply: &Reply) -> u64 {
    sent_digest(reply.port, reply.next, &reply.bytes)
}

/// The digest of a text: its length, and some of its bytes.
pub fn bytes_digest(bytes: &[u8]) -> u64 {
    let count = bytes.len();
    let ends = mixed(byte_at(bytes, 9), byte_at(bytes, count / 2));
    mixed(ends, count as u64)
}

/// The digest of packets that leave.
pub fn replies_digest(replies: &[Reply]) -> u64 {
    let mut digest = 0;
    for reply in replies {
        digest = mixed(digest, reply_digest(reply));
    }
    digest
}

/// The digest of the outcome of a datagram.
pub fn outcome_digest(outcome: &Outcome) -> u64 {
    match outcome {
        Outcome::Forward(reply) => reply_digest(reply),
        Outcome::Replies(replies) => replies_digest(replies),
        Outcome::Heard(count) => mixed(4, u64::from(*count)),
        Outcome::Dropped(reason) => u64::from(reason_number(*reason)),
    }
}

/// The digest of the outcome of a datagram that was changed in place, from the bytes that are there
/// then.
pub fn in_place_digest(outcome: &InPlace, room: &[u8]) -> u64 {
    match outcome {
        InPlace::Forward { port, next, count } => match room.get(..*count) {
            Some(packet) => sent_digest(*port, *next, packet),
            None => 3,
        },
        InPlace::Replies(replies) => replies_digest(replies),
        InPlace::Heard(count) => mixed(4, u64::from(*count)),
        InPlace::Dropped(reason) => u64::from(reason_number(*reason)),
    }
}

/// The digest of some bytes: how many there are, and the first and last of them.
fn ends_digest(bytes: &[u8]) -> u64 {
    let count = bytes.len();
    let ends = byte_at(bytes, 0) ^ byte_at(bytes, count.saturating_sub(1));
    mixed(ends, count as u64)
}

/// The digest of each field of a packet of a connection, and of its data.
pub fn spx_digest(header: &SpxHeader, body: &[u8]) -> u64 {
    let marks = mixed(
        u64::from(header.system),
        mixed(u64::from(header.wants_ack), u64::from(header.last)),
    );
    let kind = mixed(marks, u64::from(header.stream));
    let ids = mixed(u64::from(header.from_id), u64::from(header.to_id));
    let counts = mixed(u64::from(header.seq), u64::from(header.ack));
    let numbers = mixed(counts, u64::from(header.limit));
    mixed(kind ^ ids ^ numbers, ends_digest(body))
}

/// The digest of a unit.
pub fn unit_digest(unit: &Unit) -> u64 {
    let kind = mixed(u64::from(unit.stream), u64::from(unit.last));
    mixed(kind, ends_digest(unit.body.as_slice()))
}

/// The digest of a datagram that a host gave: its next node, its connection and kind, and its bytes
/// at some positions.
pub fn given_digest(next: Node, sent: Option<(u16, Sent)>, datagram: &[u8]) -> u64 {
    let what = match sent {
        Some((id, what)) => mixed(u64::from(id), what as u64),
        None => 0,
    };
    let sequence = mixed(byte_at(datagram, 36), byte_at(datagram, 37));
    let place = mixed(node_number(next), what);
    mixed(place ^ sequence, ends_digest(datagram))
}

/// The digest of the outcome of a datagram at a host.
pub fn arrived_digest(arrived: &Arrived) -> u64 {
    match arrived {
        Arrived::Bad(fault) => u64::from(fault.number()),
        Arrived::NotOurs => 20,
        Arrived::BadSpx(fault) => u64::from(fault.number()),
        Arrived::NoListener => 21,
        Arrived::NoRoom => 22,
        Arrived::Stranger => 23,
        Arrived::Accepted(id) => mixed(24, u64::from(*id)),
        Arrived::Link(id, received) => mixed(u64::from(*id), *received as u64),
    }
}

/// The digest of a message.
pub fn message_digest(message: &Message) -> u64 {
    mixed(u64::from(message.stream), ends_digest(&message.body))
}
