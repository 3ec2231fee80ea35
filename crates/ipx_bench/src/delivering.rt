//! Messages that are sent from one host to the other.

ghost use Rattle.std.specs.Prelude.{◌≤◌};

use crate::digest::{arrived_digest, given_digest, message_digest, mixed};
use crate::hosts::{Hosts, ID, ROOM};
use ipx_wire::OutOfMemory;
use spx_messages::{Endpoint, Message, Taken};
use std::alloc::Global;

/// Splits bytes into messages of a size.
pub fn messages_of(alloc: Global, bytes: &[u8], size: usize) -> Result<Vec<Message>, OutOfMemory>
    requires { 1 ≤ size }
{
    let mut messages = Vec::new(alloc);
    for piece in bytes.chunks(size) {
        let body = Vec::from_slice(alloc, piece)?;
        messages.push(Message { stream: 0, body })?;
    }
    Ok(messages)
}

/// Carries one datagram from a host to the other, and returns its digest and that of its outcome.
fn carry(
    alloc: Global,
    from: &mut Endpoint,
    to: &mut Endpoint,
    room: &mut [u8; ROOM],
    now: u64,
) -> Option<u64> {
    let (next, count) = from.poll(now, room)?;
    let datagram = room.get(..count)?;
    let given = given_digest(next, from.sent(), datagram);
    let Ok(arrived) = to.receive(alloc, datagram, now) else {
        return None;
    };
    Some(mixed(given, arrived_digest(&arrived)))
}

/// Carries datagrams from a host to the other, until there is none to send.
fn carry_all(
    alloc: Global,
    from: &mut Endpoint,
    to: &mut Endpoint,
    room: &mut [u8; ROOM],
    now: u64,
) -> u64 {
    let mut digest = 0;
    for _ in 0..u16::MAX {
        match carry(alloc, from, to, room, now) {
            Some(carried) => digest = mixed(digest, carried),
            None => break,
        }
    }
    digest
}

/// Takes all that a host holds. Returns how many units that is, and the digest of the messages.
fn take_all(alloc: Global, host: &mut Endpoint) -> (u16, u64) {
    let mut digest = 0;
    for count in 0..u16::MAX {
        match host.take(alloc, ID) {
            Ok(Taken::Part) => {}
            Ok(Taken::Whole(message)) => digest = mixed(digest, message_digest(&message)),
            _ => return (count, digest),
        }
    }
    (u16::MAX, digest)
}

/// Carries datagrams in both directions, and takes what arrived, until nothing arrives.
fn pump(alloc: Global, hosts: &mut Hosts, turns: usize, now: u64) -> u64 {
    let mut room = [0; ROOM];
    let mut digest = 0;
    for _ in 0..turns {
        let sent = carry_all(alloc, &mut hosts.near, &mut hosts.far, &mut room, now);
        let (count, taken) = take_all(alloc, &mut hosts.far);
        let answered = carry_all(alloc, &mut hosts.far, &mut hosts.near, &mut room, now);
        digest = mixed(mixed(mixed(digest, sent), taken), answered);
        if count == 0 {
            break;
        }
    }
    digest
}

/// Sends a message from the near host, and carries it to the far one.
fn deliver(alloc: Global, hosts: &mut Hosts, message: &Message, now: u64) -> u64 {
    match hosts.near.send(alloc, ID, message) {
        Ok(()) => pump(alloc, hosts, message.body.len(), now),
        Err(fault) => u64::from(fault.number()),
    }
}

fn deliver_all(alloc: Global, hosts: &mut Hosts, messages: &[Message], now: u64) -> u64 {
    let mut digest = 0;
    for message in messages {
        digest = mixed(digest, deliver(alloc, hosts, message, now));
    }
    digest
}

/// Sends bytes in messages of a size from one host to the other, again and again, each time later.
///
/// Returns the digest of all datagrams, of their outcomes, and of the messages taken.
#[unsafe(no_mangle)]
pub extern "C" fn ipx_bench_deliver(
    alloc: Global,
    bytes: &[u8],
    size: usize,
    buffers: u16,
    rounds: u32,
) -> u64 {
    if size == 0 {
        return 0;
    }
    let (Ok(mut hosts), Ok(messages)) = (
        Hosts::new(alloc, buffers),
        messages_of(alloc, bytes, size),
    ) else {
        return 0;
    };
    let mut digest = pump(alloc, &mut hosts, 1, 0);
    for round in 0..rounds {
        let delivered = deliver_all(alloc, &mut hosts, &messages, u64::from(round));
        digest = mixed(digest, delivered);
    }
    digest
}
