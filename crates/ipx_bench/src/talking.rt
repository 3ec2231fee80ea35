//! What two hosts send to each other, written out as bytes, to be compared with two other hosts.

ghost use Rattle.std.specs.Prelude.{◌≤◌};

use crate::delivering::messages_of;
use crate::digest::arrived_digest;
use crate::hosts::{Hosts, ID, ROOM};
use ipx_wire::OutOfMemory;
use spx_messages::{Endpoint, Message, Taken};
use std::alloc::Global;

/// The time between two turns, in milliseconds: an unacknowledged unit is then due.
const LATER: u64 = 600;

/// How many turns a message has.
const TURNS: u64 = 600;

fn write_bytes(out: &mut Vec<u8>, bytes: &[u8]) -> Result<(), OutOfMemory> {
    let count = bytes.len() as u64;
    out.extend_from_slice(&count.to_be_bytes())?;
    out.extend_from_slice(bytes)?;
    Ok(())
}

/// Hands a datagram to a host, and writes its outcome.
fn hand_over(
    alloc: Global,
    to: &mut Endpoint,
    datagram: &[u8],
    now: u64,
    out: &mut Vec<u8>,
) -> Result<(), OutOfMemory> {
    let arrived = to.receive(alloc, datagram, now)?;
    out.extend_from_slice(&arrived_digest(&arrived).to_be_bytes())?;
    out.push(u8::from(to.heard() == Some(ID)))?;
    Ok(())
}

/// Carries one datagram from a host to the other, and writes it. If `altered`, a copy with one bit
/// of its headers flipped comes first. Returns false if there is none to send.
fn carry(
    alloc: Global,
    from: &mut Endpoint,
    to: &mut Endpoint,
    altered: bool,
    now: u64,
    out: &mut Vec<u8>,
) -> Result<bool, OutOfMemory> {
    let mut room = [0; ROOM];
    let Some((next, count)) = from.poll(now, &mut room) else {
        return Ok(false);
    };
    out.extend_from_slice(&next.0)?;
    write_bytes(out, room.get(..count).unwrap_or(&[]))?;
    if altered {
        let bit = out.len() % 336;
        let mut other = room;
        other[bit / 8] ^= 1 << (bit % 8);
        hand_over(alloc, to, other.get(..count).unwrap_or(&[]), now, out)?;
    }
    hand_over(alloc, to, room.get(..count).unwrap_or(&[]), now, out)?;
    Ok(true)
}

fn carry_all(
    alloc: Global,
    from: &mut Endpoint,
    to: &mut Endpoint,
    altered: bool,
    now: u64,
    out: &mut Vec<u8>,
) -> Result<(), OutOfMemory> {
    for _ in 0..u16::MAX {
        if !carry(alloc, from, to, altered, now, out)? {
            break;
        }
    }
    Ok(())
}

/// Takes a unit, and writes the result. Returns false if no unit was held.
fn take(alloc: Global, host: &mut Endpoint, out: &mut Vec<u8>) -> Result<bool, OutOfMemory> {
    match host.take(alloc, ID) {
        Ok(Taken::Nothing) => return Ok(false),
        Ok(Taken::Part) => out.push(b'P')?,
        Ok(Taken::Whole(message)) => {
            out.extend_from_slice(&[b'W', message.stream])?;
            write_bytes(out, &message.body)?;
        }
        Ok(Taken::PeerEnd) => out.push(b'E')?,
        Err(fault) => {
            out.push(fault.number())?;
            return Ok(false);
        }
    }
    Ok(true)
}

fn take_all(alloc: Global, host: &mut Endpoint, out: &mut Vec<u8>) -> Result<(), OutOfMemory> {
    for _ in 0..u16::MAX {
        if !take(alloc, host, out)? {
            break;
        }
    }
    Ok(())
}

/// Carries datagrams in both directions, and takes what arrived, in some turns from a time on.
fn turns(
    alloc: Global,
    hosts: &mut Hosts,
    altered: bool,
    from: u64,
    count: u64,
    out: &mut Vec<u8>,
) -> Result<(), OutOfMemory> {
    for turn in 0..count {
        let now = from.saturating_add(turn.saturating_mul(LATER));
        let Hosts { near, far } = hosts;
        carry_all(alloc, near, far, altered, now, out)?;
        take_all(alloc, far, out)?;
        carry_all(alloc, far, near, altered, now, out)?;
        take_all(alloc, near, out)?;
    }
    Ok(())
}

/// Sends a message from the near host, and writes whether it was accepted.
fn send(
    alloc: Global,
    near: &mut Endpoint,
    message: &Message,
    out: &mut Vec<u8>,
) -> Result<(), OutOfMemory> {
    let sent = match near.send(alloc, ID, message) {
        Ok(()) => 0,
        Err(fault) => fault.number(),
    };
    out.push(sent)?;
    Ok(())
}

/// What two hosts send as messages are sent, one after another.
fn say(
    alloc: Global,
    hosts: &mut Hosts,
    messages: &[Message],
    altered: bool,
    out: &mut Vec<u8>,
) -> Result<(), OutOfMemory> {
    let mut now = 0;
    turns(alloc, hosts, altered, now, 1, out)?;
    for message in messages {
        send(alloc, &mut hosts.near, message, out)?;
        turns(alloc, hosts, altered, now, TURNS, out)?;
        now = now.saturating_add(TURNS * LATER);
    }
    Ok(())
}

/// What two new hosts with this many buffers send as messages are sent, one after another.
fn talk(
    alloc: Global,
    messages: &[Message],
    buffers: u16,
    altered: bool,
) -> Result<Vec<u8>, OutOfMemory> {
    let mut hosts = Hosts::new(alloc, buffers)?;
    let mut out = Vec::new(alloc);
    say(alloc, &mut hosts, messages, altered, &mut out)?;
    Ok(out)
}

/// Writes what two new hosts send as bytes are sent in messages of a size. Returns how many bytes
/// that takes, or 0 if out of memory. Nothing is written if it does not fit.
#[unsafe(no_mangle)]
pub extern "C" fn ipx_bench_talk(
    alloc: Global,
    bytes: &[u8],
    size: usize,
    buffers: u16,
    altered: u8,
    out: &mut [u8],
) -> usize {
    if size == 0 {
        return 0;
    }
    let Ok(messages) = messages_of(alloc, bytes, size) else {
        return 0;
    };
    let Ok(answers) = talk(alloc, &messages, buffers, altered != 0) else {
        return 0;
    };
    if answers.len() <= out.len() {
        out[..answers.len()].copy_from_slice(&answers);
    }
    answers.len()
}
