//! Bytes that are sent from one end of a connection to the other.

ghost use Rattle.std.specs.Prelude.{◌≡◌, ◌≤◌, ◌<◌, All, IfOk, length};
ghost use Rattle.spx_link.specs.Limits.{end_stream};
ghost use Rattle.spx_link.specs.Links.{IsLive};

use crate::digest::{mixed, spx_digest, unit_digest};
use crate::pair::{End, Pair, ROOM};
use ipx_wire::{Fragment, OutOfMemory, SPX_MAX_DATA_SIZE, decode_spx};
use spx_link::Unit;
use std::alloc::{AllocError, Global};

/// Adds a unit of these bytes, built in place. What does not fit is left out.
fn push_unit(units: &mut Vec<Unit>, piece: &[u8], stream: u8, last: bool) -> Result<(), AllocError>
    requires { stream < end_stream }
    ensures { All (λ u. u.stream < end_stream) units.old.items
        → All (λ u. u.stream < end_stream) units.new.items }
{
    units.reserve(1)?;
    units.push_reserved(Unit {
        stream,
        last,
        body: Fragment::new(),
    });
    if let Some(unit) = units.last_mut() {
        let _ = unit.body.try_extend_from_slice(piece);
    }
    Ok(())
}

/// Splits bytes into units of a size, each with this stream and this mark.
pub fn cut(
    alloc: Global,
    bytes: &[u8],
    size: usize,
    stream: u8,
    last: bool,
) -> Result<Vec<Unit>, OutOfMemory>
    requires size { 1 ≤ size }
    requires stream { stream < end_stream }
    ensures { IfOk result (λ v. All (λ u. u.stream < end_stream) v.items) }
{
    let mut units = Vec::with_capacity(alloc, bytes.len().div_ceil(size))?;
    for piece in bytes.chunks(size) {
        push_unit(&mut units, piece, stream, last)?;
    }
    Ok(units)
}

/// Carries one packet from an end to another, and returns its digest and that of its outcome.
fn carry(from: &mut End, to: &mut End, packet: &mut [u8; ROOM], now: u64) -> Option<u64>
    requires from { IsLive from.old.links from.old.id }
    requires to { IsLive to.old.links to.old.id }
    ensures from { IsLive from.new.links from.new.id }
    ensures to { IsLive to.new.links to.new.id }
{
    let (what, count) = from.send(now, packet)?;
    let Ok((header, body)) = decode_spx(&packet[..count]) else {
        return None;
    };
    let digest = mixed(what as u64, spx_digest(&header, body));
    let received = to.receive(&header, body, now);
    Some(mixed(digest, u64::from(received)))
}

/// Carries packets from an end to another, until there is none to send.
fn carry_all(from: &mut End, to: &mut End, packet: &mut [u8; ROOM], now: u64) -> u64
    requires from { IsLive from.old.links from.old.id }
    requires to { IsLive to.old.links to.old.id }
    ensures from { IsLive from.new.links from.new.id }
    ensures to { IsLive to.new.links to.new.id }
{
    let mut digest = 0;
    for _ in 0..u16::MAX {
        match carry(from, to, packet, now) {
            Some(carried) => digest = mixed(digest, carried),
            None => break,
        }
    }
    digest
}

/// Takes all units that an end holds. Returns how many there are, and their digest.
fn take_all(end: &mut End) -> (u16, u64)
    requires { IsLive end.old.links end.old.id }
    ensures { IsLive end.new.links end.new.id }
{
    let mut digest = 0;
    for count in 0..u16::MAX {
        match end.links.take(end.id) {
            Some(unit) => digest = mixed(digest, unit_digest(&unit)),
            None => return (count, digest),
        }
    }
    (u16::MAX, digest)
}

/// Carries packets in both directions, and takes what arrived, until nothing arrives.
fn pump(pair: &mut Pair, turns: usize, now: u64) -> u64
    requires near { IsLive pair.old.near.links pair.old.near.id }
    requires far { IsLive pair.old.far.links pair.old.far.id }
    ensures near { IsLive pair.new.near.links pair.new.near.id }
    ensures far { IsLive pair.new.far.links pair.new.far.id }
{
    let mut packet = [0; ROOM];
    let mut digest = 0;
    for _ in 0..turns {
        let sent = carry_all(&mut pair.near, &mut pair.far, &mut packet, now);
        let (count, taken) = take_all(&mut pair.far);
        let answered = carry_all(&mut pair.far, &mut pair.near, &mut packet, now);
        digest = mixed(mixed(mixed(digest, sent), taken), answered);
        if count == 0 {
            break;
        }
    }
    digest
}

/// Offers bytes to the near end in one call, and carries them to the far one.
fn pass(alloc: Global, pair: &mut Pair, bytes: &[u8], now: u64) -> Result<u64, OutOfMemory>
    requires near { IsLive pair.old.near.links pair.old.near.id }
    requires far { IsLive pair.old.far.links pair.old.far.id }
    ensures near { IsLive pair.new.near.links pair.new.near.id }
    ensures far { IsLive pair.new.far.links pair.new.far.id }
{
    let units = cut(alloc, bytes, SPX_MAX_DATA_SIZE, 0, false)?;
    match pair.near.links.offer(alloc, pair.near.id, units) {
        Ok(()) => Ok(pump(pair, bytes.len(), now)),
        Err(_) => Err(OutOfMemory),
    }
}

/// Sends bytes, of which one call offers `offered`. Returns the digest of what passed.
fn pass_all(alloc: Global, pair: &mut Pair, bytes: &[u8], offered: usize, now: u64) -> u64
    requires near { IsLive pair.old.near.links pair.old.near.id }
    requires far { IsLive pair.old.far.links pair.old.far.id }
    requires offered { 1 ≤ offered }
    ensures near { IsLive pair.new.near.links pair.new.near.id }
    ensures far { IsLive pair.new.far.links pair.new.far.id }
{
    let mut digest = 0;
    for part in bytes.chunks(offered) {
        digest = mixed(digest, pass(alloc, pair, part, now).unwrap_or(3));
    }
    digest
}

/// Sends bytes from one end of a connection to the other, again and again, each time later. One
/// call offers `offered` of them.
///
/// Returns the digest of all packets, of their outcomes, and of the units taken.
#[unsafe(no_mangle)]
pub extern "C" fn ipx_bench_pass(
    alloc: Global,
    bytes: &[u8],
    offered: usize,
    buffers: u16,
    rounds: u32,
) -> u64 {
    if offered == 0 {
        return 0;
    }
    let Ok(mut pair) = Pair::new(alloc, buffers) else {
        return 0;
    };
    let mut digest = pump(&mut pair, 1, 0);
    for round in 0..rounds {
        let passed = pass_all(alloc, &mut pair, bytes, offered, u64::from(round));
        digest = mixed(digest, passed);
    }
    digest
}
