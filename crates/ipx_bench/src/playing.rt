//! A pair of links that is called as a script says, written out as bytes, to be compared with
//! another pair's answers.

ghost use Rattle.std.specs.Prelude.{◌≤◌, ◌<◌, ◌+◌, length};
ghost use Rattle.spx_link.specs.Limits.{end_stream};
ghost use Rattle.spx_link.specs.Links.{IsLive};

use crate::faults::spx_number;
use crate::pair::{End, Pair, ROOM};
use crate::passing::cut;
use ipx_wire::{OutOfMemory, decode_spx};
use spx_link::{OfferFault, Unit};
use std::alloc::Global;

/// How many bytes precede the bytes of an event. They are its kind, its end (0 the near one), its
/// time in 8 bytes, and how many bytes count in 2. Then come the size of a unit in 2, its stream,
/// and its mark (0 for none).
const LEAD: usize = 16;

/// The last stream for users.
const LAST_STREAM: u8 = 0xfd;

fn number_at(event: &[u8], at: usize) -> u16
    requires { at + 2 ≤ length event.now }
{
    u16::from_be_bytes([event[at], event[at + 1]])
}

fn moment_of(event: &[u8]) -> u64
    requires { 16 ≤ length event.now }
{
    let mut moment = [0; 8];
    moment.copy_from_slice(&event[2..10]);
    u64::from_be_bytes(moment)
}

/// The stream of the units of an event.
fn stream_of(event: &[u8]) -> u8
    requires { 16 ≤ length event.now }
    ensures { result < end_stream }
{
    event[14].min(LAST_STREAM)
}

/// The bytes of an event that count.
fn bytes_of(event: &[u8]) -> &[u8]
    requires { 16 ≤ length event.now }
{
    let count = usize::from(number_at(event, 10)).min(event.len() - LEAD);
    &event[LEAD..LEAD + count]
}

fn write_bytes(out: &mut Vec<u8>, bytes: &[u8]) -> Result<(), OutOfMemory> {
    let count = bytes.len() as u64;
    out.extend_from_slice(&count.to_be_bytes())?;
    out.extend_from_slice(bytes)?;
    Ok(())
}

fn write_unit(out: &mut Vec<u8>, unit: Option<&Unit>) -> Result<(), OutOfMemory> {
    let Some(unit) = unit else {
        out.push(0)?;
        return Ok(());
    };
    out.extend_from_slice(&[1, unit.stream, u8::from(unit.last)])?;
    write_bytes(out, unit.body.as_slice())
}

fn write_offered(out: &mut Vec<u8>, offered: Result<(), OfferFault>) -> Result<(), OutOfMemory> {
    let number = match offered {
        Ok(()) => 0,
        Err(fault) => fault.number(),
    };
    out.push(number)?;
    Ok(())
}

fn play_poll(end: &mut End, now: u64, out: &mut Vec<u8>) -> Result<(), OutOfMemory>
    requires { IsLive end.old.links end.old.id }
    ensures { IsLive end.new.links end.new.id }
{
    let mut packet = [0; ROOM];
    match end.send(now, &mut packet) {
        Some((what, count)) => {
            out.extend_from_slice(&[1, what as u8])?;
            write_bytes(out, &packet[..count])
        }
        None => {
            out.push(0)?;
            Ok(())
        }
    }
}

fn play_packet(end: &mut End, now: u64, bytes: &[u8], out: &mut Vec<u8>) -> Result<(), OutOfMemory>
    requires { IsLive end.old.links end.old.id }
    ensures { IsLive end.new.links end.new.id }
{
    let number = match decode_spx(bytes) {
        Ok((header, body)) => end.receive(&header, body, now),
        Err(fault) => spx_number(fault),
    };
    out.push(number)?;
    Ok(())
}

fn play_offer(
    alloc: Global,
    end: &mut End,
    event: &[u8],
    out: &mut Vec<u8>,
) -> Result<(), OutOfMemory>
    requires live { IsLive end.old.links end.old.id }
    requires whole { 16 ≤ length event.now }
    ensures { IsLive end.new.links end.new.id }
{
    let size = usize::from(number_at(event, 12).max(1));
    let last = event[15] != 0;
    let units = cut(alloc, bytes_of(event), size, stream_of(event), last)?;
    write_offered(out, end.links.offer(alloc, end.id, units))
}

fn play_take(end: &mut End, out: &mut Vec<u8>) -> Result<(), OutOfMemory>
    requires { IsLive end.old.links end.old.id }
    ensures { IsLive end.new.links end.new.id }
{
    write_unit(out, end.links.get(end.id).and_then(|link| link.peek()))?;
    let unit = end.links.take(end.id);
    write_unit(out, unit.as_ref())
}

/// Writes the state and the numbers of a link.
fn write_numbers(end: &End, out: &mut Vec<u8>) -> Result<(), OutOfMemory> {
    let Some(link) = end.links.get(end.id) else {
        return Ok(());
    };
    let numbers = link.numbers();
    out.push(link.state() as u8)?;
    out.extend_from_slice(&numbers.next.to_be_bytes())?;
    out.extend_from_slice(&numbers.out.to_be_bytes())?;
    out.extend_from_slice(&numbers.room.to_be_bytes())?;
    out.extend_from_slice(&numbers.expected.to_be_bytes())?;
    out.extend_from_slice(&numbers.held.to_be_bytes())?;
    out.extend_from_slice(&numbers.buffers.to_be_bytes())?;
    Ok(())
}

/// Makes the call of an event, and writes its answer and the numbers of the link.
fn play(alloc: Global, end: &mut End, event: &[u8], out: &mut Vec<u8>) -> Result<(), OutOfMemory>
    requires live { IsLive end.old.links end.old.id }
    requires whole { 16 ≤ length event.now }
    ensures { IsLive end.new.links end.new.id }
{
    let now = moment_of(event);
    let bytes = bytes_of(event);
    match event[0] {
        b'P' => play_poll(end, now, out)?,
        b'D' => play_packet(end, now, bytes, out)?,
        b'O' => play_offer(alloc, end, event, out)?,
        b'T' => play_take(end, out)?,
        b'E' => write_offered(out, end.links.end(alloc, end.id))?,
        b'R' => end.links.owe_reply(end.id),
        _ => end.links.lose(end.id),
    }
    write_numbers(end, out)
}

/// Makes the call of an event at the end that it names. What is too short is not an event.
fn play_at(
    alloc: Global,
    pair: &mut Pair,
    event: &[u8],
    out: &mut Vec<u8>,
) -> Result<(), OutOfMemory>
    requires near { IsLive pair.old.near.links pair.old.near.id }
    requires far { IsLive pair.old.far.links pair.old.far.id }
    ensures near { IsLive pair.new.near.links pair.new.near.id }
    ensures far { IsLive pair.new.far.links pair.new.far.id }
{
    if event.len() < LEAD {
        return Ok(());
    }
    if event[1] == 0 {
        play(alloc, &mut pair.near, event, out)
    } else {
        play(alloc, &mut pair.far, event, out)
    }
}

/// The answers of a new pair with this many buffers to a script of events of one size.
fn played(alloc: Global, script: &[u8], size: usize, buffers: u16) -> Result<Vec<u8>, OutOfMemory>
    requires { 1 ≤ size }
{
    let mut pair = Pair::new(alloc, buffers)?;
    let mut out = Vec::new(alloc);
    for event in script.chunks_exact(size) {
        play_at(alloc, &mut pair, event, &mut out)?;
    }
    Ok(out)
}

/// Writes the answers of a new pair to a script. Returns how many bytes that takes, or 0 if out of
/// memory. Nothing is written if it does not fit.
#[unsafe(no_mangle)]
pub extern "C" fn ipx_bench_play(
    alloc: Global,
    script: &[u8],
    size: usize,
    buffers: u16,
    out: &mut [u8],
) -> usize {
    if size == 0 {
        return 0;
    }
    let Ok(answers) = played(alloc, script, size, buffers) else {
        return 0;
    };
    if answers.len() <= out.len() {
        out[..answers.len()].copy_from_slice(&answers);
    }
    answers.len()
}
