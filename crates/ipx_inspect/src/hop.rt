//! `ipx hop`: one packet through a router with two ports.

ghost use Rattle.std.specs.Prelude.{◌≡◌, IfErr, IfOk, OnErr, ℕ, List, string_bytes};
ghost use Rattle.std.specs.Option.{option_map};
ghost use Rattle.std.specs.Io.KnownBytes.{Appends};
ghost use Rattle.ipx_inspect.specs.Output.{LeavesWritten};
ghost use Rattle.ipx_inspect.specs.Text.{IsInput, packet_of_text, without_line_end};
ghost use Rattle.ipx_router.specs.OutcomeView.{router_outcome};
ghost use Rattle.ipx_inspect.specs.Hop.{HopAnswers, HopOutcome, HopWrites, hop_routing};

use crate::input::{InputFault, read_up_to};
use crate::line::{outcome_lines, outcome_status};
use crate::output::{tell_no_memory, write_lines};
use hex::FromHexError;
use ipx_router::{Outcome, Port, Router};
use ipx_wire::{Network, Node, OutOfMemory};
use std::alloc::Global;
use std::io::{Read, Write};

/// The longest text, in bytes, with its line end.
const MAX: usize = 4096;

fn cut_line_end(text: &[u8]) -> &[u8]
    ensures { result.now ≡ without_line_end text.now }
{
    match text {
        [front @ .., b'\n'] => front,
        _ => text,
    }
}

/// The bytes that a text spells, if it spells any.
fn bytes_of_text(alloc: Global, text: &[u8]) -> Result<Option<Vec<u8>>, OutOfMemory>
    ensures { IfOk result (λ o. option_map (λ v. v.items) o ≡ packet_of_text text.now) }
{
    if text.len() > MAX {
        return Ok(None);
    }
    match hex::decode(alloc, cut_line_end(text)) {
        Ok(bytes) => Ok(Some(bytes)),
        Err(FromHexError::OutOfMemory) => Err(OutOfMemory),
        Err(_) => Ok(None),
    }
}

fn hop_router(alloc: Global) -> Result<Router, OutOfMemory>
    ensures { IfOk result (λ r. r ≡ hop_routing) }
{
    let first = Port {
        network: Network(0x11),
        node: Node([0, 0, 0x7f, 0, 0, 1]),
        cost: 1,
    };
    let second = Port {
        network: Network(0x22),
        node: Node([0, 0, 0x7f, 0, 0, 2]),
        cost: 1,
    };
    let ports = vec![in alloc; first, second]?;
    match Router::new(alloc, ports) {
        Ok(router) => Ok(router),
        Err(_) => unreachable!(),
    }
}

/// The router's answer to bytes that it receives on port 1.
fn outcome_for_bytes(alloc: Global, bytes: &[u8]) -> Result<Outcome, OutOfMemory>
    ensures { IfOk result (λ o. HopOutcome bytes.now (router_outcome o)) }
{
    let mut router = hop_router(alloc)?;
    let outcome = router.receive(alloc, 1, bytes, 0)?;
    Ok(outcome)
}

/// The lines and the status for those bytes.
fn line_for_bytes(alloc: Global, bytes: &[u8]) -> Result<(String, u8), OutOfMemory>
    ensures { IfOk result (λ r. HopAnswers bytes.now (string_bytes r.0) r.1) }
{
    let outcome = outcome_for_bytes(alloc, bytes)?;
    let lines = outcome_lines(alloc, &outcome)?;
    let status = outcome_status(&outcome);
    Ok((lines, status))
}

fn line_for_text(alloc: Global, text: &[u8]) -> Result<(String, u8), OutOfMemory>
    ensures { IfOk result (λ r. HopWrites text.now (string_bytes r.0) r.1) }
{
    match bytes_of_text(alloc, text)? {
        None => Ok((String::from_str(alloc, "line 1 bad\n")?, 2)),
        Some(bytes) => line_for_bytes(alloc, &bytes),
    }
}

/// The command `hop`: reads one packet in hex, at most 4,096 bytes of text with at most one line
/// end. It writes the answer of a router with two ports that receives the packet on port 1.
///
/// `Ok` is the status of the lines written: 0 for a packet that is forwarded, answered or taken in,
/// 1 for one that is dropped, and 2 for text that is not a packet in hex. `Err` is always 1. After
/// a read or write fault nothing more is written. If out of memory, it writes `fault (14)
/// OutOfMemory`.
pub fn do_hop<R: Read, W: Write>(alloc: Global, reader: &mut R, writer: &mut W) -> Result<u8, u8>
    ensures written { IfOk result (λ status.
        (input : List ℕ) × IsInput (R.remaining reader.old) input
        × (line : List ℕ) × HopWrites input line status
        × Appends (W.contents writer.old) (W.contents writer.new) line) }
    ensures fault { IfErr result (λ status. status ≡ 1) }
    ensures left { OnErr result
        (LeavesWritten (W.contents writer.old) (W.contents writer.new) (λ line.
        (input : List ℕ) × IsInput (R.remaining reader.old) input
        × (status : ℕ) × HopWrites input line status)) }
{
    let text = match read_up_to(alloc, reader, MAX + 1) {
        Ok(text) => text,
        Err(InputFault::Read) => return Err(1),
        Err(InputFault::Memory) => return Err(tell_no_memory(writer)),
    };
    write_lines(writer, line_for_text(alloc, &text))
}
