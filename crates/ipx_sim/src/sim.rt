//! `ipx sim`: a script over a network in memory.

ghost use Rattle.std.specs.Prelude.{◌≡◌, IfErr, IfOk, IfSome, string_bytes};
ghost use Rattle.std.specs.Io.KnownBytes.{Appends};
ghost use Rattle.ipx_sim.specs.Script.{IsTooLong, too_long_line};

use crate::layout::Layout;
use crate::script_fault::ScriptFault;
use crate::simulation::Simulation;
use ipx_inspect::{InputFault, MAX_INPUT, read_up_to, tell_no_memory, write_lines};
use ipx_wire::OutOfMemory;
use std::alloc::Global;
use std::io::{Read, Write};

/// One more than the most lines that a script has, which count from 1.
const LINES_END: u32 = 1_000_002;

/// Why a script stops, and at which line.
#[derive(Clone, Copy)]
struct Halted {
    line: u32,
    halt: ScriptFault,
}

fn bad_line(alloc: Global, line: u32) -> Result<(String, u8), OutOfMemory> {
    Ok((format!(in alloc; "line {line} bad\n")?, 2))
}

/// Reports why a script stops.
fn tell_halted<W: Write>(alloc: Global, halted: Halted, writer: &mut W) -> Result<u8, u8>
    ensures { IfErr result (λ status. status ≡ 1) }
{
    match halted.halt {
        ScriptFault::Bad => write_lines(writer, bad_line(alloc, halted.line)),
        ScriptFault::Memory => Err(tell_no_memory(writer)),
        ScriptFault::Ended => Err(1),
    }
}

/// Reads the lines of the layout, and returns the number of the first other line.
fn lay_out(alloc: Global, layout: &mut Layout, input: &[u8]) -> Result<u32, Halted> {
    for (number, line) in (1..LINES_END).zip(input.split(|byte| *byte == b'\n')) {
        match layout.read(alloc, line) {
            Ok(true) => {}
            Ok(false) => return Ok(number),
            Err(halt) => return Err(Halted { line: number, halt }),
        }
    }
    Ok(LINES_END)
}

/// Runs the lines from that number on, and returns the greatest of their statuses.
fn run_lines<W: Write>(
    alloc: Global,
    simulation: &mut Simulation,
    input: &[u8],
    first: u32,
    writer: &mut W,
) -> Result<u8, Halted> {
    let mut status = 0;
    for (number, line) in (1..LINES_END).zip(input.split(|byte| *byte == b'\n')) {
        if number < first {
            continue;
        }
        match simulation.do_line(alloc, line, writer) {
            Ok(one) => status = status.max(one),
            Err(halt) => return Err(Halted { line: number, halt }),
        }
    }
    Ok(status)
}

/// The network of the script's layout, and the number of its first other line.
fn laid_out(alloc: Global, input: &[u8]) -> Result<(Simulation, u32), Halted> {
    let mut layout = Layout::new(alloc);
    let first = lay_out(alloc, &mut layout, input)?;
    match layout.finish(alloc) {
        Ok(simulation) => Ok((simulation, first)),
        Err(halt) => Err(Halted { line: first, halt }),
    }
}

fn run_whole<W: Write>(alloc: Global, input: &[u8], writer: &mut W) -> Result<u8, Halted> {
    let (mut simulation, first) = laid_out(alloc, input)?;
    let status = run_lines(alloc, &mut simulation, input, first, writer)?;
    match simulation.finish(writer) {
        Ok(()) => Ok(status),
        Err(halt) => Err(Halted {
            line: LINES_END,
            halt,
        }),
    }
}

fn run_script<W: Write>(alloc: Global, input: &[u8], writer: &mut W) -> Result<u8, u8>
    ensures { IfErr result (λ status. status ≡ 1) }
{
    match run_whole(alloc, input, writer) {
        Ok(status) => Ok(status),
        Err(halted) => tell_halted(alloc, halted, writer),
    }
}

fn too_long(alloc: Global) -> Result<(String, u8), OutOfMemory>
    ensures { IfOk result (λ l. (string_bytes l.0 ≡ too_long_line) × (l.1 ≡ 2)) }
{
    Ok((String::from_str(alloc, "line 0 bad\n")?, 2))
}

/// Writes the line for a script that is too long, and returns its status. `Err` is always 1, for a
/// write fault or out of memory.
pub fn tell_too_long<W: Write>(alloc: Global, writer: &mut W) -> Result<u8, u8>
    ensures written { IfOk result (λ status. (status ≡ 2)
        × Appends (W.contents writer.old) (W.contents writer.new) too_long_line) }
    ensures fault { IfErr result (λ status. status ≡ 1) }
{
    write_lines(writer, too_long(alloc))
}

/// The command `sim`: reads a script of at most 1,000,000 bytes, builds the network of its layout,
/// and runs line by line. Each line writes what happened; a summary follows the last one.
///
/// `Ok` is the status of the lines written. It is 0; or 1 if an end refused or the network met a
/// fault. It is 2 for a bad line, after which nothing is read and no summary is written. It is 2
/// for an input that is too long, of which nothing is run. `Err` is always 1. After a read or write
/// fault nothing more is written. If out of memory outside the network, it writes `fault (14)
/// OutOfMemory`.
pub fn do_sim<R: Read, W: Write>(alloc: Global, reader: &mut R, writer: &mut W) -> Result<u8, u8>
    ensures long { IfOk result (λ status. IfSome (R.remaining reader.old) (λ input. IsTooLong input
        → (status ≡ 2) × Appends (W.contents writer.old) (W.contents writer.new) too_long_line)) }
    ensures fault { IfErr result (λ status. status ≡ 1) }
{
    let input = match read_up_to(alloc, reader, MAX_INPUT + 1) {
        Ok(input) => input,
        Err(InputFault::Read) => return Err(1),
        Err(InputFault::Memory) => return Err(tell_no_memory(writer)),
    };
    if input.len() > MAX_INPUT {
        return tell_too_long(alloc, writer);
    }
    run_script(alloc, &input, writer)
}
