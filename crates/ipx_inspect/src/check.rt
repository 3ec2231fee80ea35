//! `ipx check`: vectors, compared with their outcomes.

ghost use Rattle.std.specs.Prelude.{◌≡◌, ◌≤◌, ◌<◌, ◌+◌, ◌++◌, ◌∷◌, [], true, false, IfErr, IfOk, OnErr, OnOk, MatchOption, ℕ, List, length, map, string_bytes};
ghost use Rattle.std.specs.Io.KnownBytes.{Appends};
ghost use Rattle.ipx_inspect.specs.Output.{LeavesWritten};
ghost use Rattle.ipx_inspect.specs.Text.{IsInput};
ghost use Rattle.ipx_inspect.specs.Decoded.{decoded_view};
ghost use Rattle.ipx_inspect.specs.CheckLine.{Malformed as no_line, Vector as vector, input_lines, line_form};
ghost use Rattle.ipx_inspect.specs.Check.{CheckWrites, ChecksLines, Failed as told_failed, IsVectorOutcome, VectorOutcomeView, check_status, failed_line, failed_lines, last_line, outcome, vector_outcome_view};
ghost use Rattle.ipx_inspect.specs.CheckCounts.{IsTotals};

use crate::check_line::{VectorLine, read_line};
use crate::decoded::{Decoded, read_datagram};
use crate::input::{InputFault, MAX_INPUT, read_up_to};
use crate::output::{tell_no_memory, write_lines};
use ipx_wire::OutOfMemory;
use std::alloc::{AllocError, Global};
use std::io::{Read, Write};

/// Whether the datagram of a line has the outcome that the line expects.
#[derive(Clone, Copy)]
pub enum VectorOutcome {
    NoVector,
    Passed,
    Failed,
}

/// What was found so far: the text for the vectors that failed, how many lines and vectors there
/// were, and how many vectors failed.
#[derive(Drop)]
pub struct CheckCounts {
    text: String,
    lines: usize,
    vectors: usize,
    failed: usize,
}

/// The number of the fault that refuses a datagram, 0 if none does.
fn outcome_of(reading: &Decoded<'_>) -> u8
    ensures { result ≡ outcome (decoded_view reading.now) }
{
    match reading {
        Decoded::NoPacket(fault) => fault.number(),
        Decoded::NoSpx(fault) => fault.number(),
        Decoded::NoControl(fault) => fault.number(),
        Decoded::Holds(_, _) => 0,
    }
}

fn verdict_on(alloc: Global, number: u8, bytes: &[u8]) -> Result<VectorOutcome, OutOfMemory>
    ensures { IfOk result (λ v. IsVectorOutcome (vector number bytes.now) (vector_outcome_view v)) }
{
    let reading = read_datagram(alloc, bytes)?;
    if outcome_of(&reading) == number {
        return Ok(VectorOutcome::Passed);
    }
    Ok(VectorOutcome::Failed)
}

/// Checks one line. `None` is a line of no known form.
fn verdict_of(alloc: Global, line: &[u8]) -> Result<Option<VectorOutcome>, OutOfMemory>
    ensures { IfOk result (λ o. MatchOption o
        (line_form line.now ≡ no_line)
        (λ v. IsVectorOutcome (line_form line.now) (vector_outcome_view v))) }
{
    match read_line(alloc, line)? {
        VectorLine::Malformed => return Ok(None),
        VectorLine::Skipped => return Ok(Some(VectorOutcome::NoVector)),
        VectorLine::Vector { number, bytes } => {
            let verdict = verdict_on(alloc, number, &bytes)?;
            return Ok(Some(verdict));
        }
    }
}

fn failed_to_line(alloc: Global, place: usize) -> Result<String, AllocError>
    ensures { IfOk result (λ t. string_bytes t ≡ failed_line place told_failed) }
{
    format!(in alloc; "line {place}\n")
}

/// Counts one more line. If its vector failed, a line is added to the text.
fn note(alloc: Global, totals: &mut CheckCounts, verdict: VectorOutcome) -> Result<(), AllocError>
    requires lines { totals.old.lines ≤ 1000001 }
    requires vectors { totals.old.vectors ≤ totals.old.lines }
    requires failed { totals.old.failed ≤ totals.old.lines }
    ensures { OnOk result ((vs : List VectorOutcomeView) → IsTotals vs totals.old
        → IsTotals (vs ++ vector_outcome_view verdict ∷ []) totals.new) }
{
    let place = totals.lines + 1;
    match verdict {
        VectorOutcome::NoVector => {
            totals.lines = place;
            return Ok(());
        }
        VectorOutcome::Passed => {
            totals.lines = place;
            totals.vectors += 1;
            return Ok(());
        }
        VectorOutcome::Failed => {
            let line = failed_to_line(alloc, place)?;
            totals.text.push_str(&line)?;
            totals.lines = place;
            totals.vectors += 1;
            totals.failed += 1;
            return Ok(());
        }
    }
}

/// The lines and the status if a line of no known form comes next.
fn lines_at_bad_line(alloc: Global, totals: &CheckCounts) -> Result<(String, u8), OutOfMemory>
    requires { totals.now.lines ≤ 1000001 }
    ensures { IfOk result (λ r. (vs : List VectorOutcomeView) → IsTotals vs totals.now
        → (string_bytes r.0 ≡ failed_lines vs ++ last_line false vs)
        × (r.1 ≡ check_status false vs)) }
{
    let text = totals.text.as_str();
    let place = totals.lines + 1;
    Ok((format!(in alloc; "{text}line {place} bad\n")?, 2))
}

/// The lines and the status if all lines were read.
fn lines_at_end(alloc: Global, totals: &CheckCounts) -> Result<(String, u8), OutOfMemory>
    ensures { IfOk result (λ r. (vs : List VectorOutcomeView) → IsTotals vs totals.now
        → (string_bytes r.0 ≡ failed_lines vs ++ last_line true vs)
        × (r.1 ≡ check_status true vs)) }
{
    let text = totals.text.as_str();
    let vectors = totals.vectors;
    let failed = totals.failed;
    let lines = format!(in alloc; "{text}checked {vectors} failed {failed}\n")?;
    if failed == 0 {
        return Ok((lines, 0));
    }
    Ok((lines, 1))
}

fn check_lines(alloc: Global, input: &[u8]) -> Result<(String, u8), OutOfMemory>
    requires { length input.now ≤ 1000000 }
    ensures { IfOk result (λ r.
        ChecksLines (map line_form (input_lines input.now)) (string_bytes r.0) r.1) }
{
    let mut totals = CheckCounts {
        text: String::new(alloc),
        lines: 0,
        vectors: 0,
        failed: 0,
    };
    for line in input.split(|byte| *byte == b'\n') {
        match verdict_of(alloc, line)? {
            Some(verdict) => note(alloc, &mut totals, verdict)?,
            None => return lines_at_bad_line(alloc, &totals),
        }
    }
    lines_at_end(alloc, &totals)
}

fn lines_for_input(alloc: Global, input: &[u8]) -> Result<(String, u8), OutOfMemory>
    ensures { IfOk result (λ r. CheckWrites input.now (string_bytes r.0) r.1) }
{
    if input.len() > MAX_INPUT {
        return Ok((String::from_str(alloc, "line 0 bad\n")?, 2));
    }
    check_lines(alloc, input)
}

/// The command `check`: reads lines of vectors, at most 1,000,000 bytes. It writes which vectors
/// have another outcome than expected, how many vectors there were, and how many failed.
///
/// `Ok` is the status of the lines written: 0 if all vectors passed, 1 if one failed, and 2 for a
/// line of no known form or an input that is too long. `Err` is always 1. After a read or write
/// fault nothing more is written. If out of memory, it writes `fault (14) OutOfMemory`.
pub fn do_check<R: Read, W: Write>(alloc: Global, reader: &mut R, writer: &mut W) -> Result<u8, u8>
    ensures written { IfOk result (λ status.
        (input : List ℕ) × IsInput (R.remaining reader.old) input
        × (lines : List ℕ) × CheckWrites input lines status
        × Appends (W.contents writer.old) (W.contents writer.new) lines) }
    ensures fault { IfErr result (λ status. status ≡ 1) }
    ensures left { OnErr result
        (LeavesWritten (W.contents writer.old) (W.contents writer.new) (λ lines.
        (input : List ℕ) × IsInput (R.remaining reader.old) input
        × (status : ℕ) × CheckWrites input lines status)) }
{
    let input = match read_up_to(alloc, reader, MAX_INPUT + 1) {
        Ok(input) => input,
        Err(InputFault::Read) => return Err(1),
        Err(InputFault::Memory) => return Err(tell_no_memory(writer)),
    };
    write_lines(writer, lines_for_input(alloc, &input))
}
