//! `ipx show`: the fields of one packet.

ghost use Rattle.std.specs.Prelude.{◌≡◌, IfErr, IfOk, OnErr, ℕ, List, string_bytes};
ghost use Rattle.std.specs.Io.KnownBytes.{Appends};
ghost use Rattle.ipx_inspect.specs.Output.{LeavesWritten};
ghost use Rattle.ipx_inspect.specs.Show.{ShowWrites, Shows};

use crate::decoded::read_datagram;
use crate::output::write_lines;
use crate::show_line::{reading_to_lines, reading_to_status};
use hex::FromHexError;
use ipx_wire::OutOfMemory;
use std::alloc::Global;
use std::io::Write;

fn lines_for_bytes(alloc: Global, bytes: &[u8]) -> Result<(String, u8), OutOfMemory>
    ensures { IfOk result (λ r. Shows bytes.now (string_bytes r.0) r.1) }
{
    let reading = read_datagram(alloc, bytes)?;
    let lines = reading_to_lines(alloc, &reading)?;
    let status = reading_to_status(&reading);
    Ok((lines, status))
}

fn lines_for_text(alloc: Global, text: &str) -> Result<(String, u8), OutOfMemory>
    ensures { IfOk result (λ r. ShowWrites text.now (string_bytes r.0) r.1) }
{
    match hex::decode(alloc, text) {
        Ok(bytes) => return lines_for_bytes(alloc, &bytes),
        Err(FromHexError::OutOfMemory) => return Err(OutOfMemory),
        Err(_) => return Ok((String::from_str(alloc, "line 1 bad\n")?, 2)),
    }
}

/// The command `show`: writes the fields of the packet that a text in hex spells, and of the SPX,
/// RIP or SAP packet in its body. If they are refused, it writes the fault.
///
/// `Ok` is the status of the lines written: 0 for a packet, 1 for one that is refused, and 2 for
/// text that is not hex. `Err` is always 1. After a write fault nothing more is written. If out of
/// memory, it writes `fault (14) OutOfMemory`.
pub fn do_show<W: Write>(alloc: Global, text: &str, writer: &mut W) -> Result<u8, u8>
    ensures written { IfOk result (λ status.
        (lines : List ℕ) × ShowWrites text.now lines status
        × Appends (W.contents writer.old) (W.contents writer.new) lines) }
    ensures fault { IfErr result (λ status. status ≡ 1) }
    ensures left { OnErr result
        (LeavesWritten (W.contents writer.old) (W.contents writer.new) (λ lines.
        (status : ℕ) × ShowWrites text.now lines status)) }
{
    write_lines(writer, lines_for_text(alloc, text))
}
