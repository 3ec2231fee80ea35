//! What a command writes.

ghost use Rattle.std.specs.Prelude.{◌≡◌, ◌⊎◌, IfErr, IfOk, IsOkAnd, OnErr, OnOk, string_bytes};
ghost use Rattle.std.specs.Io.KnownBytes.{Appends};
ghost use Rattle.ipx_inspect.specs.Output.{AppendsFront, no_memory_line};

use ipx_wire::OutOfMemory;
use std::io::{ErrorKind, Write};

/// A writer failed.
#[derive(Clone, Copy)]
struct WriteFault;

/// Writes bytes, in as many calls as needed. If the writer fails, only the first of them were
/// written.
fn write_bytes<W: Write>(writer: &mut W, bytes: &[u8]) -> Result<(), WriteFault>
    ensures written { OnOk result
        (Appends (W.contents writer.old) (W.contents writer.new) bytes.now) }
    ensures left { OnErr result
        (AppendsFront (W.contents writer.old) (W.contents writer.new) bytes.now) }
{
    let mut done = 0;
    for _ in 0..u64::MAX {
        if done == bytes.len() {
            return Ok(());
        }
        match writer.write(&bytes[done..]) {
            Ok(0) => return Err(WriteFault),
            Ok(count) => done += count,
            Err(error) => {
                if error.kind() != ErrorKind::Interrupted {
                    return Err(WriteFault);
                }
            }
        }
    }
    Err(WriteFault)
}

/// Writes `fault (14) OutOfMemory`, if that can be written, and returns status 1. A program calls
/// it if memory runs out before it knows which command to run.
pub fn tell_no_memory<W: Write>(writer: &mut W) -> u8
    ensures status { result ≡ 1 }
    ensures left { AppendsFront (W.contents writer.old) (W.contents writer.new) no_memory_line }
{
    let _ = write_bytes(writer, b"fault (14) OutOfMemory\n");
    1
}

/// Writes the lines of a command and returns their status. If memory ran out, it writes that.
pub fn write_lines<W: Write>(
    writer: &mut W,
    lines: Result<(String, u8), OutOfMemory>,
) -> Result<u8, u8>
    ensures written { IfOk result (λ status. IsOkAnd lines (λ l. (status ≡ l.1)
        × Appends (W.contents writer.old) (W.contents writer.new) (string_bytes l.0))) }
    ensures fault { IfErr result (λ status. status ≡ 1) }
    // What was written before an error: the first bytes of that line, or of the lines of the
    // command.
    ensures left { OnErr result
        (AppendsFront (W.contents writer.old) (W.contents writer.new) no_memory_line
        ⊎ IsOkAnd lines (λ l.
        AppendsFront (W.contents writer.old) (W.contents writer.new) (string_bytes l.0))) }
{
    let Ok((text, status)) = lines else {
        return Err(tell_no_memory(writer));
    };
    match write_bytes(writer, text.as_bytes()) {
        Ok(()) => Ok(status),
        Err(_) => Err(1),
    }
}
