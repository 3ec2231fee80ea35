//! `ipx show --frame`: the frames of an input, one line of hex each.

ghost use Rattle.std.specs.Prelude.{◌≡◌, ◌≤◌, ◌⊎◌, IfErr, IfOk, OnErr, ℕ, List, length, map, string_bytes};
ghost use Rattle.std.specs.Io.KnownBytes.{Appends};
ghost use Rattle.std.specs.Option.{option_map};
ghost use Rattle.std.specs.Result.{result_ok};
ghost use Rattle.hex.specs.Hex.{decode_of};
ghost use Rattle.ipx_inspect.specs.CheckLine.{input_lines};
ghost use Rattle.ipx_inspect.specs.Output.{AppendsFront, no_memory_line};
ghost use Rattle.ipx_inspect.specs.Text.{IsInput, without_line_end};
ghost use Rattle.ipx_inspect.specs.ShownFrame.{IsShown, LeavesFrames, LeavesShown, LeavesTexts, ShownFrame, ShowsFrames, ShowsTexts, bad_text_line, long_line};

use crate::heard::show_frame;
use crate::input::{InputFault, MAX_INPUT, read_up_to};
use crate::output::{tell_no_memory, write_lines};
use hex::FromHexError;
use ipx_wire::{Node, OutOfMemory};
use std::alloc::{AllocError, Global};
use std::io::{Read, Write};

fn bad_line(alloc: Global, place: usize) -> Result<(String, u8), OutOfMemory>
    ensures { IfOk result (λ r. (string_bytes r.0 ≡ bad_text_line place) × (r.1 ≡ 2)) }
{
    Ok((format!(in alloc; "line {place} bad\n")?, 2))
}

/// The bytes that a line spells in hex, if it spells any.
fn bytes_of(alloc: Global, line: &[u8]) -> Result<Option<Vec<u8>>, OutOfMemory>
    ensures { IfOk result (λ o. option_map (λ v. v.items) o ≡ result_ok (decode_of line.now)) }
{
    match hex::decode(alloc, line) {
        Ok(bytes) => Ok(Some(bytes)),
        Err(FromHexError::OutOfMemory) => Err(OutOfMemory),
        Err(_) => Ok(None),
    }
}

/// Writes the output for one line of input, with its number.
fn show_line<W: Write>(
    alloc: Global,
    own: Node,
    place: usize,
    line: &[u8],
    writer: &mut W,
) -> Result<u8, u8>
    ensures written { IfOk result (λ status. (shown : ShownFrame)
        × IsShown own (place, line.now) shown × (status ≡ shown.status)
        × Appends (W.contents writer.old) (W.contents writer.new) shown.lines) }
    ensures fault { IfErr result (λ status. status ≡ 1) }
    ensures left { OnErr result
        (LeavesShown own (place, line.now) (W.contents writer.old) (W.contents writer.new)) }
{
    match bytes_of(alloc, line) {
        Ok(Some(bytes)) => show_frame(alloc, own, &bytes, writer),
        Ok(None) => write_lines(writer, bad_line(alloc, place)),
        Err(_) => Err(tell_no_memory(writer)),
    }
}

fn cut_line_end(text: &[u8]) -> &[u8]
    ensures value { result.now ≡ without_line_end text.now }
    ensures within { length result.now ≤ length text.now }
{
    match text {
        [front @ .., b'\n'] => front,
        _ => text,
    }
}

/// The lines of a text.
fn texts_of<'a>(alloc: Global, text: &'a [u8]) -> Result<Vec<&'a [u8]>, AllocError>
    ensures { IfOk result (λ v. map (λ t. t.now) v.items ≡ input_lines text.now) }
{
    text.split(|byte| *byte == b'\n').collect(alloc)
}

/// Writes the output for each line, and returns the greatest of their statuses.
fn show_texts<W: Write>(alloc: Global, own: Node, texts: &[&[u8]], writer: &mut W) -> Result<u8, u8>
    requires { length texts.now ≤ 1000001 }
    ensures written { IfOk result (λ status.
        (lines : List ℕ) × ShowsTexts own (map (λ t. t.now) texts.now) lines status
        × Appends (W.contents writer.old) (W.contents writer.new) lines) }
    ensures fault { IfErr result (λ status. status ≡ 1) }
    ensures left { OnErr result (LeavesTexts own (map (λ t. t.now) texts.now)
        (W.contents writer.old) (W.contents writer.new)) }
{
    let mut place = 0;
    let mut status: u8 = 0;
    for text in texts {
        place += 1;
        let one = show_line(alloc, own, place, text, writer)?;
        status = status.max(one);
    }
    Ok(status)
}

fn too_long(alloc: Global) -> Result<(String, u8), OutOfMemory>
    ensures { IfOk result (λ r. (string_bytes r.0 ≡ long_line) × (r.1 ≡ 2)) }
{
    Ok((String::from_str(alloc, "line 0 bad\n")?, 2))
}

fn show_input<W: Write>(alloc: Global, own: Node, input: &[u8], writer: &mut W) -> Result<u8, u8>
    ensures written { IfOk result (λ status.
        (lines : List ℕ) × ShowsFrames own input.now lines status
        × Appends (W.contents writer.old) (W.contents writer.new) lines) }
    ensures fault { IfErr result (λ status. status ≡ 1) }
    ensures left { OnErr result
        (LeavesFrames own input.now (W.contents writer.old) (W.contents writer.new)) }
{
    if input.len() > MAX_INPUT {
        return write_lines(writer, too_long(alloc));
    }
    let Ok(texts) = texts_of(alloc, cut_line_end(input)) else {
        return Err(tell_no_memory(writer));
    };
    show_texts(alloc, own, &texts, writer)
}

/// The command `show --frame`: reads lines, each a frame in hex, at most 1,000,000 bytes. For each
/// it writes the frame, as the station `own` receives it, and what `show` prints for its packet. If
/// the station does not receive the frame, it writes the fault.
///
/// `Ok` is the greatest status of the lines. It is 0 for a frame with a packet, and 1 for one that
/// is refused, or whose packet's body is. It is 2 for a line that is not hex, and for an input that
/// is too long. `Err` is always 1. After a read or write fault nothing more is written. If out of
/// memory, it writes `fault (14) OutOfMemory` after what was written before.
pub fn do_show_frames<R: Read, W: Write>(
    alloc: Global,
    own: Node,
    reader: &mut R,
    writer: &mut W,
) -> Result<u8, u8>
    ensures written { IfOk result (λ status.
        (input : List ℕ) × IsInput (R.remaining reader.old) input
        × (lines : List ℕ) × ShowsFrames own input lines status
        × Appends (W.contents writer.old) (W.contents writer.new) lines) }
    ensures fault { IfErr result (λ status. status ≡ 1) }
    ensures left { OnErr result
        (AppendsFront (W.contents writer.old) (W.contents writer.new) no_memory_line
        ⊎ ((input : List ℕ) × IsInput (R.remaining reader.old) input
        × LeavesFrames own input (W.contents writer.old) (W.contents writer.new))) }
{
    let input = match read_up_to(alloc, reader, MAX_INPUT + 1) {
        Ok(input) => input,
        Err(InputFault::Read) => return Err(1),
        Err(InputFault::Memory) => return Err(tell_no_memory(writer)),
    };
    show_input(alloc, own, &input, writer)
}
