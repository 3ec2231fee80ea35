//! One frame, as a station receives it.

ghost use Rattle.std.specs.Prelude.{◌≡◌, ◌++◌, IfErr, IfOk, OnErr, ℕ, List};
ghost use Rattle.std.specs.Io.KnownBytes.{Appends};
ghost use Rattle.ipx_inspect.specs.Output.{LeavesWritten};
ghost use Rattle.ipx_inspect.specs.Show.{Shows};
ghost use Rattle.ipx_ethernet.specs.Frame.{frame_view};
ghost use Rattle.ipx_inspect.specs.FrameLine.{frame_line};
ghost use Rattle.ipx_inspect.specs.ShownFrame.{LeavesAfter, LeavesFrame, ShowsFrame};

use crate::frame_line::{frame_lines, refused_lines};
use crate::output::{tell_no_memory, write_lines};
use crate::show::do_show;
use ipx_ethernet::{Encapsulation, Frame, decode_frame};
use ipx_wire::Node;
use std::alloc::Global;
use std::io::Write;

/// Writes what `show` prints for a packet.
fn show_packet<W: Write>(alloc: Global, packet: &[u8], writer: &mut W) -> Result<u8, u8>
    ensures written { IfOk result (λ status. (lines : List ℕ) × Shows packet.now lines status
        × Appends (W.contents writer.old) (W.contents writer.new) lines) }
    ensures fault { IfErr result (λ status. status ≡ 1) }
    ensures left { OnErr result
        (LeavesWritten (W.contents writer.old) (W.contents writer.new) (λ lines.
        (status : ℕ) × Shows packet.now lines status)) }
{
    let Ok(text) = hex::encode(alloc, packet) else {
        return Err(tell_no_memory(writer));
    };
    do_show(alloc, &text, writer)
}

/// Writes the line of a frame that is received, and then those of its packet.
fn show_heard<W: Write>(
    alloc: Global,
    encapsulation: Encapsulation,
    frame: &Frame<'_>,
    writer: &mut W,
) -> Result<u8, u8>
    ensures written { IfOk result (λ status. (packet : List ℕ)
        × Shows frame.now.packet.now packet status
        × Appends (W.contents writer.old) (W.contents writer.new)
        (frame_line encapsulation (frame_view frame.now) ++ packet)) }
    ensures fault { IfErr result (λ status. status ≡ 1) }
    ensures left { OnErr result (LeavesAfter (W.contents writer.old) (W.contents writer.new)
        (frame_line encapsulation (frame_view frame.now)) (λ packet.
        (status : ℕ) × Shows frame.now.packet.now packet status)) }
{
    write_lines(writer, frame_lines(alloc, encapsulation, frame))?;
    show_packet(alloc, frame.packet, writer)
}

/// Writes the frame that the bytes are, as the station `own` receives it, and what `show` prints
/// for its packet. If the station does not receive it, it writes the fault.
///
/// `Ok` is the status: 0 for a frame with a packet, and 1 if the bytes, or the contents of the
/// packet's body, are refused. `Err` is always 1. After a write fault nothing more is written. If
/// out of memory, it writes `fault (14) OutOfMemory`.
pub fn show_frame<W: Write>(
    alloc: Global,
    own: Node,
    bytes: &[u8],
    writer: &mut W,
) -> Result<u8, u8>
    ensures written { IfOk result (λ status.
        (lines : List ℕ) × ShowsFrame own bytes.now lines status
        × Appends (W.contents writer.old) (W.contents writer.new) lines) }
    ensures fault { IfErr result (λ status. status ≡ 1) }
    ensures left { OnErr result
        (LeavesFrame own bytes.now (W.contents writer.old) (W.contents writer.new)) }
{
    match decode_frame(bytes, own) {
        Ok((frame, encapsulation)) => show_heard(alloc, encapsulation, &frame, writer),
        Err(fault) => write_lines(writer, refused_lines(alloc, fault)),
    }
}
