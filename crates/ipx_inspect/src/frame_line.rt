//! The lines that `show --frame` prints for a frame, or for bytes that are none.

ghost use Rattle.std.specs.Prelude.{◌≡◌, ◌++◌, IfOk, codes, string_bytes};
ghost use Rattle.hex.specs.Hex.{encode_lower};
ghost use Rattle.ipx_ethernet.specs.Frame.{frame_view};
ghost use Rattle.ipx_inspect.specs.FrameLine.{encapsulation_text, frame_fault_name, frame_line, no_frame_line, type_text};

use crate::line::{fault_to_text, numbered_text};
use ipx_ethernet::{Encapsulation, Frame, FrameFault};
use ipx_wire::{Node, OutOfMemory};
use std::alloc::{AllocError, Global};

fn name_of(encapsulation: Encapsulation) -> &'static str
    ensures { result.now ≡ encapsulation_text encapsulation }
{
    match encapsulation {
        Encapsulation::Raw => "802.3",
        Encapsulation::Llc => "802.2",
        Encapsulation::Snap => "snap",
        Encapsulation::EthernetII => "ethernet-ii",
    }
}

fn station_to_text(alloc: Global, name: &str, station: Node) -> Result<String, AllocError>
    ensures { IfOk result (λ t. string_bytes t ≡ name.now ++ (codes " " ++ encode_lower station.0)) }
{
    let digits = hex::encode(alloc, station.0)?;
    format!(in alloc; "{name} {digits}")
}

fn type_to_text(alloc: Global, name: &str, value: u16) -> Result<String, AllocError>
    ensures { IfOk result (λ t. string_bytes t ≡ name.now ++ (codes " " ++ type_text value)) }
{
    let digits = hex::encode(alloc, value.to_be_bytes())?;
    format!(in alloc; "{name} {digits}")
}

fn frame_fault_to_name(alloc: Global, fault: FrameFault) -> Result<String, AllocError>
    ensures { IfOk result (λ t. string_bytes t ≡ frame_fault_name fault) }
{
    match fault {
        FrameFault::FrameShort(have) => format!(in alloc; "FrameShort {have}"),
        FrameFault::FrameLong(have) => format!(in alloc; "FrameLong {have}"),
        FrameFault::SourceGroup(address) => station_to_text(alloc, "SourceGroup", address),
        FrameFault::SourceZero => String::from_str(alloc, "SourceZero"),
        FrameFault::OwnSource => String::from_str(alloc, "OwnSource"),
        FrameFault::OtherStation(address) => station_to_text(alloc, "OtherStation", address),
        FrameFault::Tagged(value) => type_to_text(alloc, "Tagged", value),
        FrameFault::OtherType(value) => type_to_text(alloc, "OtherType", value),
        FrameFault::FrameTruncated(said, have) => {
            format!(in alloc; "FrameTruncated {said} {have}")
        }
        FrameFault::OtherLlc => String::from_str(alloc, "OtherLlc"),
        FrameFault::NoPacket(fault) => {
            let text = fault_to_text(alloc, fault)?;
            format!(in alloc; "NoPacket {text}")
        }
        FrameFault::PacketLong(have, most) => format!(in alloc; "PacketLong {have} {most}"),
        FrameFault::NoRoom(want, have) => format!(in alloc; "NoRoom {want} {have}"),
    }
}

/// The line for bytes that are not a frame, and its status.
pub fn refused_lines(alloc: Global, fault: FrameFault) -> Result<(String, u8), OutOfMemory>
    ensures { IfOk result (λ r. (string_bytes r.0 ≡ no_frame_line fault) × (r.1 ≡ 1)) }
{
    let name = frame_fault_to_name(alloc, fault)?;
    let text = numbered_text(alloc, fault.number(), &name)?;
    Ok((format!(in alloc; "refused {text}\n")?, 1))
}

/// The line of a frame, before those of its packet.
pub fn frame_lines(
    alloc: Global,
    encapsulation: Encapsulation,
    frame: &Frame<'_>,
) -> Result<(String, u8), OutOfMemory>
    ensures { IfOk result (λ r. string_bytes r.0 ≡ frame_line encapsulation (frame_view frame.now)) }
{
    let name = name_of(encapsulation);
    let to = hex::encode(alloc, frame.to.0)?;
    let from = hex::encode(alloc, frame.from.0)?;
    Ok((format!(in alloc; "frame {name} to {to} from {from}\n")?, 0))
}
