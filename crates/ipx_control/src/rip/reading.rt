//! Decoding of RIP packets.

ghost use Rattle.std.specs.Prelude.{◌≡◌, ◌⊎◌, List, [], ℕ, IfOk, IfErr, IsOk, IsOkAnd, Some, None};
ghost use Rattle.ipx_control.specs.Rip.{IsRip, RipView, rip_body_view, rip_entries, rip_fault, rip_view};

use crate::fault::ControlFault;
use crate::rip::entries::{RipEntries, rip_entries_of};
use crate::rip::packet::{RIP_ENTRY_SIZE, RIP_MAX_ENTRIES, Rip, RipBody, RipEntry};
use byteorder::{BigEndian, ByteOrder};
use ipx_wire::OutOfMemory;
use std::alloc::Global;

/// Reads a RIP packet: the body of an IPX packet to socket 0453. Its entries are borrowed, and
/// nothing is allocated. Bytes after the last whole entry are ignored. The error is the first fault
/// that applies.
pub fn read_rip(bytes: &[u8]) -> Result<RipBody<'_>, ControlFault>
    // What is read is what the bytes are.
    ensures found { IfOk result (λ v. (tail : List ℕ) × IsRip (rip_body_view v) bytes.now tail) }
    // For any packet that the bytes are, that packet is read.
    ensures only { (m : RipView) (tail : List ℕ) → IsRip m bytes.now tail
        → IsOkAnd result (λ v. rip_body_view v ≡ m) }
    // The error is the fault of the bytes, and there is no error if they have none.
    ensures fault { IfErr result (λ f. rip_fault bytes.now ≡ Some f) }
    ensures whole { IfOk result (λ _. rip_fault bytes.now ≡ None) }
{
    if bytes.len() < 2 {
        return Err(ControlFault::NoOperation);
    }
    let operation = BigEndian::read_u16(bytes);
    if operation != 1 && operation != 2 {
        return Err(ControlFault::UnknownOperation(operation));
    }
    let count = (bytes.len() - 2) / RIP_ENTRY_SIZE;
    if count > RIP_MAX_ENTRIES {
        return Err(ControlFault::TooManyEntries(count));
    }
    let entries = rip_entries_of(&bytes[2..]);
    if operation == 1 {
        return Ok(RipBody::Request(entries));
    }
    Ok(RipBody::Response(entries))
}

/// The entries as a list.
fn rip_entries_listed(alloc: Global, entries: RipEntries<'_>) -> Result<Vec<RipEntry>, OutOfMemory>
    ensures found { IfOk result (λ v. v.items ≡ entries.entry) }
    ensures no_memory { entries.entry ≡ [] → IsOk result }
{
    let mut listed = Vec::with_capacity(alloc, entries.len())?;
    for entry in entries {
        listed.push(entry)?;
    }
    Ok(listed)
}

/// Reads a RIP packet as `read_rip` does, with its entries in a list. The error is the first fault
/// that applies, or out of memory.
pub fn decode_rip(alloc: Global, bytes: &[u8]) -> Result<Rip, ControlFault>
    // What is read is what the bytes are.
    ensures found { IfOk result (λ v. (tail : List ℕ) × IsRip (rip_view v) bytes.now tail) }
    // For any packet that the bytes are, that packet is read, unless memory ran out.
    ensures only { (m : RipView) (tail : List ℕ) → IsRip m bytes.now tail
        → IsOkAnd result (λ v. rip_view v ≡ m) ⊎ (result ≡ Err ControlFault.OutOfMemory) }
    // The error is the fault of the bytes, and there is no error if they have none. Bytes that are
    // no packet never give `OutOfMemory`.
    ensures fault { IfErr result (λ f.
        ((f ≡ ControlFault.OutOfMemory) × (rip_fault bytes.now ≡ None))
        ⊎ (rip_fault bytes.now ≡ Some f)) }
    ensures whole { IfOk result (λ _. rip_fault bytes.now ≡ None) }
    // Only entries need memory.
    ensures no_memory { (m : RipView) (tail : List ℕ) → IsRip m bytes.now tail
        → rip_entries m ≡ [] → IsOk result }
{
    match read_rip(bytes)? {
        RipBody::Request(entries) => {
            return Ok(Rip::Request(rip_entries_listed(alloc, entries)?));
        }
        RipBody::Response(entries) => {
            return Ok(Rip::Response(rip_entries_listed(alloc, entries)?));
        }
    }
}
