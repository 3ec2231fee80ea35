//! Entries of a RIP packet, read from its bytes.

ghost use Rattle.std.specs.Prelude.{◌≡◌, ◌≤◌, ◌<◌, ◌∷◌, [], List, ℕ, length, IfSome, IfNone};
ghost use Rattle.ipx_control.specs.Entries.{AreEntries};
ghost use Rattle.ipx_control.specs.Lent.{rip_entries_in};
ghost use Rattle.ipx_control.specs.Rip.{IsRipEntry, rip_entry_size};

use crate::rip::packet::{RIP_ENTRY_SIZE, RipEntry};
use byteorder::{BigEndian, ByteOrder};
use ipx_wire::Network;
use std::marker::Model;

/// An iterator over the entries of a RIP packet. Each is read from the bytes, and nothing is
/// allocated.
#[derive(Drop)]
pub struct RipEntries<'a> {
    bytes: &'a [u8],
}

impl<'a> Model for RipEntries<'a> {
    ghost use Rattle.std.specs.Prelude.{List};
    ghost use Rattle.ipx_control.specs.declared.rip.packet.RipEntry.{RipEntry};
    ghost use Rattle.ipx_control.specs.Lent.{rip_entries_in};

    ghost Value = { List RipEntry };

    ghost view = { λ e. rip_entries_in e.bytes.now };
}

impl<'a> RipEntries<'a> {
    /// The number of entries that are left.
    pub fn len(&self) -> usize
        ensures { result ≡ length self.now }
    {
        self.bytes.len() / RIP_ENTRY_SIZE
    }
}

impl<'a> Iterator for RipEntries<'a> {
    ghost use Rattle.std.specs.Iterator.{YieldsFirst, item_count};

    type Item = RipEntry;

    ghost next_gives = { YieldsFirst (λ entries. entries) };

    ghost remaining = { item_count (λ entries. entries) };

    fn next(&mut self) -> Option<RipEntry> {
        let (entry, rest) = first_rip_entry(self.bytes)?;
        self.bytes = rest;
        Some(entry)
    }
}

/// The whole entries in the bytes.
pub(crate) fn rip_entries_of(bytes: &[u8]) -> RipEntries<'_>
    ensures { (tail : List ℕ) × AreEntries IsRipEntry rip_entry_size result bytes.now tail
        × (length tail < rip_entry_size) }
{
    RipEntries { bytes }
}

fn rip_entry_at(bytes: &[u8]) -> RipEntry
    requires { rip_entry_size ≤ length bytes.now }
    ensures { IsRipEntry result bytes.now }
{
    RipEntry {
        network: Network(BigEndian::read_u32(bytes)),
        hops: BigEndian::read_u16(&bytes[4..]),
        ticks: BigEndian::read_u16(&bytes[6..]),
    }
}

/// The first entry, and the bytes after it.
fn first_rip_entry(bytes: &[u8]) -> Option<(RipEntry, &[u8])>
    ensures some { IfSome result (λ r. rip_entries_in bytes.now ≡ r.0 ∷ rip_entries_in r.1.now) }
    ensures none { IfNone result (rip_entries_in bytes.now ≡ []) }
{
    if bytes.len() < RIP_ENTRY_SIZE {
        return None;
    }
    Some((rip_entry_at(bytes), &bytes[RIP_ENTRY_SIZE..]))
}
