//! Encoding of RIP packets.

ghost use Rattle.std.specs.Prelude.{◌≡◌, ◌≤◌, ◌+◌, ◌*◌, ◌++◌, [], length, take, drop, All};
ghost use Rattle.std.specs.List.{flat_map};
ghost use Rattle.byteorder.specs.Endian.{big_bytes};
ghost use Rattle.ipx_wire.specs.Ipx.{IsWritten};
ghost use Rattle.ipx_control.specs.Rip.{IsRip, IsRipEntryInRange, Response as response_of, rip_entries, rip_entry_bytes, rip_entry_size, rip_max_entries, rip_size, rip_view};

use crate::rip::packet::{RIP_ENTRY_SIZE, Rip, RipEntry};
use byteorder::{BigEndian, ByteOrder};

fn put_rip_entry(out: &mut [u8], entry: RipEntry)
    requires { rip_entry_size ≤ length out.old }
    ensures written { out.new ≡ rip_entry_bytes entry ++ drop rip_entry_size out.old }
    ensures range { IsRipEntryInRange entry }
{
    BigEndian::write_u32(out, entry.network.0);
    BigEndian::write_u16(&mut out[4..], entry.hops);
    BigEndian::write_u16(&mut out[6..], entry.ticks);
}

fn put_rip_entries(out: &mut [u8], entries: &[RipEntry])
    requires { rip_entry_size * length entries.now ≤ length out.old }
    ensures written { IsWritten out.old (flat_map rip_entry_bytes entries.now) out.new
        (rip_entry_size * length entries.now) }
    ensures range { All IsRipEntryInRange entries.now }
{
    for (place, entry) in entries.iter().enumerate() {
        put_rip_entry(&mut out[RIP_ENTRY_SIZE * place..], *entry);
    }
}

fn put_rip(out: &mut [u8], operation: u16, entries: &[RipEntry])
    requires { 2 + rip_entry_size * length entries.now ≤ length out.old }
    ensures written { IsWritten out.old
        (big_bytes 2 operation ++ flat_map rip_entry_bytes entries.now) out.new
        (2 + rip_entry_size * length entries.now) }
    ensures range { All IsRipEntryInRange entries.now }
{
    BigEndian::write_u16(out, operation);
    put_rip_entries(&mut out[2..], entries);
}

/// Writes a RIP packet to the front of the buffer. It gives the number of bytes: 2, and 8 for each
/// entry. The caller must pass at most 50 entries, and space for the packet.
pub fn encode_rip_into(rip: &Rip, out: &mut [u8]) -> usize
    requires limit { length (rip_entries (rip_view rip.now)) ≤ rip_max_entries }
    requires room { rip_size (rip_view rip.now) ≤ length out.old }
    ensures count { result ≡ rip_size (rip_view rip.now) }
    ensures written { IsRip (rip_view rip.now) (take result out.new) [] }
    ensures rest { drop result out.new ≡ drop result out.old }
{
    match rip {
        Rip::Request(entries) => {
            put_rip(out, 1, entries);
            return 2 + RIP_ENTRY_SIZE * entries.len();
        }
        Rip::Response(entries) => {
            put_rip(out, 2, entries);
            return 2 + RIP_ENTRY_SIZE * entries.len();
        }
    }
}

/// Writes a RIP response with these routes to the front of the buffer. It gives the number of
/// bytes: 2, and 8 for each route. It writes the same as `encode_rip_into`, but from a slice. The
/// caller must pass at most 50 routes, and space for the packet.
pub fn encode_routes_into(routes: &[RipEntry], out: &mut [u8]) -> usize
    requires limit { length routes.now ≤ rip_max_entries }
    requires room { rip_size (response_of routes.now) ≤ length out.old }
    ensures count { result ≡ rip_size (response_of routes.now) }
    ensures written { IsRip (response_of routes.now) (take result out.new) [] }
    ensures rest { drop result out.new ≡ drop result out.old }
{
    put_rip(out, 2, routes);
    2 + RIP_ENTRY_SIZE * routes.len()
}
