//! Encoding of SAP packets.

ghost use Rattle.std.specs.Prelude.{◌≡◌, ◌≤◌, ◌<◌, ◌^◌, ◌+◌, ◌*◌, ◌++◌, [], length, take, drop, All};
ghost use Rattle.std.specs.List.{flat_map};
ghost use Rattle.byteorder.specs.Endian.{big_bytes};
ghost use Rattle.ipx_wire.specs.Ipx.{IsWritten};
ghost use Rattle.ipx_control.specs.Sap.{IsSap, IsSapWithinLimit, IsServiceEntryInRange, Response as response_of, sap_max_services, query_operation, response_operation, sap_size, sap_view, service_bytes, service_size};

use crate::sap::packet::{SERVICE_SIZE, Sap, ServiceEntry};
use byteorder::{BigEndian, ByteOrder};
use ipx_wire::{field_laws, put_address};

fn put_service(out: &mut [u8], entry: ServiceEntry)
    requires { service_size ≤ length out.old }
    ensures written { out.new ≡ service_bytes entry ++ drop service_size out.old }
    ensures range { IsServiceEntryInRange entry }
{
    BigEndian::write_u16(out, entry.kind);
    out[2..50].copy_from_slice(&entry.name);
    put_address(&mut out[50..], entry.at);
    BigEndian::write_u16(&mut out[62..], entry.hops);
}

fn put_services(out: &mut [u8], services: &[ServiceEntry])
    requires { service_size * length services.now ≤ length out.old }
    ensures written { IsWritten out.old (flat_map service_bytes services.now) out.new
        (service_size * length services.now) }
    ensures range { All IsServiceEntryInRange services.now }
{
    for (place, entry) in services.iter().enumerate() {
        put_service(&mut out[SERVICE_SIZE * place..], *entry);
    }
}

fn put_query(out: &mut [u8], nearest: bool, kind: u16)
    requires { 4 ≤ length out.old }
    ensures written { IsWritten out.old
        (big_bytes 2 (query_operation nearest) ++ big_bytes 2 kind) out.new 4 }
    ensures range { kind < 2 ^ 16 }
{
    BigEndian::write_u16(out, if nearest { 3 } else { 1 });
    BigEndian::write_u16(&mut out[2..], kind);
}

fn put_response(out: &mut [u8], nearest: bool, services: &[ServiceEntry])
    requires { 2 + service_size * length services.now ≤ length out.old }
    ensures written { IsWritten out.old
        (big_bytes 2 (response_operation nearest) ++ flat_map service_bytes services.now) out.new
        (2 + service_size * length services.now) }
    ensures range { All IsServiceEntryInRange services.now }
{
    BigEndian::write_u16(out, if nearest { 4 } else { 2 });
    put_services(&mut out[2..], services);
}

/// Writes a SAP packet to the front of the buffer. It gives the number of bytes: 4 for a query, and
/// 2 and 64 for each service for a response. The caller must pass at most 7 services, and space for the
/// packet.
pub fn encode_sap_into(sap: &Sap, out: &mut [u8]) -> usize
    requires limit { IsSapWithinLimit (sap_view sap.now) }
    requires room { sap_size (sap_view sap.now) ≤ length out.old }
    ensures count { result ≡ sap_size (sap_view sap.now) }
    ensures written { IsSap (sap_view sap.now) (take result out.new) [] }
    ensures rest { drop result out.new ≡ drop result out.old }
{
    match sap {
        Sap::Query { nearest, kind } => {
            put_query(out, *nearest, *kind);
            return 4;
        }
        Sap::Response { nearest, services } => {
            // Laws for the proof of `written`. They do nothing at run time.
            field_laws();
            put_response(out, *nearest, services);
            return 2 + SERVICE_SIZE * services.len();
        }
    }
}

/// Writes a SAP response with these services to the front of the buffer. It gives the number of
/// bytes: 2, and 64 for each service. It writes the same as `encode_sap_into`, but from a slice.
/// The caller must pass at most 7 services, and space for the packet.
pub fn encode_services_into(nearest: bool, services: &[ServiceEntry], out: &mut [u8]) -> usize
    requires limit { length services.now ≤ sap_max_services }
    requires room { sap_size (response_of nearest services.now) ≤ length out.old }
    ensures count { result ≡ sap_size (response_of nearest services.now) }
    ensures written { IsSap (response_of nearest services.now) (take result out.new) [] }
    ensures rest { drop result out.new ≡ drop result out.old }
{
    // Laws for the proof of `written`. They do nothing at run time.
    field_laws();
    put_response(out, nearest, services);
    2 + SERVICE_SIZE * services.len()
}
