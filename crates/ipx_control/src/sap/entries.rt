//! Services of a SAP packet, read from its bytes.

ghost use Rattle.std.specs.Prelude.{◌≡◌, ◌≤◌, ◌<◌, ◌∷◌, [], List, ℕ, length, take, IfSome, IfNone};
ghost use Rattle.ipx_control.specs.Entries.{AreEntries};
ghost use Rattle.ipx_control.specs.Lent.{service_entries_in};
ghost use Rattle.ipx_control.specs.Sap.{IsServiceEntry, service_size};

use crate::sap::packet::{SERVICE_SIZE, ServiceEntry};
use byteorder::{BigEndian, ByteOrder};
use ipx_wire::{address_at, field_laws};
use std::marker::Model;

/// An iterator over the services of a SAP packet. Each is read from the bytes, and nothing is
/// allocated.
#[derive(Drop)]
pub struct ServiceEntries<'a> {
    bytes: &'a [u8],
}

impl<'a> Model for ServiceEntries<'a> {
    ghost use Rattle.std.specs.Prelude.{List};
    ghost use Rattle.ipx_control.specs.declared.sap.packet.ServiceEntry.{ServiceEntry};
    ghost use Rattle.ipx_control.specs.Lent.{service_entries_in};

    ghost Value = { List ServiceEntry };

    ghost view = { λ e. service_entries_in e.bytes.now };
}

impl<'a> ServiceEntries<'a> {
    /// The number of services that are left.
    pub fn len(&self) -> usize
        ensures { result ≡ length self.now }
    {
        self.bytes.len() / SERVICE_SIZE
    }
}

impl<'a> Iterator for ServiceEntries<'a> {
    ghost use Rattle.std.specs.Iterator.{YieldsFirst, item_count};

    type Item = ServiceEntry;

    ghost next_gives = { YieldsFirst (λ services. services) };

    ghost remaining = { item_count (λ services. services) };

    fn next(&mut self) -> Option<ServiceEntry> {
        let (service, rest) = first_service(self.bytes)?;
        self.bytes = rest;
        Some(service)
    }
}

/// The whole services in the bytes.
pub(crate) fn services_of(bytes: &[u8]) -> ServiceEntries<'_>
    ensures { (tail : List ℕ) × AreEntries IsServiceEntry service_size result bytes.now tail
        × (length tail < service_size) }
{
    ServiceEntries { bytes }
}

fn name_at(bytes: &[u8]) -> [u8; 48]
    requires { 48 ≤ length bytes.now }
    ensures { take 48 bytes.now ≡ result }
{
    let mut name = [0; 48];
    name.copy_from_slice(&bytes[..48]);
    name
}

fn service_at(bytes: &[u8]) -> ServiceEntry
    requires { service_size ≤ length bytes.now }
    ensures { IsServiceEntry result bytes.now }
{
    ServiceEntry {
        kind: BigEndian::read_u16(bytes),
        name: name_at(&bytes[2..]),
        at: address_at(&bytes[50..]),
        hops: BigEndian::read_u16(&bytes[62..]),
    }
}

/// The first service, and the bytes after it.
fn first_service(bytes: &[u8]) -> Option<(ServiceEntry, &[u8])>
    ensures some { IfSome result (λ r. service_entries_in bytes.now ≡ r.0 ∷ service_entries_in r.1.now) }
    ensures none { IfNone result (service_entries_in bytes.now ≡ []) }
{
    // Laws for the proof of `some`. They do nothing at run time.
    field_laws();
    if bytes.len() < SERVICE_SIZE {
        return None;
    }
    Some((service_at(bytes), &bytes[SERVICE_SIZE..]))
}
