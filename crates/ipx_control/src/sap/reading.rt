//! Decoding of SAP packets.

ghost use Rattle.std.specs.Prelude.{◌≡◌, ◌⊎◌, List, [], ℕ, IfOk, IfErr, IsOk, IsOkAnd, Some, None};
ghost use Rattle.ipx_control.specs.Sap.{IsSap, SapView, sap_body_view, sap_fault, sap_services, sap_view};

use crate::fault::ControlFault;
use crate::sap::entries::{ServiceEntries, services_of};
use crate::sap::laws::bytes_are_one_sap;
use crate::sap::packet::{SAP_MAX_SERVICES, SERVICE_SIZE, Sap, SapBody, ServiceEntry};
use byteorder::{BigEndian, ByteOrder};
use ipx_wire::OutOfMemory;
use std::alloc::Global;

/// Reads a SAP packet: the body of an IPX packet to socket 0452. Its services are borrowed, and
/// nothing is allocated. Bytes after a query, or after the last whole service of a response, are
/// ignored. The error is the first fault that applies.
pub fn read_sap(bytes: &[u8]) -> Result<SapBody<'_>, ControlFault>
    // What is read is what the bytes are.
    ensures found { IfOk result (λ v. (tail : List ℕ) × IsSap (sap_body_view v) bytes.now tail) }
    // For any packet that the bytes are, that packet is read.
    ensures only { (m : SapView) (tail : List ℕ) → IsSap m bytes.now tail
        → IsOkAnd result (λ v. sap_body_view v ≡ m) }
    // The error is the fault of the bytes, and there is no error if they have none.
    ensures fault { IfErr result (λ f. sap_fault bytes.now ≡ Some f) }
    ensures whole { IfOk result (λ _. sap_fault bytes.now ≡ None) }
{
    if bytes.len() < 2 {
        return Err(ControlFault::NoOperation);
    }
    let operation = BigEndian::read_u16(bytes);
    if operation == 1 || operation == 3 {
        if bytes.len() < 4 {
            return Err(ControlFault::QueryShort(bytes.len()));
        }
        return Ok(SapBody::Query {
            nearest: operation == 3,
            kind: BigEndian::read_u16(&bytes[2..]),
        });
    }
    if operation != 2 && operation != 4 {
        return Err(ControlFault::UnknownOperation(operation));
    }
    let count = (bytes.len() - 2) / SERVICE_SIZE;
    if count > SAP_MAX_SERVICES {
        return Err(ControlFault::TooManyEntries(count));
    }
    let services = services_of(&bytes[2..]);
    // A law for the proof of `only`. It does nothing at run time.
    bytes_are_one_sap();
    Ok(SapBody::Response {
        nearest: operation == 4,
        services,
    })
}

/// The services as a list.
fn services_listed(
    alloc: Global,
    services: ServiceEntries<'_>,
) -> Result<Vec<ServiceEntry>, OutOfMemory>
    ensures found { IfOk result (λ v. v.items ≡ services.entry) }
    ensures no_memory { services.entry ≡ [] → IsOk result }
{
    let mut listed = Vec::with_capacity(alloc, services.len())?;
    for service in services {
        listed.push(service)?;
    }
    Ok(listed)
}

/// Reads a SAP packet as `read_sap` does, with its services in a list. The error is the first fault
/// that applies, or out of memory.
pub fn decode_sap(alloc: Global, bytes: &[u8]) -> Result<Sap, ControlFault>
    // What is read is what the bytes are.
    ensures found { IfOk result (λ v. (tail : List ℕ) × IsSap (sap_view v) bytes.now tail) }
    // For any packet that the bytes are, that packet is read, unless memory ran out.
    ensures only { (m : SapView) (tail : List ℕ) → IsSap m bytes.now tail
        → IsOkAnd result (λ v. sap_view v ≡ m) ⊎ (result ≡ Err ControlFault.OutOfMemory) }
    // The error is the fault of the bytes, and there is no error if they have none. Bytes that are
    // no packet never give `OutOfMemory`.
    ensures fault { IfErr result (λ f.
        ((f ≡ ControlFault.OutOfMemory) × (sap_fault bytes.now ≡ None))
        ⊎ (sap_fault bytes.now ≡ Some f)) }
    ensures whole { IfOk result (λ _. sap_fault bytes.now ≡ None) }
    // Only services need memory.
    ensures no_memory { (m : SapView) (tail : List ℕ) → IsSap m bytes.now tail
        → sap_services m ≡ [] → IsOk result }
{
    match read_sap(bytes)? {
        SapBody::Query { nearest, kind } => {
            return Ok(Sap::Query { nearest, kind });
        }
        SapBody::Response { nearest, services } => {
            let services = services_listed(alloc, services)?;
            return Ok(Sap::Response { nearest, services });
        }
    }
}
