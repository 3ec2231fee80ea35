//! SAP packets: queries for services, and services with their addresses.

use crate::sap::entries::ServiceEntries;
use ipx_wire::Address;

/// The size of a service of a SAP packet, in bytes.
pub(crate) const SERVICE_SIZE: usize = 64;

/// The most services of a SAP response.
pub const SAP_MAX_SERVICES: usize = 7;

/// A service of a SAP packet (Novell IPX Router Specification, SAP packet structure).
#[derive(Clone, Copy, Debug, PartialEq, Eq)]
pub struct ServiceEntry {
    /// Service type, for example 4 for a file server.
    pub kind: u16,
    /// The name. Comparisons use all 48 bytes, though the text ends before the first zero byte.
    pub name: [u8; 48],
    /// The address of the service.
    pub at: Address,
    /// The number of routers on the way: 16 or more mean that the service is down.
    pub hops: u16,
}

/// A SAP packet. At most 7 services are read and written.
#[derive(Debug, Drop)]
pub enum Sap {
    /// Operation 1 asks for services, operation 3 for the nearest: of a type, or of every type if
    /// FFFF.
    Query {
        nearest: bool,
        kind: u16,
    },
    /// Operation 2 advertises services, operation 4 the nearest one.
    Response {
        nearest: bool,
        services: Vec<ServiceEntry>,
    },
}

/// A SAP packet whose services are borrowed from its bytes.
#[derive(Drop)]
pub enum SapBody<'a> {
    /// Operation 1 asks for services, operation 3 for the nearest: of a type, or of every type if
    /// FFFF.
    Query {
        nearest: bool,
        kind: u16,
    },
    /// Operation 2 advertises services, operation 4 the nearest one.
    Response {
        nearest: bool,
        services: ServiceEntries<'a>,
    },
}
