//! SAP packets (Novell IPX Router Specification, SAP).

mod entries;
mod laws;
mod packet;
mod reading;
mod writing;

pub use entries::ServiceEntries;
pub use laws::{
    bytes_are_one_sap, sap_before_any_tail, sap_fault_is_of_no_sap, sap_has_bytes,
    sap_is_one_list_of_bytes,
};
pub(crate) use packet::SERVICE_SIZE;
pub use packet::{SAP_MAX_SERVICES, Sap, SapBody, ServiceEntry};
pub use reading::{decode_sap, read_sap};
pub use writing::{encode_sap_into, encode_services_into};
