//! RIP and SAP packets of an IPX internetwork, as values and as bytes.
//!
//! They are the bodies of IPX packets to the sockets 0453 and 0452. [`read_rip`] and [`read_sap`]
//! borrow the entries from the bytes, and [`decode_rip`] and [`decode_sap`] list them.
//! [`encode_rip_into`] and [`encode_sap_into`] write packets.
#![tactic(auto)]

mod fault;
mod laws;
mod rip;
mod sap;

pub use fault::ControlFault;
pub use laws::control_constants_are_assigned;
pub use rip::{
    RIP_MAX_ENTRIES, Rip, RipBody, RipEntries, RipEntry, bytes_are_one_rip, decode_rip,
    encode_rip_into, encode_routes_into, read_rip, rip_before_any_tail, rip_fault_is_of_no_rip,
    rip_has_bytes, rip_is_one_list_of_bytes,
};
pub use sap::{
    SAP_MAX_SERVICES, Sap, SapBody, ServiceEntries, ServiceEntry, bytes_are_one_sap, decode_sap,
    encode_sap_into, encode_services_into, read_sap, sap_before_any_tail, sap_fault_is_of_no_sap,
    sap_has_bytes, sap_is_one_list_of_bytes,
};
