//! RIP packets (Novell IPX Router Specification, RIP).

mod entries;
mod laws;
mod packet;
mod reading;
mod writing;

pub use entries::RipEntries;
pub use laws::{
    bytes_are_one_rip, rip_before_any_tail, rip_fault_is_of_no_rip, rip_has_bytes,
    rip_is_one_list_of_bytes,
};
pub(crate) use packet::RIP_ENTRY_SIZE;
pub use packet::{RIP_MAX_ENTRIES, Rip, RipBody, RipEntry};
pub use reading::{decode_rip, read_rip};
pub use writing::{encode_rip_into, encode_routes_into};
