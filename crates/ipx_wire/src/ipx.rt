//! An IPX packet: its header, followed by its body.

mod changing;
mod fault;
mod laws;
mod packet;
mod reading;
mod writing;

pub use changing::{packet_part, set_hops, set_source_network};
pub use fault::IpxFault;
pub use laws::{
    bytes_are_one_packet, ipx_fault_is_of_no_packet, packet_before_any_bytes, packet_has_bytes,
    packet_is_one_list_of_bytes,
};
pub use packet::{IpxHeader, Packet};
pub use reading::decode;
pub use writing::{encapsulate, encode_into};
