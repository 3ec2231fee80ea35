//! Ethernet frames that hold an IPX packet, in the four encapsulations of NetWare.
//!
//! [`decode_frame`] reads a frame as a station receives it, and [`encode_frame_into`] writes one.
//! Only [`Switch::new`] allocates memory, and the packet is lent from the frame that was read.
//!
//! An Ethernet port with several remotes has a [`Switch`]. [`Switch::hear`] says to which other
//! remotes a received frame is forwarded, and which packet in it goes to the router.
//! [`Switch::egress_for`] says to which remotes a frame of the port itself is sent.
#![tactic(auto)]

mod egress;
mod encapsulation;
mod ethernet_port;
mod fault;
mod frame;
mod frame_counters;
mod frame_notice;
mod laws;
mod mac_table;
mod notices;
mod packet;
mod passing;
mod reading;
mod stations;
mod switch;
mod switch_laws;
mod writing;

pub use egress::Egress;
pub use encapsulation::Encapsulation;
pub use ethernet_port::{EthernetPort, FrameDrop};
pub use fault::FrameFault;
pub use frame::{FRAME_MAX_SIZE, FRAME_MIN_SIZE, Frame};
pub use frame_counters::FrameCounters;
pub use laws::{
    bytes_are_one_frame, frame_has_no_fault, sent_frame_is_read_back, sent_frame_is_sized,
    sent_raw_frame_is_even,
};
pub use mac_table::{AGEING_TIME_MS, MAX_STATIONS, Station};
pub use notices::{Claim, Notices, Sender, StationMove};
pub use passing::MAX_FORWARDED_SIZE;
pub use reading::decode_frame;
pub use stations::stations_of;
pub use switch::Switch;
pub use switch_laws::{
    frames_go_on_whatever_they_hold, frames_go_where_they_are_for, other_stations_are_known_still,
    station_is_known_where_it_was_heard,
};
pub use writing::encode_frame_into;
