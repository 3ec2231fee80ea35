//! IPX over UDP: cores, which are routers and hosts, run over devices that carry datagrams.
//!
//! A [`Core`] receives datagrams and gives packets. [`Datagrams`] is a device with ports, and a
//! [`Clock`] tells the time. [`run`] takes turns over the three. [`MemoryDatagrams`] keeps its
//! datagrams in memory, and [`UdpDatagrams`] has a UDP socket for each port. [`turn`] takes one
//! turn if one can begin, and [`run_batch`] takes turns for as long as there is work.
//!
//! A [`PortDriver`] says how a packet for a node leaves a port, and what is received there, over
//! any network. [`run_over_ports`], [`run_once_over_ports`] and [`run_batch`] take turns over it.
//! [`Rfc1234Ports`] is the port driver of `run`: it sends datagrams to the IP addresses of nodes.
//! [`OwnedRfc1234Ports`] does the same and owns its device.
#![tactic(auto)]

mod clock;
mod cores;
mod counting;
mod datagrams;
mod driving;
mod fault;
mod hearing;
mod host_core;
mod mapping;
mod memory;
mod outcome_counters;
mod owned_rfc1234_ports;
mod placed_socket;
mod port_driver;
mod priority_queue;
mod priority_router_core;
mod queue;
mod ready_set;
mod report;
mod rfc1234_ports;
mod router_core;
mod running;
mod sending;
mod trace;
mod udp;

pub use clock::{Clock, SteppedClock};
pub use cores::Core;
pub use counting::saturating_increment;
pub use datagrams::{CountsFiltered, Datagrams};
pub use driving::{run_batch, run_once_over_ports, turn};
pub use fault::{CarrierFault, DeviceFault, RunFault};
pub use host_core::HostCore;
pub use mapping::{ip_of, node_of, node_of_ip_has_that_ip, node_with_ip_is_of_it};
pub use memory::{MemoryDatagrams, SentDatagram};
pub use outcome_counters::OutcomeCounters;
pub use owned_rfc1234_ports::OwnedRfc1234Ports;
pub use placed_socket::PlacedSocket;
pub use port_driver::{PacketSent, PortDriver, PortDriverFilters};
pub use priority_router_core::{
    PriorityRouterCore, advertisements_are_queued, forwarded_packets_leave_first,
};
pub use ready_set::ReadySet;
pub use report::{Batch, Report};
pub use rfc1234_ports::Rfc1234Ports;
pub use router_core::RouterCore;
pub use running::{run, run_over_ports};
pub use udp::{UDP_PORT, UdpDatagrams, socket_addr};
