//! A script over loopback sockets, one for each node: `ipx udp`.
#![tactic(auto)]

mod binding;
mod layout_binding;
mod mapped;
mod runner;
mod stop;
mod summing;
mod udp;

pub use udp::do_udp;
