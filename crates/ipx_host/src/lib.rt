//! The two hosts that a site runs: one that listens, `ipx listen`, and one that sends, `ipx send`.
//!
//! [`do_listen`] accepts connections and writes the messages that it receives. [`do_send`] dials,
//! and sends what it reads. Each runs by the file of a host until it is done. [`check_host`] prints
//! what such a file says.
#![tactic(auto)]

mod access;
mod acked_bytes;
mod asking;
mod checking;
mod eviction;
mod handing;
mod idle;
mod ids;
mod input;
mod listen;
mod listening;
mod output;
mod paced_host_core;
mod pacing;
mod readiness_gate;
mod room;
mod running_host;
mod send;
mod send_outcome;
mod sending;
mod serving;
mod sessions;
mod start;
mod taking;
mod telling;

pub use checking::check_host;
pub use listen::do_listen;
pub use send::do_send;
