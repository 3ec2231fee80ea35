//! UDP sockets of routers and hosts, which senders they accept, and waiting for them.
//!
//! [`UdpSockets`] are the sockets. [`SourceFilter`] is a device that receives from and sends to its
//! peers only. It works over any device that knows its [`Senders`], as [`UdpSockets`] are. [`Poller`]
//! waits for those, and [`SteadyClock`] is the system's clock.
#![tactic(auto)]

mod bind_fault;
mod clock;
mod last_sender;
mod moments;
mod poll_trace;
mod poller;
mod port_filter_drops;
mod rcvbuf;
mod remotes;
mod sockets;
mod source_check;
mod source_filter;
mod throttled_log;
mod traced_poll;
mod warning;

pub use bind_fault::{BindError, BindFault, bind_error};
pub use clock::{ClockFault, SteadyClock};
pub use last_sender::Senders;
pub use moments::{LONGEST, end_of, is_over, sooner, time_to};
pub use poll_trace::PollTrace;
pub use poller::{Poller, WaitFault};
pub use port_filter_drops::{PortFilterDrops, filter_drops_add_up};
pub use rcvbuf::{RCVBUF_SIZE, set_rcvbuf};
pub use remotes::remotes_of;
pub use sockets::UdpSockets;
pub use source_check::NetworkMismatch;
pub use source_filter::{AccessList, DropCount, FilterDrops, SourceFilter, Verdict};
pub use throttled_log::ThrottledLog;
pub use warning::{LastTime, Noun, Warning, next_of, tell_each};
