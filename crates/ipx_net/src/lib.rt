//! A network in memory: what happened in it, in order, and the packets that were sent.
//!
//! Make a [`Net`] of hosts and of the ports of routers, pass it one [`Event`] after another with
//! [`Net::step`], and read `log`, `parcels` and `ends`. No packet moves by itself, and no time
//! passes by itself.
//!
//! An [`IndexedLog`] holds the log and the parcels. It also indexes the log as it grows: for
//! example, the packets that an end has read, and their senders.
#![tactic(auto)]

mod answer;
mod calling;
mod delivering;
mod endinfo;
mod entry;
mod event;
mod fault;
mod faults;
mod handed;
mod happening;
mod host;
mod indexed_log;
mod log_index;
mod making;
mod net;
mod net_state;
mod outcome;
mod parcel;
mod parcel_origin;
mod place;
mod places;
mod polling;
mod reading;
mod recent;
mod role;
mod routers;
mod routing;
mod step_result;
mod told;

pub use answer::Answer;
pub use endinfo::EndInfo;
pub use entry::{Entry, TakenUnit};
pub use event::{Event, Member};
pub use fault::NetFault;
pub use host::Host;
pub use indexed_log::IndexedLog;
pub use net::Net;
pub use outcome::events_have_one_outcome;
pub use parcel::Parcel;
pub use place::Place;
pub use routers::RouterNow;
