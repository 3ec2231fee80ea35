//! Whole messages over the connections of a host, by their ids (Novell SPX).
//!
//! A host has one [`Endpoint`]. [`Endpoint::receive`] reads the datagrams that arrive for it, and
//! [`Endpoint::poll`] gives those that it sends. Applications call `dial`, `listen`, `send`,
//! `take`, `close` and `release`. The caller owns sockets and clocks.
//!
//! [`cut`] makes the units of a message that a link is to send, and an [`Inbox`] joins those that it
//! gives (Novell SPX: the end of message bit).
#![tactic(auto)]

mod address;
mod arrived;
mod calls;
mod cutting;
mod endpoint;
mod fault;
mod inbox;
mod laws;
mod links;
mod listening;
mod message;
mod message_fault;
mod parts;
mod poll;
mod readers;
mod receive;
mod taken;
mod taking;
pub mod unit_laws;

pub use arrived::Arrived;
pub use cutting::cut;
pub use endpoint::Endpoint;
pub use fault::EndFault;
pub use inbox::Inbox;
pub use laws::{datagram_does_one_thing, poll_is_one};
pub use message::{MAX_BYTES, Message};
pub use message_fault::MessageFault;
pub use taken::Taken;
