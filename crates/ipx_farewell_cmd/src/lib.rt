//! The command `ipx farewell`: takes back what a router that has stopped advertised.
//!
//! [`do_farewell`] reads the file of the router and the tables that it wrote last, binds the places
//! of its ports, and sends what `ipx_farewell` gives for each.
#![tactic(auto)]

mod age;
mod command;
mod entries;
mod fault;
mod names;
mod outlet;
mod pauses;
mod ports;
mod saying;

pub use command::do_farewell;
