//! The hosts of a network in memory and their ends, by their numbers. Each call is one event.
//!
//! This crate is a part of `ipx_net`, which has the packets, the routers and the log. To make a
//! network, call `ipx_net`.
#![tactic(auto)]

mod end;
mod host_state;
mod hosts;
mod refusal;

pub use hosts::Hosts;
pub use refusal::Refusal;
