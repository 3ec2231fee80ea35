//! Runnable examples, one for each library. Each prints its steps:
//!
//! - a packet is encoded and decoded
//! - a table of routes
//! - a router learns a route and forwards by it
//! - two links pass a unit
//! - a message is split and joined
//! - two hosts pass a message
#![tactic(auto)]

mod connecting;
mod linking;
mod messages;
mod offers;
mod packets;
mod routing;

fn main(rt: HostRuntime) -> anyhow::Result<()> {
    let alloc = rt.alloc();
    packets::write_and_read(&rt, alloc)?;
    offers::hear_and_age(&rt, alloc)?;
    routing::learn_and_forward(&rt, alloc)?;
    linking::pass_a_unit(&rt, alloc)?;
    messages::cut_and_join(&rt, alloc)?;
    connecting::pass_a_message(&rt, alloc)
}
