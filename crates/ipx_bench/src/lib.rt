//! The calls of the router, of links and of endpoints in loops, exported for the benchmark, which
//! compares them with plain Rust.
#![tactic(auto)]

mod answering;
mod decoding;
mod delivering;
mod digest;
mod faults;
mod feeding;
mod hosts;
mod in_place;
mod knowing;
mod pair;
mod passing;
mod playing;
mod receiving;
mod talking;
mod telling;
mod timing;
