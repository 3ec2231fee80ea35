//! What a router says as it stops: it takes back what it advertised.
//!
//! [`farewell_of`] gives the packets for a port. They are the router's advertisements there, each
//! entry with 16 hops, which means that it is unreachable. A neighbour that receives them forgets
//! the router's routes and services at once, and not after three minutes.
#![tactic(auto)]

mod farewell;
mod gone;
mod laws;
mod packets;
mod speaker;

pub use farewell::farewell_of;
pub use laws::{farewell_is_heard, farewell_is_of_advertised};
pub use speaker::Speaker;
