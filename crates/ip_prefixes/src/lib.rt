//! Prefixes of IPv4 addresses, such as 203.0.113.0/24.
//!
//! [`Prefix::parse`] reads one, and [`Prefix::has`] says which addresses are in it.
#![tactic(auto)]

mod prefix;
mod written;

pub use prefix::Prefix;
