//! What a reader of a network in memory may conclude from the public clauses of [`Net`] alone. The
//! reader has a `&Net`, and does not know which events made it.
#![tactic(auto)]

mod closing;

pub use closing::{closed_with, confirmed_have_peers};
