//! For tests: a reader or a writer that fails after so many calls.
#![tactic(auto)]

mod failing;

pub use failing::Failing;
