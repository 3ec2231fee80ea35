//! Whatever the tables of routers held, their routes converge. This crate is theory, without code.
//!
//! `ipx_router` has what a router learns and advertises. Each law here is about a whole network of
//! routers over time, and is defined in `specs/`, in the file that its function names.
#![tactic(auto)]

mod below;
mod laws;

pub use laws::{
    advertisements_are_learned, fair_runs_exist, forged_route_goes, receiving_is_a_step,
    runs_are_histories, runs_forget, runs_settle, runs_settle_at_any_cost, runs_solve,
    runs_take_least_ways, runs_take_ways, solutions_are_one,
};
