//! Scripts over a network in memory: `ipx sim`.
//!
//! `act` does one event and reports it, `summary` reports all ends, and `do_sim` runs a script.
#![tactic(auto)]

mod acting;
mod delivering;
mod fields;
mod layout;
mod line;
mod lines;
mod names;
mod reading;
mod rounds;
mod script_fault;
mod sim;
mod simulation;
mod stop;
mod summing;
mod taking;
mod words;

pub use acting::act;
pub use fields::{fields_of, is_blank};
pub use layout::Layout;
pub use line::ScriptLine;
pub use lines::refused_to_line;
pub use names::{Names, ScriptTarget};
pub use reading::read_line;
pub use script_fault::ScriptFault;
pub use sim::{do_sim, tell_too_long};
pub use summing::{summary, write_counts, write_present};
pub use words::state_word;
