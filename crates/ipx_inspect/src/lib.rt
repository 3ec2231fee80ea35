//! Commands of the program `ipx`, each a function over its input and a writer: [`do_hop`],
//! [`do_show`], [`do_show_frames`] and [`do_check`]. `sim` and `udp` are in `ipx_sim` and `ipx_sim_udp`.
#![tactic(auto)]

mod check;
mod check_line;
mod decoded;
mod frame_laws;
mod frame_line;
mod heard;
mod hop;
mod input;
mod laws;
mod line;
mod output;
mod place;
mod show;
mod show_frames;
mod show_line;

pub use check::do_check;
pub use frame_laws::shown_frames_are_one;
pub use heard::show_frame;
pub use hop::do_hop;
pub use input::{InputFault, MAX_INPUT, read_up_to};
pub use laws::{check_is_one, hop_is_one, reading_is_one, show_is_one};
pub use line::{fault_to_text, numbered_text, reason_to_text, spx_fault_to_text};
pub use output::{tell_no_memory, write_lines};
pub use show::do_show;
pub use show_frames::do_show_frames;
