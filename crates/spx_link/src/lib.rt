//! One end of an SPX connection, as exact functions of its 16-bit numbers (Novell SPX).
//!
//! [`Link`] is one end, [`Links`] the ends of a host by their ids: [`Links::poll`] gives the
//! packets to send, [`Links::receive`] reads those of the peer, [`Links::offer`] and
//! [`Links::take`] are the application's. To *offer* here is to queue units to be sent; an offer of
//! `ipx_tables` is an advertised route or service, and another thing.
#![tactic(auto)]

mod buffers;
pub mod by_clock;
pub mod courses;
mod due;
pub mod effects;
mod fault;
mod host;
pub mod laws;
mod limits;
mod link;
mod links;
pub mod machine;
mod numbers;
mod offer;
mod outgoing;
mod place;
mod poll;
mod queue;
mod receive;
mod received;
mod stamped;
mod state;
mod text;
mod unit;

pub use by_clock::{places_are_manual_only, unpaced_links_go_by_the_clock};
pub use courses::{
    confirmed_links_are_whole, open_links_queue_no_end, opening_links_join_or_stay,
    taken_and_held_are_expected, unconnected_links_send_nothing,
};
pub use effects::{
    accepted_owes_its_reply, links_have_their_ids, lost_gives_nothing, new_links_are_empty,
    new_links_have_their_ends, opening_gives_requests, others_change_no_number, others_keep_units,
    poll_changes, poll_gives, poll_keeps_units, receive_changes, receive_changes_states,
    receive_drops_units, receive_keeps_units, receive_reads_its_own, take_changes,
    take_gives_the_first, units_are_sent_as_they_are, units_queue_in_order,
};
pub use fault::{LinksFault, OfferFault};
pub use laws::{acknowledgement, allocation, marks, sequence, windows};
pub use limits::{MAX_LINKS, MAX_UNITS};
pub use link::Link;
pub use links::Links;
pub use machine::{allowances, chain, fresh_packets, growth, packets, soundness, within};
pub use numbers::Numbers;
pub use outgoing::{Outgoing, Sent};
pub use received::Received;
pub use state::State;
pub use unit::Unit;
