//! Theorems about every network of ends and routers, whatever is delivered in it and in whatever
//! order. They speak of its log, and there is no code.
//!
//! `specs/` has the definitions:
//!
//! - the entries of a log (`Note`), and its index (`Scan`)
//! - the premises and peers, by the entries (`LogPremises`) and by the index (`Peers`)
//! - the headline (`LogHeadline`)
//! - the messages that ends hand in and out, and the units that they take (`Handed`)
//! - the machine of two peers (`PairLog`)
//! - the ends and the parcels between them (`Scene`, `Packets`)
//! - everything that can happen to them (`Deeds`)
//! - a file for each theorem
//!
//! Each function here is a law of every scene that some list of deeds reaches.
//!
//! `pair_laws` says what one call of a link does beside the machine whose numbers never wrap, whatever
//! packet it reads: `spx_link` has the functions of a link, in 16-bit numbers, and the machine.
//!
//! `step_laws` is the way from a network in memory to scenes. `specs/` says what a network of hosts
//! holds (`World`) and, in the words of the contracts of `spx_messages`, what each event does to it
//! (`HostSteps`, `EndCalls`, `Routers`, `WorldStep`). Each step is a list of deeds, so the theorems hold
//! of every world that steps come to. What routers hold, faults, and memory that runs out are no
//! part of a world.
//!
//! `round_laws` says that no state that two ends of a network reach is one that they cannot get out of.
//! `specs/` has rounds (`LosslessRounds`), a network that loses nothing for a moment; what they do to
//! two links in step (`RoundsDeliver`); and to two peers of a network (`Stuck`).
#![tactic(auto)]

mod below;
mod ends;
mod laws;
mod pair_laws;
mod premises;
mod round_laws;
mod step_laws;

pub use ends::{
    ends_are_summarized, ends_stay, entries_tell_ends, gone_sends_nothing, numbers_are_in_order,
    outside_was_injected, peer_is_found, units_are_cuts,
};
pub use laws::{
    acknowledged_end_is_read, addresses_tell_peers, confirmed_is_read, end_taken_is_whole,
    hands_out_what_it_took, ids_tell_peers, links_send_in_order, pairs_take_steps,
    peerless_reads_nothing, peers_are_in_step, peers_are_named, peers_are_there, peers_follow,
    positions_are_greatest, routers_alter_only_hops, units_are_sent_in_order, within_allocation,
};
pub use pair_laws::{
    calls_are_steps, calls_keep_names, calls_keep_what_lasts, confirmed_links_are_done,
    links_send_their_queue, pacing_changes_no_core, packets_allow_what_was_taken, states_go_on,
};
pub use premises::{
    between_is_read, headline_of_log, made_once, origins_are_read, peers_are_read,
    premises_are_read,
};
pub use round_laws::{
    no_pair_is_stuck, no_state_is_stuck, nothing_is_stuck_by_addresses, round_is_one,
    rounds_deliver, rounds_deliver_both_ways, rounds_exist,
};
pub use step_laws::{peers_of_worlds_are_in_step, steps_are_deeds};
