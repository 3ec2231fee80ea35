//! The laws of lower crates, in one record.

ghost use Rattle.spx_theory.specs.Below.{LawsBelow};

use crate::pair_laws::{
    calls_are_steps, calls_keep_names, calls_keep_what_lasts, confirmed_links_are_done,
    links_send_their_queue, packets_allow_what_was_taken, states_go_on,
};
use ipx_wire::{
    bytes_are_one_packet, bytes_are_one_spx_packet, connection_packet_has_its_sequence,
};
use spx_link::{growth, soundness};

/// The laws of bytes, of the machine and of one link, on which the theorems depend.
pub fn laws_below()
    ensures { LawsBelow }
{
    bytes_are_one_packet();
    bytes_are_one_spx_packet();
    connection_packet_has_its_sequence();
    soundness();
    growth();
    calls_are_steps();
    states_go_on();
    links_send_their_queue();
    calls_keep_names();
    calls_keep_what_lasts();
    confirmed_links_are_done();
    packets_allow_what_was_taken();
}
