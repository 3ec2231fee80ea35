//! The names of faults, answers and states in programs.

ghost use Rattle.std.specs.Prelude.{◌≡◌, IfOk, string_bytes};
ghost use Rattle.ipx_sim.specs.Summary.{yes_no};
ghost use Rattle.ipx_sim.specs.ScriptWords.{end_fault_name, links_fault_name, message_fault_name, net_fault_name, offer_fault_name, received_word, state_word};

use ipx_net::NetFault;
use spx_link::{LinksFault, OfferFault, Received, State};
use spx_messages::{EndFault, MessageFault};
use std::alloc::{AllocError, Global};

fn offer_fault_name(fault: OfferFault) -> &'static str
    ensures { result.now ≡ offer_fault_name fault }
{
    match fault {
        OfferFault::NotLive => "NotLive",
        OfferFault::Ended => "Ended",
        OfferFault::OutOfMemory => "OutOfMemory",
    }
}

fn links_fault_name(fault: LinksFault) -> &'static str
    ensures { result.now ≡ links_fault_name fault }
{
    match fault {
        LinksFault::OutOfMemory => "OutOfMemory",
        LinksFault::TooMany => "TooMany",
    }
}

fn message_fault_to_name(alloc: Global, fault: MessageFault) -> Result<String, AllocError>
    ensures { IfOk result (λ t. string_bytes t ≡ message_fault_name fault) }
{
    match fault {
        MessageFault::OutOfMemory => String::from_str(alloc, "OutOfMemory"),
        MessageFault::TooLong(bytes) => format!(in alloc; "TooLong {bytes}"),
        MessageFault::BadStream(stream) => format!(in alloc; "BadStream {stream}"),
        MessageFault::Overlong => String::from_str(alloc, "Overlong"),
    }
}

/// The name of an end's fault, with its values.
pub fn end_fault_to_name(alloc: Global, fault: EndFault) -> Result<String, AllocError>
    ensures { IfOk result (λ t. string_bytes t ≡ end_fault_name fault) }
{
    match fault {
        EndFault::Offer(fault) => String::from_str(alloc, offer_fault_name(fault)),
        EndFault::Message(fault) => message_fault_to_name(alloc, fault),
        EndFault::Links(fault) => String::from_str(alloc, links_fault_name(fault)),
        EndFault::NoSuchEnd => String::from_str(alloc, "NoSuchEnd"),
    }
}

/// The name of a network's fault.
pub fn net_fault_name(fault: NetFault) -> &'static str
    ensures { result.now ≡ net_fault_name fault }
{
    match fault {
        NetFault::NoSuchParcel => "NoSuchParcel",
        NetFault::NotOnSegment => "NotOnSegment",
        NetFault::NoSuchEnd => "NoSuchEnd",
        NetFault::Full => "Full",
        NetFault::OutOfMemory => "OutOfMemory",
        NetFault::Spent => "Spent",
    }
}

/// What a link answered to a packet, in one word.
pub fn received_word(received: Received) -> &'static str
    ensures { result.now ≡ received_word received }
{
    match received {
        Received::Joined => "joined",
        Received::Kept => "kept",
        Received::Repeat => "repeat",
        Received::Ahead => "ahead",
        Received::OverAllocation => "over",
        Received::System => "system",
        Received::PeerEnded => "peer-ended",
        Received::Confirmed => "confirmed",
        Received::Stranger => "stranger",
    }
}

/// The state of an end, in one word. An end without a state was released.
pub fn state_word(state: Option<State>) -> &'static str
    ensures { result.now ≡ state_word state }
{
    match state {
        None => "Released",
        Some(State::Opening) => "Opening",
        Some(State::Live) => "Live",
        Some(State::Ending) => "Ending",
        Some(State::PeerEnded) => "PeerEnded",
        Some(State::Confirmed) => "Confirmed",
        Some(State::Lost) => "Lost",
    }
}

/// The last word of a line that says whether something holds.
pub fn yes_no(yes: bool) -> &'static str
    ensures { result.now ≡ yes_no yes }
{
    if yes { "yes" } else { "no" }
}
