//! Laws of an endpoint, which follow from its contracts.

ghost use Rattle.std.specs.Prelude.{◌≡◌, ℕ, List};
ghost use Rattle.spx_messages.specs.Arrives.{Arrives};
ghost use Rattle.spx_messages.specs.Changes.{SameBut};
ghost use Rattle.spx_messages.specs.EndpointView.{EndpointView};
ghost use Rattle.spx_messages.specs.OneValue.{IsOnePoll};
ghost use Rattle.spx_messages.specs.declared.arrived.Arrived.{Arrived};

use ipx_wire::{
    bytes_are_one_packet, bytes_are_one_spx_packet, ipx_fault_is_of_no_packet,
    packet_is_one_list_of_bytes, spx_fault_is_of_no_spx_packet, spx_packet_is_one_list_of_bytes,
};

/// A datagram has exactly one effect: the answer, what each id holds after it, and the link that
/// read it. So what a contract says of one reading of the datagram as a packet holds for every
/// reading.
pub fn datagram_does_one_thing()
    ensures answer { (old new other : EndpointView) (bytes : List ℕ) (now : ℕ) (a b : Arrived)
        → Arrives old bytes now a new → Arrives old bytes now b other → a ≡ b }
    ensures same { (old new other : EndpointView) (bytes : List ℕ) (now : ℕ) (a b : Arrived)
        → Arrives old bytes now a new → Arrives old bytes now b other → SameBut new other }
    ensures said { (old new other : EndpointView) (bytes : List ℕ) (now : ℕ) (a b : Arrived)
        → Arrives old bytes now a new → Arrives old bytes now b other → other.said ≡ new.said }
    ensures heard { (old new other : EndpointView) (bytes : List ℕ) (now : ℕ) (a b : Arrived)
        → Arrives old bytes now a new → Arrives old bytes now b other → other.heard ≡ new.heard }
{
    bytes_are_one_packet();
    bytes_are_one_spx_packet();
    ipx_fault_is_of_no_packet();
    spx_fault_is_of_no_spx_packet();
}

/// A poll has exactly one result: whether it gives a packet, its bytes and next node, its link and
/// kind, and what each id holds after it.
pub fn poll_is_one()
    ensures { IsOnePoll }
{
    packet_is_one_list_of_bytes();
    spx_packet_is_one_list_of_bytes();
}
