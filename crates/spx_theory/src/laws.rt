//! The theorems, each about every scene that can be reached.

ghost use Rattle.spx_theory.specs.Addresses.{AddressesTellPeers, IdsTellPeers};
ghost use Rattle.spx_theory.specs.Allocation.{PeerlessReadsNothing, WithinAllocation};
ghost use Rattle.spx_theory.specs.Carried.{RoutersAlterOnlyHops};
ghost use Rattle.spx_theory.specs.Close.{AcknowledgedIsRead, ConfirmedIsRead, EndTakenIsWhole};
ghost use Rattle.spx_theory.specs.Deeds.{Reached};
ghost use Rattle.spx_theory.specs.HandedOut.{AbsentHandsOutNothing, HandsOutWhatItTook, HoldsWhatIsLeft};
ghost use Rattle.spx_theory.specs.InStep.{PeersAreInStep, PeersFollow};
ghost use Rattle.spx_theory.specs.InSteps.{PairsTakeSteps};
ghost use Rattle.spx_theory.specs.Named.{PeersAreNamed, PeersAreThere};
ghost use Rattle.spx_theory.specs.Scene.{Scene};
ghost use Rattle.spx_theory.specs.SentUnits.{LinksSendInOrder, PositionsAreGreatest, UnitsAreSentInOrder};

use crate::below::laws_below;

/// Assume that no injected packet is read, and each end reads only recent packets of its own peer.
/// Then the links of two peers are the machine of the log. What each handed out is a prefix of what
/// was handed in at the other.
pub fn peers_are_in_step()
    ensures { (s : Scene) → Reached s → PeersAreInStep s }
{
    laws_below();
}

/// Under the same premises, the links of two peers follow the machine of the log. They do so in
/// everything that they queue, hold and keep, and the machine is sound. Other theorems build on
/// this.
pub fn peers_follow()
    ensures { (s : Scene) → Reached s → PeersFollow s }
{
    laws_below();
}

/// Under the same premises, `spx_link`'s machine has steps from two new ends, with the buffers of
/// two peers, to the machine of their log. So all laws of that machine hold for it.
pub fn pairs_take_steps()
    ensures { (s : Scene) → Reached s → PairsTakeSteps s }
{
    laws_below();
}

/// Under the same premises, no end sends a unit that no packet it had read allowed.
pub fn within_allocation()
    ensures { (s : Scene) → Reached s → WithinAllocation s }
{
    laws_below();
}

/// Under the same premises, an end without a peer reads no unit, and hands out nothing.
pub fn peerless_reads_nothing()
    ensures { (s : Scene) → Reached s → PeerlessReadsNothing s }
{
    laws_below();
}

/// Under the same premises, an end whose close is confirmed has a peer that has read all its units.
/// Every message that was handed in at the end was handed out at the peer, or is complete in what
/// the peer holds.
pub fn confirmed_is_read()
    ensures { (s : Scene) → Reached s → ConfirmedIsRead s }
{
    laws_below();
}

/// Under the same premises, let the close of an end be asked for, and its queue be empty. Then it
/// has a peer that has read all its units, even if no confirmation of the close arrived.
pub fn acknowledged_end_is_read()
    ensures { (s : Scene) → Reached s → AcknowledgedIsRead s }
{
    laws_below();
}

/// Under the same premises, an end that took its peer's end handed out everything that was handed
/// in at the peer.
pub fn end_taken_is_whole()
    ensures { (s : Scene) → Reached s → EndTakenIsWhole s }
{
    laws_below();
}

/// Assume that no id is given twice at one network and node, and that no packet from outside was
/// read. Then each end reads only its own peer, except for the packet that made or joined it.
pub fn ids_tell_peers()
    ensures { (s : Scene) → Reached s → IdsTellPeers s }
{
    laws_below();
}

/// Assume that no two hosts share network and node, nothing was released, and no packet from
/// outside was read. Then each end reads only its own peer, except for the packet that made or
/// joined it.
pub fn addresses_tell_peers()
    ensures { (s : Scene) → Reached s → AddressesTellPeers s }
{
    laws_below();
}

/// Whatever was injected or released, the link of each of two peers has the id by which the other
/// addresses its peer.
pub fn peers_are_named()
    ensures { (s : Scene) → Reached s → PeersAreNamed s }
{
    laws_below();
}

/// Assume that no id is given twice at one network and node, and that no packet from outside was
/// read. Then the link of an end goes to the network and node of its peer's host, and to its id.
pub fn peers_are_there()
    ensures { (s : Scene) → Reached s → PeersAreThere s }
{
    laws_below();
}

/// The packet of a unit that an end sends, for the first time or again, carries that unit of its
/// messages with its number. This holds whatever was read before and however its bytes are read.
pub fn units_are_sent_in_order()
    ensures { (s : Scene) → Reached s → UnitsAreSentInOrder s }
{
    laws_below();
}

/// The next number of an end is that of the first unit that it has not sent. Its queue holds its
/// last units, from the first that is not acknowledged on.
pub fn links_send_in_order()
    ensures { (s : Scene) → Reached s → LinksSendInOrder s }
{
    laws_below();
}

/// The position of a retransmitted unit is the greatest below the number of sent units that has its
/// number, if there is one.
pub fn positions_are_greatest()
    ensures { PositionsAreGreatest }
{}

/// Each parcel has the bytes of its origin, or the packet in them as routers forwarded it. That has
/// one hop more for each router, and no padding. A source network of 0 is replaced by the origin's.
pub fn routers_alter_only_hops()
    ensures { (s : Scene) → Reached s → RoutersAlterOnlyHops s }
{
    laws_below();
}

/// What an end handed out, and its partial message, are the units that it took, joined, as long as
/// no message grew too long. An end that does not exist took nothing and handed out nothing.
pub fn hands_out_what_it_took()
    ensures handed { (s : Scene) → Reached s → HandsOutWhatItTook s }
    ensures left { (s : Scene) → Reached s → HoldsWhatIsLeft s }
    ensures absent { (s : Scene) → Reached s → AbsentHandsOutNothing s }
{}
