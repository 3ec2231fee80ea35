//! The laws of rounds.

ghost use Rattle.std.specs.Prelude.{ℕ, List};
ghost use Rattle.spx_theory.specs.Deeds.{Reached};
ghost use Rattle.spx_theory.specs.Scene.{Scene};
ghost use Rattle.spx_theory.specs.LinkLaws.{LinkLaws};
ghost use Rattle.spx_theory.specs.RoundsDeliver.{RoundsDeliver, RoundsDeliverBothWays};
ghost use Rattle.spx_theory.specs.LosslessRounds.{RoundIsOne, RoundsExist};
ghost use Rattle.spx_theory.specs.Stuck.{NoPairIsStuck, NoStateIsStuck, NothingIsStuckByAddresses};
ghost use Rattle.spx_link.specs.LinkView.{LinkView};

use crate::laws::{addresses_tell_peers, peers_are_in_step, peers_are_named, peers_follow};
use crate::pair_laws::{calls_are_steps, packets_allow_what_was_taken};
use spx_link::{poll_keeps_units, soundness, unpaced_links_go_by_the_clock};

/// The laws of the machine and of one link, on which the theorems depend.
fn link_laws()
    ensures { LinkLaws }
{
    soundness();
    calls_are_steps();
    packets_allow_what_was_taken();
    poll_keeps_units();
    unpaced_links_go_by_the_clock();
}

/// For any two links at any time there is exactly one round.
pub fn round_is_one()
    ensures { (a b : LinkView) (now : ℕ) → RoundIsOne a b now }
{}

/// So there are rounds, one after another, at any times.
pub fn rounds_exist()
    ensures { (a b : LinkView) (moments : List ℕ) → RoundsExist a b moments }
{}

/// After enough rounds, everything that the first of two links in step has queued is acknowledged.
/// The user of the second took all its units, in order and without duplicates.
pub fn rounds_deliver()
    ensures { RoundsDeliver }
{
    link_laws();
}

/// If both links are live, it works in both directions at once.
pub fn rounds_deliver_both_ways()
    ensures { RoundsDeliverBothWays }
{
    link_laws();
}

/// For every scene that can be reached, under the three premises: rounds without loss are enough
/// for what an end has queued for its peer.
pub fn no_state_is_stuck()
    ensures { (s : Scene) → Reached s → NoStateIsStuck s }
{
    link_laws();
    rounds_deliver();
    peers_are_in_step();
    peers_follow();
    peers_are_named();
}

/// The same, in both directions at once.
pub fn no_pair_is_stuck()
    ensures { (s : Scene) → Reached s → NoPairIsStuck s }
{
    link_laws();
    rounds_deliver_both_ways();
    peers_are_in_step();
    peers_follow();
    peers_are_named();
}

/// If no two hosts share network and node and nothing was released, the same holds without the
/// premise that each end reads only its own peer.
pub fn nothing_is_stuck_by_addresses()
    ensures { (s : Scene) → Reached s → NothingIsStuckByAddresses s }
{
    no_state_is_stuck();
    addresses_tell_peers();
}
