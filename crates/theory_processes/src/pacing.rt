//! The laws of rounds with plans.

ghost use Rattle.std.specs.Prelude.{ℕ, List};
ghost use Rattle.spx_congestion.specs.Pacing.{PacerView};
ghost use Rattle.spx_link.specs.LinkView.{LinkView};
ghost use Rattle.spx_theory.specs.Deeds.{Reached};
ghost use Rattle.spx_theory.specs.Scene.{Scene};
ghost use Rattle.theory_processes.specs.PacedDelivers.{PacedRoundsDeliver};
ghost use Rattle.theory_processes.specs.PacedExist.{IsUsable, PacedRoundsExist, StaysUsable};
ghost use Rattle.theory_processes.specs.PacedMinutes.{MinutesAreRipe, StaysWaiting};
ghost use Rattle.theory_processes.specs.PacedStuck.{NoPacedStateIsStuck};
ghost use Rattle.theory_processes.specs.PacingLaws.{PacingLaws};

use spx_congestion::laws::{plans_go_on, waits_are_bounded};
use spx_link::{
    poll_changes, poll_keeps_units, receive_changes, soundness, unpaced_links_go_by_the_clock,
};
use spx_theory::{
    calls_are_steps, packets_allow_what_was_taken, peers_are_in_step, peers_are_named, peers_follow,
};

/// The laws of the machine, of one link and of a pacer, on which the theorems depend.
fn laws_below()
    ensures { PacingLaws }
{
    soundness();
    calls_are_steps();
    packets_allow_what_was_taken();
    poll_keeps_units();
    unpaced_links_go_by_the_clock();
    poll_changes();
    receive_changes();
    plans_go_on();
    waits_are_bounded();
}

/// For two links, a pacer and any times there are rounds with plans. Each pacer that was made is
/// one of these.
pub fn paced_rounds_exist()
    ensures stays { StaysUsable }
    ensures exist { (a b : LinkView) (p : PacerView) (moments : List ℕ)
        → IsUsable p → PacedRoundsExist a p b moments }
{}

/// After enough rounds, everything that the first of two links in step has queued is acknowledged,
/// though its pacer sets it before each poll. The user of the second took all its units, in order
/// and without duplicates.
pub fn paced_rounds_deliver()
    ensures { PacedRoundsDeliver }
{
    laws_below();
}

/// Rounds that are a minute or more apart are such rounds, since no wait is longer. Each pacer that
/// was made waits if units are outstanding, as these rounds need it.
pub fn minutes_are_ripe()
    ensures stays { StaysWaiting }
    ensures ripe { MinutesAreRipe }
{
    laws_below();
}

/// For every scene that can be reached, under the three premises: rounds with plans are enough for
/// what an end has queued for its peer.
pub fn no_paced_state_is_stuck()
    ensures { (s : Scene) → Reached s → NoPacedStateIsStuck s }
{
    laws_below();
    paced_rounds_deliver();
    peers_are_in_step();
    peers_follow();
    peers_are_named();
}
