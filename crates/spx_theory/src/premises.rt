//! Laws of the premises: the index of a log says what its entries say.

ghost use Rattle.spx_theory.specs.Deeds.{Reached};
ghost use Rattle.spx_theory.specs.LogHeadline.{LogHeadline};
ghost use Rattle.spx_theory.specs.PremisesRead.{AreMadeOnce, BetweenIsRead, OriginsAreRead, PeersAreRead, PremisesAreRead};
ghost use Rattle.spx_theory.specs.Scene.{Scene};

use crate::below::laws_below;
use crate::ends::peer_is_found;
use crate::laws::{peerless_reads_nothing, peers_are_in_step, within_allocation};

/// Each parcel has one origin, which the entries of the routers that forwarded it lead to.
pub fn origins_are_read()
    ensures { (s : Scene) → Reached s → OriginsAreRead s }
{
    laws_below();
}

/// Two ends are peers exactly if an entry of each names a packet without a unit of the other. Each
/// end has at most one peer.
pub fn peers_are_read()
    ensures { (s : Scene) → Reached s → PeersAreRead s }
{
    laws_below();
    peer_is_found();
}

/// Each parcel is made by one entry, and so is each end: two entries make different ones.
pub fn made_once()
    ensures { (s : Scene) → Reached s → AreMadeOnce s.log }
{
    laws_below();
}

/// The reading of an entry is determined by the entries before it, and the units between a sending
/// and a reading by the entries between them.
pub fn between_is_read()
    ensures { (s : Scene) → Reached s → BetweenIsRead s }
{
    laws_below();
}

/// The three premises hold exactly if the entries of the log say so.
pub fn premises_are_read()
    ensures { (s : Scene) → Reached s → PremisesAreRead s }
{
    laws_below();
}

/// The headline, in terms of the entries only.
pub fn headline_of_log()
    ensures { (s : Scene) → Reached s → LogHeadline s.log }
{
    laws_below();
    peers_are_in_step();
    peerless_reads_nothing();
    within_allocation();
}
