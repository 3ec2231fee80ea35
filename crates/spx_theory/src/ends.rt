//! Laws of the ends of a network and of the numbers in its log, for the summaries of ends.

ghost use Rattle.std.specs.Prelude.{ℕ};
ghost use Rattle.spx_theory.specs.Deeds.{Reached};
ghost use Rattle.spx_theory.specs.EntriesOfEnds.{EntriesTellEnds};
ghost use Rattle.spx_theory.specs.EndsSummarized.{EndsAreSummarized, EndsStay, GoneSendsNothing, PeerIsFound};
ghost use Rattle.spx_theory.specs.Numbered.{NumbersAreInOrder};
ghost use Rattle.spx_theory.specs.Outside.{OutsideWasInjected};
ghost use Rattle.spx_theory.specs.Scan.{Scan};
ghost use Rattle.spx_theory.specs.Scene.{Scene};
ghost use Rattle.spx_theory.specs.UnitsOfEnds.{UnitsAreCuts};

use crate::below::laws_below;

/// Ends are numbered like their roles in the log. The next number of a link is that of the unit
/// after those that its end sent. The link has the buffers that its end was made with.
pub fn ends_are_summarized()
    ensures { (s : Scene) → Reached s → EndsAreSummarized s }
{
    laws_below();
}

/// If an end has no link after a deed, that deed sent no unit of it.
pub fn gone_sends_nothing()
    ensures { GoneSendsNothing }
{}

/// An end stays at its host, and a released end does not change.
pub fn ends_stay()
    ensures { EndsStay }
{}

/// An end's peer is the one that is found from the roles of the two, and it has no other.
pub fn peer_is_found()
    ensures { (s : Scan) (c d : ℕ) → PeerIsFound s c d }
{}

/// Ends and parcels are numbered in the order of the entries that make them, and each entry names
/// ends and parcels that exist.
pub fn numbers_are_in_order()
    ensures { (s : Scene) → Reached s → NumbersAreInOrder s }
{
    laws_below();
}

/// If no parcel was injected, no end read an injected one.
pub fn outside_was_injected()
    ensures { (s : Scene) → Reached s → OutsideWasInjected s }
{
    numbers_are_in_order();
}

/// The units of an end are those of its messages, split, one after another, followed by one end of
/// the connection if that was asked for.
pub fn units_are_cuts()
    ensures { (s : Scene) → Reached s → UnitsAreCuts s }
{
    laws_below();
}

/// An end is at the host of the entry that opened it. It has no link exactly if an entry says that
/// it was released. Before that, its end of the connection is queued exactly if an entry asks for
/// it.
pub fn entries_tell_ends()
    ensures { (s : Scene) → Reached s → EntriesTellEnds s }
{
    laws_below();
}
