//! A link that is never paced retransmits by the clock: theorems about the functions of its calls.

ghost use Rattle.std.specs.Prelude.{◌≡◌, ◌≤◌, ℕ, false, List, None};
ghost use Rattle.ipx_wire.specs.declared.spx.packet.SpxHeader.{SpxHeader};
ghost use Rattle.ipx_wire.specs.declared.address.Socket.{Socket};
ghost use Rattle.ipx_wire.specs.declared.address.Address.{Address};
ghost use Rattle.spx_link.specs.declared.unit.Unit as units;
ghost use Rattle.spx_link.specs.ByClock.{IsUnpaced, pace_of, poll_by_clock};
ghost use Rattle.spx_link.specs.LinkView.{LinkView};
ghost use Rattle.spx_link.specs.Offer.{accepted_from, again_link, dialed, end_link, lose_link};
ghost use Rattle.spx_link.specs.Offer.{offer_link, owe_reply_link, take_link};
ghost use Rattle.spx_link.specs.Poll.{asked_again, poll_link, wanted};
ghost use Rattle.spx_link.specs.Receive.{receive_link};

/// If the window is 8,192 and the link is not manual, a poll follows the clock alone. A new link is
/// so, and only `pace` changes these two settings.
pub fn unpaced_links_go_by_the_clock()
    ensures poll { (l : LinkView) (now : ℕ) → IsUnpaced l → poll_link l now ≡ poll_by_clock l now }
    ensures dialed { (own : ℕ) (s : Socket) (a : Address) (buffers now : ℕ)
        → IsUnpaced (dialed own s a buffers now) }
    ensures accepted { (own : ℕ) (s : Socket) (a : Address) (h : SpxHeader) (buffers now : ℕ)
        → IsUnpaced (accepted_from own s a h buffers now) }
    ensures polled { (l : LinkView) (now : ℕ) → pace_of (poll_link l now).1 ≡ pace_of l }
    ensures receive { (l : LinkView) (h : SpxHeader) (body : List ℕ)
        → pace_of (receive_link l h body).1 ≡ pace_of l }
    ensures offer { (l : LinkView) (us : List units.Unit) → pace_of (offer_link l us) ≡ pace_of l }
    ensures end { (l : LinkView) → pace_of (end_link l) ≡ pace_of l }
    ensures take { (l : LinkView) → pace_of (take_link l).1 ≡ pace_of l }
    ensures owe_reply { (l : LinkView) → pace_of (owe_reply_link l) ≡ pace_of l }
    ensures lose { (l : LinkView) → pace_of (lose_link l) ≡ pace_of l }
    ensures again { (l : LinkView) (place : ℕ) → pace_of (again_link l place) ≡ pace_of l }
{}

/// A place that `again` asks for has no effect on a link that goes by the clock. If no unit is
/// outstanding at the place, nothing is asked for.
pub fn places_are_manual_only()
    ensures by_clock { (l : LinkView) (place now : ℕ) → l.manual ≡ false
        → wanted (again_link l place) now ≡ wanted l now }
    ensures outside { (l : LinkView) (place : ℕ) → l.out ≤ place
        → asked_again (again_link l place) ≡ None }
{}
