//! What each call of a link keeps, and what it does to the state: theorems about the functions of
//! the calls.

ghost use Rattle.std.specs.Prelude.{◌≡◌, ◌≢◌, ◌+◌, ◌⊎◌, ℕ, Bool, true, List, None, Some};
ghost use Rattle.ipx_wire.specs.declared.spx.packet.SpxHeader.{SpxHeader};
ghost use Rattle.ipx_wire.specs.declared.address.Socket.{Socket};
ghost use Rattle.ipx_wire.specs.declared.address.Address.{Address};
ghost use Rattle.spx_link.specs.declared.unit.Unit as units;
ghost use Rattle.spx_link.specs.declared.received.Received.TheVariants.{Joined, Stranger};
ghost use Rattle.spx_link.specs.declared.state.State.TheVariants.{Opening};
ghost use Rattle.spx_link.specs.Courses.{HasNoEndWhileOpen, HasTaken, IsWholeOnceConfirmed};
ghost use Rattle.spx_link.specs.Courses.{is_unconnected};
ghost use Rattle.spx_link.specs.Effects.{IfRequest};
ghost use Rattle.spx_link.specs.LinkView.{LinkView};
ghost use Rattle.spx_link.specs.Offer.{accepted_from, again_link, dialed, end_link, lose_link};
ghost use Rattle.spx_link.specs.Offer.{offer_link, owe_reply_link, pace_link, refusal, take_link};
ghost use Rattle.spx_link.specs.Poll.{poll_link};
ghost use Rattle.spx_link.specs.Receive.{receive_link};

/// In Opening and Live no end is queued. This holds for a new link, and each call keeps it.
pub fn open_links_queue_no_end()
    ensures dialed { (own : ℕ) (s : Socket) (a : Address) (buffers now : ℕ)
        → HasNoEndWhileOpen (dialed own s a buffers now) }
    ensures accepted { (own : ℕ) (s : Socket) (a : Address) (h : SpxHeader) (buffers now : ℕ)
        → HasNoEndWhileOpen (accepted_from own s a h buffers now) }
    ensures poll { (l : LinkView) (now : ℕ) → HasNoEndWhileOpen l
        → HasNoEndWhileOpen (poll_link l now).1 }
    ensures receive { (l : LinkView) (h : SpxHeader) (body : List ℕ) → HasNoEndWhileOpen l
        → HasNoEndWhileOpen (receive_link l h body).1 }
    ensures offer { (l : LinkView) (us : List units.Unit) → HasNoEndWhileOpen l
        → HasNoEndWhileOpen (offer_link l us) }
    ensures end { (l : LinkView) → HasNoEndWhileOpen (end_link l) }
    ensures take { (l : LinkView) → HasNoEndWhileOpen l → HasNoEndWhileOpen (take_link l).1 }
    ensures owe_reply { (l : LinkView) → HasNoEndWhileOpen l
        → HasNoEndWhileOpen (owe_reply_link l) }
    ensures lose { (l : LinkView) → HasNoEndWhileOpen (lose_link l) }
    ensures pace { (l : LinkView) (window : ℕ) (manual : Bool) → HasNoEndWhileOpen l
        → HasNoEndWhileOpen (pace_link l window manual) }
    ensures again { (l : LinkView) (place : ℕ) → HasNoEndWhileOpen l
        → HasNoEndWhileOpen (again_link l place) }
{}

/// In Confirmed the end was queued, and everything that was queued is acknowledged. This holds
/// for a new link, and each call keeps it.
pub fn confirmed_links_are_whole()
    ensures dialed { (own : ℕ) (s : Socket) (a : Address) (buffers now : ℕ)
        → IsWholeOnceConfirmed (dialed own s a buffers now) }
    ensures accepted { (own : ℕ) (s : Socket) (a : Address) (h : SpxHeader) (buffers now : ℕ)
        → IsWholeOnceConfirmed (accepted_from own s a h buffers now) }
    ensures poll { (l : LinkView) (now : ℕ) → IsWholeOnceConfirmed l
        → IsWholeOnceConfirmed (poll_link l now).1 }
    ensures receive { (l : LinkView) (h : SpxHeader) (body : List ℕ) → IsWholeOnceConfirmed l
        → IsWholeOnceConfirmed (receive_link l h body).1 }
    ensures offer { (l : LinkView) (us : List units.Unit) → refusal l.state ≡ None
        → IsWholeOnceConfirmed (offer_link l us) }
    ensures end { (l : LinkView) → IsWholeOnceConfirmed (end_link l) }
    ensures take { (l : LinkView) → IsWholeOnceConfirmed l → IsWholeOnceConfirmed (take_link l).1 }
    ensures owe_reply { (l : LinkView) → IsWholeOnceConfirmed l
        → IsWholeOnceConfirmed (owe_reply_link l) }
    ensures lose { (l : LinkView) → IsWholeOnceConfirmed (lose_link l) }
    ensures pace { (l : LinkView) (window : ℕ) (manual : Bool) → IsWholeOnceConfirmed l
        → IsWholeOnceConfirmed (pace_link l window manual) }
    ensures again { (l : LinkView) (place : ℕ) → IsWholeOnceConfirmed l
        → IsWholeOnceConfirmed (again_link l place) }
{}

/// The units taken and the units held are all those before the expected one. This holds for a new
/// link, and each call keeps it. A take that gives a unit adds one to the units taken.
pub fn taken_and_held_are_expected()
    ensures dialed { (own : ℕ) (s : Socket) (a : Address) (buffers now : ℕ)
        → HasTaken 0 (dialed own s a buffers now) }
    ensures accepted { (own : ℕ) (s : Socket) (a : Address) (h : SpxHeader) (buffers now : ℕ)
        → HasTaken 0 (accepted_from own s a h buffers now) }
    ensures poll { (l : LinkView) (now taken : ℕ) → HasTaken taken l
        → HasTaken taken (poll_link l now).1 }
    ensures receive { (l : LinkView) (h : SpxHeader) (body : List ℕ) (taken : ℕ) → HasTaken taken l
        → HasTaken taken (receive_link l h body).1 }
    ensures offer { (l : LinkView) (us : List units.Unit) (taken : ℕ) → HasTaken taken l
        → HasTaken taken (offer_link l us) }
    ensures end { (l : LinkView) (taken : ℕ) → HasTaken taken l → HasTaken taken (end_link l) }
    ensures take { (l : LinkView) (u : units.Unit) (taken : ℕ) → (take_link l).0 ≡ Some u
        → HasTaken taken l → HasTaken (taken + 1) (take_link l).1 }
    ensures no_take { (l : LinkView) → (take_link l).0 ≡ None → (take_link l).1 ≡ l }
    ensures owe_reply { (l : LinkView) (taken : ℕ) → HasTaken taken l
        → HasTaken taken (owe_reply_link l) }
    ensures lose { (l : LinkView) (taken : ℕ) → HasTaken taken l → HasTaken taken (lose_link l) }
    ensures pace { (l : LinkView) (window : ℕ) (manual : Bool) (taken : ℕ) → HasTaken taken l
        → HasTaken taken (pace_link l window manual) }
    ensures again { (l : LinkView) (place taken : ℕ) → HasTaken taken l
        → HasTaken taken (again_link l place) }
{}

/// No call makes a link Opening. A packet joins an Opening link, or leaves it unchanged.
pub fn opening_links_join_or_stay()
    ensures poll { (l : LinkView) (now : ℕ) → (poll_link l now).1.state ≡ Opening
        → l.state ≡ Opening }
    ensures receive { (l : LinkView) (h : SpxHeader) (body : List ℕ)
        → (receive_link l h body).0 ≢ Stranger → (receive_link l h body).1.state ≢ Opening }
    ensures joins { (l : LinkView) (h : SpxHeader) (body : List ℕ)
        → (receive_link l h body).0 ≡ Joined → l.state ≡ Opening }
    ensures stays { (l : LinkView) (h : SpxHeader) (body : List ℕ) → l.state ≡ Opening
        → ((receive_link l h body).0 ≡ Joined) ⊎ ((receive_link l h body).1 ≡ l) }
    ensures take { (l : LinkView) → (take_link l).1.state ≡ l.state }
{}

/// A link that is Opening or Lost sends only requests. A poll keeps it Opening or Lost, it reads
/// only a packet that joins it, and units cannot be offered to it.
pub fn unconnected_links_send_nothing()
    ensures asks { (l : LinkView) (now : ℕ) → is_unconnected l.state ≡ true
        → IfRequest (poll_link l now).0 }
    ensures stays { (l : LinkView) (now : ℕ) → is_unconnected l.state ≡ true
        → is_unconnected (poll_link l now).1.state ≡ true }
    ensures joins { (l : LinkView) (h : SpxHeader) (body : List ℕ) → is_unconnected l.state ≡ true
        → (receive_link l h body).0 ≢ Stranger → (receive_link l h body).0 ≡ Joined }
    ensures refuses { (l : LinkView) → is_unconnected l.state ≡ true → refusal l.state ≢ None }
{}
