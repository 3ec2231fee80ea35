//! What the calls of a link do to its numbers, its units, its state, and the ids and addresses of
//! its two ends: theorems about the functions of the calls.

ghost use Rattle.std.specs.Prelude.{◌≡◌, ◌≢◌, ◌↔◌, ◌<◌, ◌+◌, ◌++◌, ℕ, [], ◌∷◌, Bool, true, false};
ghost use Rattle.std.specs.Prelude.{drop, length, slice_get, IfSome, List, None, Some};
ghost use Rattle.ipx_wire.specs.declared.spx.packet.SpxHeader.{SpxHeader};
ghost use Rattle.ipx_wire.specs.declared.address.Socket.{Socket};
ghost use Rattle.ipx_wire.specs.declared.address.Address.{Address};
ghost use Rattle.spx_link.specs.declared.unit.Unit as units;
ghost use Rattle.spx_link.specs.declared.received.Received.TheVariants.{Confirmed, Joined, Kept};
ghost use Rattle.spx_link.specs.declared.received.Received.TheVariants.{PeerEnded, Stranger};
ghost use Rattle.spx_link.specs.declared.state.State.TheVariants.{Ending, Live, Lost, Opening};
ghost use Rattle.spx_link.specs.Effects.{HasEnds, IfRequest, Joins, SameEnds, SamePeer};
ghost use Rattle.spx_link.specs.Effects.{numbers_after_poll, numbers_after_received};
ghost use Rattle.spx_link.specs.Effects.{numbers_after_take};
ghost use Rattle.spx_link.specs.PolledPackets.{IsGiven, StaysOrIsLost};
ghost use Rattle.spx_link.specs.Limits.{end_stream, no_id};
ghost use Rattle.spx_link.specs.LinkView.{LinkView, numbers_of};
ghost use Rattle.spx_link.specs.Links.{LinksView, link_at};
ghost use Rattle.spx_link.specs.SequenceMarks.{acknowledged, distance, room_after};
ghost use Rattle.spx_link.specs.Offer.{accepted_from, again_link, dialed, end_link, first_of};
ghost use Rattle.spx_link.specs.Offer.{lose_link, offer_link, owe_reply_link, pace_link, take_link};
ghost use Rattle.spx_link.specs.Offer.{the_end};
ghost use Rattle.spx_link.specs.Poll.{poll_link};
ghost use Rattle.spx_link.specs.Receive.{any_end, is_kept, is_own, receive_link};
ghost use Rattle.spx_link.specs.LinkTurns.{ConfirmsWhole, IsInTurn, ended_after, is_joined, kept, kept_with};
ghost use Rattle.spx_link.specs.LinkTurns.{newly_held, state_after};
ghost use Rattle.spx_link.specs.Units.{IsEmpty, SameEndings, SameUnits, as_sent, queued_units};
ghost use Rattle.spx_link.specs.Units.{unit_in};

/// A poll changes the numbers only if it sends a unit for the first time. It never changes the ids
/// or addresses.
pub fn poll_changes()
    ensures numbers { (l : LinkView) (now : ℕ)
        → numbers_of (poll_link l now).1 ≡ numbers_after_poll (poll_link l now).0 (numbers_of l) }
    ensures ends { (l : LinkView) (now : ℕ) → SamePeer l (poll_link l now).1 }
{}

/// What a polled packet says of its link, for each kind of packet.
pub fn poll_gives()
    ensures { (l : LinkView) (now : ℕ) → IfSome (poll_link l now).0 (IsGiven l) }
{}

/// A poll keeps the units that are queued and held. It also keeps the state, unless it gives
/// nothing and the link becomes lost.
pub fn poll_keeps_units()
    ensures units { (l : LinkView) (now : ℕ) → SameUnits l (poll_link l now).1 }
    ensures endings { (l : LinkView) (now : ℕ) → SameEndings l (poll_link l now).1 }
    ensures state { (l : LinkView) (now : ℕ)
        → StaysOrIsLost l.state (poll_link l now).1.state (poll_link l now).0 }
{}

/// The end, and each unit that may be offered, is sent unchanged.
pub fn units_are_sent_as_they_are()
    ensures offered { (u : units.Unit) → u.stream < end_stream → as_sent u ≡ u }
    ensures end { as_sent the_end ≡ the_end }
{}

/// In Opening a poll gives only requests.
pub fn opening_gives_requests()
    ensures { (l : LinkView) (now : ℕ) → l.state ≡ Opening → IfRequest (poll_link l now).0 }
{}

/// A link that is lost sends nothing more.
pub fn lost_gives_nothing()
    ensures { (l : LinkView) (now : ℕ) → l.state ≡ Lost → (poll_link l now).0 ≡ None }
{}

/// A packet that is read changes the numbers by its acknowledge number, its allocation, and the
/// unit that is kept. The peer's id changes only if the link joins, and it joins only from Opening.
pub fn receive_changes()
    ensures numbers { (l : LinkView) (h : SpxHeader) (body : List ℕ)
        → numbers_of (receive_link l h body).1
        ≡ numbers_after_received (receive_link l h body).0 (length (newly_held l h body)) h
        (numbers_of l) }
    ensures ends { (l : LinkView) (h : SpxHeader) (body : List ℕ)
        → SameEnds l (receive_link l h body).1 }
    ensures peer { (l : LinkView) (h : SpxHeader) (body : List ℕ)
        → (receive_link l h body).0 ≢ Joined → (receive_link l h body).1.peer ≡ l.peer }
    ensures joins { (l : LinkView) (h : SpxHeader) (body : List ℕ)
        → (receive_link l h body).0 ≡ Joined → Joins l (receive_link l h body).1 h }
{}

/// The unit of a packet is kept exactly if `IsInTurn` holds. It is then kept at its place, and the
/// units that are now in order are held after the others. The answer says whether the peer's end is
/// among them. Nothing is kept after that end.
pub fn receive_keeps_units()
    ensures kept { (l : LinkView) (h : SpxHeader) (body : List ℕ)
        → (is_kept (receive_link l h body).0 ≡ true) ↔ IsInTurn l h }
    ensures end { (l : LinkView) (h : SpxHeader) (body : List ℕ)
        → ((receive_link l h body).0 ≡ PeerEnded)
        ↔ (IsInTurn l h × (any_end (newly_held l h body) ≡ true)) }
    ensures held { (l : LinkView) (h : SpxHeader) (body : List ℕ)
        → is_kept (receive_link l h body).0 ≡ true
        → (receive_link l h body).1.held ≡ l.held ++ newly_held l h body }
    ensures ahead { (l : LinkView) (h : SpxHeader) (body : List ℕ)
        → (receive_link l h body).0 ≡ Kept
        → (receive_link l h body).1.ahead
        ≡ drop (length (newly_held l h body)) (kept_with l h body) }
    ensures place { (l : LinkView) (h : SpxHeader) (body : List ℕ)
        → (receive_link l h body).0 ≡ Kept
        → slice_get (kept (receive_link l h body).1) (length l.held + distance h.seq l.expected)
        ≡ Some (Some (unit_in h body)) }
    ensures none_ahead { (l : LinkView) (h : SpxHeader) (body : List ℕ)
        → (receive_link l h body).0 ≡ PeerEnded → (receive_link l h body).1.ahead ≡ [] }
    ensures same { (l : LinkView) (h : SpxHeader) (body : List ℕ)
        → is_kept (receive_link l h body).0 ≡ false
        → ((receive_link l h body).1.held ≡ l.held) × ((receive_link l h body).1.ahead ≡ l.ahead) }
{}

/// The units that a packet acknowledges leave the queue.
pub fn receive_drops_units()
    ensures { (l : LinkView) (h : SpxHeader) (body : List ℕ) → (receive_link l h body).0 ≢ Stranger
        → queued_units (receive_link l h body).1
        ≡ drop (acknowledged l.next l.out h.ack) (queued_units l) }
{}

/// A packet that is read, unless it joins, is from the link's own peer. A packet of an unknown
/// sender changes nothing.
pub fn receive_reads_its_own()
    ensures own { (l : LinkView) (h : SpxHeader) (body : List ℕ)
        → (receive_link l h body).0 ≢ Stranger → (receive_link l h body).0 ≢ Joined
        → (is_joined l.state ≡ true) × (is_own l h ≡ true) }
    ensures unknown { (l : LinkView) (h : SpxHeader) (body : List ℕ)
        → (receive_link l h body).0 ≡ Stranger → (receive_link l h body).1 ≡ l }
{}

/// What a packet does to the state, and to whether each end was queued or received. A link is
/// confirmed only once its end is queued and all its units are acknowledged.
pub fn receive_changes_states()
    ensures state { (l : LinkView) (h : SpxHeader) (body : List ℕ)
        → (receive_link l h body).1.state ≡ state_after (receive_link l h body).0 l.state }
    ensures end_queued { (l : LinkView) (h : SpxHeader) (body : List ℕ)
        → (receive_link l h body).1.end_queued ≡ l.end_queued }
    ensures peer_ended { (l : LinkView) (h : SpxHeader) (body : List ℕ)
        → (receive_link l h body).1.peer_ended
        ≡ ended_after (receive_link l h body).0 l.peer_ended }
    ensures confirmed { (l : LinkView) (h : SpxHeader) (body : List ℕ)
        → (receive_link l h body).0 ≡ Confirmed → ConfirmsWhole l (receive_link l h body).1 }
{}

/// A take changes how many units are held. It never changes the ids or addresses.
pub fn take_changes()
    ensures numbers { (l : LinkView)
        → numbers_of (take_link l).1 ≡ numbers_after_take (numbers_of l) }
    ensures ends { (l : LinkView) → SamePeer l (take_link l).1 }
{}

/// A take gives the first unit held, and the others remain.
pub fn take_gives_the_first()
    ensures gives { (l : LinkView) → (take_link l).0 ≡ first_of l.held }
    ensures held { (l : LinkView) → (take_link l).1.held ≡ drop 1 l.held }
    ensures ahead { (l : LinkView) → (take_link l).1.ahead ≡ l.ahead }
    ensures queued { (l : LinkView) → queued_units (take_link l).1 ≡ queued_units l }
    ensures endings { (l : LinkView) → SameEndings l (take_link l).1 }
    ensures state { (l : LinkView) → (take_link l).1.state ≡ l.state }
{}

/// Units, and the end, are queued after the others. With the end the state becomes Ending.
pub fn units_queue_in_order()
    ensures offered { (l : LinkView) (us : List units.Unit)
        → queued_units (offer_link l us) ≡ queued_units l ++ us }
    ensures offers_alone { (l : LinkView) (us : List units.Unit)
        → ((offer_link l us).held ≡ l.held) × ((offer_link l us).ahead ≡ l.ahead)
        × ((offer_link l us).state ≡ l.state) × SameEndings l (offer_link l us) }
    ensures end { (l : LinkView) → queued_units (end_link l) ≡ queued_units l ++ the_end ∷ [] }
    ensures ends { (l : LinkView)
        → ((end_link l).state ≡ Ending) × ((end_link l).end_queued ≡ true) }
    ensures ends_alone { (l : LinkView)
        → ((end_link l).held ≡ l.held) × ((end_link l).ahead ≡ l.ahead)
        × ((end_link l).peer_ended ≡ l.peer_ended) }
{}

/// `owe_reply`, `pace` and `again` change neither the units nor the state. `lose` changes only the
/// state.
pub fn others_keep_units()
    ensures owe_reply { (l : LinkView)
        → SameUnits l (owe_reply_link l) × SameEndings l (owe_reply_link l)
        × ((owe_reply_link l).state ≡ l.state) }
    ensures lose { (l : LinkView)
        → SameUnits l (lose_link l) × SameEndings l (lose_link l) × ((lose_link l).state ≡ Lost) }
    ensures pace { (l : LinkView) (window : ℕ) (manual : Bool)
        → SameUnits l (pace_link l window manual) × SameEndings l (pace_link l window manual)
        × ((pace_link l window manual).state ≡ l.state) }
    ensures again { (l : LinkView) (place : ℕ)
        → SameUnits l (again_link l place) × SameEndings l (again_link l place)
        × ((again_link l place).state ≡ l.state) }
{}

/// A new link has no units. Its numbers are 0, except for its buffers and the room that a request
/// allows.
pub fn new_links_are_empty()
    ensures dialed { (own : ℕ) (s : Socket) (a : Address) (buffers now : ℕ)
        → IsEmpty (dialed own s a buffers now) buffers 0 }
    ensures accepted { (own : ℕ) (s : Socket) (a : Address) (h : SpxHeader) (buffers now : ℕ)
        → IsEmpty (accepted_from own s a h buffers now) buffers (room_after 0 0 h.limit) }
{}

/// A new link has the id, the socket and the address that it was given. A link that dialed is
/// Opening and knows no id of the peer. An accepted link has the peer's id from the request, and is
/// marked as accepted.
pub fn new_links_have_their_ends()
    ensures dialed { (own : ℕ) (s : Socket) (a : Address) (buffers now : ℕ)
        → HasEnds (dialed own s a buffers now) own s a no_id false }
    ensures accepted { (own : ℕ) (s : Socket) (a : Address) (h : SpxHeader) (buffers now : ℕ)
        → HasEnds (accepted_from own s a h buffers now) own s a h.from_id true }
    ensures asks { (own : ℕ) (s : Socket) (a : Address) (buffers now : ℕ)
        → (dialed own s a buffers now).state ≡ Opening }
{}

/// The other calls change no number, id or address.
pub fn others_change_no_number()
    ensures offer { (l : LinkView) (us : List units.Unit)
        → (numbers_of (offer_link l us) ≡ numbers_of l) × SamePeer l (offer_link l us) }
    ensures end { (l : LinkView)
        → (numbers_of (end_link l) ≡ numbers_of l) × SamePeer l (end_link l) }
    ensures owe_reply { (l : LinkView)
        → (numbers_of (owe_reply_link l) ≡ numbers_of l) × SamePeer l (owe_reply_link l) }
    ensures lose { (l : LinkView)
        → (numbers_of (lose_link l) ≡ numbers_of l) × SamePeer l (lose_link l) }
    ensures pace { (l : LinkView) (window : ℕ) (manual : Bool)
        → (numbers_of (pace_link l window manual) ≡ numbers_of l)
        × SamePeer l (pace_link l window manual) }
    ensures again { (l : LinkView) (place : ℕ)
        → (numbers_of (again_link l place) ≡ numbers_of l) × SamePeer l (again_link l place) }
{}

/// An accepted link starts as Live and must send a reply.
pub fn accepted_owes_its_reply()
    ensures state { (own : ℕ) (s : Socket) (a : Address) (h : SpxHeader) (buffers now : ℕ)
        → (accepted_from own s a h buffers now).state ≡ Live }
    ensures reply { (own : ℕ) (s : Socket) (a : Address) (h : SpxHeader) (buffers now : ℕ)
        → (accepted_from own s a h buffers now).owes_reply ≡ true }
{}

/// A link is stored under its own id.
pub fn links_have_their_ids()
    ensures { (s : LinksView) (id : ℕ) (l : LinkView) → link_at s id ≡ Some l → l.own ≡ id }
{}
