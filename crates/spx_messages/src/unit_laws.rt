//! Laws of splitting and joining, which follow from their definitions.

ghost use Rattle.std.specs.Prelude.{◌≡◌, ◌↔◌, ◌++◌, ℕ, List, [], ◌∷◌, Option, None, Some, false, slice_get, take};
ghost use Rattle.spx_link.specs.Offer.{the_end};
ghost use Rattle.spx_link.specs.declared.unit.Unit.{Unit};
ghost use Rattle.spx_messages.specs.Cut.{IsCut, cut_of};
ghost use Rattle.spx_messages.specs.Groups.{UnitsJoinTo};
ghost use Rattle.spx_messages.specs.Joining.{AreSendable, is_overlong, joined, units_of_messages};
ghost use Rattle.spx_messages.specs.Message.{MessageView};

/// A message is split in exactly one way.
pub fn one_cut()
    ensures { (m : MessageView) (units : List Unit) → IsCut m units ↔ (units ≡ cut_of m) }
{}

/// The result of joining meets the relation on the whole list of units, and no other result does.
pub fn joined_is_the_one_value()
    ensures meets { (units : List Unit)
        → UnitsJoinTo units (joined units).messages (joined units).rest }
    ensures only { (units : List Unit) (messages : List MessageView) (rest : Option MessageView)
        → UnitsJoinTo units messages rest
        → joined units ≡ record { messages = messages; rest = rest } }
{}

/// All units of messages, joined, are exactly these messages, also if the end of the connection
/// follows.
pub fn units_join_to_their_messages()
    ensures all { (ms : List MessageView) → AreSendable ms
        → joined (units_of_messages ms) ≡ record { messages = ms; rest = None } }
    ensures ended { (ms : List MessageView) → AreSendable ms
        → joined (units_of_messages ms ++ the_end ∷ []) ≡ record { messages = ms; rest = None } }
{}

/// If the first units of messages are joined, however many, the result is a prefix of these
/// messages. That also holds if the end of the connection follows.
pub fn first_units_join_to_first_messages()
    ensures units { (ms : List MessageView) (count : ℕ) → AreSendable ms
        → (later : List MessageView)
        × ((joined (take count (units_of_messages ms))).messages ++ later ≡ ms) }
    ensures ended { (ms : List MessageView) (count : ℕ) → AreSendable ms
        → (later : List MessageView)
        × ((joined (take count (units_of_messages ms ++ the_end ∷ []))).messages ++ later ≡ ms) }
{}

/// No unit of messages that can be sent makes one of them overlong.
pub fn no_message_is_overlong()
    ensures { (ms : List MessageView) (count : ℕ) (u : Unit) → AreSendable ms
        → slice_get (units_of_messages ms) count ≡ Some u
        → is_overlong (joined (take count (units_of_messages ms))).rest u ≡ false }
{}
