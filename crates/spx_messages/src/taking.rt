//! What is taken from a link and added to a partial message.

ghost use Rattle.std.specs.Prelude.{◌≡◌, ◌≢◌, ◌↔◌, ℕ, Err, IfOk, IfSome, MatchResult, None, Ok, Some, option_copied, option_map};
ghost use Rattle.spx_link.specs.Links.{ChangesOnly, IsLive, link_at};
ghost use Rattle.spx_link.specs.Offer.{first_of, lose_link, take_link};
ghost use Rattle.spx_messages.specs.Message.{message_view};
ghost use Rattle.spx_messages.specs.declared.message_fault.MessageFault.TheVariants as MessageFaults;
ghost use Rattle.spx_messages.specs.EndpointView.{held_among, rest_in};
ghost use Rattle.spx_messages.specs.Pushing.{ChangesHeld, taken_by_push};
ghost use Rattle.spx_messages.specs.Taking.{IsPushed, result_view, take_end};
ghost use Rattle.spx_messages.specs.declared.fault.EndFault.TheVariants as EndFaults;

use crate::fault::EndFault;
use crate::links::link_of;
use crate::message::Message;
use crate::message_fault::MessageFault;
use crate::parts::{Part, add_unit};
use crate::taken::Taken;
use spx_link::{Links, Unit};
use std::alloc::Global;

/// The datastream type of the end of a connection.
const END_STREAM: u8 = 0xfe;

/// Takes the first unit that a link holds, and gives the message that it completes, if any.
pub fn take_from(
    alloc: Global,
    links: &mut Links,
    parts: &mut Vec<Part>,
    id: u16,
) -> Result<Taken, EndFault>
    ensures unknown { (result ≡ Err EndFaults.NoSuchEnd) ↔ (link_at links.old id ≡ None) }
    ensures takes { IfSome (held_among links.old parts.old.items id) (λ h.
        result ≢ Err (EndFaults.Message MessageFaults.OutOfMemory)
        → (result_view result ≡ (take_end h).0)
        × ChangesHeld links.old links.new parts.old.items parts.new.items id (take_end h).1) }
    ensures memory { IfSome (held_among links.old parts.old.items id) (λ h.
        result ≡ Err (EndFaults.Message MessageFaults.OutOfMemory) → IsPushed h) }
    ensures unchanged { result ≡ Err (EndFaults.Message MessageFaults.OutOfMemory)
        → (links.new ≡ links.old)
        × ((q : ℕ) → rest_in parts.new.items q ≡ rest_in parts.old.items q) }
    ensures absent { link_at links.old id ≡ None → (links.new ≡ links.old)
        × ((q : ℕ) → rest_in parts.new.items q ≡ rest_in parts.old.items q) }
{
    match link_of(links, id)?.peek() {
        None => Ok(Taken::Nothing),
        Some(unit) if unit.stream == END_STREAM => {
            links.discard(id);
            Ok(Taken::PeerEnd)
        }
        Some(unit) => {
            let pushed = add_unit(alloc, parts, id, unit);
            take_pushed(links, id, pushed)
        }
    }
}

/// Takes the first unit of a live id, after it was added to its message, unless memory was refused
/// for that. If the message is too long, the link becomes lost.
fn take_pushed(
    links: &mut Links,
    id: u16,
    pushed: Result<Option<Message>, MessageFault>,
) -> Result<Taken, EndFault>
    requires { IsLive links.old id }
    ensures took { IfOk pushed (λ m.
        result_view result ≡ Ok (taken_by_push (option_map message_view m))) }
    ensures leaves { IfOk pushed (λ _. IfSome (link_at links.old id) (λ l.
        ChangesOnly links.old links.new id (take_link l).1)) }
    ensures overlong { pushed ≡ Err MessageFaults.Overlong
        → result ≡ Err (EndFaults.Message MessageFaults.Overlong) }
    ensures lost { pushed ≡ Err MessageFaults.Overlong → IfSome (link_at links.old id) (λ l.
        ChangesOnly links.old links.new id (lose_link (take_link l).1)) }
    ensures memory { pushed ≡ Err MessageFaults.OutOfMemory
        → result ≡ Err (EndFaults.Message MessageFaults.OutOfMemory) }
    ensures unchanged { pushed ≡ Err MessageFaults.OutOfMemory → links.new ≡ links.old }
{
    match pushed {
        Ok(message) => {
            links.discard(id);
            Ok(message.map_or(Taken::Part, Taken::Whole))
        }
        Err(MessageFault::Overlong) => {
            links.discard(id);
            links.lose(id);
            Err(EndFault::Message(MessageFault::Overlong))
        }
        Err(fault) => Err(EndFault::Message(fault)),
    }
}
