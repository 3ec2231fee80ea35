//! What a sending host queues, and what it drops.

ghost use Rattle.std.specs.Prelude.{◌≡◌, ◌≢◌, ℕ, [], false, true, IfSome, OnErr, OnOk, None, Some};
ghost use Rattle.spx_link.specs.Links.{count_of};
ghost use Rattle.spx_messages.specs.Changes.{SameSelf};
ghost use Rattle.spx_messages.specs.EndpointView.{held_at};
ghost use Rattle.spx_messages.specs.Taking.{take_end};
ghost use Rattle.ipx_host.specs.Dropping.{DropsCame, StopsAt};
ghost use Rattle.ipx_host.specs.Feeding.{HandsIn, KeepsQueue};

use spx_messages::{EndFault, Endpoint, Message, MessageFault, Taken};
use std::alloc::Global;

/// Queues bytes as one message.
pub fn hand_in(
    alloc: Global,
    endpoint: &mut Endpoint,
    id: u16,
    bytes: &[u8],
) -> Result<(), EndFault>
    ensures whole { OnOk result (HandsIn endpoint.old endpoint.new id bytes.now) }
    ensures refused { OnErr result ((q : ℕ)
        → held_at endpoint.new q ≡ held_at endpoint.old q) }
{
    let Ok(body) = Vec::from_slice(alloc, bytes) else {
        return Err(EndFault::Message(MessageFault::OutOfMemory));
    };
    endpoint.send(alloc, id, &Message { stream: 0, body })
}

/// Takes and drops the first unit that the link of an id holds. Returns whether it did. If it did
/// not, dropping stops.
fn drop_first(alloc: Global, endpoint: &mut Endpoint, id: u16) -> bool
    ensures drops { IfSome (held_at endpoint.old id) (λ h. result ≡ true
        → (h.link.held ≢ []) × (held_at endpoint.new id ≡ Some (take_end h).1)) }
    ensures stops { IfSome (held_at endpoint.old id) (λ h. result ≡ false
        → StopsAt h (held_at endpoint.new id)) }
    ensures none { held_at endpoint.old id ≡ None → result ≡ false }
    ensures queue { KeepsQueue (held_at endpoint.old id) (held_at endpoint.new id) }
    ensures others { (q : ℕ) → q ≢ id → held_at endpoint.new q ≡ held_at endpoint.old q }
    ensures last { endpoint.new.links.last ≡ endpoint.old.links.last }
    ensures count { count_of endpoint.new.links ≡ count_of endpoint.old.links }
    ensures host { SameSelf endpoint.old endpoint.new }
{
    let taken = endpoint.take(alloc, id);
    !matches!(taken, Ok(Taken::Nothing) | Err(_))
}

/// Drops what the peer of an id sent, so that its buffers are free again. Queued messages are kept.
pub fn drop_what_came(alloc: Global, endpoint: &mut Endpoint, id: u16)
    ensures { DropsCame endpoint.old endpoint.new id }
{
    for _ in 0..u16::MAX {
        if !drop_first(alloc, endpoint, id) {
            break;
        }
    }
}
