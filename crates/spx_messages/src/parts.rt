//! Partial messages, by the ids of their links.

ghost use Rattle.std.specs.Prelude.{◌==◌, ◌≡◌, ◌≢◌, ℕ, None, filter, not, position};
ghost use Rattle.spx_link.specs.Limits.{end_stream};
ghost use Rattle.spx_messages.specs.EndpointView.{rest_in};
ghost use Rattle.spx_messages.specs.Pushing.{Pushes};

use crate::inbox::Inbox;
use crate::message::Message;
use crate::message_fault::MessageFault;
use spx_link::Unit;
use std::alloc::Global;

/// The partial message of the link of this id.
#[derive(Drop)]
pub struct Part {
    pub id: u16,
    pub inbox: Inbox,
}

/// Removes the partial message of the link of this id.
pub fn forget(parts: &mut Vec<Part>, id: u16)
    ensures kept { parts.new.items ≡ filter (λ p. not (p.id == id)) parts.old.items }
    ensures gone { rest_in parts.new.items id ≡ None }
    ensures others { (q : ℕ) → q ≢ id → rest_in parts.new.items q ≡ rest_in parts.old.items q }
{
    parts.retain(|part| part.id != id);
}

fn place_of(parts: &[Part], id: u16) -> Option<usize>
    ensures { result ≡ position (λ p. p.id == id) parts.now }
{
    parts.iter().position(|part| part.id == id)
}

/// Adds a unit to the message of an id, and gives the message that it completes, if any. The caller
/// must pass another stream than FE. If memory is refused, the partial message is as it was.
pub fn add_unit(
    alloc: Global,
    parts: &mut Vec<Part>,
    id: u16,
    unit: &Unit,
) -> Result<Option<Message>, MessageFault>
    requires { unit.now.stream ≢ end_stream }
    ensures pushes { Pushes (rest_in parts.old.items id) unit.now result
        (rest_in parts.new.items id) }
    ensures others { (q : ℕ) → q ≢ id → rest_in parts.new.items q ≡ rest_in parts.old.items q }
{
    match place_of(parts, id) {
        Some(place) => parts[place].inbox.push(alloc, unit),
        None => add_first(alloc, parts, id, unit),
    }
}

/// Adds the first unit to the message of an id.
fn add_first(
    alloc: Global,
    parts: &mut Vec<Part>,
    id: u16,
    unit: &Unit,
) -> Result<Option<Message>, MessageFault>
    requires stream { unit.now.stream ≢ end_stream }
    requires none { position (λ p. p.id == id) parts.old.items ≡ None }
    ensures pushes { Pushes None unit.now result (rest_in parts.new.items id) }
    ensures others { (q : ℕ) → q ≢ id → rest_in parts.new.items q ≡ rest_in parts.old.items q }
{
    let mut inbox = Inbox::new(alloc);
    let message = inbox.push(alloc, unit)?;
    parts.push(Part { id, inbox })?;
    Ok(message)
}
