//! A message that is split into units, and joined again by the other side.

ghost use Rattle.std.specs.Prelude.{◌≡◌, IfOk};

use anyhow::Result;
use spx_link::Unit;
use spx_messages::{Inbox, Message, cut};
use std::alloc::{AllocError, Global};

/// A message of 535 bytes, one more than a unit holds.
fn message(alloc: Global) -> Result<Message, AllocError>
    ensures { IfOk result (λ m. m.stream ≡ 0) }
{
    let body = vec![in alloc; b'a'; 535]?;
    Ok(Message { stream: 0, body })
}

/// Passes a unit to an inbox, and prints the message that it completes, if any.
fn hand_on(rt: &impl Print, alloc: Global, inbox: &mut Inbox, unit: &Unit) -> Result<()> {
    let bytes = unit.body.len();
    println!(rt; "inbox: gets {bytes} bytes")?;
    if let Some(message) = inbox.push(alloc, unit)? {
        let bytes = message.body.len();
        println!(rt; "inbox: a message of {bytes} bytes")?;
    }
    Ok(())
}

/// Passes units to an inbox in order.
fn hand_on_all(rt: &impl Print, alloc: Global, units: &[Unit]) -> Result<()> {
    let mut inbox = Inbox::new(alloc);
    for unit in units {
        hand_on(rt, alloc, &mut inbox, unit)?;
    }
    Ok(())
}

/// Splits a message, and joins its units.
pub fn cut_and_join(rt: &impl Print, alloc: Global) -> Result<()> {
    let units = cut(alloc, &message(alloc)?)?;
    hand_on_all(rt, alloc, &units)
}
