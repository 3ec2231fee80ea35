//! A partial message.

ghost use Rattle.std.specs.Prelude.{◌≡◌, ◌≢◌, ◌≤◌, ◌+◌, Err, IfOk, IsOkUnless, None, Ok, OnErr, OnOk, Some, [], false, true, length, option_map, option_to_list};
ghost use Rattle.spx_link.specs.Limits.{end_stream};
ghost use Rattle.spx_messages.specs.Joining.{added, is_overlong, join_unit};
ghost use Rattle.spx_messages.specs.Cut.{unit_bytes};
ghost use Rattle.spx_messages.specs.Message.{length_of, message_view};
ghost use Rattle.spx_messages.specs.declared.message_fault.MessageFault.TheVariants as MessageFaults;

use crate::message::{MAX_BYTES, Message};
use crate::message_fault::MessageFault;
use spx_link::Unit;
use std::alloc::{AllocError, Global};
use std::marker::Model;

/// The datastream type of the end of a connection.
const END_STREAM: u8 = 0xfe;

/// The joined units of a message that is not complete yet.
///
/// It is empty at first, and again after each message.
#[derive(Drop)]
pub struct Inbox {
    rest: Option<Message>,
}

impl Model for Inbox {
    ghost use Rattle.std.specs.Prelude.{◌≤◌, Option, option_map};
    ghost use Rattle.spx_messages.specs.Message.{MessageView, length_of, message_view};

    ghost Value = { Option MessageView };

    ghost view = { λ i. option_map message_view i.rest };

    ghost invariant = { λ i. length_of (option_map message_view i.rest) ≤ 65535 };
}

impl Inbox {
    /// An empty inbox. It allocates nothing.
    pub fn new(_alloc: Global) -> Inbox
        ensures { result ≡ None }
    {
        Inbox { rest: None }
    }

    /// Adds a unit, and gives the message that it completes, if any. A unit of stream FE is the end
    /// of a connection, and part of no message: it leaves the inbox unchanged.
    ///
    /// The message has the stream of its first unit. If it grows over 65,535 bytes, it is refused
    /// as `Overlong` and the inbox becomes empty. If memory is refused, the inbox is as it was.
    #[inline(always)] // otherwise its result passes through memory for each unit
    pub fn push(&mut self, alloc: Global, unit: &Unit) -> Result<Option<Message>, MessageFault>
        ensures step { IfOk result (λ m.
            join_unit (record { messages = []; rest = self.old }) unit.now
            ≡ record { messages = option_to_list (option_map message_view m); rest = self.new }) }
        ensures end { unit.now.stream ≡ end_stream → (result ≡ Ok None) × (self.new ≡ self.old) }
        ensures overlong { unit.now.stream ≢ end_stream → is_overlong self.old unit.now ≡ true
            → (result ≡ Err MessageFaults.Overlong) × (self.new ≡ None) }
        ensures whole { unit.now.stream ≢ end_stream → is_overlong self.old unit.now ≡ false
            → unit.now.last ≡ true → IfOk result (λ m.
            (option_map message_view m ≡ Some (added self.old unit.now)) × (self.new ≡ None)) }
        ensures part { unit.now.stream ≢ end_stream → is_overlong self.old unit.now ≡ false
            → unit.now.last ≡ false
            → IfOk result (λ m. (m ≡ None) × (self.new ≡ Some (added self.old unit.now))) }
        ensures memory { unit.now.stream ≢ end_stream → is_overlong self.old unit.now ≡ false
            → IsOkUnless result MessageFaults.OutOfMemory }
        ensures unchanged { result ≡ Err MessageFaults.OutOfMemory → self.new ≡ self.old }
    {
        if unit.stream == END_STREAM {
            return Ok(None);
        }
        if self.len() + unit.body.len() > MAX_BYTES {
            self.rest = None;
            return Err(MessageFault::Overlong);
        }
        self.add(alloc, unit)?;
        if unit.last {
            Ok(self.rest.take())
        } else {
            Ok(None)
        }
    }

    /// The number of bytes that it holds.
    fn len(&self) -> usize
        ensures value { result ≡ length_of self.now }
        ensures most { result ≤ 65535 }
    {
        match &self.rest {
            Some(message) => message.body.len(),
            None => 0,
        }
    }

    /// Adds the bytes of a unit.
    fn add(&mut self, alloc: Global, unit: &Unit) -> Result<(), AllocError>
        requires { length_of self.old + length (unit_bytes unit.now) ≤ 65535 }
        ensures ok { OnOk result (self.new ≡ Some (added self.old unit.now)) }
        ensures unchanged { OnErr result (self.new ≡ self.old) }
    {
        match &mut self.rest {
            Some(message) => message.body.extend_from_slice(&unit.body),
            None => {
                let body = Vec::from_slice(alloc, &unit.body)?;
                let stream = unit.stream;
                self.rest = Some(Message { stream, body });
                Ok(())
            }
        }
    }
}
