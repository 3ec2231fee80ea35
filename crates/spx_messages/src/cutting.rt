//! A message, split into units.

ghost use Rattle.std.specs.Prelude.{◌≡◌, ◌≤◌, ◌++◌, [], ◌∷◌, All, Err, IfOk, IsOkUnless, None, OnOk, Some, length};
ghost use Rattle.ipx_wire.specs.Assigned.{spx_max_data_size};
ghost use Rattle.spx_messages.specs.Cut.{IsCut, cut_of, unit_with};
ghost use Rattle.spx_messages.specs.Message.{cut_fault, message_view};
ghost use Rattle.spx_messages.specs.declared.message_fault.MessageFault.{MessageFault};
ghost use Rattle.spx_messages.specs.declared.message_fault.MessageFault.TheVariants as MessageFaults;

use crate::message::{MAX_BYTES, Message};
use crate::message_fault::MessageFault;
use ipx_wire::{Fragment, SPX_MAX_DATA_SIZE};
use spx_link::Unit;
use std::alloc::{AllocError, Global};

/// The lowest datastream type that no message has: that of the end of a connection.
const END_STREAM: u8 = 0xfe;

/// Adds a unit with these bytes, built in place: they are copied once. For fewer than 534 bytes,
/// the buffer is zeroed first.
fn push_shorter(
    units: &mut Vec<Unit>,
    stream: u8,
    last: bool,
    bytes: &[u8],
) -> Result<(), AllocError>
    requires { length bytes.now ≤ spx_max_data_size }
    ensures { OnOk result
        (units.new.items ≡ units.old.items ++ unit_with stream last bytes.now ∷ []) }
{
    units.reserve(1)?;
    units.push_reserved(Unit {
        stream,
        last,
        body: Fragment::new(),
    });
    if let Some(unit) = units.last_mut() {
        unit.body.try_extend_from_slice(bytes).unwrap();
    }
    Ok(())
}

/// Adds a unit with these bytes. If they are all of 534, no buffer is zeroed first.
fn push_unit(units: &mut Vec<Unit>, stream: u8, last: bool, bytes: &[u8]) -> Result<(), AllocError>
    requires { length bytes.now ≤ spx_max_data_size }
    ensures { OnOk result
        (units.new.items ≡ units.old.items ++ unit_with stream last bytes.now ∷ []) }
{
    let Some((whole, _)) = bytes.split_first_chunk::<SPX_MAX_DATA_SIZE>() else {
        return push_shorter(units, stream, last, bytes);
    };
    units.reserve(1)?;
    units.push_reserved(Unit {
        stream,
        last,
        body: Fragment::from_array_in((), *whole),
    });
    Ok(())
}

/// Splits a message into the units that carry it, in order.
///
/// All units but the last have 534 bytes. The last has 0 to 534 bytes and the end of the message.
/// It is refused as `TooLong` if it has over 65,535 bytes, and then as `BadStream` for the types FE
/// and FF. Otherwise it fails only if out of memory.
pub fn cut(alloc: Global, message: &Message) -> Result<Vec<Unit>, MessageFault>
    ensures ok { IfOk result (λ v. v.items ≡ cut_of (message_view message.now)) }
    ensures units { IfOk result (λ v. IsCut (message_view message.now) v.items) }
    ensures streams { IfOk result (λ v. All (λ u. u.stream ≡ message.now.stream) v.items) }
    ensures fault { (f : MessageFault)
        → cut_fault (message_view message.now) ≡ Some f → result ≡ Err f }
    ensures memory { cut_fault (message_view message.now) ≡ None
        → IsOkUnless result MessageFaults.OutOfMemory }
{
    if message.body.len() > MAX_BYTES {
        return Err(MessageFault::TooLong(message.body.len()));
    }
    if message.stream >= END_STREAM {
        return Err(MessageFault::BadStream(message.stream));
    }
    cut_bytes(alloc, message.stream, &message.body)
}

/// The units of these bytes.
fn cut_bytes(alloc: Global, stream: u8, bytes: &[u8]) -> Result<Vec<Unit>, MessageFault>
    ensures ok { IfOk result
        (λ v. v.items ≡ cut_of (record { stream = stream; body = bytes.now })) }
    ensures memory { IsOkUnless result MessageFaults.OutOfMemory }
{
    let mut units = Vec::with_capacity(alloc, bytes.len() / SPX_MAX_DATA_SIZE + 1)?;
    let mut rest = bytes;
    while rest.len() > SPX_MAX_DATA_SIZE {
        let (piece, later) = rest.split_at(SPX_MAX_DATA_SIZE);
        push_unit(&mut units, stream, false, piece)?;
        rest = later;
    }
    push_unit(&mut units, stream, true, rest)?;
    Ok(units)
}
