//! The fields of a script's lines.

ghost use Rattle.std.specs.Prelude.{◌≡◌, ◌≢◌, ◌<◌, ◌≤◌, ◌+◌, ◌*◌, ◌^◌, true, IfOk, IfSome};
ghost use Rattle.std.specs.Char.{digit_value, is_digit};
ghost use Rattle.std.specs.List.{list_all};
ghost use Rattle.std.specs.Option.{SomeIff, option_map};
ghost use Rattle.std.specs.Result.{result_ok};
ghost use Rattle.hex.specs.Hex.{decode_of};
ghost use Rattle.ipx_wire.specs.Assigned.{all_networks, local_network};
ghost use Rattle.spx_link.specs.Limits.{most_units};
ghost use Rattle.ipx_sim.specs.ScriptFields.{address_in, buffers_field, bytes_in, fields_view, is_blank_line, is_name_byte, is_name_text, line_fields, network_in, number_in, numeral_up_to, own_network_in, short_in, stream_in, within};

use hex::FromHexError;
use ipx_wire::{Address, Network, Node, OutOfMemory, Socket};
use spx_link::MAX_UNITS;
use std::alloc::{AllocError, Global};

/// The greatest number in a script.
const MAX_NUMBER: u32 = 1_000_000_000;

/// Whether a line holds only blanks.
pub fn is_blank(line: &[u8]) -> bool
    ensures { result ≡ is_blank_line line.now }
{
    line.iter().all(|byte| *byte == b' ')
}

/// The fields of a line, separated by one blank.
pub fn fields_of<'a>(alloc: Global, line: &'a [u8]) -> Result<Vec<&'a [u8]>, AllocError>
    ensures { IfOk result (λ v. fields_view v.items ≡ line_fields line.now) }
{
    line.split(|byte| *byte == b' ').collect(alloc)
}

fn are_name_bytes(field: &[u8]) -> bool
    ensures { result ≡ list_all is_name_byte field.now }
{
    field
        .iter()
        .all(|byte| matches!(*byte, b'a'..=b'z' | b'0'..=b'9'))
}

/// A name has 1 to 16 of `a` to `z` and digits.
pub fn is_name(field: &[u8]) -> bool
    ensures { result ≡ is_name_text field.now }
{
    are_name_bytes(field) && !field.is_empty() && field.len() <= 16
}

/// A number with one more digit after it.
fn with_digit(number: u32, radix: u32, byte: u8) -> Option<u32>
    requires low { 2 ≤ radix }
    requires high { radix ≤ 36 }
    ensures { SomeIff result
        ((is_digit byte radix ≡ true) × (number * radix + digit_value byte < 2 ^ 32))
        (number * radix + digit_value byte) }
{
    let digit = char::from(byte).to_digit(radix)?;
    number.checked_mul(radix)?.checked_add(digit)
}

/// The value of digits, if all are digits and it is at most `most`.
fn numeral_of(field: &[u8], radix: u32, most: u32) -> Option<u32>
    requires low { 2 ≤ radix }
    requires high { radix ≤ 36 }
    ensures { result ≡ numeral_up_to most radix field.now }
{
    let mut number: u32 = 0;
    for byte in field {
        number = with_digit(number, radix, *byte)?;
    }
    if number > most {
        return None;
    }
    Some(number)
}

/// A number in decimal digits only, at most 1,000,000,000.
pub fn number_of(field: &[u8]) -> Option<u32>
    ensures { result ≡ number_in field.now }
{
    if field.is_empty() {
        return None;
    }
    numeral_of(field, 10, MAX_NUMBER)
}

/// Such a number, of an end or a parcel.
pub fn index_of(field: &[u8]) -> Option<usize>
    ensures { result ≡ number_in field.now }
{
    let number = number_of(field)?;
    Some(number as usize)
}

/// A number, if it has at most 16 bits.
fn short_from(number: Option<u32>) -> Option<u16>
    ensures { result ≡ within 0 65535 number }
{
    u16::try_from(number?).ok()
}

/// A number of 16 bits.
pub fn short_of(field: &[u8]) -> Option<u16>
    ensures { result ≡ short_in field.now }
{
    short_from(number_of(field))
}

/// Buffers of a link: 1 to 8,192.
pub fn parse_buffers(field: &[u8]) -> Option<u16>
    ensures value { result ≡ buffers_field field.now }
    ensures owed { IfSome result (λ b. (0 < b) × (b ≤ most_units)) }
{
    let buffers = short_of(field)?;
    if buffers == 0 || buffers > MAX_UNITS {
        return None;
    }
    Some(buffers)
}

/// A network, in 1 to 8 hex digits.
pub fn parse_network(field: &[u8]) -> Option<Network>
    ensures { result ≡ network_in field.now }
{
    if field.is_empty() || field.len() > 8 {
        return None;
    }
    numeral_of(field, 16, u32::MAX).map(Network)
}

/// A network that a host or a port may have: neither 0 nor ffffffff.
pub fn own_network_of(field: &[u8]) -> Option<Network>
    ensures value { result ≡ own_network_in field.now }
    ensures owed { IfSome result (λ n. (n.0 ≢ local_network) × (n.0 ≢ all_networks)) }
{
    let network = parse_network(field)?;
    if network.0 == Network::LOCAL.0 || network.0 == Network::ALL.0 {
        return None;
    }
    Some(network)
}

/// A datastream type, in 2 hex digits.
pub fn stream_of(field: &[u8]) -> Option<u8>
    ensures { result ≡ stream_in field.now }
{
    if field.len() != 2 {
        return None;
    }
    u8::try_from(numeral_of(field, 16, 0xff)?).ok()
}

/// A network, a node and a socket.
pub fn parse_address(network: &[u8], node: &[u8], socket: &[u8]) -> Option<Address>
    ensures { result ≡ address_in network.now node.now socket.now }
{
    Some(Address {
        network: parse_network(network)?,
        node: Node::from_hex(node)?,
        socket: Socket::from_hex(socket)?,
    })
}

fn hex_bytes_of(alloc: Global, field: &[u8]) -> Result<Option<Vec<u8>>, OutOfMemory>
    ensures { IfOk result (λ b. option_map (λ v. v.items) b ≡ result_ok (decode_of field.now)) }
{
    match hex::decode(alloc, field) {
        Ok(bytes) => Ok(Some(bytes)),
        Err(FromHexError::OutOfMemory) => Err(OutOfMemory),
        Err(_) => Ok(None),
    }
}

/// Bytes in hex, `-` for none. `None` is a field that is neither.
pub fn bytes_of(alloc: Global, field: &[u8]) -> Result<Option<Vec<u8>>, OutOfMemory>
    ensures { IfOk result (λ b. option_map (λ v. v.items) b ≡ bytes_in field.now) }
{
    match field {
        [] => Ok(None),
        b"-" => Ok(Some(Vec::new(alloc))),
        _ => hex_bytes_of(alloc, field),
    }
}
