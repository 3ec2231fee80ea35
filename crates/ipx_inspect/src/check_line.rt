//! The lines that `ipx check` reads.

ghost use Rattle.std.specs.Prelude.{◌≡◌, ◌==◌, IfOk, position};
ghost use Rattle.std.specs.List.{list_all};
ghost use Rattle.std.specs.Result.{result_ok};
ghost use Rattle.hex.specs.Hex.{decode_of};
ghost use Rattle.ipx_inspect.specs.CheckLine.{bad_vector, fault_number, line_form, line_view, vector_of};

use crate::place::place_of;
use hex::FromHexError;
use ipx_wire::OutOfMemory;
use std::alloc::Global;

/// A line: skipped, a vector, or of no known form. A vector is the number of the fault that its
/// datagram must have, 0 for none, and the datagram.
#[derive(Drop)]
pub enum VectorLine {
    Skipped,
    Vector { number: u8, bytes: Vec<u8> },
    Malformed,
}

/// A number from 1 to 39 without a leading zero.
fn fault_number_of(digits: &[u8]) -> Option<u8>
    ensures { result ≡ fault_number digits.now }
{
    if digits.len() == 1 && digits[0] >= b'1' && digits[0] <= b'9' {
        return Some(digits[0] - b'0');
    }
    if digits.len() == 2
        && digits[0] >= b'1'
        && digits[0] <= b'3'
        && digits[1] >= b'0'
        && digits[1] <= b'9'
    {
        return Some(10 * (digits[0] - b'0') + (digits[1] - b'0'));
    }
    None
}

/// Whether a line holds only blanks.
fn is_blank(line: &[u8]) -> bool
    ensures { result ≡ list_all (λ b. b == 32) line.now }
{
    line.iter().all(|byte| *byte == b' ')
}

/// A vector, if there is a number and the text is hex.
fn vector_in(alloc: Global, number: Option<u8>, text: &[u8]) -> Result<VectorLine, OutOfMemory>
    ensures { IfOk result (λ l. line_view l ≡ vector_of number (result_ok (decode_of text.now))) }
{
    let Some(number) = number else {
        return Ok(VectorLine::Malformed);
    };
    match hex::decode(alloc, text) {
        Ok(bytes) => return Ok(VectorLine::Vector { number, bytes }),
        Err(FromHexError::OutOfMemory) => return Err(OutOfMemory),
        Err(_) => return Ok(VectorLine::Malformed),
    }
}

/// What follows `bad `: a number, the first blank and a text in hex.
fn bad_vector_in(alloc: Global, rest: &[u8]) -> Result<VectorLine, OutOfMemory>
    ensures { IfOk result (λ l.
        line_view l ≡ bad_vector rest.now (position (λ b. b == 32) rest.now)) }
{
    match place_of(rest, b' ') {
        Some(end) => return vector_in(alloc, fault_number_of(&rest[..end]), &rest[end + 1..]),
        None => return Ok(VectorLine::Malformed),
    }
}

/// What a line of vectors says: it is skipped, holds a vector, or has another form.
pub fn read_line(alloc: Global, line: &[u8]) -> Result<VectorLine, OutOfMemory>
    ensures { IfOk result (λ l. line_view l ≡ line_form line.now) }
{
    if is_blank(line) {
        return Ok(VectorLine::Skipped);
    }
    if line.starts_with(b"#") {
        return Ok(VectorLine::Skipped);
    }
    if line.starts_with(b"ok ") {
        return vector_in(alloc, Some(0), &line[3..]);
    }
    if !line.starts_with(b"bad ") {
        return Ok(VectorLine::Malformed);
    }
    bad_vector_in(alloc, &line[4..])
}
