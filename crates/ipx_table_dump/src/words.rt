//! Words of a line, each appended to a text.

ghost use Rattle.std.specs.Prelude.{◌≡◌, ◌++◌, ◌==◌, ◌<◌, ◌∷◌, [], IfSome, OnOk, IsAscii, length, position, slice_index, string_bytes};
ghost use Rattle.std.specs.List.{before_first, flat_map};
ghost use Rattle.hex.specs.Hex.{encode_lower};
ghost use Rattle.ipx_inspect.specs.ShowLine.{address_text, name_byte, name_text, word_text};
ghost use Rattle.ipx_table_dump.specs.TableText.{by_text, head_line, heard_text, network_word, seconds_since};

use ipx_tables::Source;
use ipx_wire::{Address, Network};
use std::alloc::AllocError;

/// Hex digits.
const DIGITS: &[u8; 16] = b"0123456789abcdef";

/// The whole seconds between two times in milliseconds.
pub fn seconds_since(now: u64, moment: u64) -> u64
    ensures { result ≡ seconds_since now moment }
{
    now.saturating_sub(moment) / 1000
}

/// The line above a section.
pub fn put_head(text: &mut String, title: &str, count: usize) -> Result<(), AllocError>
    ensures { OnOk result
        (string_bytes text.new ≡ string_bytes text.old ++ head_line title.now count) }
{
    write!(text, "{title} {count}\n")
}

/// One of sixteen digits, as a character.
fn digit_in(digits: &[u8; 16], number: u8) -> char
    requires table { IsAscii digits.now }
    requires within { number < 16 }
    ensures digit { result ≡ slice_index digits.now number }
    ensures ascii { result < 128 }
{
    char::from(digits[usize::from(number)])
}

/// A byte, as two hex digits.
fn put_byte(text: &mut String, byte: u8) -> Result<(), AllocError>
    ensures { OnOk result
        (string_bytes text.new ≡ string_bytes text.old ++ encode_lower (byte ∷ [])) }
{
    text.push(digit_in(DIGITS, byte / 16))?;
    text.push(digit_in(DIGITS, byte % 16))
}

/// Bytes, each as two hex digits.
pub fn put_hex(text: &mut String, bytes: &[u8]) -> Result<(), AllocError>
    ensures { OnOk result
        (string_bytes text.new ≡ string_bytes text.old ++ encode_lower bytes.now) }
{
    for byte in bytes {
        put_byte(text, *byte)?;
    }
    Ok(())
}

pub fn put_network(text: &mut String, network: Network) -> Result<(), AllocError>
    ensures { OnOk result
        (string_bytes text.new ≡ string_bytes text.old ++ network_word network) }
{
    let bytes = network.0.to_be_bytes();
    put_hex(text, &bytes)
}

pub fn put_short(text: &mut String, number: u16) -> Result<(), AllocError>
    ensures { OnOk result
        (string_bytes text.new ≡ string_bytes text.old ++ word_text number) }
{
    let bytes = number.to_be_bytes();
    put_hex(text, &bytes)
}

pub fn put_address(text: &mut String, at: Address) -> Result<(), AllocError>
    ensures { OnOk result
        (string_bytes text.new ≡ string_bytes text.old ++ address_text at) }
{
    put_network(text, at.network)?;
    text.push_str(" ")?;
    put_hex(text, &at.node.0)?;
    text.push_str(" ")?;
    put_short(text, at.socket.0)
}

/// The port where something was heard, and the neighbour.
pub fn put_source(text: &mut String, source: Source) -> Result<(), AllocError>
    ensures { OnOk result
        (string_bytes text.new ≡ string_bytes text.old ++ by_text source) }
{
    let port = source.port;
    write!(text, " port {port} next ")?;
    put_hex(text, &source.neighbour.0)
}

/// How long ago an offer was heard, and whether another offer of its key is better.
pub fn put_heard(text: &mut String, best: bool, seconds: u64) -> Result<(), AllocError>
    ensures { OnOk result
        (string_bytes text.new ≡ string_bytes text.old ++ heard_text best seconds) }
{
    if best {
        return write!(text, " heard {seconds}\n");
    }
    write!(text, " heard {seconds} spare\n")
}

/// A byte of a name, as `show` prints it.
fn put_name_byte(text: &mut String, byte: u8) -> Result<(), AllocError>
    ensures { OnOk result (string_bytes text.new ≡ string_bytes text.old ++ name_byte byte) }
{
    if byte >= 0x21 && byte <= 0x7e && byte != b'\\' {
        return text.push(char::from(byte));
    }
    text.push_str("\\x")?;
    put_byte(text, byte)
}

fn put_name_bytes(text: &mut String, bytes: &[u8]) -> Result<(), AllocError>
    ensures { OnOk result
        (string_bytes text.new ≡ string_bytes text.old ++ flat_map name_byte bytes.now) }
{
    for byte in bytes {
        put_name_byte(text, *byte)?;
    }
    Ok(())
}

/// The index of the first zero byte.
fn zero_place(bytes: &[u8]) -> Option<usize>
    ensures place { result ≡ position (λ b. b == 0) bytes.now }
    ensures within { IfSome result (λ i. i < length bytes.now) }
{
    bytes.iter().position(|byte| *byte == 0)
}

/// The bytes before the first zero byte.
fn before_zero(bytes: &[u8]) -> &[u8]
    ensures { result.now ≡ before_first (λ b. b == 0) bytes.now }
{
    match zero_place(bytes) {
        Some(end) => &bytes[..end],
        None => bytes,
    }
}

/// The name of a service, as `show` prints it.
pub fn put_name(text: &mut String, name: &[u8]) -> Result<(), AllocError>
    ensures { OnOk result
        (string_bytes text.new ≡ string_bytes text.old ++ name_text name.now) }
{
    let bytes = before_zero(name);
    if bytes.is_empty() {
        return text.push_str("-");
    }
    put_name_bytes(text, bytes)
}
