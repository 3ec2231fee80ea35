//! The names of services, as they are printed.

ghost use Rattle.std.specs.Prelude.{◌≡◌, ◌<◌, ◌==◌, IfOk, IfSome, length, position, string_bytes};
ghost use Rattle.std.specs.List.{before_first, flat_map};
ghost use Rattle.ipx_inspect.specs.ShowLine.{name_byte, name_text};
ghost use Rattle.ipx_query_cmd.specs.OperatorLines.{json_byte, json_name};

use std::alloc::{AllocError, Global};

/// A byte of a name. Printable ASCII except space and backslash is kept. Any other byte becomes a
/// backslash, an x and its two hex digits.
fn name_byte_to_text(alloc: Global, byte: u8) -> Result<String, AllocError>
    ensures { IfOk result (λ t. string_bytes t ≡ name_byte byte) }
{
    if byte >= 0x21 && byte <= 0x7e && byte != b'\\' {
        let sign = char::from(byte);
        return format!(in alloc; "{sign}");
    }
    let digits = hex::encode(alloc, [byte])?;
    format!(in alloc; "\\x{digits}")
}

fn name_bytes_to_text(alloc: Global, bytes: &[u8]) -> Result<String, AllocError>
    ensures { IfOk result (λ t. string_bytes t ≡ flat_map name_byte bytes.now) }
{
    let mut text = String::new(alloc);
    for byte in bytes {
        let part = name_byte_to_text(alloc, *byte)?;
        text.push_str(&part)?;
    }
    Ok(text)
}

/// The index of the first zero byte.
fn zero_place(bytes: &[u8]) -> Option<usize>
    ensures place { result ≡ position (λ b. b == 0) bytes.now }
    ensures within { IfSome result (λ i. i < length bytes.now) }
{
    bytes.iter().position(|byte| *byte == 0)
}

/// The bytes before the first zero byte.
fn before_zero(bytes: &[u8]) -> &[u8]
    ensures { result.now ≡ before_first (λ b. b == 0) bytes.now }
{
    match zero_place(bytes) {
        Some(end) => &bytes[..end],
        None => bytes,
    }
}

/// The name of a service, as `show` prints it.
pub fn name_to_text(alloc: Global, name: &[u8]) -> Result<String, AllocError>
    ensures { IfOk result (λ t. string_bytes t ≡ name_text name.now) }
{
    let bytes = before_zero(name);
    if bytes.is_empty() {
        return String::from_str(alloc, "-");
    }
    name_bytes_to_text(alloc, bytes)
}

/// A byte of a name within JSON quotes, with a backslash before each quote and backslash.
pub fn json_byte_to_text(alloc: Global, byte: u8) -> Result<String, AllocError>
    ensures { IfOk result (λ t. string_bytes t ≡ json_byte byte) }
{
    if byte == b'"' {
        return String::from_str(alloc, "\\\"");
    }
    if byte >= 0x21 && byte <= 0x7e && byte != b'\\' {
        let sign = char::from(byte);
        return format!(in alloc; "{sign}");
    }
    let digits = hex::encode(alloc, [byte])?;
    format!(in alloc; "\\\\x{digits}")
}

fn json_bytes_to_text(alloc: Global, bytes: &[u8]) -> Result<String, AllocError>
    ensures { IfOk result (λ t. string_bytes t ≡ flat_map json_byte bytes.now) }
{
    let mut text = String::new(alloc);
    for byte in bytes {
        let part = json_byte_to_text(alloc, *byte)?;
        text.push_str(&part)?;
    }
    Ok(text)
}

/// The name of a service within JSON quotes.
pub fn name_to_json(alloc: Global, name: &[u8]) -> Result<String, AllocError>
    ensures { IfOk result (λ t. string_bytes t ≡ json_name name.now) }
{
    let bytes = before_zero(name);
    if bytes.is_empty() {
        return String::from_str(alloc, "-");
    }
    json_bytes_to_text(alloc, bytes)
}
