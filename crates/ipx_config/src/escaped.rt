//! Text from files and neighbours, made safe to print.

ghost use Rattle.std.specs.Prelude.{◌≡◌, ◌<◌, ◌==◌, IfSome, Some, encode_utf8, length, position};
ghost use Rattle.std.specs.List.{before_first};
ghost use Rattle.ipx_config.specs.Checked.{shown_byte, shown_text};

use std::fmt;

/// Text from a file or a neighbour, made safe to print. It ends before the first zero byte, and a
/// dot replaces each byte that is no printable ASCII. It cannot leave its line or control the
/// terminal.
#[derive(Clone, Copy)]
pub struct Escaped<'a>(pub &'a [u8]);

/// The character printed for a byte.
fn printed(byte: u8) -> char
    ensures { encode_utf8 result ≡ shown_byte byte }
{
    if byte.is_ascii_graphic() || byte == b' ' {
        char::from(byte)
    } else {
        '.'
    }
}

/// The index of the first zero byte.
fn zero_place(bytes: &[u8]) -> Option<usize>
    ensures place { result ≡ position (λ b. b == 0) bytes.now }
    ensures within { IfSome result (λ i. i < length bytes.now) }
{
    bytes.iter().position(|byte| *byte == 0)
}

/// The bytes before the first zero byte.
fn before_zero(bytes: &[u8]) -> &[u8]
    ensures { result.now ≡ before_first (λ b. b == 0) bytes.now }
{
    match zero_place(bytes) {
        Some(end) => &bytes[..end],
        None => bytes,
    }
}

impl fmt::Display for Escaped<'_> {
    ghost output = { λ s. Some (shown_text s.0.now) };

    fn fmt<W: fmt::Write>(&self, f: &mut fmt::Formatter<W>) -> fmt::Result {
        for byte in before_zero(self.0) {
            f.write_char(printed(*byte))?;
        }
        Ok(())
    }
}
