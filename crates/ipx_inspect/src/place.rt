//! The position of a byte.

ghost use Rattle.std.specs.Prelude.{◌≡◌, ◌<◌, ◌==◌, IfSome, length, position};

/// The position of the first byte of this value.
pub fn place_of(bytes: &[u8], value: u8) -> Option<usize>
    ensures place { result ≡ position (λ b. b == value) bytes.now }
    ensures within { IfSome result (λ i. i < length bytes.now) }
{
    bytes.iter().position(|byte| *byte == value)
}
