//! The texts that write a prefix.

ghost use Rattle.std.specs.Prelude.{◌≡◌, ◌<◌, IfSome, length, position};
ghost use Rattle.ip_prefixes.specs.Prefixes.{ReadsBits, ReadsPrefix, is_slash};

use crate::prefix::Prefix;
use std::net::Ipv4Addr;

/// The most bits of a prefix.
const MAX_BITS: u8 = 32;

/// The index of the first slash.
fn slash_place(text: &[u8]) -> Option<usize>
    ensures place { result ≡ position is_slash text.now }
    ensures within { IfSome result (λ i. i < length text.now) }
{
    text.iter().position(|byte| *byte == b'/')
}

/// Parses a number of bits, 8 to 32.
fn bits_in(text: &[u8]) -> Option<u8>
    ensures { ReadsBits text.now result }
{
    let bits = match text {
        [ones @ b'8'..=b'9'] => *ones - b'0',
        [tens @ b'1'..=b'3', ones @ b'0'..=b'9'] => (*tens - b'0') * 10 + (*ones - b'0'),
        _ => return None,
    };
    if bits > MAX_BITS {
        return None;
    }
    Some(bits)
}

impl Prefix {
    /// Parses an address, a slash and a number of bits from 8 to 32, such as 203.0.113.0/24. Bits of
    /// the address after these mean nothing, and may be set.
    pub fn parse(text: &[u8]) -> Option<Prefix>
        ensures { ReadsPrefix text.now result }
    {
        let Some(slash) = slash_place(text) else {
            return None;
        };
        let Ok(address) = Ipv4Addr::parse_ascii(&text[..slash]) else {
            return None;
        };
        let Some(bits) = bits_in(&text[slash + 1..]) else {
            return None;
        };
        Some(Prefix {
            address: address.octets(),
            bits,
        })
    }
}
