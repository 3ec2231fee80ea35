//! Comparison of names and nodes by their bytes, done on numbers.

ghost use Rattle.std.specs.Prelude.{◌≡◌, ◌+◌, ◌≤◌, take, drop};
ghost use Rattle.std.specs.Ordering.{nat_cmp};
ghost use Rattle.std.specs.Cmp.Lexicographic.{slice_cmp};
ghost use Rattle.ipx_tables.specs.Spelled.{spelled};

use std::cmp::Ordering;

/// Compares two names by the first byte at which they differ.
pub fn name_order(a: &[u8; 48], b: &[u8; 48]) -> Ordering
    ensures { result ≡ slice_cmp nat_cmp a.now b.now }
{
    for word in 0..6 {
        let x = word_at(a, 8 * word);
        let y = word_at(b, 8 * word);
        if x != y {
            return x.cmp(&y);
        }
    }
    Ordering::Equal
}

/// Eight bytes as a big-endian number.
#[inline]
fn word_at(bytes: &[u8; 48], at: usize) -> u64
    requires { at + 8 ≤ 48 }
    ensures { result ≡ spelled (take 8 (drop at bytes.now)) }
{
    u64::from_be_bytes([
        bytes[at],
        bytes[at + 1],
        bytes[at + 2],
        bytes[at + 3],
        bytes[at + 4],
        bytes[at + 5],
        bytes[at + 6],
        bytes[at + 7],
    ])
}

/// Compares two nodes by the first byte at which they differ.
pub fn node_order(a: &[u8; 6], b: &[u8; 6]) -> Ordering
    ensures { result ≡ slice_cmp nat_cmp a.now b.now }
{
    number_of(a).cmp(&number_of(b))
}

/// Six bytes as a big-endian number.
#[inline]
fn number_of(bytes: &[u8; 6]) -> u64
    ensures { result ≡ spelled bytes.now }
{
    let [a, b, c, d, e, f] = *bytes;
    u64::from_be_bytes([0, 0, a, b, c, d, e, f])
}
