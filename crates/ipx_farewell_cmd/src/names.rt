//! The names of services, read back from a line of the tables.

use hex::FromHex;

/// The bytes of a service's name.
const NAME_SIZE: usize = 48;

/// The first byte of a name in a word, and how many bytes of the word spell it: `\x` and two hex
/// digits, or the byte itself.
fn first_byte(word: &[u8]) -> Option<(u8, usize)> {
    let first = *word.first()?;
    if first != b'\\' {
        return Some((first, 1));
    }
    if word.len() < 4 || word[1] != b'x' {
        return None;
    }
    let [byte] = <[u8; 1] as FromHex>::from_hex(&word[2..4]).ok()?;
    Some((byte, 4))
}

/// The name that a word spells, as `ipx show` prints it: zero bytes at its end are not written. `-`
/// is no byte but these.
pub fn name_in(word: &[u8]) -> Option<[u8; 48]> {
    let mut name = [0; NAME_SIZE];
    if word == b"-".as_slice() {
        return Some(name);
    }
    let mut rest = word;
    for place in 0..NAME_SIZE {
        if rest.is_empty() {
            break;
        }
        let (byte, size) = first_byte(rest)?;
        if size > rest.len() {
            return None;
        }
        name[place] = byte;
        rest = &rest[size..];
    }
    if rest.is_empty() { Some(name) } else { None }
}
