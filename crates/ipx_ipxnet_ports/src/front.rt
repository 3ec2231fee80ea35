//! Bytes that are put into a buffer.

ghost use Rattle.std.specs.Prelude.{◌≡◌, ◌≤◌, length, take};

/// Puts bytes at the front of a buffer, as many as fit.
pub fn put_front(bytes: &[u8], room: &mut [u8]) -> usize
    ensures put { take result room.new ≡ take (length room.old) bytes.now }
    ensures within { result ≤ length room.old }
{
    let count = bytes.len().min(room.len());
    room[..count].copy_from_slice(&bytes[..count]);
    count
}
