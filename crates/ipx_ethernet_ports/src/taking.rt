//! What the core gets of a frame that came from a remote.

ghost use Rattle.std.specs.Prelude.{◌≡◌, ◌≤◌, IfSome, None, false, length, min, take};
ghost use Rattle.ipx_ethernet.specs.Heard.{way_after};
ghost use Rattle.ipx_ethernet.specs.SwitchEnds.{is_way_to};
ghost use Rattle.ipx_ethernet_ports.specs.OnEthernet.{TakesPacket};

use ipx_ethernet::{Egress, Switch};

/// Puts bytes at the front of a buffer, as many as fit.
pub fn put_front(bytes: &[u8], room: &mut [u8]) -> usize
    ensures put { take result room.new ≡ take (length room.old) bytes.now }
    ensures front { take result room.new ≡ take result bytes.now }
    ensures count { result ≡ min (length bytes.now) (length room.old) }
    ensures within { result ≤ length room.old }
    ensures room { length room.new ≡ length room.old }
{
    let count = bytes.len().min(room.len());
    room[..count].copy_from_slice(&bytes[..count]);
    count
}

/// Passes a frame from a remote to a switch, and puts the packet for the core at the front of
/// `room`. Returns where the bytes are forwarded, and the packet's length there, if there is one.
pub fn take_packet(
    switch: &mut Switch,
    end: usize,
    bytes: &[u8],
    now: u64,
    room: &mut [u8],
) -> (Egress, Option<usize>)
    ensures way { result.0 ≡ way_after switch.new bytes.now end now }
    ensures back { is_way_to result.0 end ≡ false }
    ensures taken { TakesPacket switch.old end bytes.now now (length room.old) room.new result.1
        switch.new }
    ensures within { IfSome result.1 (λ n. n ≤ length room.old) }
    ensures untouched { result.1 ≡ None → room.new ≡ room.old }
{
    let (way, packet) = switch.hear(end, bytes, now);
    match packet {
        Ok(packet) => (way, Some(put_front(packet, room))),
        Err(_) => (way, None),
    }
}
