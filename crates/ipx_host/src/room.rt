//! Whether the receive buffer of a host's socket is large enough for a burst.

ghost use Rattle.std.specs.Prelude.{◌<◌, ◌*◌, ◌↔◌, IsTrue};

use ipx_sockets::{RCVBUF_SIZE, UdpSockets};
use log::{Log, warn};

/// The number of bytes of a socket's receive buffer that a unit takes.
const UNIT_BUFFER: u64 = 1280;

/// Returns whether a socket got a smaller receive buffer than it requested, and less than half of
/// what a peer may send to this many buffers.
fn is_short(buffers: u16, room: u32) -> bool
    ensures { IsTrue result ↔ ((room < 4194304) × (2 * room < buffers * 1280)) }
{
    room < RCVBUF_SIZE && 2 * u64::from(room) < u64::from(buffers) * UNIT_BUFFER
}

/// Warns that the receive buffer of a host's socket is too small for its buffers.
pub fn warn_small_rcvbuf<R: Log>(rt: &R, sockets: &UdpSockets, buffers: u16) {
    let room = sockets.room(0).unwrap_or(0);
    if is_short(buffers, room) {
        warn!(rt; target: "ipx",
            "the socket's receive buffer has only {room} bytes: \
             set net.core.rmem_max = {RCVBUF_SIZE}");
    }
}
