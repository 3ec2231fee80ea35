//! The pauses between packets, so that slow neighbours receive all of them.

ghost use Rattle.std.specs.Prelude.{◌≡◌};
ghost use Rattle.ipx_farewell_cmd.specs.Pauses.{pause_after_packet, rounds};

/// The packets of a port that are sent without a pause.
const AT_ONCE: usize = 16;

/// The pause after those, in milliseconds.
const BETWEEN_PACKETS: u64 = 55;

const ROUNDS: u8 = 3;

/// The pause between two rounds, in milliseconds.
pub const BETWEEN_ROUNDS: u64 = 300;

/// The pause in milliseconds after the packet of a port with this number, from 1.
pub fn pause_after_packet(number: usize) -> Option<u64>
    ensures { result ≡ pause_after_packet number }
{
    if number % AT_ONCE == 0 {
        Some(BETWEEN_PACKETS)
    } else {
        None
    }
}

/// How often all packets are sent.
pub fn rounds() -> u8
    ensures { result ≡ rounds }
{
    ROUNDS
}
