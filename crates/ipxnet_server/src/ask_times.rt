//! When an address that is noted is pinged.

ghost use Rattle.std.specs.Prelude.{◌≡◌, ◌≤◌};
ghost use Rattle.ipxnet_server.specs.AskTimes.{first_ask_of, restart_delay, second_ask_of};

use crate::noted::MAX_NOTED;

/// Who registered, and has shown nothing yet, is pinged this many milliseconds after the
/// registration that it is noted by, and once more after the next. DOSBox waits 5 s for the answer,
/// and takes any datagram for it.
pub const FIRST_ASK_MS: u64 = 5500;

pub const SECOND_ASK_MS: u64 = 8500;

/// Who was a client before a restart, and has shown nothing yet, is pinged this many milliseconds
/// after it, and once more after the next. It has its answer already.
pub const FIRST_RESTART_ASK_MS: u64 = 1000;

pub const SECOND_RESTART_ASK_MS: u64 = 4000;

/// Those that are noted after it are pinged so many milliseconds later each: 50 in a second.
pub const RESTART_STEP_MS: u64 = 20;

/// Why an address is noted.
#[derive(Clone, Copy, Debug, PartialEq, Eq)]
pub enum NoteCause {
    /// It registered.
    Registration,
    /// It was that of a client before the router was started again. So many were noted before it.
    Restart(usize),
}

/// How much later than the first one an address is pinged before which so many were noted.
fn restart_delay(before: usize) -> u64
    ensures delay { result ≡ restart_delay before }
    ensures few { result ≤ 1260 }
{
    RESTART_STEP_MS * (before.min(MAX_NOTED - 1) as u64)
}

impl NoteCause {
    /// How long after its note an address is pinged for the first time, in milliseconds.
    pub fn first_ask(self) -> u64
        ensures { result ≡ first_ask_of self }
    {
        match self {
            NoteCause::Registration => FIRST_ASK_MS,
            NoteCause::Restart(before) => FIRST_RESTART_ASK_MS + restart_delay(before),
        }
    }

    /// How long after its note it is pinged for the second time. Then the note ends.
    pub fn second_ask(self) -> u64
        ensures time { result ≡ second_ask_of self }
        ensures later { first_ask_of self ≤ result }
    {
        match self {
            NoteCause::Registration => SECOND_ASK_MS,
            NoteCause::Restart(before) => SECOND_RESTART_ASK_MS + restart_delay(before),
        }
    }
}
