//! Warnings about problems of a host that may happen again and again.

ghost use Rattle.std.specs.Prelude.{◌≡◌, replicate};
ghost use Rattle.ipx_sockets.specs.Moments.{counts_of, AreLoggedIfDue, never_logged};
ghost use Rattle.ipx_host.specs.HostLines.{counts_of_host};

use ipx_sockets::{FilterDrops, Noun, ThrottledLog, Warning, tell_each};
use log::Log;

/// How often each problem happened.
#[derive(Clone, Copy)]
pub struct Counts {
    /// Datagrams that were filtered.
    pub kept: FilterDrops,
    /// Requests from those who may not connect.
    pub rejected: u64,
    /// Datagrams that the system refused.
    pub system: u64,
    /// How often the host ran out of memory, in a turn or when a connection was to be probed.
    pub memory: u64,
}

/// How many kinds of problem a host has.
const CAUSES: usize = 6;

const REQUESTS: Noun = Noun {
    one: "request",
    many: "requests",
};

/// When each kind was last reported, at most once a minute, in the order of the lines.
#[derive(Clone, Copy)]
pub struct Telling {
    causes: [ThrottledLog; CAUSES],
}

/// The warnings of a host.
fn warnings_in(counts: Counts) -> [Warning; CAUSES]
    ensures { counts_of result ≡ counts_of_host counts }
{
    let kept = counts.kept;
    let datagrams = Noun::DATAGRAMS;
    [
        Warning::from(kept.unknown_senders, datagrams, "from unknown senders"),
        Warning::from(kept.spoofed, datagrams, "with a spoofed source node"),
        Warning::from(
            kept.not_a_router,
            datagrams,
            "routed or RIP/SAP from a host not listed in routers",
        ),
        Warning::of_nobody(counts.rejected, REQUESTS, "from nodes not in allow"),
        Warning::of_nobody(counts.system, datagrams, "refused by the system"),
        Warning::of_nobody(counts.memory, Noun::TIMES, "out of memory"),
    ]
}

impl Telling {
    /// Creates warnings of which none was reported yet.
    pub fn new() -> Telling
        ensures { result.causes ≡ replicate 6 never_logged }
    {
        Telling {
            causes: [ThrottledLog::new(); CAUSES],
        }
    }

    /// Prints the warnings that are due.
    pub fn tell<R: Log>(&mut self, rt: &R, counts: Counts, now: u64)
        ensures { AreLoggedIfDue (counts_of_host counts) now self.old.causes self.new.causes }
    {
        tell_each(rt, &mut self.causes, &warnings_in(counts), now);
    }
}
