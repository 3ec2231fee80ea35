//! What a router counts at a port.

ghost use Rattle.std.specs.Prelude.{◌≡◌, ◌+◌, ◌-◌};
ghost use Rattle.ipx_carrier.specs.Counting.{counted};
ghost use Rattle.ipx_carrier.specs.OutcomeCounters.{outcomes_in};
ghost use Rattle.ipx_metrics.specs.PortCounts.{outcomes_moved, no_traffic, with_heard_there, with_sent_there};

use ipx_carrier::OutcomeCounters;

/// What came to a router by one of its ports, the outcomes of that, and what the router gave to be
/// sent there. Each count saturates at the greatest u64.
#[derive(Clone, Copy, PartialEq, Eq)]
pub struct PortCounts {
    /// The outcomes of the datagrams.
    pub outcomes: OutcomeCounters,
    pub heard_bytes: u64,
    /// The packets, each counted once, to however many nodes it goes.
    pub sent: u64,
    pub sent_bytes: u64,
}

/// A count that rises as another one does.
fn moved(count: u64, before: u64, after: u64) -> u64
    ensures { result ≡ counted (count + (after - before)) }
{
    count.saturating_add(after.saturating_sub(before))
}

/// These counts, each of which rises as the router's count does.
fn moved_outcomes(
    here: &OutcomeCounters,
    before: &OutcomeCounters,
    after: &OutcomeCounters,
) -> OutcomeCounters
    ensures { result ≡ outcomes_moved here.now before.now after.now }
{
    OutcomeCounters {
        forwarded: moved(here.forwarded, before.forwarded, after.forwarded),
        answered: moved(here.answered, before.answered, after.answered),
        heard: moved(here.heard, before.heard, after.heard),
        bad: moved(here.bad, before.bad, after.bad),
        propagated: moved(here.propagated, before.propagated, after.propagated),
        not_ours: moved(here.not_ours, before.not_ours, after.not_ours),
        no_route: moved(here.no_route, before.no_route, after.no_route),
        hop_limit: moved(here.hop_limit, before.hop_limit, after.hop_limit),
        bad_control: moved(here.bad_control, before.bad_control, after.bad_control),
        table_full: moved(here.table_full, before.table_full, after.table_full),
    }
}

impl PortCounts {
    /// Nothing has passed yet.
    pub fn new() -> PortCounts
        ensures { result ≡ no_traffic }
    {
        PortCounts {
            outcomes: OutcomeCounters::new(),
            heard_bytes: 0,
            sent: 0,
            sent_bytes: 0,
        }
    }

    /// How many datagrams came: each has one outcome.
    pub fn heard(&self) -> u64
        ensures { result ≡ counted (outcomes_in self.now.outcomes) }
    {
        u64::try_from(self.outcomes.total()).unwrap_or(u64::MAX)
    }

    /// Counts a datagram of this many bytes that came here, and its outcome, given the router's
    /// counts before and after it.
    pub fn hear(&mut self, before: &OutcomeCounters, after: &OutcomeCounters, bytes: usize)
        ensures { self.new ≡ with_heard_there before.now after.now bytes self.old }
    {
        self.outcomes = moved_outcomes(&self.outcomes, before, after);
        self.heard_bytes = self.heard_bytes.saturating_add(bytes as u64);
    }

    /// Counts a packet of this many bytes that is given to be sent here.
    pub fn send(&mut self, bytes: usize)
        ensures { self.new ≡ with_sent_there bytes self.old }
    {
        self.sent = self.sent.saturating_add(1);
        self.sent_bytes = self.sent_bytes.saturating_add(bytes as u64);
    }
}
