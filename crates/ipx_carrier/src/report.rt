//! What a run counted.

ghost use Rattle.std.specs.Prelude.{◌≡◌, ◌+◌, Some, true};
ghost use Rattle.ipx_carrier.specs.Driving.{no_turns, refused};
ghost use Rattle.ipx_carrier.specs.Counting.{counted};

use crate::fault::RunFault;

/// The counts of a run.
#[derive(Clone, Copy, PartialEq, Eq)]
pub struct Report {
    /// The turns that it took.
    pub turns: u128,
    /// The datagrams that it received, and its core with it.
    pub heard: u128,
    /// The datagrams that it sent; a broadcast counts once for each peer.
    pub sent: u128,
    /// The packets that could not be sent: their node has no address, or they are too long.
    pub unmapped: u128,
}

/// The counts of the packets of one turn: datagrams that were sent, and packets that were not.
#[derive(Clone, Copy)]
pub struct SendCounts {
    pub sent: u128,
    pub unmapped: u128,
}

/// The counts of consecutive turns, and how they ended.
#[derive(Clone, Copy, PartialEq, Eq)]
pub struct Batch {
    /// The datagrams that the core received.
    pub heard: u64,
    /// The datagrams that were sent.
    pub sent: u64,
    /// The packets that could not be sent: their node has no address, or they are too long.
    pub unmapped: u64,
    /// The fault that ended a turn early, and with it the batch.
    pub fault: Option<RunFault>,
    /// Whether the last turn received, sent and filtered nothing: the caller now waits.
    pub quiet: bool,
}

/// A count of a report, which stays at the greatest u64.
fn count_of(count: u128) -> u64
    ensures { result ≡ counted count }
{
    u64::try_from(count).unwrap_or(u64::MAX)
}

impl Batch {
    /// A batch of no turns.
    pub(crate) fn none() -> Batch
        ensures { result ≡ no_turns }
    {
        Batch {
            heard: 0,
            sent: 0,
            unmapped: 0,
            fault: None,
            quiet: false,
        }
    }

    /// A batch of at most this many turns, none of which can begin.
    pub(crate) fn refused(most: u32) -> Batch
        ensures { result ≡ refused most }
    {
        if most == 0 {
            return Batch::none();
        }
        Batch::none().ended_by(RunFault::Device)
    }

    /// This batch and one more whole turn.
    pub(crate) fn with(self, report: Report) -> Batch
        ensures heard { result.heard ≡ counted (self.heard + report.heard) }
        ensures sent { result.sent ≡ counted (self.sent + report.sent) }
        ensures unmapped { result.unmapped ≡ counted (self.unmapped + report.unmapped) }
        ensures rest { (result.fault ≡ self.fault) × (result.quiet ≡ self.quiet) }
    {
        Batch {
            heard: self.heard.saturating_add(count_of(report.heard)),
            sent: self.sent.saturating_add(count_of(report.sent)),
            unmapped: self.unmapped.saturating_add(count_of(report.unmapped)),
            fault: self.fault,
            quiet: self.quiet,
        }
    }

    /// This batch, ended by a fault.
    pub(crate) fn ended_by(self, fault: RunFault) -> Batch
        ensures { result ≡ record self { fault = Some fault } }
    {
        Batch {
            fault: Some(fault),
            ..self
        }
    }

    /// This batch, ended after an idle turn.
    pub(crate) fn quieted(self) -> Batch
        ensures { result ≡ record self { quiet = true } }
    {
        Batch {
            quiet: true,
            ..self
        }
    }
}
