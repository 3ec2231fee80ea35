//! How many packets failed each source check, and the last of them.

ghost use Rattle.std.specs.Prelude.{◌≡◌};
ghost use Rattle.ipx_source_checks.specs.SourceChecks.{no_drops, nothing_dropped_yet, one_more_failed, with_one_more_drop};

use crate::failed_check::{FailedCheck, SourceFault};
use ipx_carrier::saturating_increment;
use ipx_metrics::LastDrop;
use ipx_wire::Network;

/// The packets that failed one check.
#[derive(Clone, Copy, PartialEq, Eq)]
pub struct SourceDropCount {
    /// Saturates at the greatest u64.
    pub count: u64,
    pub last: Option<LastDrop>,
    /// The network of the port that the last came by.
    pub network: Option<Network>,
}

/// The packets that failed a source check, by check.
#[derive(Clone, Copy, PartialEq, Eq)]
pub struct SourceDrops {
    /// RIP and SAP for the router that another router forwarded.
    pub forwarded_control: SourceDropCount,
    /// RIP and SAP for the router at an Ethernet port, from a group or from zero.
    pub group_source: SourceDropCount,
    /// Packets for another network that claimed to come from that same network.
    pub looped_source: SourceDropCount,
}

impl SourceDropCount {
    fn none() -> SourceDropCount
        ensures { result ≡ no_drops }
    {
        SourceDropCount {
            count: 0,
            last: None,
            network: None,
        }
    }

    fn add(&mut self, failed: FailedCheck)
        ensures { self.new ≡ with_one_more_drop failed self.old }
    {
        saturating_increment(&mut self.count);
        self.last = Some(failed.packet);
        self.network = Some(failed.network);
    }
}

impl SourceDrops {
    pub(crate) fn none() -> SourceDrops
        ensures { result ≡ nothing_dropped_yet }
    {
        SourceDrops {
            forwarded_control: SourceDropCount::none(),
            group_source: SourceDropCount::none(),
            looped_source: SourceDropCount::none(),
        }
    }

    pub(crate) fn add(&mut self, failed: FailedCheck)
        ensures { self.new ≡ one_more_failed failed self.old }
    {
        match failed.fault {
            SourceFault::ForwardedControl => self.forwarded_control.add(failed),
            SourceFault::GroupSource => self.group_source.add(failed),
            SourceFault::LoopedSource => self.looped_source.add(failed),
        }
    }
}
