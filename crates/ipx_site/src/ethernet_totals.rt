//! Totals over the switches of a router's Ethernet ports.

ghost use Rattle.std.specs.Prelude.{◌≡◌};
ghost use Rattle.ipx_carrier.specs.Counting.{counted};
ghost use Rattle.ipx_site.specs.EthernetTotals.{came_as, encapsulated_otherwise, encapsulated_otherwise_in, unframed_in};

use ipx_ethernet::{Encapsulation, FrameCounters, Switch};

/// The number of the router's packets that no frame could carry. Saturates at the greatest u64.
pub fn unframed(switches: &[Switch]) -> u64
    ensures { result ≡ unframed_in switches.now }
{
    let mut total: u64 = 0;
    for switch in switches {
        total = total.saturating_add(switch.refused());
    }
    total
}

/// The number of frames with an IPX packet that came in an encapsulation other than the port's.
fn other_encapsulations(counts: FrameCounters) -> u64
    ensures { result ≡ counted (encapsulated_otherwise counts) }
{
    counts
        .in_raw
        .saturating_add(counts.in_llc)
        .saturating_add(counts.in_snap)
        .saturating_add(counts.in_ethernet_ii)
}

/// The number of such frames at all ports. Saturates at the greatest u64.
pub fn in_other_encapsulations(switches: &[Switch]) -> u64
    ensures { result ≡ encapsulated_otherwise_in switches.now }
{
    let mut total: u64 = 0;
    for switch in switches {
        total = total.saturating_add(other_encapsulations(switch.counts()));
    }
    total
}

/// The number of frames that came in this encapsulation to a port that has another one.
pub fn came_in(counts: FrameCounters, encapsulation: Encapsulation) -> u64
    ensures { result ≡ came_as counts encapsulation }
{
    match encapsulation {
        Encapsulation::Raw => counts.in_raw,
        Encapsulation::Llc => counts.in_llc,
        Encapsulation::Snap => counts.in_snap,
        Encapsulation::EthernetII => counts.in_ethernet_ii,
    }
}
