//! The laws of lower crates, in records.

ghost use Rattle.rip_convergence.specs.PacketLaws.{LawsOfPackets};
ghost use Rattle.rip_convergence.specs.TableLaws.{LawsOfTables};

use ipx_control::{bytes_are_one_rip, rip_fault_is_of_no_rip};
use ipx_tables::{RouteMetric, one_best, one_is_better, sources_are_distinct};
use ipx_wire::{Network, bytes_are_one_packet, ipx_fault_is_of_no_packet};

/// The laws of tables on which the theorems depend.
pub fn laws_below()
    ensures { LawsOfTables }
{
    one_best::<Network, RouteMetric>();
    one_is_better::<RouteMetric>();
    sources_are_distinct();
}

/// The laws of packets on which it depends what a neighbour learns.
pub fn packet_laws()
    ensures { LawsOfPackets }
{
    bytes_are_one_packet();
    ipx_fault_is_of_no_packet();
    bytes_are_one_rip();
    rip_fault_is_of_no_rip();
}
