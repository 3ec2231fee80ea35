//! Laws of what a router says as it stops. They do nothing.

ghost use Rattle.ipx_farewell.specs.Farewell.{FarewellIsOfAdvertised};
ghost use Rattle.ipx_farewell.specs.FarewellHeard.{FarewellIsHeard};

use ipx_control::{
    bytes_are_one_rip, bytes_are_one_sap, rip_fault_is_of_no_rip, sap_fault_is_of_no_sap,
};
use ipx_tables::{RouteMetric, ServiceKey, ServiceMetric, one_best, sources_are_distinct};
use ipx_wire::{Network, bytes_are_one_packet, ipx_fault_is_of_no_packet};

/// What is taken back on a port is exactly what the router advertises there, by the best offers
/// that it knows.
pub fn farewell_is_of_advertised()
    ensures { FarewellIsOfAdvertised }
{
    one_best::<Network, RouteMetric>();
    one_best::<ServiceKey, ServiceMetric>();
}

/// A router on the port's network that receives it has nothing left of what was advertised there.
pub fn farewell_is_heard()
    ensures { FarewellIsHeard }
{
    bytes_are_one_packet();
    ipx_fault_is_of_no_packet();
    bytes_are_one_rip();
    rip_fault_is_of_no_rip();
    bytes_are_one_sap();
    sap_fault_is_of_no_sap();
    sources_are_distinct();
}
