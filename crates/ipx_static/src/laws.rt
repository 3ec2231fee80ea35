//! What a router knows after it received static advertisements.

ghost use Rattle.ipx_static.specs.StaticOffers.{
  StaticRoutesAreOffers,
  StaticRoutesAreRefreshed,
  StaticServicesAreOffers,
  StaticServicesAreRefreshed,
};
ghost use Rattle.ipx_static.specs.StaticRuns.{StaticsAreCountedSeparately, StaticRoutesHold, StaticServicesHold};

use ipx_control::{
    bytes_are_one_rip, bytes_are_one_sap, rip_fault_is_of_no_rip, sap_fault_is_of_no_sap,
};
use ipx_tables::sources_are_distinct;
use ipx_wire::{bytes_are_one_packet, ipx_fault_is_of_no_packet};

/// A router that receives all advertisements, and has room, has each static route as an offer of
/// that time.
pub fn static_routes_are_offers()
    ensures { StaticRoutesAreOffers }
{
    bytes_are_one_packet();
    ipx_fault_is_of_no_packet();
    bytes_are_one_rip();
    rip_fault_is_of_no_rip();
    sources_are_distinct();
}

/// It has each static service too.
pub fn static_services_are_offers()
    ensures { StaticServicesAreOffers }
{
    bytes_are_one_packet();
    ipx_fault_is_of_no_packet();
    bytes_are_one_sap();
    sap_fault_is_of_no_sap();
    sources_are_distinct();
}

/// A router that receives the advertisements again refreshes each static route that counts, however
/// full its tables are.
pub fn static_routes_are_refreshed()
    ensures { StaticRoutesAreRefreshed }
{
    bytes_are_one_packet();
    ipx_fault_is_of_no_packet();
    bytes_are_one_rip();
    rip_fault_is_of_no_rip();
    sources_are_distinct();
}

/// It refreshes each static service too.
pub fn static_services_are_refreshed()
    ensures { StaticServicesAreRefreshed }
{
    bytes_are_one_packet();
    ipx_fault_is_of_no_packet();
    bytes_are_one_sap();
    sap_fault_is_of_no_sap();
    sources_are_distinct();
}

/// If no table is full when a packet is first requested, each static route remains a valid offer,
/// even if tables fill up later. This holds while the router is asked for packets each minute, and
/// the neighbour itself advertises nothing of it.
pub fn static_routes_hold()
    ensures { StaticRoutesHold }
{
    static_routes_are_offers();
    static_routes_are_refreshed();
    sources_are_distinct();
}

/// The same of each static service.
pub fn static_services_hold()
    ensures { StaticServicesHold }
{
    static_services_are_offers();
    static_services_are_refreshed();
    sources_are_distinct();
}

/// Counting by port changes neither which static advertisements a router receives nor which packets
/// it gives.
pub fn statics_are_counted_separately()
    ensures { StaticsAreCountedSeparately }
{}
