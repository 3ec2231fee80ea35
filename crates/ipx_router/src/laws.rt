//! Laws of a router, which follow from its contracts.

ghost use Rattle.std.specs.Prelude.{◌≡◌, ℕ, List};
ghost use Rattle.ipx_router.specs.Knowledge.{HoldsRoutes, HoldsServices, routes_in, services_in};
ghost use Rattle.ipx_router.specs.RouterView.{RouterView};
ghost use Rattle.ipx_router.specs.OutcomeView.{OutcomeView};
ghost use Rattle.ipx_router.specs.Answer.{Receives};
ghost use Rattle.ipx_router.specs.OneValue.{IsOneHolding, IsOneStart, AdvertisementsAreDetermined};

use ipx_control::{
    bytes_are_one_rip, bytes_are_one_sap, rip_is_one_list_of_bytes, sap_is_one_list_of_bytes,
};
use ipx_tables::{RouteMetric, ServiceKey, ServiceMetric, content_counts, one_best};
use ipx_wire::{Network, bytes_are_one_packet, packet_is_one_list_of_bytes};

/// A router has exactly one answer to given bytes on a port at a time. That is the packet to
/// forward and its bytes, the replies, the number of learned entries, or the reason to drop.
pub fn answer_is_one()
    ensures { (old new other : RouterView) (port : ℕ) (bytes : List ℕ) (now : ℕ)
        (a b : OutcomeView)
        → Receives old port bytes now a new → Receives old port bytes now b other → a ≡ b }
{
    bytes_are_one_packet();
    packet_is_one_list_of_bytes();
    bytes_are_one_rip();
    rip_is_one_list_of_bytes();
    bytes_are_one_sap();
    sap_is_one_list_of_bytes();
    one_best::<Network, RouteMetric>();
    content_counts::<Network, RouteMetric>();
    content_counts::<ServiceKey, ServiceMetric>();
}

/// Its state after that answer is determined too: the same offers of routes and of services.
pub fn offers_are_one()
    ensures { (old new other : RouterView) (port : ℕ) (bytes : List ℕ) (now : ℕ)
        (a b : OutcomeView)
        → Receives old port bytes now a new → Receives old port bytes now b other
        → HoldsRoutes new.routes (routes_in other.routes)
        × HoldsServices new.services (services_in other.services) }
{
    bytes_are_one_packet();
    packet_is_one_list_of_bytes();
    bytes_are_one_rip();
    rip_is_one_list_of_bytes();
    bytes_are_one_sap();
    sap_is_one_list_of_bytes();
    one_best::<Network, RouteMetric>();
    content_counts::<Network, RouteMetric>();
    content_counts::<ServiceKey, ServiceMetric>();
}

/// The packets that a router advertises are determined, byte for byte and in order, and so is the
/// time of the last advertisement. Two routers that know the same of each network and service, and
/// advertised last at the same time, advertise the same. They also hold the same offers after it.
pub fn advertisements_are_determined()
    ensures packets { AdvertisementsAreDetermined }
    ensures holds { IsOneHolding }
{
    bytes_are_one_packet();
    packet_is_one_list_of_bytes();
    bytes_are_one_rip();
    rip_is_one_list_of_bytes();
    bytes_are_one_sap();
    sap_is_one_list_of_bytes();
    one_best::<Network, RouteMetric>();
    content_counts::<Network, RouteMetric>();
    content_counts::<ServiceKey, ServiceMetric>();
}

/// The packets that a router sends as it starts are determined.
pub fn start_is_one()
    ensures { IsOneStart }
{
    bytes_are_one_packet();
    packet_is_one_list_of_bytes();
    bytes_are_one_rip();
    rip_is_one_list_of_bytes();
    bytes_are_one_sap();
    sap_is_one_list_of_bytes();
    one_best::<Network, RouteMetric>();
    content_counts::<Network, RouteMetric>();
    content_counts::<ServiceKey, ServiceMetric>();
}
