//! A law on what is printed of a table file. It does nothing.

ghost use Rattle.std.specs.Prelude.{◌≡◌, ℕ, List, Bool};
ghost use Rattle.ipx_wire.specs.declared.address.Network.{Network};
ghost use Rattle.ipx_tables.specs.declared.route.RouteMetric.{RouteMetric};
ghost use Rattle.ipx_tables.specs.declared.service.ServiceKey.{ServiceKey};
ghost use Rattle.ipx_tables.specs.declared.service.ServiceMetric.{ServiceMetric};
ghost use Rattle.ipx_tables.specs.Content.{Table};
ghost use Rattle.ipx_tables.specs.Listing.{IsListing};
ghost use Rattle.ipx_tables.specs.Route.{network_cmp, route_before};
ghost use Rattle.ipx_router.specs.declared.port.Port.{Port};
ghost use Rattle.ipx_router.specs.Knowledge.{routes_in};
ghost use Rattle.ipx_table_dump.specs.TableText.{IsTables};
ghost use Rattle.ipx_query_cmd.specs.KnownLines.{known_networks_text, router_networks_text};
ghost use Rattle.ipx_query_cmd.specs.OperatorLines.{AdvertisedNetwork};

use ipx_table_dump::{bests_are_read_back, own_networks_are_read_back};

/// From the table file of a router, the networks of its ports are printed, and the best route of
/// each other network. The form is that of a host's answers. Nothing else is printed.
pub fn known_networks_are_the_bests()
    ensures { (json : Bool) (place : List ℕ) (ports : List Port) (routes : Table Network RouteMetric)
        (services : Table ServiceKey ServiceMetric) (now : ℕ) (text : List ℕ)
        (listed : List AdvertisedNetwork)
        → IsTables ports routes services now text
        → IsListing network_cmp route_before (routes_in routes) now listed
        → known_networks_text json place text ≡ router_networks_text json place ports listed }
{
    bests_are_read_back();
    own_networks_are_read_back();
}
