//! Laws on what is read back from the text of a table file. They do nothing.

ghost use Rattle.std.specs.Prelude.{◌≡◌, ℕ, List, map, true};
ghost use Rattle.ipx_wire.specs.declared.address.Network.{Network};
ghost use Rattle.ipx_tables.specs.declared.route.RouteMetric.{RouteMetric};
ghost use Rattle.ipx_tables.specs.declared.service.ServiceKey.{ServiceKey};
ghost use Rattle.ipx_tables.specs.declared.service.ServiceMetric.{ServiceMetric};
ghost use Rattle.ipx_tables.specs.declared.source.Source.{Source};
ghost use Rattle.ipx_tables.specs.Content.{Table};
ghost use Rattle.ipx_tables.specs.Listing.{IsListing};
ghost use Rattle.ipx_tables.specs.Route.{network_cmp, route_before};
ghost use Rattle.ipx_tables.specs.Service.{service_before, service_key_cmp};
ghost use Rattle.ipx_router.specs.declared.port.Port.{Port};
ghost use Rattle.ipx_router.specs.Knowledge.{routes_in, services_in};
ghost use Rattle.ipx_table_dump.specs.ClientsText.{ClientsTextsAreShort};
ghost use Rattle.ipx_table_dump.specs.TableParts.{has_all_titles, own_networks_read, owns_in_words};
ghost use Rattle.ipx_table_dump.specs.TableRead.{network_in_words, networks_read, service_in_words, services_read};
ghost use Rattle.ipx_table_dump.specs.TableText.{IsTables};

use ipx_tables::{route_listing_is_one, service_listing_is_one, sources_are_distinct};

/// From the text of what a router knows, the best offer of each network and service is read back,
/// in the order of the tables. Nothing else is read.
pub fn bests_are_read_back()
    ensures networks { (ports : List Port) (routes : Table Network RouteMetric)
        (services : Table ServiceKey ServiceMetric) (now : ℕ) (text : List ℕ)
        (listed : List (Network × Source × RouteMetric))
        → IsTables ports routes services now text
        → IsListing network_cmp route_before (routes_in routes) now listed
        → networks_read text ≡ map network_in_words listed }
    ensures services { (ports : List Port) (routes : Table Network RouteMetric)
        (services : Table ServiceKey ServiceMetric) (now : ℕ) (text : List ℕ)
        (listed : List (ServiceKey × Source × ServiceMetric))
        → IsTables ports routes services now text
        → IsListing service_key_cmp service_before (services_in services) now listed
        → services_read text ≡ map service_in_words listed }
{
    sources_are_distinct();
    route_listing_is_one();
    service_listing_is_one();
}

/// The network of each port is read back from such a text too, in order, and the text has the
/// titles of its sections.
pub fn own_networks_are_read_back()
    ensures networks { (ports : List Port) (routes : Table Network RouteMetric)
        (services : Table ServiceKey ServiceMetric) (now : ℕ) (text : List ℕ)
        → IsTables ports routes services now text
        → own_networks_read text ≡ owns_in_words 1 ports }
    ensures titles { (ports : List Port) (routes : Table Network RouteMetric)
        (services : Table ServiceKey ServiceMetric) (now : ℕ) (text : List ℕ)
        → IsTables ports routes services now text
        → has_all_titles text ≡ true }
{}

/// The text of at most 1,024 clients has at most 65,000 bytes.
pub fn clients_texts_are_short()
    ensures { ClientsTextsAreShort }
{}
