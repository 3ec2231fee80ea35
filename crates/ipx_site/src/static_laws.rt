//! Laws: the static entries of a file are valid, and so they are kept. They do nothing.

ghost use Rattle.ipx_site.specs.StaticsHold.{FilesMeetPremises, RoutesOfFilesHold, RoutesOfSitesHold, ServicesOfFilesHold, ServicesOfSitesHold};

use ipx_static::{static_routes_hold, static_services_hold, statics_are_counted_separately};

/// Each static route and service of a router's file meets what `static_routes_hold` and
/// `static_services_hold` of `ipx_static` require of a file. What else they require classes the
/// run.
pub fn entries_of_files_meet_premises()
    ensures { FilesMeetPremises }
{}

/// So each of its routes is kept in a router with its ports, below `WithStatics` alone. Suppose
/// that no table is full at first, the router is asked each minute, and it does not run out of
/// memory. If the neighbour itself advertises nothing of the network, the route is an offer that
/// counts. This holds also if tables fill up later.
pub fn routes_of_files_hold()
    ensures { RoutesOfFilesHold }
{
    static_routes_hold();
}

/// The same holds for each of its services.
pub fn services_of_files_hold()
    ensures { ServicesOfFilesHold }
{
    static_services_hold();
}

/// So each route is kept in the core of the file's router. That core counts by port, limits who
/// asks too often, and repeats its requests to its neighbours, as it does in its first minute.
pub fn routes_of_sites_hold()
    ensures { RoutesOfSitesHold }
{
    routes_of_files_hold();
    statics_are_counted_separately();
}

/// The same holds for each service.
pub fn services_of_sites_hold()
    ensures { ServicesOfSitesHold }
{
    services_of_files_hold();
    statics_are_counted_separately();
}
