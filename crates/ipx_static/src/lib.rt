//! Static routes and services: what neighbours without RIP or SAP would advertise.
//!
//! [`WithStatics`] is a core of `ipx_carrier` over another one, such as a router. That core
//! receives the advertisements of each [`StaticNeighbour`] as it starts and once a minute, as if
//! they came in on the neighbour's port. So static entries are preferred, advertised and forgotten
//! like those of any neighbour.
#![tactic(auto)]

mod advertisements;
mod hearing;
mod laws;
mod neighbour;
mod restart_discovery;
mod with_statics;

pub use laws::{
    static_routes_are_offers, static_routes_are_refreshed, static_routes_hold,
    static_services_are_offers, static_services_are_refreshed, static_services_hold,
    statics_are_counted_separately,
};
pub use neighbour::StaticNeighbour;
pub use restart_discovery::RestartDiscovery;
pub use with_statics::WithStatics;
