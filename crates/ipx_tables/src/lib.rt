//! Tables of what a router learned from its neighbours: offers of a way to a key, their age, and
//! the best of them.
//!
//! An *offer* here is a route or a service that a neighbour advertised. (`offer` of `spx_link` is
//! something else: it queues units.) [`route_table`] and [`service_table`] make a table.
//! [`Offers::hear`] learns an offer. [`Offers::best`] and [`Offers::list`] give the best offers at
//! a time.
#![tactic(auto)]

mod ageing;
mod by_number;
mod fault;
mod finding;
mod inventory;
mod laws;
mod marks;
mod metric;
mod moments;
mod offer;
mod offer_store;
mod offers;
mod route;
mod service;
mod slot_order;
mod source;
mod walk;

pub use fault::TableFault;
pub use inventory::Inventory;
pub use laws::{
    content_counts, last_word_is_held, one_best, one_is_better, one_listing, route_listing_is_one,
    service_listing_is_one, sources_are_distinct,
};
pub use metric::Metric;
pub use offer::Offer;
pub use offers::Offers;
pub use route::{MAX_ROUTES, RouteMetric, RouteTable, route_table};
pub use service::{MAX_SERVICES, ServiceKey, ServiceMetric, ServiceTable, service_table};
pub use source::Source;
pub use walk::Bests;
