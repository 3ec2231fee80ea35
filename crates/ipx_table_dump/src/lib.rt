//! What a router knows, as text.
//!
//! [`tables_to_text`] writes the networks and services that a router has learned, with the
//! neighbour of each and its age. [`first_advertisers`] are the first neighbours, and how much each
//! advertises.
#![tactic(auto)]

mod advertisements;
mod advertiser_lines;
mod advertisers;
mod client_places;
mod client_words;
mod direct_networks;
mod laws;
mod neighbours;
mod reading;
mod route_lines;
mod section_headers;
mod service_lines;
mod valid_offers;
mod words;
mod writing;

pub use advertisers::Advertiser;
pub use client_places::{ClientPlace, MAX_CLIENT_PLACES, clients_to_text};
pub use client_words::clients_of_text;
pub use direct_networks::{OwnWords, own_networks_of_text};
pub use laws::{bests_are_read_back, clients_texts_are_short, own_networks_are_read_back};
pub use neighbours::first_advertisers;
pub use reading::{NetworkWords, ServiceWords, networks_of_text, services_of_text};
pub use section_headers::has_all_titles;
pub use writing::tables_to_text;
