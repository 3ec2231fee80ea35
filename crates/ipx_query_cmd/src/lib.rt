//! The commands of an operator. A host asks the routers of its file which networks or services they
//! know, or pings a listener.
//!
//! [`do_networks`] is the command `ipx networks`, and [`do_services`] is `ipx services`. They print
//! a table, or lines of JSON. [`do_ping`] is `ipx ping`. Each takes the file of a host. The first
//! two also take that of a router: they then print the router's table file, and ask nobody.
#![tactic(auto)]

mod age;
mod answer_times;
mod columns;
mod fault;
mod known;
mod known_laws;
mod known_lines;
mod known_service_lines;
mod last_line;
mod names;
mod network_lines;
mod networks;
mod ping_event;
mod ping_lines;
mod ping_options;
mod pinging_host;
mod pings;
mod query_host;
mod query_options;
mod query_socket;
mod query_target;
mod service_lines;
mod services;
mod stop_watch;

pub use answer_times::AnswerTime;
pub use fault::KnownFault;
pub use known_laws::known_networks_are_the_bests;
pub use known_lines::known_networks_to_text;
pub use known_service_lines::known_services_to_text;
pub use network_lines::networks_to_text;
pub use networks::do_networks;
pub use ping_event::{PingAnswer, PingEvent};
pub use ping_lines::{news_to_text, totals_to_line};
pub use pings::do_ping;
pub use service_lines::services_to_text;
pub use services::do_services;
