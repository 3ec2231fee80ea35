//! Queries of a host: to the routers of its network for networks and services, and pings of a
//! listener.
//!
//! [`QueryCore`] is a core of `ipx_carrier`. It sends RIP requests for all networks, or SAP queries
//! for the services of a type, and learns what the routers answer. [`PingCore`] sends requests for
//! a connection, and counts the replies. Bytes and times are passed in.
#![tactic(auto)]

mod answer;
mod answer_heard;
mod entries;
mod laws;
mod ping;
mod ping_core;
mod queried_router;
mod query;
mod query_core;
mod question;

pub use laws::pings_ask_for_a_connection;
pub use ping_core::PingCore;
pub use queried_router::QueriedRouter;
pub use query_core::QueryCore;
pub use question::TableQuery;
