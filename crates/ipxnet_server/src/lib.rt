//! A server for the clients of DOSBox's ipxnet: players who reach a router over UDP.
//!
//! [`IpxnetServer::hear`] takes a datagram and its source address. It tells what is answered, which
//! clients the bytes are sent to, and whether the core of the port gets them.
//! [`IpxnetServer::give`] tells which clients a packet of the core is sent to, and
//! [`IpxnetServer::begin_pings`] which silent clients are pinged. Only [`IpxnetServer::new`] and
//! [`IpxnetServer::joined_to`] allocate memory.
//!
//! Servers of several routers can be joined as one network. Joined routers get what a client sends
//! to all nodes, or to a node that no client of its server has. They send it only to their clients.
#![tactic(auto)]

mod ask_times;
mod attempts;
mod client_node;
mod clients;
mod counts;
mod datagrams;
mod deciding;
mod disposition;
mod drops;
mod flooders;
mod giving;
mod laws;
mod limiting;
mod noted;
mod peer_servers;
mod pinging;
mod pings;
mod port;
mod recipients;
mod restarting;
mod server;

pub use ask_times::{
    FIRST_ASK_MS, FIRST_RESTART_ASK_MS, NoteCause, RESTART_STEP_MS, SECOND_ASK_MS,
    SECOND_RESTART_ASK_MS,
};
pub use attempts::Repeats;
pub use client_node::node_of;
pub use clients::{
    Client, FORGOTTEN_AFTER_MS, MAX_ADDRESS_CLIENTS, MAX_CLIENTS, REPLACED_AFTER_MS,
};
pub use counts::ServerCounts;
pub use datagrams::{MAX_CLIENT_BYTES, SERVER_SOCKET};
pub use disposition::Disposition;
pub use drops::ServerDrop;
pub use laws::{
    asks_are_late, asks_are_two, clients_flood_seldom, clients_showed_their_nodes,
    copies_are_limited, joined_routers_keep_nobody_out, no_given_packet_shows_a_client,
    only_silent_clients_are_pinged, pings_are_seldom, registrations_keep_other_notes,
    restart_asks_are_apart, who_shows_nothing_gets_little, who_stays_noted_is_asked,
};
pub use limiting::LimitedFlood;
pub use noted::{MAX_ADDRESS_NOTED, MAX_NOTED, Noted};
pub use peer_servers::{MAX_REMOTE_CLIENTS, REMOTE_FORGOTTEN_AFTER_MS, RemoteClient};
pub use pings::{PING_PERIOD_MS, PingTurn, sooner};
pub use port::{Secret, ServerPort};
pub use recipients::Recipients;
pub use server::IpxnetServer;
