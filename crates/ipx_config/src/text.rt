//! The lines that report faults.

use crate::escaped::Escaped;
use crate::fault::ConfigError;
use crate::key::Key;
use crate::site::Kind;
use std::fmt;

/// The greatest number of the table of a port.
pub(crate) const LAST_PORT: usize = 16;

/// The greatest number of the table of a route. The tables of services follow.
pub(crate) const LAST_ROUTE: usize = 272;

/// The keys of a table, by its number.
fn keys_of(table: usize) -> &'static str {
    if table == 0 {
        return "the keys of a router are metrics_file, tables_file, secret_file, port, route and service; those of a \
            host are network, address, router, udp_port, socket, buffers, peers, routers, allow \
            and accept";
    }
    if table > LAST_ROUTE {
        return "the keys are port, next_hop, type, name, ipx_address and hops";
    }
    if table > LAST_PORT {
        return "the keys are port, next_hop, network, hops and ticks";
    }
    "the keys are kind, network, address, udp_port, cost, directed, for kind = \"rfc1234\" also peers, \
        routers and accept, for kind = \"ethernet\" encapsulation, tunnel, vni, session, peer_session, \
        cookie, peer_cookie, sublayer, remotes, node and switch, \
        for kind = \"ipxnet\" node, clients, accept, peers and join"
}

/// The kind of a port as a file writes it.
fn word_of_kind(kind: Kind) -> &'static str {
    match kind {
        Kind::Rfc1234 => "rfc1234",
        Kind::Ethernet => "ethernet",
        Kind::Ipxnet => "ipxnet",
    }
}

/// The keys of a port of a kind.
fn keys_of_port(kind: Kind) -> &'static str {
    match kind {
        Kind::Rfc1234 => "kind, network, address, udp_port, cost, peers, routers, accept, directed",
        Kind::Ethernet =>
            "kind, network, encapsulation, address, tunnel, vni, session, peer_session, cookie, peer_cookie, sublayer, \
             udp_port, cost, remotes, node, switch, directed",
        Kind::Ipxnet => {
            "kind, network, address, udp_port, cost, node, clients, accept, peers, join, directed"
        },
    }
}

/// The current key for a name that an earlier version used.
fn new_name(name: &str) -> Option<Key> {
    match name {
        "status" => Some(Key::MetricsFile),
        "tables" => Some(Key::TablesFile),
        "from" => Some(Key::Allow),
        "frame" => Some(Key::Encapsulation),
        "ends" => Some(Key::Remotes),
        "hub" => Some(Key::Switch),
        "next" => Some(Key::NextHop),
        "at" => Some(Key::IpxAddress),
        _ => None,
    }
}

/// Whether a name is a key of a router's file, and not of one of its tables.
fn is_of_file(name: &str) -> bool {
    matches!(name, "metrics_file" | "tables_file" | "secret_file")
}

/// Where a name that is a key of a host's file alone is one.
fn place_in_host(name: &str) -> Option<&'static str> {
    match name {
        "router" | "socket" | "buffers" | "allow" => {
            Some("a host's file, and this command reads a router's file")
        }
        _ => None,
    }
}

/// Where a name that is a key of tables of a router's file alone is one.
fn place_in_tables(name: &str) -> Option<&'static str> {
    match name {
        "kind"
        | "cost"
        | "directed"
        | "encapsulation"
        | "tunnel"
        | "vni"
        | "session"
        | "peer_session"
        | "cookie"
        | "peer_cookie"
        | "sublayer"
        | "remotes"
        | "node"
        | "switch"
        | "clients"
        | "join" => Some("a table [[port]] of a router's file"),
        "next_hop" | "hops" => Some("a table [[route]] or [[service]] of a router's file"),
        "ticks" => Some("a table [[route]] of a router's file"),
        "type" | "name" | "ipx_address" => Some("a table [[service]] of a router's file"),
        _ => None,
    }
}

/// Where a name is a key, if it is none of the file itself that was read.
fn place_beside_file(name: &str) -> Option<&'static str> {
    match name {
        "metrics_file" | "tables_file" | "secret_file" | "port" | "route" | "service" => {
            Some("a router's file, and this command reads a host's file")
        }
        "network" | "address" | "udp_port" | "peers" | "routers" | "accept" => Some(
            "a table [[port]] or of a host's file, and not of a router's file itself",
        ),
        _ => place_in_host(name).or(place_in_tables(name)),
    }
}

/// Where a name is a key, if it is none of the table that has it. It is known of files and ports.
fn place_of_key(table: usize, name: &str) -> Option<&'static str> {
    match table {
        0 => place_beside_file(name),
        1..=LAST_PORT => place_in_host(name).or(place_in_tables(name)),
        _ => None,
    }
}

/// The valid values of a key of a route or a service. These name a port, and no network of the
/// router itself.
fn valid_statics(key: Key) -> &'static str {
    match key {
        Key::Port => "the number of a port of kind \"rfc1234\" or \"ethernet\", such as 1",
        Key::Network => "eight hex digits from 00000001 to fffffffd, such as \"000000aa\"",
        _ => key.right(),
    }
}

/// The valid values of a key of a table. A host names at most 256 others.
fn right_in(table: usize, key: Key) -> &'static str {
    if table > LAST_PORT {
        return valid_statics(key);
    }
    match (table, key) {
        (1..=LAST_PORT, Key::Address) => {
            "an IPv4 address of this machine, such as \"192.0.2.10\", or for kind \"ipxnet\" also \"any\""
        }
        (1..=LAST_PORT, Key::Peers) => {
            "a list of IP addresses, such as [\"198.51.100.7\", \"203.0.113.9\"], and for kind \
             \"ipxnet\" also prefixes of 8 to 32 bits and names of hosts, such as \
             [\"203.0.113.0/24\", \"friend.example\"]"
        }
        (0, Key::Peers) => {
            "a list of at most 256 IP addresses, such as [\"198.51.100.7\", \"203.0.113.9\"]"
        }
        (0, Key::Routers) => "a list of at most 256 IP addresses that are also in peers",
        _ => key.right(),
    }
}

/// The tunnel that has a key.
fn tunnel_with(key: Key) -> &'static str {
    match key {
        Key::Vni => "vxlan",
        _ => "l2tpv3",
    }
}

/// The valid values of a key of a table that is missing there. The UDP port of a port is required
/// only if its kind is "ethernet" and it has no tunnel.
fn right_if_missing(table: usize, key: Key) -> &'static str {
    match (table, key) {
        (1..=LAST_PORT, Key::UdpPort) => "a number from 1 to 65535, such as 24002",
        _ => right_in(table, key),
    }
}

/// What a file may have in place of a key that is missing.
fn instead_of(table: usize, key: Key) -> &'static str {
    match (table, key) {
        (1..=LAST_PORT, Key::Peers) =>
            "; a port of kind \"ipxnet\" may have accept = \"any\" instead",
        _ => "",
    }
}

/// The name of a table: its kind and its number among those.
fn write_table<W: fmt::Write>(f: &mut fmt::Formatter<W>, table: usize) -> fmt::Result {
    if table <= LAST_PORT {
        return write!(f, "port {table}");
    }
    if table <= LAST_ROUTE {
        let route = table - LAST_PORT;
        return write!(f, "route {route}");
    }
    let service = table - LAST_ROUTE;
    write!(f, "service {service}")
}

/// The place of a fault: nothing for the file itself, and otherwise the table.
fn write_place<W: fmt::Write>(f: &mut fmt::Formatter<W>, table: usize) -> fmt::Result {
    if table == 0 {
        return Ok(());
    }
    write_table(f, table)?;
    f.write_str(": ")
}

/// The keys that are the same in two routes, or services, that repeat each other.
fn alike(table: usize) -> &'static str {
    if table <= LAST_ROUTE {
        "port, next_hop and network"
    } else {
        "port, next_hop, type and name"
    }
}

impl fmt::Display for Key {
    fn fmt<W: fmt::Write>(&self, f: &mut fmt::Formatter<W>) -> fmt::Result {
        f.write_str(self.text())
    }
}

/// What helps with a message of the TOML parser. A value that it does not know is often a text
/// without quotes.
fn hint_for(message: &str) -> &'static str {
    if message.as_bytes().starts_with(b"invalid value") {
        "; if it is text, it needs double quotes, such as \"10.1.0.1\""
    } else {
        ""
    }
}

/// Writes what is wrong with a name that is no key of a table.
fn write_unknown<W: fmt::Write>(
    f: &mut fmt::Formatter<W>,
    table: usize,
    name: &str,
) -> fmt::Result {
    if let Some(key) = new_name(name) {
        return write!(f, "`{name}` is now `{key}`");
    }
    if table > 0 && is_of_file(name) {
        return write!(f, "{name} must come before the first [[port]]");
    }
    if matches!(table, 1..=LAST_PORT) && name == "port" {
        return f.write_str("port is no key of a port: its UDP port is udp_port");
    }
    if let Some(right) = place_of_key(table, name) {
        return write!(f, "{name} is a key of {right}");
    }
    let name = Escaped(name.as_bytes());
    write!(f, "unknown key {name}: {}", keys_of(table))
}

/// One line without its line end. The caller writes the name of the file before it.
impl fmt::Display for ConfigError {
    fn fmt<W: fmt::Write>(&self, f: &mut fmt::Formatter<W>) -> fmt::Result {
        match self {
            ConfigError::OutOfMemory => f.write_str("out of memory"),
            ConfigError::NotToml(line, error) => {
                let message = error.message();
                write!(f, "line {line}: {message}{}", hint_for(message))
            }
            ConfigError::Unknown(table, name) => {
                write_place(f, *table)?;
                write_unknown(f, *table, name.as_str())
            }
            ConfigError::OtherKind(table, key, kind) => {
                write_place(f, *table)?;
                let (word, keys) = (word_of_kind(*kind), keys_of_port(*kind));
                write!(
                    f,
                    "{key} is not a key of kind \"{word}\": its keys are {keys}"
                )
            }
            ConfigError::OtherTunnel(table, key) => {
                write_place(f, *table)?;
                write!(f, "{key} needs tunnel = \"{}\"", tunnel_with(*key))
            }
            ConfigError::Missing(table, key) => {
                write_place(f, *table)?;
                let right = right_if_missing(*table, *key);
                write!(
                    f,
                    "{key} is missing: expected {right}{}",
                    instead_of(*table, *key)
                )
            }
            ConfigError::Wrong(table, key) => {
                write_place(f, *table)?;
                write!(f, "{key}: expected {}", right_in(*table, *key))
            }
            ConfigError::Twin(table, network, earlier) => {
                write_place(f, *table)?;
                write!(f, "network {network} is already used by port {earlier}")
            }
            ConfigError::SamePlace(table, earlier) => {
                write_place(f, *table)?;
                write!(
                    f,
                    "same address and udp_port as port {earlier}; \"any\" includes each address"
                )
            }
            ConfigError::Again(table, earlier) => {
                write_place(f, *table)?;
                write!(f, "same {} as ", alike(*table))?;
                write_table(f, *earlier)
            }
        }
    }
}
