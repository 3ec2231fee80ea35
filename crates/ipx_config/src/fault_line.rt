//! The line that reports a fault, with what the text of the file tells of it.

use crate::allowed_peer::{MAX_ENTRIES, origin_of};
use crate::escaped::Escaped;
use crate::ethernet_values::{can_learn, end_of, is_any_word, usual_udp_port};
use crate::fault::ConfigError;
use crate::fields::held;
use crate::ipxnet_peers::is_peer;
use crate::key::Key;
use crate::text::{LAST_PORT, LAST_ROUTE};
use crate::toml_text::table_of;
use crate::tunnel_fields::{tunnel_in, udp_port_in};
use crate::values::parse_ip_address;
use ipx_carrier::socket_addr;
use ipx_tunnels::Tunnel;
use std::alloc::Global;
use std::fmt;
use std::net::SocketAddrV4;
use toml::{Table, Value};

/// The line of a fault, and after it a remark about what is in the text: whether quotes are missing,
/// or which entry of a list is wrong.
#[derive(Drop)]
pub struct FaultLine<'a> {
    text: &'a str,
    fault: &'a ConfigError,
    /// The table of the text, if it is TOML and there is memory for it.
    file: Option<Table>,
}

impl<'a> FaultLine<'a> {
    /// The line of the fault that a text has.
    pub fn new(alloc: Global, text: &'a str, fault: &'a ConfigError) -> FaultLine<'a> {
        FaultLine {
            text,
            fault,
            file: table_of(alloc, text).ok(),
        }
    }

    /// The table of a fault.
    fn table(&self, number: usize) -> Option<&Table> {
        numbered(self.file.as_ref()?, number)
    }
}

/// The item of an array of tables.
fn item(file: &Table, key: Key, index: usize) -> Option<&Table> {
    held(file, key)?.as_array()?.get(index)?.as_table()
}

/// The table that has this number in faults.
fn numbered(file: &Table, number: usize) -> Option<&Table> {
    if number == 0 {
        return Some(file);
    }
    if number <= LAST_PORT {
        return item(file, Key::Port, number - 1);
    }
    if number <= LAST_ROUTE {
        return item(file, Key::Route, number - LAST_PORT - 1);
    }
    item(file, Key::Service, number - LAST_ROUTE - 1)
}

/// Whether a text ends a line at an index, or ends itself there.
fn ends_line(text: &str, index: usize) -> bool {
    matches!(text.as_bytes().get(index), None | Some(b'\r' | b'\n'))
}

/// Whether a line of a text, counted from 1, has an odd number of double quotes.
fn has_odd_quotes(text: &str, line: usize) -> bool {
    match text.lines().nth(line.saturating_sub(1)) {
        Some(line) => line.bytes().filter(|byte| *byte == b'"').count() % 2 == 1,
        None => false,
    }
}

/// What the text tells of an error of the TOML parser. A string on one line that is not closed fails
/// at the end of its line.
fn toml_remark(text: &str, line: usize, error: &toml::de::Error) -> &'static str {
    let start = error.span().map_or(0, |range| range.start);
    match error.message() {
        "invalid string" if ends_line(text, start) => "; its closing quote is missing",
        "duplicate key" if text.contains("[port]") => { "; each port begins with a line [[port]]" }
        _ if has_odd_quotes(text, line) => "; the line has an odd number of double quotes",
        _ => "",
    }
}

/// Whether a value lacks the quotes of a text.
fn lacks_quotes(value: &Value) -> bool {
    !value.is_str() && !value.is_array() && !value.is_table()
}

/// Whether a key has a number or a boolean, which has no quotes.
fn is_unquoted(key: Key) -> bool {
    matches!(
        key,
        Key::UdpPort
            | Key::Cost
            | Key::Buffers
            | Key::Clients
            | Key::Hops
            | Key::Ticks
            | Key::Switch
            | Key::Vni
            | Key::Session
            | Key::PeerSession
            | Key::Sublayer
            | Key::Port
    )
}

/// Whether a key has a list, or several tables.
fn is_several(key: Key) -> bool {
    matches!(
        key,
        Key::Peers
            | Key::Routers
            | Key::Remotes
            | Key::Join
            | Key::Allow
            | Key::Route
            | Key::Service
    )
}

/// What helps with a value that is no list.
fn single_remark(key: Key, value: &Value) -> &'static str {
    if is_unquoted(key) {
        return match value {
            Value::String(_) => "; write it without quotes",
            Value::Table(_) if matches!(key, Key::Port) => "; write [[port]] in place of [port]",
            _ => "",
        };
    }
    if is_several(key) || !lacks_quotes(value) {
        return "";
    }
    "; write it in double quotes"
}

/// Whether a table is that of an ipxnet port, whose peers may also be prefixes and names of hosts.
fn is_ipxnet(table: &Table) -> bool {
    held(table, Key::Kind).is_some_and(|kind| kind.as_str() == Some("ipxnet"))
}

/// Whether the peers of a table have this value.
fn is_in_peers(table: &Table, value: &Value) -> bool {
    let peers = held(table, Key::Peers).and_then(|peers| peers.as_array());
    let ip = parse_ip_address(value);
    peers.is_some_and(|peers| peers.iter().any(|peer| parse_ip_address(peer) == ip))
}

/// The tunnel of the port of a table.
fn tunnel_of_port(table: &Table) -> Tunnel {
    tunnel_in(table, 0).unwrap_or(Tunnel::Plain)
}

/// Where the port of a table is bound, if its tunnel has this usual UDP port.
fn place_of_port(table: &Table, usual: Option<u16>) -> Option<SocketAddrV4> {
    let ip = parse_ip_address(held(table, Key::Address)?)?;
    let udp_port = udp_port_in(table, 0, usual).ok()?;
    Some(socket_addr(ip, udp_port))
}

/// Why an entry of a list of places is wrong, after the `earlier` ones.
fn place_fault(usual: Option<u16>, earlier: &[Value], value: &Value) -> Option<&'static str> {
    let place = end_of(usual, value);
    if place.is_none() && usual.is_some() {
        return Some("is no valid IP address or address:port");
    }
    if place.is_none() {
        return Some("is no valid address:port");
    }
    if earlier.iter().any(|other| end_of(usual, other) == place) {
        return Some("is listed twice");
    }
    None
}

/// Whether two values give places with one IP address.
fn is_same_ip(usual: Option<u16>, one: &Value, other: &Value) -> bool {
    match (end_of(usual, one), end_of(usual, other)) {
        (Some(one), Some(other)) => one.ip() == other.ip(),
        _ => false,
    }
}

/// Why the word for a remote whose place the port learns is wrong, after the `earlier` entries.
fn any_fault(tunnel: Tunnel, earlier: &[Value]) -> Option<&'static str> {
    if !can_learn(tunnel) {
        return Some(
            "needs tunnel = \"l2tpv3\" and a cookie of 8 bytes: without, anybody could become the remote",
        );
    }
    if earlier.is_empty() {
        return None;
    }
    Some("must be alone in the list")
}

/// Why a remote is wrong, after the `earlier` ones.
fn remote_fault(table: &Table, earlier: &[Value], value: &Value) -> Option<&'static str> {
    let tunnel = tunnel_of_port(table);
    if is_any_word(value) {
        return any_fault(tunnel, earlier);
    }
    if earlier.iter().any(is_any_word) {
        return Some("is beside \"any\", which must be alone");
    }
    let usual = usual_udp_port(tunnel);
    let place = end_of(usual, value);
    if place.is_some() && place == place_of_port(table, usual) {
        return Some("is the port's own address");
    }
    if let Some(fault) = place_fault(usual, earlier, value) {
        return Some(fault);
    }
    let is_vxlan = matches!(tunnel, Tunnel::Vxlan(_));
    if is_vxlan && earlier.iter().any(|other| is_same_ip(usual, other, value)) {
        return Some("has the IP address of an earlier one");
    }
    None
}

/// Why an entry of a list is wrong, after the `earlier` ones.
fn entry_fault(table: &Table, key: Key, earlier: &[Value], value: &Value) -> Option<&'static str> {
    match key {
        Key::Peers if is_ipxnet(table) => {
            if is_peer(value) {
                return None;
            }
            Some("is no valid IP address, prefix or host name")
        }
        Key::Peers | Key::Routers if parse_ip_address(value).is_none() => {
            Some("is no valid IP address")
        }
        Key::Routers if !is_in_peers(table, value) => Some("is not in peers"),
        Key::Remotes => remote_fault(table, earlier, value),
        Key::Join => place_fault(None, earlier, value),
        Key::Allow if origin_of(value).is_none() => Some("is no valid network"),
        _ => None,
    }
}

/// Writes what is wrong with a list: its first entry that is wrong, or else how many it has.
fn write_list<W: fmt::Write>(
    f: &mut fmt::Formatter<W>,
    table: &Table,
    key: Key,
    values: &[Value],
) -> fmt::Result {
    for (index, value) in values.iter().enumerate() {
        let Some(fault) = entry_fault(table, key, &values[..index], value) else {
            continue;
        };
        return match value.as_str() {
            Some(text) => {
                let text = Escaped(text.as_bytes());
                write!(f, "; \"{text}\" {fault}")
            }
            None => write!(f, "; entry {} is no text in double quotes", index + 1),
        };
    }
    if values.len() > MAX_ENTRIES {
        return write!(f, "; the list has {} entries", values.len());
    }
    Ok(())
}

/// Writes what is wrong with the value of a key.
fn write_value<W: fmt::Write>(f: &mut fmt::Formatter<W>, table: &Table, key: Key) -> fmt::Result {
    let Some(value) = held(table, key) else {
        return Ok(());
    };
    match value.as_array() {
        Some(values) => write_list(f, table, key, values),
        None => f.write_str(single_remark(key, value)),
    }
}

/// What helps with a name that is no key of the file. A host has no table `port`.
fn name_remark(file: &Table, name: &str) -> &'static str {
    match held(file, Key::Port) {
        Some(value) if name == "port" && !value.is_array() => "; the UDP port is udp_port",
        _ => "",
    }
}

/// One line without its line end. The caller writes the name of the file before it.
impl fmt::Display for FaultLine<'_> {
    fn fmt<W: fmt::Write>(&self, f: &mut fmt::Formatter<W>) -> fmt::Result {
        let fault = self.fault;
        write!(f, "{fault}")?;
        match fault {
            ConfigError::NotToml(line, error) => {
                f.write_str(toml_remark(self.text, *line, error))
            }
            ConfigError::Wrong(number, key) => match self.table(*number) {
                Some(table) => write_value(f, table, *key),
                None => Ok(()),
            },
            ConfigError::Unknown(0, name) => match self.table(0) {
                Some(file) => f.write_str(name_remark(file, name.as_str())),
                None => Ok(()),
            },
            _ => Ok(()),
        }
    }
}
