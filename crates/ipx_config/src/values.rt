//! The values of keys.

ghost use Rattle.std.specs.Prelude.{◌≡◌, ◌↔◌, IfOk, IsTrue};
ghost use Rattle.std.specs.List.{list_all};
ghost use Rattle.toml.specs.View.{items_view, view};
ghost use Rattle.ipx_config.specs.Values.{AreDistinctFiles, AreAddresses, AreAddressesOf, AreRouterPeers, IsAccept, IsAnyOrAddress, IsIpAddress, IsCount, IsDirected, IsKind, IsNetwork, IsSocket, IsFileName, ReadsAddresses, ReadsNetwork, can_name_file, temporary_name};
ghost use Rattle.ipx_config.specs.Fields.{Reads};
ghost use Rattle.ipx_config.specs.Values.{is_peer};

use crate::site::{Accept, Directed, Kind};
use ipx_wire::{Network, OutOfMemory, Socket};
use std::alloc::Global;
use std::net::Ipv4Addr;
use toml::Value;

/// The suffix of the temporary file to which a file is written first.
pub const TEMPORARY: &str = ".new";

/// Parses a network that is neither 0 nor ffffffff.
pub fn network_written(text: &[u8]) -> Option<Network>
    ensures { ReadsNetwork text.now result }
{
    let network = Network::from_hex(text)?;
    if network == Network::LOCAL || network == Network::ALL {
        return None;
    }
    Some(network)
}

/// The network that a value names.
pub fn parse_network(value: &Value) -> Option<Network>
    ensures { Reads IsNetwork (view value.now) result }
{
    network_written(value.as_str()?.as_bytes())
}

/// The IP address that a value gives. 0.0.0.0 is none.
pub fn parse_ip_address(value: &Value) -> Option<[u8; 4]>
    ensures { Reads IsIpAddress (view value.now) result }
{
    let text = value.as_str()?;
    if text == "0.0.0.0" {
        return None;
    }
    match text.parse::<Ipv4Addr>() {
        Ok(ip) => Some(ip.octets()),
        Err(_) => None,
    }
}

/// The IP address to bind that a value gives. `any` is 0.0.0.0, each address of this machine.
pub fn any_or_address_of(value: &Value) -> Option<[u8; 4]>
    ensures { Reads IsAnyOrAddress (view value.now) result }
{
    if value.as_str()? == "any" {
        return Some([0; 4]);
    }
    parse_ip_address(value)
}

/// A number from 1 to `most`.
pub fn count_of(value: &Value, most: u16) -> Option<u16>
    ensures { Reads (IsCount most) (view value.now) result }
{
    let count = u16::try_from(value.as_integer()?).ok()?;
    if count == 0 || count > most {
        return None;
    }
    Some(count)
}

/// Which senders are accepted.
pub fn accept_of(value: &Value) -> Option<Accept>
    ensures { Reads IsAccept (view value.now) result }
{
    match value.as_str()? {
        "peers" => Some(Accept::Peers),
        "any" => Some(Accept::Any),
        _ => None,
    }
}

/// Which directed broadcasts may leave by a port.
pub fn directed_of(value: &Value) -> Option<Directed>
    ensures { Reads IsDirected (view value.now) result }
{
    match value.as_str()? {
        "none" => Some(Directed::Never),
        "few" => Some(Directed::Few),
        "all" => Some(Directed::Always),
        _ => None,
    }
}

/// The kind of a port.
pub fn kind_of(value: &Value) -> Option<Kind>
    ensures { Reads IsKind (view value.now) result }
{
    match value.as_str()? {
        "rfc1234" => Some(Kind::Rfc1234),
        "ethernet" => Some(Kind::Ethernet),
        "ipxnet" => Some(Kind::Ipxnet),
        _ => None,
    }
}

/// The socket that a value names.
pub fn parse_socket(value: &Value) -> Option<Socket>
    ensures { Reads IsSocket (view value.now) result }
{
    let socket = Socket::from_hex(value.as_str()?.as_bytes())?;
    if socket.0 == 0 {
        return None;
    }
    Some(socket)
}

/// Whether a text can name a file: it is not empty, and no byte of it is 0.
fn can_name_file(text: &str) -> bool
    ensures { result ≡ can_name_file text.now }
{
    !text.is_empty() && !text.as_bytes().contains(&0)
}

/// A copy of the file name that a value gives.
pub fn file_name_of(alloc: Global, value: &Value) -> Result<Option<String>, OutOfMemory>
    ensures { IfOk result (Reads IsFileName (view value.now)) }
{
    match value.as_str() {
        Some(name) if can_name_file(name) => Ok(Some(String::from_str(alloc, name)?)),
        _ => Ok(None),
    }
}

/// Whether a file of this name is the temporary file of another.
fn is_temporary_of(name: &str, other: &str) -> bool
    ensures { IsTrue result ↔ name.now ≡ temporary_name other.now }
{
    match name.as_bytes().strip_suffix(TEMPORARY.as_bytes()) {
        Some(front) => front == other.as_bytes(),
        None => false,
    }
}

/// Whether the files of two names can both be written without overwriting each other.
pub fn are_distinct(one: &str, two: &str) -> bool
    ensures { IsTrue result ↔ AreDistinctFiles one.now two.now }
{
    one != two && !is_temporary_of(one, two) && !is_temporary_of(two, one)
}

/// The IP addresses that values give, or None if one of them gives none.
pub fn addresses_of(alloc: Global, values: &[Value]) -> Result<Option<Vec<[u8; 4]>>, OutOfMemory>
    ensures { IfOk result (ReadsAddresses (items_view values.now)) }
{
    let mut ips = Vec::new(alloc);
    for value in values {
        let Some(ip) = parse_ip_address(value) else {
            return Ok(None);
        };
        ips.push(ip)?;
    }
    Ok(Some(ips))
}

/// The peers that a value lists.
pub fn parse_peers(alloc: Global, value: &Value) -> Result<Option<Vec<[u8; 4]>>, OutOfMemory>
    ensures { IfOk result (Reads AreAddressesOf (view value.now)) }
{
    match value.as_array() {
        Some(values) => addresses_of(alloc, values),
        None => Ok(None),
    }
}

/// Whether each of these IP addresses is one of the peers.
pub fn are_among(ips: &[[u8; 4]], peers: &[[u8; 4]]) -> bool
    ensures { result ≡ list_all (is_peer peers.now) ips.now }
{
    ips.iter().all(|ip| peers.contains(ip))
}

/// The routers that a value lists, if each of them is one of these peers.
pub fn routers_of(
    alloc: Global,
    value: &Value,
    peers: &[[u8; 4]],
) -> Result<Option<Vec<[u8; 4]>>, OutOfMemory>
    ensures { IfOk result (Reads (AreRouterPeers peers.now) (view value.now)) }
{
    let Some(ips) = parse_peers(alloc, value)? else {
        return Ok(None);
    };
    if are_among(&ips, peers) {
        Ok(Some(ips))
    } else {
        Ok(None)
    }
}
