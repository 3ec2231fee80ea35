//! The keys of a table, with their values.

ghost use Rattle.std.specs.Prelude.{String, option_map, string_bytes, ◌≡◌, ◌⊎◌, [], Some, None, IfErr, IfOk, OnOk, MatchOption, MatchResult};
ghost use Rattle.std.specs.Global.{Global};
ghost use Rattle.toml.specs.Data.{get_member};
ghost use Rattle.toml.specs.View.{table_view, view};
ghost use Rattle.ipx_config.specs.Keys.{first_unknown, key_text, keys_of_kind};
ghost use Rattle.ipx_config.specs.Neighbours.{AreAmong, AreNeighbours};
ghost use Rattle.ipx_config.specs.AllowedPeers.{AreOrigins};
ghost use Rattle.ipx_config.specs.Values.{AreAddressesOf, AreRouterPeers, IsAccept, IsAnyOrAddress, IsIpAddress, IsCount, IsDirected, IsKind, IsNetwork, IsSocket, IsFileName, IsOtherFileName, IsThirdFileName};
ghost use Rattle.ipx_config.specs.Fields.{Gives, GivesIf, GivesOr, Holds, HoldsOr, IsMissing, IsStray, IsStrayName, IsUnknown, IsWrong};

use crate::allowed_peer::{AllowedPeer, origins_of};
use crate::fault::ConfigError;
use crate::key::{Key, is_key, key_in, keys_of_kind, keys_of_other_kinds};
use crate::neighbours::{among, neighbours_of};
use crate::site::{Accept, Directed, Kind};
use crate::values::{
    accept_of, any_or_address_of, are_distinct, count_of, directed_of, file_name_of, kind_of,
    parse_ip_address, parse_network, parse_peers, parse_socket, routers_of,
};
use ipx_wire::{Network, OutOfMemory, Socket};
use std::alloc::Global;
use toml::{Table, Value};

/// The fault of a name that is no key of a table.
fn unknown(alloc: Global, number: usize, name: &str) -> Result<ConfigError, OutOfMemory>
    ensures { IfOk result (λ f. (copy : String Global) × (f ≡ ConfigError.Unknown number copy)
        × (string_bytes copy ≡ name.now)) }
{
    Ok(ConfigError::Unknown(number, String::from_str(alloc, name)?))
}

/// The first name in a table that is not among these keys.
fn unknown_in<'a>(table: &'a Table, keys: &[Key]) -> Option<&'a str>
    ensures { option_map (λ name. name.now) result ≡ first_unknown keys.now (table_view table.now) }
{
    for name in table.keys() {
        if !is_key(keys, name.as_str()) {
            return Some(name.as_str());
        }
    }
    None
}

/// Refuses a table with a name that is not among these keys.
pub fn refuse_unknown(
    alloc: Global,
    table: &Table,
    number: usize,
    keys: &[Key],
) -> Result<(), ConfigError>
    ensures known { OnOk result (first_unknown keys.now (table_view table.now) ≡ None) }
    ensures unknown { IfErr result (λ f. (f ≡ ConfigError.OutOfMemory)
        ⊎ IsUnknown keys.now (table_view table.now) number f) }
{
    match unknown_in(table, keys) {
        Some(name) => Err(unknown(alloc, number, name)?),
        None => Ok(()),
    }
}

/// The fault of a name that is no key of a port of this kind.
fn stray(alloc: Global, number: usize, kind: Kind, name: &str) -> Result<ConfigError, OutOfMemory>
    ensures { IfOk result (IsStrayName kind name.now number) }
{
    match key_in(keys_of_other_kinds(kind), name) {
        Some(key) => Ok(ConfigError::OtherKind(number, *key, kind)),
        None => unknown(alloc, number, name),
    }
}

/// Refuses the table of a port with a name that is no key of its kind.
pub fn refuse_stray(
    alloc: Global,
    table: &Table,
    number: usize,
    kind: Kind,
) -> Result<(), ConfigError>
    ensures known { OnOk result (first_unknown (keys_of_kind kind) (table_view table.now) ≡ None) }
    ensures stray { IfErr result (λ f. (f ≡ ConfigError.OutOfMemory)
        ⊎ IsStray kind (table_view table.now) number f) }
{
    match unknown_in(table, keys_of_kind(kind)) {
        Some(name) => Err(stray(alloc, number, kind, name)?),
        None => Ok(()),
    }
}

/// The value of a key, if the key is present.
pub fn held(table: &Table, key: Key) -> Option<&Value>
    ensures { MatchOption result (get_member (key_text key) (table_view table.now) ≡ None)
        (λ v. get_member (key_text key) (table_view table.now) ≡ Some (view v.now)) }
{
    table.get(key.text())
}

/// The value of a required key.
pub fn required(table: &Table, number: usize, key: Key) -> Result<&Value, ConfigError>
    ensures { MatchResult result
        (λ v. get_member (key_text key) (table_view table.now) ≡ Some (view v.now))
        (IsMissing key (table_view table.now) number) }
{
    match held(table, key) {
        Some(value) => Ok(value),
        None => Err(ConfigError::Missing(number, key)),
    }
}

/// The network of a port or a host.
pub fn network_in(table: &Table, number: usize) -> Result<Network, ConfigError>
    ensures { Gives IsNetwork Key.Network (table_view table.now) number result }
{
    match parse_network(required(table, number, Key::Network)?) {
        Some(network) => Ok(network),
        None => Err(ConfigError::Wrong(number, Key::Network)),
    }
}

/// An IP address.
pub fn address_in(table: &Table, number: usize, key: Key) -> Result<[u8; 4], ConfigError>
    ensures { Gives IsIpAddress key (table_view table.now) number result }
{
    match parse_ip_address(required(table, number, key)?) {
        Some(ip) => Ok(ip),
        None => Err(ConfigError::Wrong(number, key)),
    }
}

/// The IP address to bind, or each address of this machine.
pub fn any_or_address_in(table: &Table, number: usize) -> Result<[u8; 4], ConfigError>
    ensures { Gives IsAnyOrAddress Key.Address (table_view table.now) number result }
{
    match any_or_address_of(required(table, number, Key::Address)?) {
        Some(ip) => Ok(ip),
        None => Err(ConfigError::Wrong(number, Key::Address)),
    }
}

/// A number from 1 to `most`, or the default.
pub fn count_in(
    table: &Table,
    number: usize,
    key: Key,
    most: u16,
    default: u16,
) -> Result<u16, ConfigError>
    ensures { GivesOr (IsCount most) key (table_view table.now) number default result }
{
    let Some(value) = held(table, key) else {
        return Ok(default);
    };
    match count_of(value, most) {
        Some(count) => Ok(count),
        None => Err(ConfigError::Wrong(number, key)),
    }
}

/// The peers of a port.
pub fn peers_in(alloc: Global, table: &Table, number: usize) -> Result<Vec<[u8; 4]>, ConfigError>
    ensures { Gives AreAddressesOf Key.Peers (table_view table.now) number result }
{
    match parse_peers(alloc, required(table, number, Key::Peers)?)? {
        Some(peers) => Ok(peers),
        None => Err(ConfigError::Wrong(number, Key::Peers)),
    }
}

/// The peers of a port that are routers, if the key is present.
pub fn port_routers_in(
    alloc: Global,
    table: &Table,
    number: usize,
    peers: &[[u8; 4]],
) -> Result<Option<Vec<[u8; 4]>>, ConfigError>
    ensures { GivesIf (AreRouterPeers peers.now) Key.Routers (table_view table.now) number result }
{
    let Some(value) = held(table, Key::Routers) else {
        return Ok(None);
    };
    match routers_of(alloc, value, peers)? {
        Some(routers) => Ok(Some(routers)),
        None => Err(ConfigError::Wrong(number, Key::Routers)),
    }
}

/// Which senders are accepted.
pub fn accept_in(table: &Table, number: usize) -> Result<Accept, ConfigError>
    ensures { GivesOr IsAccept Key.Accept (table_view table.now) number Accept.Peers result }
{
    let Some(value) = held(table, Key::Accept) else {
        return Ok(Accept::Peers);
    };
    match accept_of(value) {
        Some(accept) => Ok(accept),
        None => Err(ConfigError::Wrong(number, Key::Accept)),
    }
}

/// Which directed broadcasts may leave by a port.
pub fn directed_in(table: &Table, number: usize) -> Result<Directed, ConfigError>
    ensures { GivesOr IsDirected Key.Directed (table_view table.now) number Directed.Few result }
{
    let Some(value) = held(table, Key::Directed) else {
        return Ok(Directed::Few);
    };
    match directed_of(value) {
        Some(directed) => Ok(directed),
        None => Err(ConfigError::Wrong(number, Key::Directed)),
    }
}

/// The kind of a port.
pub fn kind_in(table: &Table, number: usize) -> Result<Kind, ConfigError>
    ensures { GivesOr IsKind Key.Kind (table_view table.now) number Kind.Rfc1234 result }
{
    let Some(value) = held(table, Key::Kind) else {
        return Ok(Kind::Rfc1234);
    };
    match kind_of(value) {
        Some(kind) => Ok(kind),
        None => Err(ConfigError::Wrong(number, Key::Kind)),
    }
}

/// The socket of a host.
pub fn socket_in(table: &Table, number: usize) -> Result<Socket, ConfigError>
    ensures { Gives IsSocket Key.Socket (table_view table.now) number result }
{
    match parse_socket(required(table, number, Key::Socket)?) {
        Some(socket) => Ok(socket),
        None => Err(ConfigError::Wrong(number, Key::Socket)),
    }
}

/// The file name that a key gives, if the key is present.
pub fn file_name_in(alloc: Global, table: &Table, key: Key) -> Result<Option<String>, ConfigError>
    ensures { GivesIf IsFileName key (table_view table.now) 0 result }
{
    let Some(value) = held(table, key) else {
        return Ok(None);
    };
    match file_name_of(alloc, value)? {
        Some(name) => Ok(Some(name)),
        None => Err(ConfigError::Wrong(0, key)),
    }
}

/// The file name that a key gives, if the key is present. It is refused if writing one of the two
/// files would overwrite the other.
pub fn other_file_name_in(
    alloc: Global,
    table: &Table,
    key: Key,
    other: &Option<String>,
) -> Result<Option<String>, ConfigError>
    ensures { GivesIf (IsOtherFileName other.now) key (table_view table.now) 0 result }
{
    let name = file_name_in(alloc, table, key)?;
    match (&name, other) {
        (Some(one), Some(two)) if !are_distinct(one, two) => Err(ConfigError::Wrong(0, key)),
        _ => Ok(name),
    }
}

/// The same if there are two other files.
pub fn third_file_name_in(
    alloc: Global,
    table: &Table,
    key: Key,
    first: &Option<String>,
    second: &Option<String>,
) -> Result<Option<String>, ConfigError>
    ensures { GivesIf (IsThirdFileName first.now second.now) key (table_view table.now) 0 result }
{
    let name = other_file_name_in(alloc, table, key, first)?;
    match (&name, second) {
        (Some(one), Some(two)) if !are_distinct(one, two) => Err(ConfigError::Wrong(0, key)),
        _ => Ok(name),
    }
}

/// The IP addresses that a host accepts besides its router's; none if the key is absent.
pub fn neighbours_in(
    alloc: Global,
    table: &Table,
    number: usize,
) -> Result<Vec<[u8; 4]>, ConfigError>
    ensures { MatchResult result
        (λ ips. HoldsOr AreNeighbours Key.Peers (table_view table.now) [] ips.items)
        (λ f. (f ≡ ConfigError.OutOfMemory)
        ⊎ IsWrong AreNeighbours Key.Peers (table_view table.now) number f) }
{
    let Some(value) = held(table, Key::Peers) else {
        return Ok(Vec::new(alloc));
    };
    match neighbours_of(alloc, value)? {
        Some(ips) => Ok(ips),
        None => Err(ConfigError::Wrong(number, Key::Peers)),
    }
}

/// The peers of a host that are routers; none if the key is absent.
pub fn routers_in(
    alloc: Global,
    table: &Table,
    number: usize,
    peers: &[[u8; 4]],
) -> Result<Vec<[u8; 4]>, ConfigError>
    ensures { MatchResult result
        (λ ips. HoldsOr (AreAmong peers.now) Key.Routers (table_view table.now) [] ips.items)
        (λ f. (f ≡ ConfigError.OutOfMemory)
        ⊎ IsWrong (AreAmong peers.now) Key.Routers (table_view table.now) number f) }
{
    let Some(value) = held(table, Key::Routers) else {
        return Ok(Vec::new(alloc));
    };
    match among(alloc, value, peers)? {
        Some(ips) => Ok(ips),
        None => Err(ConfigError::Wrong(number, Key::Routers)),
    }
}

/// Which peers may ask for a connection, if the key is present.
pub fn origins_in(
    alloc: Global,
    table: &Table,
    number: usize,
    key: Key,
) -> Result<Option<Vec<AllowedPeer>>, ConfigError>
    ensures { GivesIf AreOrigins key (table_view table.now) number result }
{
    let Some(value) = held(table, key) else {
        return Ok(None);
    };
    match origins_of(alloc, value)? {
        Some(origins) => Ok(Some(origins)),
        None => Err(ConfigError::Wrong(number, key)),
    }
}
