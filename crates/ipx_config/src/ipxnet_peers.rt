//! The peers of an ipxnet port.

ghost use Rattle.std.specs.Prelude.{◌≡◌, IfOk, true};
ghost use Rattle.std.specs.List.{list_all, list_any};
ghost use Rattle.toml.specs.View.{items_view, view};
ghost use Rattle.ipx_config.specs.Fields.{Reads};
ghost use Rattle.ipx_config.specs.IpxnetPeers.{ArePeersOf, IsHostName, IsPeer, IsPeerText, IsPrefix, ReadsPeers, is_host_name, is_letter, is_name_byte};

use crate::ipxnet_port::Peer;
use crate::values::parse_ip_address;
use ip_prefixes::Prefix;
use ipx_wire::OutOfMemory;
use std::alloc::Global;
use toml::Value;

/// The most bytes of the name of a host.
const MAX_NAME: usize = 253;

/// The prefix that a value gives. An IP address is the prefix of all its bits.
fn prefix_of(value: &Value) -> Option<Prefix>
    ensures { Reads IsPrefix (view value.now) result }
{
    match parse_ip_address(value) {
        Some(ip) => Some(Prefix::of_address(ip)),
        None => Prefix::parse(value.as_str()?.as_bytes()),
    }
}

fn is_letter(byte: u8) -> bool
    ensures { result ≡ is_letter byte }
{
    byte.is_ascii_alphabetic()
}

/// Whether a byte may be in the name of a host.
fn is_name_byte(byte: u8) -> bool
    ensures { result ≡ is_name_byte byte }
{
    is_letter(byte) || byte.is_ascii_digit() || byte == b'-' || byte == b'.'
}

fn are_name_bytes(text: &[u8]) -> bool
    ensures { result ≡ list_all is_name_byte text.now }
{
    text.iter().all(|byte| is_name_byte(*byte))
}

fn has_letter(text: &[u8]) -> bool
    ensures { result ≡ list_any is_letter text.now }
{
    text.iter().any(|byte| is_letter(*byte))
}

/// Whether a text may be the name of a host.
fn is_host_name(text: &[u8]) -> bool
    ensures { result ≡ is_host_name text.now }
{
    text.len() <= MAX_NAME && are_name_bytes(text) && has_letter(text)
}

/// Whether a value gives a peer.
pub fn is_peer(value: &Value) -> bool
    ensures peer { IsPeerText (view value.now) → result ≡ true }
    ensures none { result ≡ true → IsPeerText (view value.now) }
{
    match prefix_of(value) {
        Some(_) => true,
        None => match value.as_str() {
            Some(name) => is_host_name(name.as_bytes()),
            None => false,
        },
    }
}

/// A copy of the name of a host that a value gives.
fn host_name_of(alloc: Global, value: &Value) -> Result<Option<String>, OutOfMemory>
    ensures { IfOk result (Reads IsHostName (view value.now)) }
{
    match value.as_str() {
        Some(name) if is_host_name(name.as_bytes()) => Ok(Some(String::from_str(alloc, name)?)),
        _ => Ok(None),
    }
}

/// The peer that a value gives: a prefix, or else a name.
fn peer_of(alloc: Global, value: &Value) -> Result<Option<Peer>, OutOfMemory>
    ensures { IfOk result (Reads IsPeer (view value.now)) }
{
    if let Some(prefix) = prefix_of(value) {
        return Ok(Some(Peer::Prefix(prefix)));
    }
    match host_name_of(alloc, value)? {
        Some(name) => Ok(Some(Peer::Host(name))),
        None => Ok(None),
    }
}

/// The peers that values give, or None if one of them gives none.
fn each_of(alloc: Global, values: &[Value]) -> Result<Option<Vec<Peer>>, OutOfMemory>
    ensures { IfOk result (ReadsPeers (items_view values.now)) }
{
    let mut peers = Vec::new(alloc);
    for value in values {
        let Some(peer) = peer_of(alloc, value)? else {
            return Ok(None);
        };
        peers.push(peer)?;
    }
    Ok(Some(peers))
}

/// The peers that a value lists.
pub fn peers_of(alloc: Global, value: &Value) -> Result<Option<Vec<Peer>>, OutOfMemory>
    ensures { IfOk result (Reads ArePeersOf (view value.now)) }
{
    match value.as_array() {
        Some(values) => each_of(alloc, values),
        None => Ok(None),
    }
}
