//! The values of the keys of an Ethernet port.

ghost use Rattle.std.specs.Prelude.{◌≡◌, IfOk, Some, codes, false, true};
ghost use Rattle.std.specs.List.{list_any};
ghost use Rattle.toml.specs.Data.{as_str};
ghost use Rattle.toml.specs.View.{items_view, view};
ghost use Rattle.ipx_config.specs.Fields.{Reads};
ghost use Rattle.ipx_config.specs.EthernetValues.{AreEthernetEnds, AreListedRemotes, AreRemotesOf, IsAny, IsEncapsulation, IsFlag, IsPlace, IsStation, IsEthernetEnd, IsUsualPlace, ReadsDigits, ReadsPlace, ReadsStation, ReadsEthernetEnds, are_ips_distinct, are_places_distinct, are_remotes_distinct, can_be_remotes, can_learn, frame_word, is_same_ip, is_somewhere, is_station, made_station, usual_udp_port};

use crate::allowed_peer::MAX_ENTRIES;
use crate::site::RemotesConfig;
use crate::values::parse_ip_address;
use ipx_carrier::socket_addr;
use ipx_ethernet::Encapsulation;
use ipx_tunnels::{Cookie, Tunnel};
use ipx_wire::{Node, OutOfMemory};
use std::alloc::Global;
use std::net::SocketAddrV4;
use toml::Value;

/// The encapsulation that a value names.
pub fn encapsulation_of(value: &Value) -> Option<Encapsulation>
    ensures { Reads IsEncapsulation (view value.now) result }
{
    match value.as_str()? {
        "802.3" => Some(Encapsulation::Raw),
        "802.2" => Some(Encapsulation::Llc),
        "snap" => Some(Encapsulation::Snap),
        "ethernet-ii" => Some(Encapsulation::EthernetII),
        _ => None,
    }
}

/// The word that names an encapsulation.
pub fn word_of(encapsulation: Encapsulation) -> &'static str
    ensures { result.now ≡ frame_word encapsulation }
{
    match encapsulation {
        Encapsulation::Raw => "802.3",
        Encapsulation::Llc => "802.2",
        Encapsulation::Snap => "snap",
        Encapsulation::EthernetII => "ethernet-ii",
    }
}

/// The boolean that a value gives.
pub fn flag_of(value: &Value) -> Option<bool>
    ensures { Reads IsFlag (view value.now) result }
{
    value.as_bool()
}

/// Whether a remote can be at this place: neither its IP address nor its UDP port is 0.
fn is_somewhere(place: SocketAddrV4) -> bool
    ensures { result ≡ is_somewhere place }
{
    place.ip().octets() != [0; 4] && place.port() != 0
}

/// Parses the place of a remote: an IP address and a UDP port.
fn place_written(text: &str) -> Option<SocketAddrV4>
    ensures { ReadsPlace text.now result }
{
    match text.parse::<SocketAddrV4>() {
        Ok(place) => {
            if is_somewhere(place) {
                Some(place)
            } else {
                None
            }
        }
        Err(_) => None,
    }
}

/// The place that a value gives.
fn place_of(value: &Value) -> Option<SocketAddrV4>
    ensures { Reads IsPlace (view value.now) result }
{
    place_written(value.as_str()?)
}

/// The place at the usual UDP port whose IP address a value gives.
fn usual_place_of(usual: Option<u16>, value: &Value) -> Option<SocketAddrV4>
    ensures { Reads (IsUsualPlace usual) (view value.now) result }
{
    let udp_port = usual?;
    let ip = parse_ip_address(value)?;
    Some(socket_addr(ip, udp_port))
}

/// The place of a remote that a value gives. If there is a usual UDP port, an IP address will do.
pub(crate) fn end_of(usual: Option<u16>, value: &Value) -> Option<SocketAddrV4>
    ensures { Reads (IsEthernetEnd usual) (view value.now) result }
{
    match place_of(value) {
        Some(place) => Some(place),
        None => usual_place_of(usual, value),
    }
}

/// The places that values give, or None if one of them gives no place.
fn places_of(
    alloc: Global,
    usual: Option<u16>,
    values: &[Value],
) -> Result<Option<Vec<SocketAddrV4>>, OutOfMemory>
    ensures { IfOk result (ReadsEthernetEnds usual (items_view values.now)) }
{
    let mut ends = Vec::new(alloc);
    for value in values {
        let Some(end) = end_of(usual, value) else {
            return Ok(None);
        };
        ends.push(end)?;
    }
    Ok(Some(ends))
}

/// The places that a value lists, 1 to 256.
pub fn ends_of(
    alloc: Global,
    usual: Option<u16>,
    value: &Value,
) -> Result<Option<Vec<SocketAddrV4>>, OutOfMemory>
    ensures { IfOk result (Reads (AreEthernetEnds usual) (view value.now)) }
{
    let Some(values) = value.as_array() else {
        return Ok(None);
    };
    let count = values.len();
    if count == 0 || count > MAX_ENTRIES {
        return Ok(None);
    }
    places_of(alloc, usual, values)
}

/// Whether no place is listed twice.
pub(crate) fn are_distinct(places: &[SocketAddrV4]) -> bool
    ensures { result ≡ are_places_distinct places.now }
{
    for (index, place) in places.iter().enumerate() {
        if places[index + 1..].contains(place) {
            return false;
        }
    }
    true
}

/// Whether one of these places has an IP address.
pub(crate) fn has_ip(places: &[SocketAddrV4], place: &SocketAddrV4) -> bool
    ensures { result ≡ list_any (is_same_ip place.now) places.now }
{
    places.iter().any(|other| other.ip() == place.ip())
}

/// Whether no IP address is listed twice.
fn are_ips_distinct(places: &[SocketAddrV4]) -> bool
    ensures { result ≡ are_ips_distinct places.now }
{
    for (index, place) in places.iter().enumerate() {
        if has_ip(&places[index + 1..], place) {
            return false;
        }
    }
    true
}

/// Whether remotes can be told apart. In VXLAN they may send from any UDP port.
fn are_remotes_distinct(tunnel: Tunnel, places: &[SocketAddrV4]) -> bool
    ensures { result ≡ are_remotes_distinct tunnel places.now }
{
    match tunnel {
        Tunnel::Plain | Tunnel::L2tpv3(_) => are_distinct(places),
        Tunnel::Vxlan(_) => are_ips_distinct(places),
    }
}

/// Whether a port with a tunnel, at its own place, can have these remotes: they can be told apart,
/// and none is the port itself.
fn can_be_remotes(tunnel: Tunnel, own: SocketAddrV4, places: &[SocketAddrV4]) -> bool
    ensures { result ≡ can_be_remotes tunnel own places.now }
{
    !places.contains(&own) && are_remotes_distinct(tunnel, places)
}

/// The UDP port of a tunnel if a file gives none.
pub fn usual_udp_port(tunnel: Tunnel) -> Option<u16>
    ensures { result ≡ usual_udp_port tunnel }
{
    match tunnel {
        Tunnel::Plain => None,
        Tunnel::Vxlan(_) => Some(4789),
        Tunnel::L2tpv3(_) => Some(1701),
    }
}

/// The remotes that a value lists for a port with a tunnel, at its own place.
fn listed_remotes(
    alloc: Global,
    tunnel: Tunnel,
    own: SocketAddrV4,
    value: &Value,
) -> Result<Option<Vec<SocketAddrV4>>, OutOfMemory>
    ensures { IfOk result (Reads (AreListedRemotes tunnel own) (view value.now)) }
{
    let Some(ends) = ends_of(alloc, usual_udp_port(tunnel), value)? else {
        return Ok(None);
    };
    if can_be_remotes(tunnel, own, &ends) {
        Ok(Some(ends))
    } else {
        Ok(None)
    }
}

/// Whether a value is the word for a remote whose place the port learns.
pub(crate) fn is_any_word(value: &Value) -> bool
    ensures any { result ≡ true → as_str (view value.now) ≡ Some (codes "any") }
    ensures other { result ≡ false → as_str (view value.now) ≡ Some (codes "any") → ⊥ }
{
    match value.as_str() {
        Some("any") => true,
        _ => false,
    }
}

/// Whether a value lists this word alone.
fn is_any(value: &Value) -> bool
    ensures any { result ≡ true → IsAny (view value.now) }
    ensures other { result ≡ false → IsAny (view value.now) → ⊥ }
{
    let Some(values) = value.as_array() else {
        return false;
    };
    values.len() == 1 && is_any_word(&values[0])
}

/// Whether a port with this tunnel can learn where its remote is. For this the tunnel needs a
/// header that is hard to guess.
pub(crate) fn can_learn(tunnel: Tunnel) -> bool
    ensures { result ≡ can_learn tunnel }
{
    match tunnel {
        Tunnel::Plain | Tunnel::Vxlan(_) => false,
        Tunnel::L2tpv3(session) => matches!(session.cookie, Cookie::Long(_)),
    }
}

/// The remotes that a value names for a port with a tunnel, at its own place.
pub fn remotes_of(
    alloc: Global,
    tunnel: Tunnel,
    own: SocketAddrV4,
    value: &Value,
) -> Result<Option<RemotesConfig>, OutOfMemory>
    ensures { IfOk result (Reads (AreRemotesOf tunnel own) (view value.now)) }
{
    if is_any(value) {
        if can_learn(tunnel) {
            return Ok(Some(RemotesConfig::Learned));
        }
        return Ok(None);
    }
    match listed_remotes(alloc, tunnel, own, value)? {
        Some(ends) => Ok(Some(RemotesConfig::Listed(ends))),
        None => Ok(None),
    }
}

/// The twelve digits of six pairs with colons between them.
fn digits_of(text: &[u8]) -> Option<[u8; 12]>
    ensures { ReadsDigits text.now result }
{
    let [
        a,
        b,
        b':',
        c,
        d,
        b':',
        e,
        f,
        b':',
        g,
        h,
        b':',
        i,
        j,
        b':',
        k,
        l,
    ] = text
    else {
        return None;
    };
    Some([*a, *b, *c, *d, *e, *f, *g, *h, *i, *j, *k, *l])
}

/// Whether one station can have this address: it is no group address, and not zero.
pub(crate) fn is_station(node: Node) -> bool
    ensures { result ≡ is_station node }
{
    node.0[0] % 2 == 0 && node.0 != [0; 6]
}

/// Parses the address of a station.
fn station_written(text: &[u8]) -> Option<Node>
    ensures { ReadsStation text.now result }
{
    let node = Node::from_hex(&digits_of(text)?)?;
    if is_station(node) { Some(node) } else { None }
}

/// The address of a station that a value gives.
pub fn station_of(value: &Value) -> Option<Node>
    ensures { Reads IsStation (view value.now) result }
{
    station_written(value.as_str()?.as_bytes())
}

/// The node of a port whose file gives none, derived from the place where the port is bound.
pub fn station_at(ip: [u8; 4], udp_port: u16) -> Node
    ensures { result ≡ made_station ip udp_port }
{
    let [first, second, third, last] = ip;
    let [high, low] = udp_port.to_be_bytes();
    Node([first / 4 * 4 + 2, second, third, last, high, low])
}
