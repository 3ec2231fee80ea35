//! The names of a network's hosts and routers, and its places.

ghost use Rattle.std.specs.Prelude.{◌≡◌, ◌==◌, ◌<◌, [], IfSome, length, map, position, string_bytes};
ghost use Rattle.std.specs.List.{list_any};
ghost use Rattle.std.specs.Str.{bytes_eq};
ghost use Rattle.ipx_sim.specs.ScriptFields.{number_in, within};
ghost use Rattle.ipx_sim.specs.ScriptPlaces.{host_in, map_view, member_in, place_among, place_in, port_in, router_in, same_place};

use crate::fields::number_of;
use ipx_net::{Member, Place};
use ipx_wire::{Network, Node};
use std::alloc::Global;

/// A place, and its network and node.
#[derive(Clone, Copy)]
pub struct ScriptTarget {
    pub place: Place,
    pub network: Network,
    pub node: Node,
}

/// Hosts and routers by their names, and all members and places in the order of the layout.
#[derive(Drop)]
pub struct Names {
    pub hosts: Vec<String>,
    pub routers: Vec<String>,
    pub members: Vec<Member>,
    pub spots: Vec<ScriptTarget>,
}

/// Whether a name is this one.
fn is_named(known: &String, name: &[u8]) -> bool
    ensures { result ≡ bytes_eq (string_bytes known.now) name.now }
{
    known.as_bytes() == name
}

/// The position of a name among others.
fn place_among(names: &[String], name: &[u8]) -> Option<usize>
    ensures { result ≡ place_among (map string_bytes names.now) name.now }
{
    for (number, known) in names.iter().enumerate() {
        if is_named(known, name) {
            return Some(number);
        }
    }
    None
}

/// The number of a port: 0 to 255.
fn port_number_of(field: &[u8]) -> Option<u8>
    ensures { result ≡ within 0 255 (number_in field.now) }
{
    u8::try_from(number_of(field)?).ok()
}

/// Whether a place is one of those that exist.
fn is_among(spots: &[ScriptTarget], place: Place) -> bool
    ensures { result ≡ list_any (λ s. same_place s.place place) spots.now }
{
    spots.iter().any(|spot| spot.place == place)
}

/// The position of the first dot.
fn dot_of(field: &[u8]) -> Option<usize>
    ensures value { result ≡ position (λ b. b == 46) field.now }
    ensures bound { IfSome result (λ dot. dot < length field.now) }
{
    field.iter().position(|byte| *byte == b'.')
}

impl Names {
    /// A map of nothing.
    pub fn new(alloc: Global) -> Names
        ensures { map_view result
            ≡ record { hosts = []; routers = []; members = []; spots = [] } }
    {
        Names {
            hosts: Vec::new(alloc),
            routers: Vec::new(alloc),
            members: Vec::new(alloc),
            spots: Vec::new(alloc),
        }
    }

    /// The number of a host.
    pub fn host(&self, name: &[u8]) -> Option<usize>
        ensures { result ≡ host_in (map_view self.now) name.now }
    {
        place_among(&self.hosts, name)
    }

    /// The number of a router.
    pub fn router(&self, name: &[u8]) -> Option<usize>
        ensures { result ≡ router_in (map_view self.now) name.now }
    {
        place_among(&self.routers, name)
    }

    /// A host or a router.
    pub fn member(&self, name: &[u8]) -> Option<Member>
        ensures { result ≡ member_in (map_view self.now) name.now }
    {
        match self.host(name) {
            Some(host) => Some(Member::Host(host)),
            None => self.router(name).map(Member::Router),
        }
    }

    /// A port of a router, if the router has it.
    fn port(&self, router: &[u8], port: &[u8]) -> Option<Place>
        ensures { result ≡ port_in (map_view self.now) router.now port.now }
    {
        let router = self.router(router)?;
        let port = port_number_of(port)?;
        let place = Place::Port(router, port);
        if is_among(&self.spots, place) {
            return Some(place);
        }
        None
    }

    /// A host, or `ROUTER.PORT`.
    pub fn place(&self, field: &[u8]) -> Option<Place>
        ensures { result ≡ place_in (map_view self.now) field.now }
    {
        match dot_of(field) {
            None => self.host(field).map(Place::Host),
            Some(dot) => self.port(&field[..dot], &field[dot + 1..]),
        }
    }
}
