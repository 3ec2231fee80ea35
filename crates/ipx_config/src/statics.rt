//! Static routes and services, as a router's file gives them.

ghost use Rattle.std.specs.Prelude.{◌≡◌, ◌≤◌};
ghost use Rattle.ipx_config.specs.StaticLists.{entry_key, first_table, is_one_source, is_same_word, is_repeat_of, route_by, route_of_item, service_by, service_of_item};

use crate::key::Key;
use ipx_control::{RipEntry, ServiceEntry};
use ipx_tables::Source;

/// The kinds of static tables.
#[derive(Clone, Copy)]
pub enum StaticKind {
    Route,
    Service,
}

/// What a silent neighbour is to advertise.
#[derive(Clone, Copy, PartialEq, Eq)]
pub enum StaticItem {
    /// A network reached through it.
    Route(RipEntry),
    /// A service on it, or reached through it.
    Service(ServiceEntry),
}

/// A static route or service.
#[derive(Clone, Copy, PartialEq, Eq)]
pub struct StaticEntry {
    /// The number of the port where it is heard, starting at 1, and the next hop.
    pub by: Source,
    pub word: StaticItem,
}

impl StaticKind {
    /// The key of its tables.
    pub(crate) fn key(self) -> Key
        ensures { result ≡ entry_key self }
    {
        match self {
            StaticKind::Route => Key::Route,
            StaticKind::Service => Key::Service,
        }
    }

    /// The number of its first table, for the line of a fault: there are at most 16 ports, and 256
    /// routes.
    pub(crate) fn first_table(self) -> usize
        ensures number { result ≡ first_table self }
        ensures small { result ≤ 273 }
    {
        match self {
            StaticKind::Route => 17,
            StaticKind::Service => 273,
        }
    }
}

/// Whether two sources are the same neighbour at the same port.
pub fn is_one_source(a: Source, b: Source) -> bool
    ensures { result ≡ is_one_source a b }
{
    a.port == b.port && a.neighbour == b.neighbour
}

/// Whether two items give the same network, or the same service by type and name.
fn is_same_word(a: StaticItem, b: StaticItem) -> bool
    ensures { result ≡ is_same_word a b }
{
    match (a, b) {
        (StaticItem::Route(a), StaticItem::Route(b)) => a.network == b.network,
        (StaticItem::Service(a), StaticItem::Service(b)) => a.kind == b.kind && a.name == b.name,
        (StaticItem::Route(_), StaticItem::Service(_)) => false,
        (StaticItem::Service(_), StaticItem::Route(_)) => false,
    }
}

fn route_of_item(word: StaticItem) -> Option<RipEntry>
    ensures { result ≡ route_of_item word }
{
    match word {
        StaticItem::Route(route) => Some(route),
        StaticItem::Service(_) => None,
    }
}

fn service_of_item(word: StaticItem) -> Option<ServiceEntry>
    ensures { result ≡ service_of_item word }
{
    match word {
        StaticItem::Route(_) => None,
        StaticItem::Service(service) => Some(service),
    }
}

impl StaticEntry {
    /// Whether another entry repeats this one: the same neighbour, and the same network or service.
    pub(crate) fn is_repeat_of(&self, other: &StaticEntry) -> bool
        ensures { result ≡ is_repeat_of self.now other.now }
    {
        is_one_source(self.by, other.by) && is_same_word(self.word, other.word)
    }

    /// The route that this neighbour is to advertise, if the entry is one.
    pub fn route_by(&self, by: Source) -> Option<RipEntry>
        ensures { result ≡ route_by by self.now }
    {
        if is_one_source(self.by, by) {
            route_of_item(self.word)
        } else {
            None
        }
    }

    /// The service that this neighbour is to advertise, if the entry is one.
    pub fn service_by(&self, by: Source) -> Option<ServiceEntry>
        ensures { result ≡ service_by by self.now }
    {
        if is_one_source(self.by, by) {
            service_of_item(self.word)
        } else {
            None
        }
    }
}
