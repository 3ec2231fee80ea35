//! The best offers of a router, read back from the text of its tables.

ghost use Rattle.std.specs.Prelude.{◌≡◌, ℕ, IfOk, List, map};

use crate::fault::FarewellFault;
use crate::names::name_in;
use ipx_table_dump::{NetworkWords, ServiceWords, networks_of_text, services_of_text};
use ipx_tables::{RouteMetric, ServiceKey, ServiceMetric, Source};
use ipx_wire::{Address, Network, Node, Socket};
use std::alloc::Global;
use std::str;

/// A number in decimal digits.
fn number_in(word: &[u8]) -> Option<u16> {
    str::from_utf8(word).ok()?.parse::<u16>().ok()
}

/// The neighbour whose offer it is.
fn source_in(port: &[u8], next: &[u8]) -> Option<Source> {
    let port = u8::try_from(number_in(port)?).ok()?;
    let neighbour = Node::from_hex(next)?;
    Some(Source { port, neighbour })
}

/// The best offer of a network that words give.
fn route_in(words: &NetworkWords<'_>) -> Option<(Network, Source, RouteMetric)> {
    let network = Network::from_hex(words.network)?;
    let source = source_in(words.port, words.next)?;
    let metric = RouteMetric {
        ticks: number_in(words.ticks)?,
        hops: number_in(words.hops)?,
    };
    Some((network, source, metric))
}

/// The address of a service that words give.
fn address_in(words: &ServiceWords<'_>) -> Option<Address> {
    Some(Address {
        network: Network::from_hex(words.network)?,
        node: Node::from_hex(words.node)?,
        socket: Socket::from_hex(words.socket)?,
    })
}

/// The best offer of a service that words give.
fn service_in(words: &ServiceWords<'_>) -> Option<(ServiceKey, Source, ServiceMetric)> {
    let key = ServiceKey {
        kind: Socket::from_hex(words.kind)?.0,
        name: name_in(words.name)?,
    };
    let source = source_in(words.port, words.next)?;
    let metric = ServiceMetric {
        hops: number_in(words.hops)?,
        at: address_in(words)?,
    };
    Some((key, source, metric))
}

/// The best offers of networks that a text of tables gives, in its order.
pub fn routes_of_text(
    alloc: Global,
    text: &[u8],
) -> Result<Vec<(Network, Source, RouteMetric)>, FarewellFault> {
    let all = networks_of_text(alloc, text)?;
    let mut routes = Vec::new(alloc);
    for words in &all {
        match route_in(words) {
            Some(route) => routes.push(route)?,
            None => return Err(FarewellFault::Malformed),
        }
    }
    Ok(routes)
}

/// The best offers of services that a text of tables gives, in its order.
pub fn offers_of_text(
    alloc: Global,
    text: &[u8],
) -> Result<Vec<(ServiceKey, Source, ServiceMetric)>, FarewellFault> {
    let all = services_of_text(alloc, text)?;
    let mut services = Vec::new(alloc);
    for words in &all {
        match service_in(words) {
            Some(service) => services.push(service)?,
            None => return Err(FarewellFault::Malformed),
        }
    }
    Ok(services)
}
