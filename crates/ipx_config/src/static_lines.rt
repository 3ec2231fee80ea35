//! The lines about static routes and services when a file is checked, and the remarks about them.

ghost use Rattle.std.specs.Prelude.{◌≡◌, IfOk, option_copied, string_bytes};
ghost use Rattle.std.specs.List.{flat_map};
ghost use Rattle.ipx_inspect.specs.ShowLine.{address_text};
ghost use Rattle.ipx_table_dump.specs.TableText.{by_text, network_word};
ghost use Rattle.ipx_config.specs.StaticFields.{numbered_port};
ghost use Rattle.ipx_config.specs.Checked.{is_item_to, is_led_to, is_no_router, is_no_router_at, is_of_port, is_of_route, item_remark, next_hop_ip, no_way_remark, route_remark, service_remark, static_line, static_lines, static_route_line, static_service_line, service_words, shown_text};

use crate::escaped::Escaped;
use crate::site::{PortConfig, RouterConfig};
use crate::start_lines::dotted;
use crate::static_fields::numbered_port;
use crate::statics::{StaticEntry, StaticItem};
use ipx_control::{RipEntry, ServiceEntry};
use ipx_tables::Source;
use ipx_wire::{Address, Network};
use std::alloc::{AllocError, Global};

fn address_to_words(alloc: Global, at: Address) -> Result<String, AllocError>
    ensures { IfOk result (λ t. string_bytes t ≡ address_text at) }
{
    let network = hex::encode(alloc, at.network.0.to_be_bytes())?;
    let node = hex::encode(alloc, at.node.0)?;
    let socket = hex::encode(alloc, at.socket.0.to_be_bytes())?;
    format!(in alloc; "{network} {node} {socket}")
}

/// The port where something is heard, and the neighbour, after a space.
fn source_to_words(alloc: Global, by: Source) -> Result<String, AllocError>
    ensures { IfOk result (λ t. string_bytes t ≡ by_text by) }
{
    let port = by.port;
    let node = hex::encode(alloc, by.neighbour.0)?;
    format!(in alloc; " port {port} next {node}")
}

fn route_to_line(alloc: Global, by: Source, route: &RipEntry) -> Result<String, AllocError>
    ensures { IfOk result (λ t. string_bytes t ≡ static_route_line by route.now) }
{
    let network = hex::encode(alloc, route.network.0.to_be_bytes())?;
    let by = source_to_words(alloc, by)?;
    let hops = route.hops;
    let ticks = route.ticks;
    format!(in alloc; "route {network}{by} hops {hops} ticks {ticks}\n")
}

/// The name of a service: the bytes before its first zero byte.
fn name_to_word(alloc: Global, name: &[u8]) -> Result<String, AllocError>
    ensures { IfOk result (λ t. string_bytes t ≡ shown_text name.now) }
{
    let name = Escaped(name);
    format!(in alloc; "{name}")
}

/// The type of a service and its name.
fn service_to_words(alloc: Global, service: &ServiceEntry) -> Result<String, AllocError>
    ensures { IfOk result (λ t. string_bytes t ≡ service_words service.now) }
{
    let kind = hex::encode(alloc, service.kind.to_be_bytes())?;
    let name = name_to_word(alloc, &service.name)?;
    format!(in alloc; "{kind} {name}")
}

fn service_to_line(alloc: Global, by: Source, service: &ServiceEntry) -> Result<String, AllocError>
    ensures { IfOk result (λ t. string_bytes t ≡ static_service_line by service.now) }
{
    let words = service_to_words(alloc, service)?;
    let at = address_to_words(alloc, service.at)?;
    let by = source_to_words(alloc, by)?;
    let hops = service.hops;
    format!(in alloc; "service {words} at {at}{by} hops {hops}\n")
}

/// The line of an entry.
fn entry_to_line(alloc: Global, entry: &StaticEntry) -> Result<String, AllocError>
    ensures { IfOk result (λ t. string_bytes t ≡ static_line entry.now) }
{
    match &entry.word {
        StaticItem::Route(route) => route_to_line(alloc, entry.by, route),
        StaticItem::Service(service) => service_to_line(alloc, entry.by, service),
    }
}

/// Whether a port names its routers, and an IP address is none of them.
fn is_no_router(port: &PortConfig, ip: [u8; 4]) -> bool
    ensures { result ≡ is_no_router port.now ip }
{
    match port {
        PortConfig::Rfc1234(port) => match &port.routers {
            Some(routers) => !routers.contains(&ip),
            None => false,
        },
        PortConfig::Ethernet(_) | PortConfig::Ipxnet(_) => false,
    }
}

/// The same of the port with this number.
fn is_no_router_at(ports: &[PortConfig], number: u8, ip: [u8; 4]) -> bool
    ensures { result ≡ is_no_router_at (numbered_port ports.now number) ip }
{
    match numbered_port(ports, number) {
        Some(port) => is_no_router(port, ip),
        None => false,
    }
}

/// The IP address of a next hop on an RFC 1234 port.
fn next_hop_ip(by: Source) -> [u8; 4]
    ensures { result ≡ next_hop_ip by }
{
    let [_, _, a, b, c, d] = by.neighbour.0;
    [a, b, c, d]
}

/// The remark about a static route whose next hop is not in `routers` of its port; empty for any
/// other.
fn route_to_remark(
    alloc: Global,
    ports: &[PortConfig],
    by: Source,
    route: &RipEntry,
) -> Result<String, AllocError>
    ensures { IfOk result (λ t. string_bytes t ≡ route_remark ports.now by route.now) }
{
    let ip = next_hop_ip(by);
    let number = by.port;
    if !is_no_router_at(ports, number, ip) {
        return Ok(String::new(alloc));
    }
    let network = hex::encode(alloc, route.network.0.to_be_bytes())?;
    let ip = dotted(alloc, ip)?;
    format!(in alloc;
        "route {network}: next_hop {ip} is not in routers of port {number}: \
            what it forwards is dropped\n"
    )
}

/// Whether an item is a static route to a network.
fn is_item_to(item: &StaticItem, network: Network) -> bool
    ensures { result ≡ is_item_to network item.now }
{
    match item {
        StaticItem::Route(route) => route.network == network,
        StaticItem::Service(_) => false,
    }
}

/// Whether a network is that of some port.
fn is_of_port(ports: &[PortConfig], network: Network) -> bool
    ensures { result ≡ is_of_port ports.now network }
{
    ports.iter().any(|port| port.network() == network)
}

/// Whether a network is that of some static route.
fn is_of_route(entries: &[StaticEntry], network: Network) -> bool
    ensures { result ≡ is_of_route entries.now network }
{
    entries.iter().any(|entry| is_item_to(&entry.word, network))
}

/// Whether a port of the file or a static route in it leads to a network.
fn is_led_to(site: &RouterConfig, network: Network) -> bool
    ensures { result ≡ is_led_to site.now network }
{
    is_of_port(&site.ports, network) || is_of_route(&site.statics, network)
}

/// The number of a network, in 8 hex digits.
fn network_to_word(alloc: Global, network: Network) -> Result<String, AllocError>
    ensures { IfOk result (λ t. string_bytes t ≡ network_word network) }
{
    hex::encode(alloc, network.0.to_be_bytes())
}

/// The remark about a static service to whose network the file has no way.
fn no_way_to_remark(alloc: Global, service: &ServiceEntry) -> Result<String, AllocError>
    ensures { IfOk result (λ t. string_bytes t ≡ no_way_remark service.now) }
{
    let words = service_to_words(alloc, service)?;
    let network = network_to_word(alloc, service.at.network)?;
    format!(in alloc;
        "service {words}: no port and no static route leads to network {network}: \
            it must be learned by RIP\n"
    )
}

/// The remark about a static service, by whether the file has a way to its network; empty if it has.
fn service_to_remark(
    alloc: Global,
    has_way: bool,
    service: &ServiceEntry,
) -> Result<String, AllocError>
    ensures { IfOk result (λ t. string_bytes t ≡ service_remark has_way service.now) }
{
    if has_way {
        Ok(String::new(alloc))
    } else {
        no_way_to_remark(alloc, service)
    }
}

/// The remark about an entry; empty if there is none.
fn entry_to_remark(
    alloc: Global,
    site: &RouterConfig,
    entry: &StaticEntry,
) -> Result<String, AllocError>
    ensures { IfOk result (λ t. string_bytes t
        ≡ item_remark site.now entry.now.by entry.now.word) }
{
    match &entry.word {
        StaticItem::Route(route) => route_to_remark(alloc, &site.ports, entry.by, route),
        StaticItem::Service(service) => {
            let has_way = is_led_to(site, service.at.network);
            service_to_remark(alloc, has_way, service)
        }
    }
}

/// The line of an entry, and the remark about it.
fn entry_to_lines(
    alloc: Global,
    site: &RouterConfig,
    entry: &StaticEntry,
) -> Result<String, AllocError>
    ensures { IfOk result (λ t. string_bytes t ≡ static_lines site.now entry.now) }
{
    let line = entry_to_line(alloc, entry)?;
    let remark = entry_to_remark(alloc, site, entry)?;
    format!(in alloc; "{line}{remark}")
}

/// The lines of static entries of a file, in order, each with the remark about it.
pub fn entries_to_lines(
    alloc: Global,
    site: &RouterConfig,
    entries: &[StaticEntry],
) -> Result<String, AllocError>
    ensures { IfOk result (λ t. string_bytes t ≡ flat_map (static_lines site.now) entries.now) }
{
    let mut lines = String::new(alloc);
    for entry in entries {
        let of_entry = entry_to_lines(alloc, site, entry)?;
        lines.push_str(&of_entry)?;
    }
    Ok(lines)
}
