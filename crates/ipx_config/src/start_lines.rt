//! What a router logs of a port when it starts.

ghost use Rattle.std.specs.Prelude.{◌≡◌, IfOk, map, string_bytes};
ghost use Rattle.std.specs.List.{flat_map};
ghost use Rattle.ipx_config.specs.Checked.{clients_text, dealings_text, directed_text, dotted_text, ethernet_fields_text, ipxnet_text, join_text, switch_text, others_text, place_text, port_text, port_texts, reached_text, remotes_text, rfc1234_text, routers_text, ethernet_end_text, ethernet_text};

use crate::ethernet_values::word_of;
use crate::ipxnet_port::IpxnetPortConfig;
use crate::site::{
    Accept, Directed, EthernetPortConfig, PortConfig, RemotesConfig, Rfc1234PortConfig,
};
use crate::tunnel_lines::tunnel_to_text;
use ipx_carrier::node_of;
use ipx_wire::{Network, Node};
use std::alloc::{AllocError, Global};
use std::net::SocketAddrV4;

/// An IP address in dotted-decimal form.
pub fn dotted(alloc: Global, ip: [u8; 4]) -> Result<String, AllocError>
    ensures { IfOk result (λ t. string_bytes t ≡ dotted_text ip) }
{
    let [a, b, c, d] = ip;
    format!(in alloc; "{a}.{b}.{c}.{d}")
}

fn place_to_text(alloc: Global, network: Network, node: Node) -> Result<String, AllocError>
    ensures { IfOk result (λ t. string_bytes t ≡ place_text network node) }
{
    let network = hex::encode(alloc, network.0.to_be_bytes())?;
    let node = hex::encode(alloc, node.0)?;
    format!(in alloc; "network {network} node {node}")
}

/// An IP address, a colon and a UDP port.
pub fn reached_to_text(alloc: Global, ip: [u8; 4], udp_port: u16) -> Result<String, AllocError>
    ensures { IfOk result (λ t. string_bytes t ≡ reached_text ip udp_port) }
{
    let ip = dotted(alloc, ip)?;
    format!(in alloc; "{ip}:{udp_port}")
}

/// The words that say whether a port accepts others besides its peers.
pub fn others(accept: Accept) -> &'static str
    ensures { result.now ≡ others_text accept }
{
    match accept {
        Accept::Any => " accept any",
        Accept::Peers => "",
    }
}

/// The words that say which directed broadcasts leave by a port; empty if few do.
fn directed(directed: Directed) -> &'static str
    ensures { result.now ≡ directed_text directed }
{
    match directed {
        Directed::Never => " directed none",
        Directed::Few => "",
        Directed::Always => " directed all",
    }
}

/// The words that count the routers among its peers; empty if the file names none.
fn routers_to_text(alloc: Global, port: &Rfc1234PortConfig) -> Result<String, AllocError>
    ensures { IfOk result (λ t. string_bytes t ≡ routers_text port.now.routers) }
{
    match &port.routers {
        Some(routers) => {
            let count = routers.len();
            format!(in alloc; " routers {count}")
        }
        None => Ok(String::new(alloc)),
    }
}

fn dealings_to_text(alloc: Global, port: &Rfc1234PortConfig) -> Result<String, AllocError>
    ensures { IfOk result (λ t. string_bytes t ≡ dealings_text port.now) }
{
    let cost = port.cost;
    let peers = port.peers.len();
    let routers = routers_to_text(alloc, port)?;
    let others = others(port.accept);
    let directed = directed(port.directed);
    format!(in alloc; "cost {cost} peers {peers}{routers}{others}{directed}")
}

/// An RFC 1234 port with its number: `port 1 network .. node .. udp .. cost .. peers ..`.
fn rfc1234_to_text(
    alloc: Global,
    number: usize,
    port: &Rfc1234PortConfig,
) -> Result<String, AllocError>
    ensures { IfOk result (λ t. string_bytes t ≡ rfc1234_text number port.now) }
{
    let place = place_to_text(alloc, port.network, node_of(port.address))?;
    let reached = reached_to_text(alloc, port.address, port.udp_port)?;
    let dealings = dealings_to_text(alloc, port)?;
    format!(in alloc; "port {number} {place} udp {reached} {dealings}")
}

/// The place of a remote, after a space.
pub fn end_to_text(alloc: Global, end: SocketAddrV4) -> Result<String, AllocError>
    ensures { IfOk result (λ t. string_bytes t ≡ ethernet_end_text end) }
{
    let reached = reached_to_text(alloc, end.ip().octets(), end.port())?;
    format!(in alloc; " {reached}")
}

/// The places of the remotes of an Ethernet port.
fn ends_to_text(alloc: Global, ends: &[SocketAddrV4]) -> Result<String, AllocError>
    ensures { IfOk result (λ t. string_bytes t ≡ flat_map ethernet_end_text ends.now) }
{
    let mut text = String::new(alloc);
    for end in ends {
        let place = end_to_text(alloc, *end)?;
        text.push_str(&place)?;
    }
    Ok(text)
}

/// The remotes of an Ethernet port, after a space.
fn remotes_to_text(alloc: Global, remotes: &RemotesConfig) -> Result<String, AllocError>
    ensures { IfOk result (λ t. string_bytes t ≡ remotes_text remotes.now) }
{
    match remotes {
        RemotesConfig::Listed(ends) => ends_to_text(alloc, ends),
        RemotesConfig::Learned => String::from_str(alloc, " any (learned by session and cookie)"),
    }
}

/// The word that says that a port does not switch frames between its remotes.
fn switch_text(switched: bool) -> &'static str
    ensures { result.now ≡ switch_text switched }
{
    if switched { "" } else { " switch false" }
}

fn ethernet_fields_to_text(alloc: Global, port: &EthernetPortConfig) -> Result<String, AllocError>
    ensures { IfOk result (λ t. string_bytes t ≡ ethernet_fields_text port.now) }
{
    let cost = port.cost;
    let remotes = remotes_to_text(alloc, &port.remotes)?;
    let switch = switch_text(port.switched);
    let directed = directed(port.directed);
    format!(in alloc; "cost {cost} remotes{remotes}{switch}{directed}")
}

/// An Ethernet port with its number: `port 2 network .. node .. ethernet .. udp .. cost .. remotes ..`.
fn ethernet_to_text(
    alloc: Global,
    number: usize,
    port: &EthernetPortConfig,
) -> Result<String, AllocError>
    ensures { IfOk result (λ t. string_bytes t ≡ ethernet_text number port.now) }
{
    let place = place_to_text(alloc, port.network, port.node)?;
    let word = word_of(port.encapsulation);
    let tunnel = tunnel_to_text(alloc, &port.tunnel)?;
    let reached = reached_to_text(alloc, port.address, port.udp_port)?;
    let fields = ethernet_fields_to_text(alloc, port)?;
    format!(in alloc; "port {number} {place} ethernet {word}{tunnel} udp {reached} {fields}")
}

/// The places of joined routers, if there are any.
fn join_to_text(alloc: Global, routers: &[SocketAddrV4]) -> Result<String, AllocError>
    ensures { IfOk result (λ t. string_bytes t ≡ join_text routers.now) }
{
    if routers.is_empty() {
        return Ok(String::new(alloc));
    }
    let places = ends_to_text(alloc, routers)?;
    format!(in alloc; " joined{places}")
}

fn clients_to_text(alloc: Global, port: &IpxnetPortConfig) -> Result<String, AllocError>
    ensures { IfOk result (λ t. string_bytes t ≡ clients_text port.now) }
{
    let cost = port.cost;
    let clients = port.clients;
    let named = port.peers.len();
    let others = others(port.accept);
    let joined = join_to_text(alloc, &port.join)?;
    let directed = directed(port.directed);
    format!(in alloc; "cost {cost} clients {clients} peers {named}{others}{joined}{directed}")
}

/// An ipxnet port with its number: `port 3 network .. node .. ipxnet udp .. cost .. clients ..`.
fn ipxnet_to_text(
    alloc: Global,
    number: usize,
    port: &IpxnetPortConfig,
) -> Result<String, AllocError>
    ensures { IfOk result (λ t. string_bytes t ≡ ipxnet_text number port.now) }
{
    let place = place_to_text(alloc, port.network, port.node)?;
    let reached = reached_to_text(alloc, port.address, port.udp_port)?;
    let clients = clients_to_text(alloc, port)?;
    format!(in alloc; "port {number} {place} ipxnet udp {reached} {clients}")
}

/// A port with its number, by its kind.
pub fn port_to_text(alloc: Global, number: usize, port: &PortConfig) -> Result<String, AllocError>
    ensures { IfOk result (λ t. string_bytes t ≡ port_text number port.now) }
{
    match port {
        PortConfig::Rfc1234(port) => rfc1234_to_text(alloc, number, port),
        PortConfig::Ethernet(port) => ethernet_to_text(alloc, number, port),
        PortConfig::Ipxnet(port) => ipxnet_to_text(alloc, number, port),
    }
}

/// What a router logs of its ports when it starts, in their order. Numbers start at 1.
pub fn ports_to_texts(alloc: Global, ports: &[PortConfig]) -> Result<Vec<String>, AllocError>
    ensures { IfOk result (λ texts. map string_bytes texts.items ≡ port_texts 1 ports.now) }
{
    let mut texts = Vec::new(alloc);
    for (place, port) in ports.iter().enumerate() {
        let text = port_to_text(alloc, place + 1, port)?;
        texts.push(text)?;
    }
    Ok(texts)
}
