//! The IP addresses of a script's layout.

ghost use Rattle.std.specs.Prelude.{◌≡◌, ◌++◌, ◌∷◌, [], IfErr, IfOk, None, OnOk, Some, map};
ghost use Rattle.ipx_carrier.specs.Mapping.{ip_at};
ghost use Rattle.ipx_sim_udp.specs.Mapped.{ArePeersAt, are_ports_mapped, beside, has_ip, is_beside, is_host_mapped};

use crate::stop::UdpScriptFault;
use ipx_carrier::ip_of;
use ipx_net::{Host, Place};
use ipx_router::Port;
use ipx_sim::{Layout, Names, ScriptTarget};
use ipx_wire::{Network, Node};
use std::alloc::Global;

/// The IP address of a node. If a node has none, its line is bad.
pub fn address_of(node: Node) -> Result<[u8; 4], UdpScriptFault>
    ensures found { IfOk result (λ ip. ip_at node ≡ Some ip) }
    ensures fault { IfErr result (λ stop. (stop ≡ UdpScriptFault.Bad) × (ip_at node ≡ None)) }
{
    match ip_of(node) {
        Ok(ip) => Ok(ip),
        Err(_) => Err(UdpScriptFault::Bad),
    }
}

/// Whether a node has an IP address.
fn has_ip(node: Node) -> bool
    ensures { result ≡ has_ip node }
{
    match ip_of(node) {
        Ok(_) => true,
        Err(_) => false,
    }
}

fn is_host_mapped(host: &Host) -> bool
    ensures { result ≡ is_host_mapped host.now }
{
    has_ip(host.node) && has_ip(host.router)
}

fn are_ports_mapped(ports: &[Port]) -> bool
    ensures { result ≡ are_ports_mapped ports.now }
{
    ports.iter().all(|port| has_ip(port.node))
}

/// Whether each node of the layout has an IP address, and so has the router that each host names.
pub fn is_mapped(layout: &Layout) -> bool {
    let hosts = layout.hosts().iter().all(is_host_mapped);
    let routers = layout.routers().iter().all(|ports| are_ports_mapped(ports));
    hosts && routers
}

/// Whether a spot is another place on this network.
fn is_beside(spot: &ScriptTarget, place: Place, network: Network) -> bool
    ensures { result ≡ is_beside place network spot.now }
{
    spot.network == network && spot.place != place
}

/// Adds the IP address of a spot after these, if it is another place on the network.
fn add_peer(
    peers: &mut Vec<[u8; 4]>,
    spot: &ScriptTarget,
    place: Place,
    network: Network,
) -> Result<(), UdpScriptFault>
    ensures { OnOk result (map Some peers.new.items
        ≡ map Some peers.old.items ++ beside place network (spot.now ∷ [])) }
{
    if is_beside(spot, place, network) {
        let ip = address_of(spot.node)?;
        peers.push(ip)?;
    }
    Ok(())
}

/// The IP addresses of the other nodes on the network of a place, in the order of the layout.
pub fn peers_of(
    alloc: Global,
    map: &Names,
    place: Place,
    network: Network,
) -> Result<Vec<[u8; 4]>, UdpScriptFault>
    ensures { IfOk result (λ peers. ArePeersAt map.now.spots.items place network peers.items) }
{
    let mut peers = Vec::new(alloc);
    for spot in &map.spots {
        add_peer(&mut peers, spot, place, network)?;
    }
    Ok(peers)
}
