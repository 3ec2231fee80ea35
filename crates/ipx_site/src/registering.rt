//! From which IP addresses clients may register at an ipxnet port.

ghost use Rattle.std.specs.Prelude.{◌≡◌, ◌++◌, List, IfOk, OnOk, map};
ghost use Rattle.ipx_ipxnet_ports.specs.ServerAddresses.{listed_prefixes};
ghost use Rattle.ipx_site.specs.Registering.{AddsAddresses, AreOfPeer, AreOfPeers, MayRegister, joined_prefix};
ghost use Rattle.ip_prefixes.specs.declared.prefix.Prefix.{Prefix as IpPrefix};

use ip_prefixes::Prefix;
use ipx_config::{Accept, IpxnetPortConfig, Peer};
use ipx_ipxnet_ports::Allow;
use log::{Log, info, warn};
use std::alloc::{AllocError, Global};
use std::net::{Net, SocketAddr, SocketAddrV4, ToSocketAddrs};

/// Asks the system for the IP addresses of a host. Those of IPv4 follow the prefixes, and each of
/// them is logged; otherwise it is logged that there is none.
fn add_host<R: Net + Log>(
    rt: &R,
    number: usize,
    name: &str,
    prefixes: &mut Vec<Prefix>,
) -> Result<(), AllocError>
    ensures { OnOk result (AddsAddresses prefixes.old.items prefixes.new.items) }
{
    let found = match (name, 0_u16).to_socket_addrs(rt) {
        Ok(found) => found,
        Err(error) => {
            warn!(rt; target: "ipx", "port {number}: {name} is not let in: {error}");
            return Ok(());
        }
    };
    let mut count = 0_u32;
    for place in found {
        if let SocketAddr::V4(place) = place {
            let ip = *place.ip();
            prefixes.push(Prefix::of_address(ip.octets()))?;
            info!(rt; target: "ipx", "port {number}: {name} is {ip}");
            count = count.saturating_add(1);
        }
    }
    if count == 0 {
        warn!(rt; target: "ipx", "port {number}: {name} is not let in: it has no IPv4 address");
    }
    Ok(())
}

/// The prefixes of a peer follow the others.
fn add_peer<R: Net + Log>(
    rt: &R,
    number: usize,
    peer: &Peer,
    prefixes: &mut Vec<Prefix>,
) -> Result<(), AllocError>
    ensures { OnOk result ((own : List IpPrefix) × AreOfPeer peer.now own
        × (prefixes.new.items ≡ prefixes.old.items ++ own)) }
{
    match peer {
        Peer::Prefix(prefix) => {
            prefixes.push(*prefix)?;
            Ok(())
        }
        Peer::Host(name) => add_host(rt, number, name, prefixes),
    }
}

/// The prefixes of peers, in order.
fn prefixes_of<R: Net + Log>(
    rt: &R,
    alloc: Global,
    number: usize,
    peers: &[Peer],
) -> Result<Vec<Prefix>, AllocError>
    ensures { IfOk result (λ v. AreOfPeers peers.now v.items) }
{
    let mut prefixes = Vec::new(alloc);
    for peer in peers {
        add_peer(rt, number, peer, &mut prefixes)?;
    }
    Ok(prefixes)
}

/// The IP addresses of joined routers follow the prefixes.
fn add_routers(routers: &[SocketAddrV4], prefixes: &mut Vec<Prefix>) -> Result<(), AllocError>
    ensures { OnOk result
        (prefixes.new.items ≡ prefixes.old.items ++ map joined_prefix routers.now) }
{
    for router in routers {
        prefixes.push(Prefix::of_address(router.ip().octets()))?;
    }
    Ok(())
}

/// From which IP addresses clients may register at the port with this number. The names of hosts
/// are looked up now.
pub fn registering<R: Net + Log>(
    rt: &R,
    alloc: Global,
    number: usize,
    port: &IpxnetPortConfig,
) -> Result<Allow, AllocError>
    ensures { IfOk result (λ allow. MayRegister port.now (listed_prefixes allow)) }
{
    match port.accept {
        Accept::Any => Ok(Allow::Any),
        Accept::Peers => {
            let mut prefixes = prefixes_of(rt, alloc, number, &port.peers)?;
            add_routers(&port.join, &mut prefixes)?;
            Ok(Allow::List(prefixes))
        }
    }
}
