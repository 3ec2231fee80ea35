//! The routers that the host of a file asks, and the senders that it accepts.

ghost use Rattle.std.specs.Prelude.{◌≡◌, ◌∷◌, [], IfOk, map};
ghost use Rattle.ipx_carrier.specs.Mapping.{node_at};
ghost use Rattle.ipx_sockets.specs.AccessLists.{access_by};
ghost use Rattle.ipx_query_cmd.specs.QueryTargets.{asked_ips, querier_address, guarded_querier, new_ips};

use ipx_carrier::node_of;
use ipx_config::HostConfig;
use ipx_sockets::AccessList;
use ipx_wire::{Address, Node};
use std::alloc::{AllocError, AllocFailed, Global};

/// The address that the host of a file asks from.
pub fn querier_address(file: &HostConfig) -> Address
    ensures { result ≡ querier_address file.now }
{
    Address {
        network: file.network,
        node: node_of(file.address),
        socket: file.socket,
    }
}

/// These IP addresses, without those that repeat an earlier one.
fn new_ips(alloc: Global, ips: &[[u8; 4]]) -> Result<Vec<[u8; 4]>, AllocFailed<[u8; 4]>>
    ensures { IfOk result (λ v. v.items ≡ new_ips [] ips.now) }
{
    let mut found = Vec::new(alloc);
    for (place, ip) in ips.iter().enumerate() {
        if !ips[..place].contains(ip) {
            found.push(*ip)?;
        }
    }
    Ok(found)
}

/// The router of a file, and the routers that it names, each once.
pub fn asked_ips(alloc: Global, file: &HostConfig) -> Result<Vec<[u8; 4]>, AllocError>
    ensures { IfOk result (λ v. v.items ≡ asked_ips file.now) }
{
    let mut ips = vec![in alloc; file.router]?;
    ips.extend_from_slice(&file.routers)?;
    Ok(new_ips(alloc, &ips)?)
}

/// Their nodes.
pub fn nodes_of(alloc: Global, ips: &[[u8; 4]]) -> Result<Vec<Node>, AllocError>
    ensures { IfOk result (λ v. v.items ≡ map node_at ips.now) }
{
    let nodes = ips
        .iter()
        .map(|ip| node_of(*ip))
        .collect::<Vec<Node>>(alloc)?;
    Ok(nodes)
}

/// An access list that sends only to these, accepts only these, and takes them as routers.
pub fn access_list_of(
    alloc: Global,
    file: &HostConfig,
    ips: &[[u8; 4]],
) -> Result<AccessList, AllocError>
    ensures { IfOk result (λ g. ips.now ≡ asked_ips file.now → access_by g ≡ guarded_querier file.now) }
{
    let sends = Vec::from_slice(alloc, ips)?;
    let hears = Vec::from_slice(alloc, ips)?;
    let routers = Vec::from_slice(alloc, ips)?;
    Ok(AccessList {
        network: file.network,
        sends: Some(sends),
        hears: Some(hears),
        routers: Some(routers),
    })
}
