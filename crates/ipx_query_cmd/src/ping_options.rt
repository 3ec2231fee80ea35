//! The targets of a host that pings, and the senders that it accepts.

ghost use Rattle.std.specs.Prelude.{◌≡◌, IfOk};
ghost use Rattle.ipx_carrier.specs.Mapping.{ip_at};
ghost use Rattle.ipx_sockets.specs.AccessLists.{access_by};
ghost use Rattle.ipx_query_cmd.specs.PingTargets.{guarded_pinger, ips_of_node, ping_carriers, ping_way};

use crate::query_target::asked_ips;
use ipx_carrier::ip_of;
use ipx_config::{HostConfig, is_on_own_network};
use ipx_sockets::AccessList;
use ipx_wire::{Address, Node};
use std::alloc::{AllocError, Global};

/// The id of each request of each run, so that a listener answers all of them from one connection.
/// With a new id for each run, four runs would take all connections that it holds for a host from
/// which it has heard nothing.
pub const PING_ID: u16 = 65_534;

/// The IP address of a node, if it has one.
fn ips_of(alloc: Global, node: Node) -> Result<Vec<[u8; 4]>, AllocError>
    ensures { IfOk result (λ v. v.items ≡ ips_of_node (ip_at node)) }
{
    match ip_of(node) {
        Ok(ip) => Ok(vec![in alloc; ip]?),
        Err(_) => Ok(Vec::new(alloc)),
    }
}

/// The IP addresses to which requests are sent: at most one.
fn way_of(alloc: Global, file: &HostConfig, to: Address) -> Result<Vec<[u8; 4]>, AllocError>
    ensures { IfOk result (λ v. v.items ≡ ping_way file.now to) }
{
    if is_on_own_network(file, to) {
        ips_of(alloc, to.node)
    } else {
        Ok(vec![in alloc; file.router]?)
    }
}

/// The IP addresses that may bring an answer.
fn carriers_of(alloc: Global, file: &HostConfig, to: Address) -> Result<Vec<[u8; 4]>, AllocError>
    ensures { IfOk result (λ v. v.items ≡ ping_carriers file.now to) }
{
    if is_on_own_network(file, to) {
        ips_of(alloc, to.node)
    } else {
        asked_ips(alloc, file)
    }
}

/// The access list of a host that pings. It sends to the first node on the way, and accepts those
/// that may bring an answer.
pub fn access_list_of(
    alloc: Global,
    file: &HostConfig,
    to: Address,
) -> Result<AccessList, AllocError>
    ensures { IfOk result (λ g. access_by g ≡ guarded_pinger file.now to) }
{
    let sends = way_of(alloc, file, to)?;
    let hears = carriers_of(alloc, file, to)?;
    let routers = asked_ips(alloc, file)?;
    Ok(AccessList {
        network: file.network,
        sends: Some(sends),
        hears: Some(hears),
        routers: Some(routers),
    })
}
