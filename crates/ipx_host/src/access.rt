//! The senders and destinations that a host accepts.

ghost use Rattle.std.specs.Prelude.{◌≡◌, ◌∷◌, ◌++◌, [], IfOk};
ghost use Rattle.ipx_sockets.specs.AccessLists.{access_by};
ghost use Rattle.ipx_config.specs.SitePorts.{heard_at_port, named};
ghost use Rattle.ipx_host.specs.Access.{guarded_host, known_ips};

use crate::start::StartFault;
use ipx_config::{Accept, HostConfig};
use ipx_sockets::AccessList;
use std::alloc::Global;

/// Returns these IP addresses, followed by that of the router.
fn with_router(
    alloc: Global,
    file: &HostConfig,
    ips: &[[u8; 4]],
) -> Result<Vec<[u8; 4]>, StartFault>
    ensures { IfOk result (λ all. all.items ≡ ips.now ++ file.now.router ∷ []) }
{
    let mut all = Vec::from_slice(alloc, ips)?;
    all.push(file.router)?;
    Ok(all)
}

/// Returns the IP addresses known to a host that dials this one: its peers, its router, and the
/// dialed one.
fn known_ips(
    alloc: Global,
    file: &HostConfig,
    dials: Option<[u8; 4]>,
) -> Result<Vec<[u8; 4]>, StartFault>
    ensures { IfOk result (λ ips. ips.items ≡ known_ips file.now dials) }
{
    let mut ips = with_router(alloc, file, &file.peers)?;
    if let Some(ip) = dials {
        ips.push(ip)?;
    }
    Ok(ips)
}

/// Returns the known IP addresses, or None if the host accepts everybody.
fn heard_ips(
    alloc: Global,
    file: &HostConfig,
    dials: Option<[u8; 4]>,
) -> Result<Option<Vec<[u8; 4]>>, StartFault>
    ensures { IfOk result (λ ips. named ips ≡ heard_at_port file.now.accept (known_ips file.now dials)) }
{
    match file.accept {
        Accept::Any => Ok(None),
        Accept::Peers => Ok(Some(known_ips(alloc, file, dials)?)),
    }
}

/// Returns the access list of a host that dials this IP address.
pub fn access_list_of(
    alloc: Global,
    file: &HostConfig,
    dials: Option<[u8; 4]>,
) -> Result<AccessList, StartFault>
    ensures { IfOk result (λ g. access_by g ≡ guarded_host file.now dials) }
{
    let sends = heard_ips(alloc, file, dials)?;
    let hears = heard_ips(alloc, file, dials)?;
    let routers = with_router(alloc, file, &file.routers)?;
    Ok(AccessList {
        network: file.network,
        sends,
        hears,
        routers: Some(routers),
    })
}
