//! Starting a router from its file.

ghost use Rattle.std.specs.Prelude.{◌≡◌, ◌⊎◌, All, Err, IfErr, IfOk, OnOk};
ghost use Rattle.ipx_router.specs.NewRouter.{IsOwnNetwork};
ghost use Rattle.ipx_site.specs.RoutingRuns.{StartsBy, StartsByFile};
ghost use Rattle.ipx_config.specs.SitePorts.{router_ports};
ghost use Rattle.ipx_config.specs.StaticLists.{HearsAtPorts};

use crate::routing::{start, tell_route_fault};
use crate::running_router::RunningRouter;
use crate::secret::kept_of;
use ipx_config::{RouterConfig, load_site};
use log::Log;
use std::alloc::Global;
use std::net::Net;
use std::rt::{Clock as SystemClock, Files};

/// Starts the router of a file that was loaded. If loading failed, it returns the exit status of
/// that.
pub(crate) fn start_loaded<'a, R: Net + Log + Files + SystemClock + Eprint>(
    rt: &'a R,
    alloc: Global,
    path: &str,
    loaded: Result<RouterConfig, u8>,
) -> Result<RunningRouter<'a, R>, u8>
    requires own { IfOk loaded (λ s. All IsOwnNetwork (router_ports s.ports.items)) }
    requires there { IfOk loaded HearsAtPorts }
    ensures unread { IfErr loaded (λ status. result ≡ Err status) }
    ensures starts { IfOk loaded (λ site. IfOk result (StartsBy site)) }
    ensures refused { OnOk loaded (IfErr result (λ status. status ≡ 1)) }
{
    match loaded {
        Ok(site) => {
            let kept = kept_of(rt, alloc, path, &site)?;
            match start(rt, alloc, site, kept) {
                Ok(router) => Ok(router),
                Err(fault) => Err(tell_route_fault(rt, path, fault)),
            }
        }
        Err(status) => Err(status),
    }
}

/// Reads the file of a router, binds a socket for each port, and logs a line for each port. Then
/// call [`run_router`](crate::run_router).
///
/// The error is the exit status. 2: the file cannot be read or has a fault; nothing was bound. 1:
/// out of memory, a socket cannot be bound, there is no secret for ipxnet ports, or the system does
/// not tell the time. One line on standard error says which.
pub fn start_router<'a, R: Net + Log + Files + SystemClock + Eprint>(
    rt: &'a R,
    alloc: Global,
    path: &str,
) -> Result<RunningRouter<'a, R>, u8>
    // It has started as a file says that some text describes.
    ensures starts { IfOk result StartsByFile }
    ensures refused { IfErr result (λ status. (status ≡ 1) ⊎ (status ≡ 2)) }
{
    let loaded = load_site(rt, alloc, path);
    start_loaded(rt, alloc, path, loaded)
}
