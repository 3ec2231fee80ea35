//! The hosts and routers of a new network.

ghost use Rattle.std.specs.Prelude.{◌≡◌, ◌++◌, ◌∷◌, [], All, IfErr, IfOk, None, OnOk, false, unwrap_or};
ghost use Rattle.ipx_router.specs.declared.fault.NewFault.TheVariants as NewFaults;
ghost use Rattle.ipx_net.specs.NetBeginnings.{AreHosts, ArePortsOwed, AreRouters, first_refusal};

use crate::host::Host;
use crate::routers::RouterNow;
use ipx_net_hosts::Hosts;
use ipx_router::{NewFault, Port, Router};
use ipx_wire::OutOfMemory;
use std::alloc::Global;

/// The hosts of a network, in order.
pub fn hosts_of(alloc: Global, hosts: &[Host]) -> Result<Hosts, OutOfMemory>
    ensures are { IfOk result (λ h. AreHosts hosts.now h.stations) }
    ensures ends { IfOk result (λ h. h.ends ≡ []) }
{
    let mut made = Hosts::new(alloc);
    for host in hosts {
        made.add(alloc, host.network, host.node, host.router, host.listen)?;
    }
    Ok(made)
}

/// Adds a router that has asked no neighbour yet.
fn add(made: &mut Vec<RouterNow>, router: Router) -> Result<(), OutOfMemory>
    ensures { OnOk result (made.new.items
        ≡ made.old.items ++ record { router = router; started = false } ∷ []) }
{
    made.push(RouterNow {
        router,
        started: false,
    })?;
    Ok(())
}

/// The routers of a network, in order. It fails with the fault of the first router that is refused,
/// or else if out of memory.
pub fn routers_of(alloc: Global, routers: Vec<Vec<Port>>) -> Result<Vec<RouterNow>, NewFault>
    requires { All ArePortsOwed routers.items }
    ensures are { IfOk result (λ v. AreRouters routers.items v.items) }
    ensures sound { OnOk result (first_refusal routers.items ≡ None) }
    ensures fault { IfErr result
        (λ f. f ≡ unwrap_or (first_refusal routers.items) NewFaults.OutOfMemory) }
{
    let mut made = Vec::new(alloc);
    // This is returned last, since a later router may be refused for its ports.
    let mut out_of_memory = false;
    for ports in routers {
        let router = Router::new(alloc, ports)?;
        if add(&mut made, router).is_err() {
            out_of_memory = true;
        }
    }
    if out_of_memory {
        return Err(NewFault::OutOfMemory);
    }
    Ok(made)
}
