//! Routers with three and with sixteen ports, and datagrams that are handed to them.

ghost use Rattle.std.specs.Prelude.{◌≡◌, ◌≤◌, length, IfOk};
ghost use Rattle.ipx_router.specs.NewRouter.{IsOwnNetwork};

use ipx_router::{Outcome, Port, Router};
use ipx_wire::{Network, Node, OutOfMemory};
use std::alloc::Global;

/// How many bytes precede a datagram in a record. The first is the port where it is received.
pub const LEAD: usize = 16;

/// The time at which the first datagrams arrive. All advertisements of `telling` are at earlier
/// times, so that what was learned does not expire.
pub const MOMENT: u64 = 1 << 60;

/// The port with this number, which is also the end of its node: port 1 is on network 11
/// (hexadecimal), port 2 on 22, and so on.
fn port_of(number: u8) -> Port
    requires { 1 ≤ number }
    ensures { IsOwnNetwork result }
{
    Port {
        network: Network(0x11 * u32::from(number)),
        node: Node([0, 0, 0x7f, 0, 0, number]),
        cost: 1,
    }
}

/// A router with this many ports, 1 to 16.
fn router_of(alloc: Global, count: u8) -> Result<Router, OutOfMemory>
    ensures { IfOk result (λ r. length r.ports ≡ count) }
{
    let mut ports = Vec::new(alloc);
    for place in 0..count {
        ports.push(port_of(place + 1))?;
    }
    match Router::new(alloc, ports) {
        Ok(router) => Ok(router),
        Err(_) => Err(OutOfMemory),
    }
}

/// A router with ports on networks 11, 22 and 33 (hexadecimal).
pub fn router_of_three(alloc: Global) -> Result<Router, OutOfMemory>
    ensures { IfOk result (λ r. length r.ports ≡ 3) }
{
    router_of(alloc, 3)
}

/// A router with these three ports and 13 more, the last on network 110 (hexadecimal).
pub fn router_of_sixteen(alloc: Global) -> Result<Router, OutOfMemory>
    ensures { IfOk result (λ r. length r.ports ≡ 16) }
{
    router_of(alloc, 16)
}

/// Hands the datagram of a record to the router at a given time. A record for none of the first
/// three ports is not a datagram.
pub fn feed(
    alloc: Global,
    router: &mut Router,
    record: &[u8],
    now: u64,
) -> Result<Option<Outcome>, OutOfMemory>
    requires { 3 ≤ length router.old.ports }
    ensures { length router.new.ports ≡ length router.old.ports }
{
    if record.len() < LEAD {
        return Ok(None);
    }
    let port = record[0];
    if port == 0 || port > 3 {
        return Ok(None);
    }
    let outcome = router.receive(alloc, port, &record[LEAD..], now)?;
    Ok(Some(outcome))
}
