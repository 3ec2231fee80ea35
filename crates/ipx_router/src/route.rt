//! The route to a network.

ghost use Rattle.std.specs.Prelude.{◌≡◌, ◌≤◌, ℕ, length, None, IfSome, MatchOption};
ghost use Rattle.ipx_tables.specs.Best.{NoneCounts};
ghost use Rattle.ipx_router.specs.Ports.{AreFromPorts, IsPortNumber};
ghost use Rattle.ipx_router.specs.Knowledge.{routes_in};
ghost use Rattle.ipx_router.specs.RouteChoice.{IsHeardRoute, IsRouteOrNone, direct_route};

use crate::networks::direct_port;
use crate::port::Port;
use ipx_tables::{RouteMetric, RouteTable};
use ipx_wire::{Network, Node};

/// A route: the number of its port, the next router, and the metric. There is no next router if the
/// port is on the network itself.
#[derive(Clone, Copy)]
pub struct Route {
    pub port: u8,
    pub neighbour: Option<Node>,
    pub metric: RouteMetric,
}

/// The best offer of a network, as a route.
#[inline(always)]
fn heard_route(routes: &RouteTable, network: Network, now: u64) -> Option<Route>
    ensures port { (count : ℕ) → AreFromPorts count (routes_in routes.now)
        → IfSome result (λ r. IsPortNumber count r.port) }
    ensures route { MatchOption result (NoneCounts (routes_in routes.now) network now)
        (IsHeardRoute (routes_in routes.now) now network) }
{
    match routes.best(&network, now) {
        None => None,
        Some(best) => Some(Route {
            port: best.0.port,
            neighbour: Some(best.0.neighbour),
            metric: best.1,
        }),
    }
}

/// The route to a network: by a port on it, or else by the neighbour with the best offer.
#[inline(always)] // otherwise a route passes through memory for each packet
pub fn route_to(ports: &[Port], routes: &RouteTable, network: Network, now: u64) -> Option<Route>
    requires { length ports.now ≤ 16 }
    ensures port { AreFromPorts (length ports.now) (routes_in routes.now)
        → IfSome result (λ r. IsPortNumber (length ports.now) r.port) }
    ensures route { IsRouteOrNone ports.now (routes_in routes.now) now network result }
{
    match direct_port(ports, network) {
        None => return heard_route(routes, network, now),
        Some(place) => {
            return Some(Route {
                port: place as u8 + 1,
                neighbour: None,
                metric: RouteMetric { ticks: 0, hops: 0 },
            });
        }
    }
}
