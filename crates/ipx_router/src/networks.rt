//! The networks of a router's own ports.

ghost use Rattle.std.specs.Prelude.{◌≡◌, ◌==◌, [], Some, None};
ghost use Rattle.std.specs.List.{list_any};
ghost use Rattle.ipx_router.specs.NewRouter.{first_twin};
ghost use Rattle.ipx_router.specs.RouteChoice.{direct_route};

use crate::port::Port;
use ipx_wire::Network;

/// Whether a port is on the network.
pub fn has_network(ports: &[Port], network: Network) -> bool
    ensures { result ≡ list_any (λ p. p.network.0 == network.0) ports.now }
{
    ports.iter().any(|port| port.network == network)
}

/// The network of the first port whose network an earlier port has.
pub fn duplicate_network(ports: &[Port]) -> Option<Network>
    ensures { result ≡ first_twin [] ports.now }
{
    for (i, port) in ports.iter().enumerate() {
        if has_network(&ports[..i], port.network) {
            return Some(port.network);
        }
    }
    None
}

/// The index of the port that is on this network.
pub fn direct_port(ports: &[Port], network: Network) -> Option<usize>
    ensures { result ≡ direct_route ports.now network }
{
    ports.iter().position(|port| port.network == network)
}
