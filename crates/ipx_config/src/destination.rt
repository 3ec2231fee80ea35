//! The addresses to which the host of a file sends.

ghost use Rattle.std.specs.Prelude.{◌≡◌};
ghost use Rattle.ipx_config.specs.Destinations.{dialed_ip, peer_address_of, is_nowhere, is_of_no_machine, is_of_nobody, is_on_own_network};
ghost use Rattle.ipx_carrier.specs.Mapping.{ip_at};

use crate::host::HostConfig;
use ipx_carrier::ip_of;
use ipx_wire::{Address, Network, Node};

/// Returns the address that the host of a file sends to. Network 0 is replaced by the host's own
/// network, which is the source of the peer's replies.
pub fn peer_address_of(file: &HostConfig, to: Address) -> Address
    ensures { result ≡ peer_address_of file.now to }
{
    if to.network == Network::LOCAL {
        Address {
            network: file.network,
            ..to
        }
    } else {
        to
    }
}

/// Returns whether an address is on the host's own network. Nodes there are reached without a
/// router.
pub fn is_on_own_network(file: &HostConfig, to: Address) -> bool
    ensures { result ≡ is_on_own_network file.now to }
{
    to.network == file.network || to.network == Network::LOCAL
}

/// Whether no machine can have this IP address: it is in 0.0.0.0/8, multicast, reserved or
/// broadcast.
pub(crate) fn is_of_no_machine(ip: [u8; 4]) -> bool
    ensures { result ≡ is_of_no_machine ip }
{
    ip[0] == 0 || ip[0] >= 224
}

/// Whether a node has no IP address, or one that no machine can have.
fn is_of_nobody(node: Node) -> bool
    ensures { result ≡ is_of_nobody (ip_at node) }
{
    match ip_of(node) {
        Ok(ip) => is_of_no_machine(ip),
        Err(_) => true,
    }
}

/// Returns whether an address can't be reached: it is a node on the host's own network that has no
/// IP address, or one that no machine can have.
pub fn is_nowhere(file: &HostConfig, to: Address) -> bool
    ensures { result ≡ is_nowhere file.now to }
{
    is_on_own_network(file, to) && is_of_nobody(to.node)
}

/// Prints that a node on the network of a file's host can't be reached, and returns status 2.
pub fn tell_nowhere<R: Eprint>(rt: &R, path: &str, node: Node) -> u8
    ensures { result ≡ 2 }
{
    let _ = eprintln!(rt;
        "node {node} is no host's IP address: on the network of {path} a node is 0000 and an IP address in hex"
    );
    2
}

/// Returns the IP address that a host dials for a node on its own network. Returns None for another
/// network, or for a node without an IP address.
pub fn dialed_ip(file: &HostConfig, to: Address) -> Option<[u8; 4]>
    ensures { result ≡ dialed_ip file.now to }
{
    if !is_on_own_network(file, to) {
        return None;
    }
    ip_of(to.node).ok()
}
