//! What `--check` prints of the peers of an ipxnet port that are no single IP address.

ghost use Rattle.std.specs.Prelude.{◌≡◌, IfOk, string_bytes};
ghost use Rattle.std.specs.List.{flat_map};
ghost use Rattle.ipx_config.specs.Checked.{host_line, network_line, peer_line, prefix_line, prefix_text};

use crate::ipxnet_port::Peer;
use crate::start_lines::dotted;
use ip_prefixes::Prefix;
use std::alloc::{AllocError, Global};

/// A prefix by its first address, as `203.0.113.0/24`.
fn prefix_to_text(alloc: Global, prefix: &Prefix) -> Result<String, AllocError>
    ensures { IfOk result (λ t. string_bytes t ≡ prefix_text prefix.now) }
{
    let network = dotted(alloc, prefix.network())?;
    let bits = prefix.bits;
    format!(in alloc; "{network}/{bits}")
}

/// The line of a prefix.
fn network_to_line(alloc: Global, whose: &str, prefix: &Prefix) -> Result<String, AllocError>
    ensures { IfOk result (λ t. string_bytes t ≡ network_line whose.now prefix.now) }
{
    let prefix = prefix_to_text(alloc, prefix)?;
    format!(in alloc; "{whose}peers has all of {prefix}\n")
}

/// The line of a prefix; empty for one address.
fn prefix_to_line(alloc: Global, whose: &str, prefix: &Prefix) -> Result<String, AllocError>
    ensures { IfOk result (λ t. string_bytes t ≡ prefix_line whose.now prefix.now) }
{
    if prefix.bits == 32 {
        Ok(String::new(alloc))
    } else {
        network_to_line(alloc, whose, prefix)
    }
}

/// The line of the name of a host.
fn host_to_line(alloc: Global, whose: &str, name: &str) -> Result<String, AllocError>
    ensures { IfOk result (λ t. string_bytes t ≡ host_line whose.now name.now) }
{
    format!(in alloc; "{whose}peers has {name}, which is looked up when the router starts\n")
}

fn peer_to_line(alloc: Global, whose: &str, peer: &Peer) -> Result<String, AllocError>
    ensures { IfOk result (λ t. string_bytes t ≡ peer_line whose.now peer.now) }
{
    match peer {
        Peer::Prefix(prefix) => prefix_to_line(alloc, whose, prefix),
        Peer::Host(name) => host_to_line(alloc, whose, name),
    }
}

/// The lines of the prefixes and names among these peers, in their order.
pub fn peers_to_lines(alloc: Global, whose: &str, peers: &[Peer]) -> Result<String, AllocError>
    ensures { IfOk result (λ t. string_bytes t ≡ flat_map (peer_line whose.now) peers.now) }
{
    let mut lines = String::new(alloc);
    for peer in peers {
        let line = peer_to_line(alloc, whose, peer)?;
        lines.push_str(&line)?;
    }
    Ok(lines)
}
