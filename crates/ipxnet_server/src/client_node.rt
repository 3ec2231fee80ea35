//! The node of a client's address.

ghost use Rattle.std.specs.Prelude.{◌≡◌};
ghost use Rattle.ipxnet_server.specs.ServerClients.{node_of_place};

use crate::port::ServerPort;
use ipx_wire::Node;
use sha2::{Digest, Sha256};
use std::net::SocketAddrV4;

/// The node that a client at an address gets: 02, and the first five bytes of a SHA-256 digest. It
/// covers the secret and network of the port, and the client's IP address and UDP port.
///
/// Who sends with that node has received the answer to a registration or a packet of that client, or
/// has guessed 40 bits.
pub fn node_of(port: ServerPort, place: SocketAddrV4) -> Node
    ensures { result ≡ node_of_place port place }
{
    let mut hasher = Sha256::new();
    hasher.update(port.secret.0);
    hasher.update(port.network.0.to_be_bytes());
    hasher.update(place.ip().octets());
    hasher.update(place.port().to_be_bytes());
    let digest = hasher.finalize();
    let mut node = [2; 6];
    node[1..].copy_from_slice(&digest[..5]);
    Node(node)
}
