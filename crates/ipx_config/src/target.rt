//! The address that arguments name.

ghost use Rattle.std.specs.Prelude.{IfErr, IfOk};
ghost use Rattle.ipx_config.specs.Target.{IsTargetFault, NamesAddress};

use ipx_wire::{Address, Network, Node, Socket};
use std::fmt;

/// The arguments that name the address of a socket: its network, node and socket in hex.
#[derive(Clone, Copy)]
pub struct Target<'a> {
    pub network: &'a str,
    pub node: &'a str,
    pub socket: &'a str,
}

/// The first argument that is wrong.
#[derive(Clone, Copy)]
pub enum TargetFault {
    Network,
    Node,
    Socket,
}

/// Formats one line, without its newline.
impl fmt::Display for TargetFault {
    fn fmt<W: fmt::Write>(&self, f: &mut fmt::Formatter<W>) -> fmt::Result {
        f.write_str(match self {
            TargetFault::Network => "NET must be eight hex digits, such as 00000033",
            TargetFault::Node => {
                "NODE must be twelve hex digits, such as 00007f000104 for IP address 127.0.1.4: \
                 0000, and then its four bytes in hex"
            },
            TargetFault::Socket => "SOCKET must be four hex digits other than 0000, such as 4002",
        })
    }
}

impl Target<'_> {
    /// Parses the address. It is eight, twelve and four hex digits, and nothing else. Socket 0000
    /// is refused: nothing can listen at it.
    pub fn address(&self) -> Result<Address, TargetFault>
        ensures named { IfOk result (NamesAddress self.now) }
        ensures fault { IfErr result (IsTargetFault self.now) }
    {
        let Some(network) = Network::from_hex(self.network.as_bytes()) else {
            return Err(TargetFault::Network);
        };
        let Some(node) = Node::from_hex(self.node.as_bytes()) else {
            return Err(TargetFault::Node);
        };
        let Some(socket) = Socket::from_hex(self.socket.as_bytes()) else {
            return Err(TargetFault::Socket);
        };
        if socket.0 == 0 {
            return Err(TargetFault::Socket);
        }
        Ok(Address {
            network,
            node,
            socket,
        })
    }
}
