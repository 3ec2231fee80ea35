//! Hexadecimal text of addresses and packets: network:node:socket.

ghost use Rattle.std.specs.Prelude.{◌≡◌};
ghost use Rattle.ipx_wire.specs.AddressText.{spelled_network, spelled_node, spelled_socket};

use crate::address::{Address, Network, Node, Socket};
use crate::ipx::Packet;
use byteorder::{BigEndian, ByteOrder};
use hex::FromHex;
use std::fmt;

impl Network {
    /// Reads a network from eight hex digits, in either case. `None` is any other text.
    pub fn from_hex(text: &[u8]) -> Option<Network>
        ensures { result ≡ spelled_network text.now }
    {
        let bytes = <[u8; 4] as FromHex>::from_hex(text).ok()?;
        Some(Network(BigEndian::read_u32(&bytes)))
    }
}

impl Node {
    /// Reads a node from twelve hex digits, in either case. `None` is any other text.
    pub fn from_hex(text: &[u8]) -> Option<Node>
        ensures { result ≡ spelled_node text.now }
    {
        let bytes = <[u8; 6] as FromHex>::from_hex(text).ok()?;
        Some(Node(bytes))
    }
}

impl Socket {
    /// Reads a socket from four hex digits, in either case. `None` is any other text.
    pub fn from_hex(text: &[u8]) -> Option<Socket>
        ensures { result ≡ spelled_socket text.now }
    {
        let bytes = <[u8; 2] as FromHex>::from_hex(text).ok()?;
        Some(Socket(BigEndian::read_u16(&bytes)))
    }
}

impl fmt::Display for Network {
    fn fmt<W: fmt::Write>(&self, f: &mut fmt::Formatter<W>) -> fmt::Result {
        write!(f, "{:08x}", self.0)
    }
}

impl fmt::Display for Node {
    fn fmt<W: fmt::Write>(&self, f: &mut fmt::Formatter<W>) -> fmt::Result {
        for byte in self.0 {
            write!(f, "{byte:02x}")?;
        }
        Ok(())
    }
}

impl fmt::Display for Socket {
    fn fmt<W: fmt::Write>(&self, f: &mut fmt::Formatter<W>) -> fmt::Result {
        write!(f, "{:04x}", self.0)
    }
}

impl fmt::Display for Address {
    fn fmt<W: fmt::Write>(&self, f: &mut fmt::Formatter<W>) -> fmt::Result {
        write!(f, "{}:{}:{}", self.network, self.node, self.socket)
    }
}

impl fmt::Debug for Network {
    fn fmt<W: fmt::Write>(&self, f: &mut fmt::Formatter<W>) -> fmt::Result {
        write!(f, "{self}")
    }
}

impl fmt::Debug for Node {
    fn fmt<W: fmt::Write>(&self, f: &mut fmt::Formatter<W>) -> fmt::Result {
        write!(f, "{self}")
    }
}

impl fmt::Debug for Socket {
    fn fmt<W: fmt::Write>(&self, f: &mut fmt::Formatter<W>) -> fmt::Result {
        write!(f, "{self}")
    }
}

impl fmt::Debug for Address {
    fn fmt<W: fmt::Write>(&self, f: &mut fmt::Formatter<W>) -> fmt::Result {
        write!(f, "{self}")
    }
}

impl fmt::Debug for Packet<'_> {
    fn fmt<W: fmt::Write>(&self, f: &mut fmt::Formatter<W>) -> fmt::Result {
        write!(f, "{:?} with body ", self.header)?;
        for byte in self.body {
            write!(f, "{byte:02x}")?;
        }
        Ok(())
    }
}
