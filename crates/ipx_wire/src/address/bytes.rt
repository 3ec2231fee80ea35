//! Addresses as bytes.

ghost use Rattle.std.specs.Prelude.{◌≡◌, ◌≤◌, ◌++◌, length, take, drop};
ghost use Rattle.ipx_wire.specs.Ipx.{IsAddress, IsAddressInRange, address_bytes};

use crate::address::{Address, Network, Node, Socket};
use byteorder::{BigEndian, ByteOrder};

fn node_at(bytes: &[u8]) -> Node
    requires { 6 ≤ length bytes.now }
    ensures { take 6 bytes.now ≡ result.0 }
{
    let mut node = [0; 6];
    node.copy_from_slice(&bytes[..6]);
    Node(node)
}

/// Reads the address at the front of the bytes: network 4 bytes, node 6, socket 2. The caller must pass
/// these twelve bytes. It serves addresses inside a body, as in a SAP service.
pub fn address_at(bytes: &[u8]) -> Address
    requires { 12 ≤ length bytes.now }
    ensures { IsAddress result bytes.now }
{
    let network = Network(BigEndian::read_u32(bytes));
    let node = node_at(&bytes[4..]);
    let socket = Socket(BigEndian::read_u16(&bytes[10..]));
    Address {
        network,
        node,
        socket,
    }
}

/// Writes an address to the first twelve bytes of the buffer, which the caller must pass. It serves
/// addresses inside a body, as in a SAP service.
pub fn put_address(out: &mut [u8], address: Address)
    requires { 12 ≤ length out.old }
    ensures written { out.new ≡ address_bytes address ++ drop 12 out.old }
    ensures range { IsAddressInRange address }
{
    BigEndian::write_u32(out, address.network.0);
    out[4..10].copy_from_slice(&address.node.0);
    BigEndian::write_u16(&mut out[10..], address.socket.0);
}
