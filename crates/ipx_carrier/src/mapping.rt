//! Nodes and IP addresses, by RFC 1234 (Tunneling IPX Traffic through IP Networks).

ghost use Rattle.std.specs.Prelude.{◌≡◌, ◌≢◌, ℕ, List, Some, None, IfOk, IfErr, length};
ghost use Rattle.ipx_wire.specs.declared.address.Node.{Node as AnyNode};
ghost use Rattle.ipx_carrier.specs.Mapping.{ip_at, node_at};

use crate::fault::CarrierFault;
use ipx_wire::Node;

/// The IP address of a node: its last four bytes, if the first two are zero.
pub fn ip_of(node: Node) -> Result<[u8; 4], CarrierFault>
    ensures found { IfOk result (λ ip. ip_at node ≡ Some ip) }
    ensures fault { IfErr result (λ f. (f ≡ CarrierFault.NotMapped) × (ip_at node ≡ None)) }
{
    if node.0[0] != 0 || node.0[1] != 0 {
        return Err(CarrierFault::NotMapped);
    }
    let mut ip = [0; 4];
    ip.copy_from_slice(&node.0[2..]);
    Ok(ip)
}

/// The node of an IP address: two zero bytes, then the address.
pub fn node_of(ip: [u8; 4]) -> Node
    ensures { result ≡ node_at ip }
{
    Node([0, 0, ip[0], ip[1], ip[2], ip[3]])
}

/// The node of an IP address has that address.
pub fn node_of_ip_has_that_ip()
    ensures { (ip : List ℕ) → ip_at (node_at ip) ≡ Some ip }
{}

/// A node that has an IP address is the node of that address.
pub fn node_with_ip_is_of_it()
    ensures { (node : AnyNode) (ip : List ℕ) →
        length node.0 ≡ 6 → ip_at node ≡ Some ip → node_at ip ≡ node }
{}
