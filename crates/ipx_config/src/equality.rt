//! Whether two IP addresses, or two nodes, are the same. These are inlined; `==` is a call with a
//! loop.

ghost use Rattle.std.specs.Prelude.{◌≡◌, nat_eq};
ghost use Rattle.std.specs.Cmp.Lexicographic.{pointwise};
ghost use Rattle.ipx_router.specs.Classify.{is_node};

use ipx_wire::Node;

/// Whether two IP addresses are the same.
#[inline]
pub fn is_same_ip(one: [u8; 4], other: [u8; 4]) -> bool
    ensures { result ≡ pointwise nat_eq one other }
{
    let [a, b, c, d] = one;
    let [e, f, g, h] = other;
    a == e && b == f && c == g && d == h
}

/// Whether two nodes are the same.
#[inline]
pub fn is_same_node(one: Node, other: Node) -> bool
    ensures { result ≡ is_node one other }
{
    let [a, b, c, d, e, f] = one.0;
    let [g, h, i, j, k, l] = other.0;
    a == g && b == h && c == i && d == j && e == k && f == l
}
