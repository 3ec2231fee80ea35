//! Laws of packets and bytes.

ghost use Rattle.std.specs.Prelude.{◌≡◌, ◌++◌, ℕ, List, [], None};
ghost use Rattle.ipx_wire.specs.Ipx.{PacketView, HoldsBytes, IsBytes, IsInRange, IsIpx, ipx_fault};

/// Bytes begin with at most one packet.
pub fn bytes_are_one_packet()
    ensures { (p q : PacketView) (bytes s t : List ℕ) → IsIpx p bytes s → IsIpx q bytes t
        → (p ≡ q) × (s ≡ t) }
{}

/// Each packet in range has bytes. They are read as that packet, whatever follows them.
pub fn packet_has_bytes()
    ensures { (p : PacketView) → IsInRange p → (bytes : List ℕ)
        × ((tail : List ℕ) → IsIpx p (bytes ++ tail) tail) × (HoldsBytes p → IsBytes bytes) }
{}

/// Bytes that are a packet with nothing after it are that packet, whatever follows them.
pub fn packet_before_any_bytes()
    ensures { (p : PacketView) (bytes tail : List ℕ) → IsIpx p bytes []
        → IsIpx p (bytes ++ tail) tail }
{}

/// A packet and the bytes after it determine all bytes.
pub fn packet_is_one_list_of_bytes()
    ensures { (p : PacketView) (a b tail : List ℕ) → IsBytes a → IsBytes b
        → IsIpx p a tail → IsIpx p b tail → a ≡ b }
{}

/// A datagram has no IPX fault exactly if it begins with a packet.
pub fn ipx_fault_is_of_no_packet()
    ensures packet { (bytes : List ℕ) → ipx_fault bytes ≡ None
        → (p : PacketView) × (tail : List ℕ) × IsIpx p bytes tail }
    ensures no_fault { (p : PacketView) (bytes tail : List ℕ) → IsIpx p bytes tail
        → ipx_fault bytes ≡ None }
{}
