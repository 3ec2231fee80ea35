//! Laws of RIP packets and their bytes.

ghost use Rattle.std.specs.Prelude.{◌≡◌, ◌<◌, ◌++◌, ℕ, List, [], length, None};
ghost use Rattle.ipx_wire.specs.Ipx.{IsBytes};
ghost use Rattle.ipx_control.specs.Rip.{IsRip, IsRipInRange, RipView, rip_entry_size, rip_fault};

use ipx_wire::field_laws;

/// Bytes are at most one RIP packet.
pub fn bytes_are_one_rip()
    ensures { (m n : RipView) (bytes s t : List ℕ) → IsRip m bytes s → IsRip n bytes t
        → (m ≡ n) × (s ≡ t) }
{}

/// Each RIP packet in range has bytes. They are read as that packet, with any short tail after it.
pub fn rip_has_bytes()
    ensures { (m : RipView) → IsRipInRange m → (bytes : List ℕ)
        × ((tail : List ℕ) → length tail < rip_entry_size → IsRip m (bytes ++ tail) tail)
        × IsBytes bytes }
{
    field_laws();
}

/// Bytes that are a RIP packet with nothing after it are that packet with any short tail after it.
pub fn rip_before_any_tail()
    ensures { (m : RipView) (bytes tail : List ℕ) → length tail < rip_entry_size
        → IsRip m bytes [] → IsRip m (bytes ++ tail) tail }
{
    field_laws();
}

/// A RIP packet and its tail determine all bytes.
pub fn rip_is_one_list_of_bytes()
    ensures { (m : RipView) (a b tail : List ℕ) → IsBytes a → IsBytes b
        → IsRip m a tail → IsRip m b tail → a ≡ b }
{
    field_laws();
}

/// Bytes have no RIP fault exactly if they are a RIP packet.
pub fn rip_fault_is_of_no_rip()
    ensures packet { (bytes : List ℕ) → rip_fault bytes ≡ None
        → (m : RipView) × (tail : List ℕ) × IsRip m bytes tail }
    ensures no_fault { (m : RipView) (bytes tail : List ℕ) → IsRip m bytes tail
        → rip_fault bytes ≡ None }
{}
