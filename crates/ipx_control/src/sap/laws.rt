//! Laws of SAP packets and their bytes.

ghost use Rattle.std.specs.Prelude.{◌≡◌, ◌++◌, ℕ, List, [], None, All};
ghost use Rattle.ipx_wire.specs.Ipx.{IsBytes};
ghost use Rattle.ipx_control.specs.Sap.{ServiceHoldsBytes, IsSap, IsSapInRange, IsSapTail, SapView, sap_fault, sap_services};

use ipx_wire::field_laws;

/// Bytes are at most one SAP packet.
pub fn bytes_are_one_sap()
    ensures { (m n : SapView) (bytes s t : List ℕ) → IsSap m bytes s → IsSap n bytes t
        → (m ≡ n) × (s ≡ t) }
{
    field_laws();
}

/// Each SAP packet in range has bytes. They are read as that packet, with any tail that may follow
/// it.
pub fn sap_has_bytes()
    ensures { (m : SapView) → IsSapInRange m → (bytes : List ℕ)
        × ((tail : List ℕ) → IsSapTail m tail → IsSap m (bytes ++ tail) tail)
        × (All ServiceHoldsBytes (sap_services m) → IsBytes bytes) }
{
    field_laws();
}

/// Bytes that are a SAP packet with nothing after it are that packet with any tail that may follow
/// it.
pub fn sap_before_any_tail()
    ensures { (m : SapView) (bytes tail : List ℕ) → IsSapTail m tail → IsSap m bytes []
        → IsSap m (bytes ++ tail) tail }
{
    field_laws();
}

/// A SAP packet and its tail determine all bytes.
pub fn sap_is_one_list_of_bytes()
    ensures { (m : SapView) (a b tail : List ℕ) → IsBytes a → IsBytes b
        → IsSap m a tail → IsSap m b tail → a ≡ b }
{
    field_laws();
}

/// Bytes have no SAP fault exactly if they are a SAP packet.
pub fn sap_fault_is_of_no_sap()
    ensures packet { (bytes : List ℕ) → sap_fault bytes ≡ None
        → (m : SapView) × (tail : List ℕ) × IsSap m bytes tail }
    ensures no_fault { (m : SapView) (bytes tail : List ℕ) → IsSap m bytes tail
        → sap_fault bytes ≡ None }
{}
