//! Laws of what the commands write: for one input there is one output and one status.

ghost use Rattle.std.specs.Prelude.{◌≡◌, ℕ, List};
ghost use Rattle.ipx_inspect.specs.Decoded.{IsDecoded, DecodedView};
ghost use Rattle.ipx_inspect.specs.Hop.{HopWrites};
ghost use Rattle.ipx_inspect.specs.Show.{ShowWrites};
ghost use Rattle.ipx_inspect.specs.Check.{CheckWrites};

use ipx_control::{
    bytes_are_one_rip, bytes_are_one_sap, rip_fault_is_of_no_rip, sap_fault_is_of_no_sap,
};
use ipx_router::answer_is_one;
use ipx_wire::{
    bytes_are_one_packet, bytes_are_one_spx_packet, ipx_fault_is_of_no_packet,
    spx_fault_is_of_no_spx_packet,
};

/// Bytes are read as one thing only: a packet with the contents of its body, or one fault.
pub fn reading_is_one()
    ensures { (bytes : List ℕ) (a b : DecodedView) → IsDecoded bytes a → IsDecoded bytes b → a ≡ b }
{
    bytes_are_one_packet();
    bytes_are_one_spx_packet();
    bytes_are_one_rip();
    bytes_are_one_sap();
    ipx_fault_is_of_no_packet();
    spx_fault_is_of_no_spx_packet();
    rip_fault_is_of_no_rip();
    sap_fault_is_of_no_sap();
}

/// For one text `hop` has one output and one status.
pub fn hop_is_one()
    ensures { (text a b : List ℕ) (s t : ℕ) → HopWrites text a s → HopWrites text b t
        → (a ≡ b) × (s ≡ t) }
{
    answer_is_one();
}

/// For one text `show` has one output and one status.
pub fn show_is_one()
    ensures { (text a b : List ℕ) (s t : ℕ) → ShowWrites text a s → ShowWrites text b t
        → (a ≡ b) × (s ≡ t) }
{
    reading_is_one();
}

/// For one input `check` has one output and one status.
pub fn check_is_one()
    ensures { (input a b : List ℕ) (s t : ℕ) → CheckWrites input a s → CheckWrites input b t
        → (a ≡ b) × (s ≡ t) }
{
    reading_is_one();
}
