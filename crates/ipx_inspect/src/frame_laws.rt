//! `show --frame` has one output for one input.

ghost use Rattle.std.specs.Prelude.{◌≡◌, ℕ, List};
ghost use Rattle.ipx_wire.specs.declared.address.Node.{Node};
ghost use Rattle.ipx_inspect.specs.ShownFrame.{ShowsFrames};

use crate::laws::reading_is_one;
use ipx_ethernet::bytes_are_one_frame;

/// For one input `show --frame` has one output and one status.
pub fn shown_frames_are_one()
    ensures { (own : Node) (input a b : List ℕ) (s t : ℕ) → ShowsFrames own input a s
        → ShowsFrames own input b t → (a ≡ b) × (s ≡ t) }
{
    reading_is_one();
    bytes_are_one_frame();
}
