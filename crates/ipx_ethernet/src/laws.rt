//! Laws of frames and bytes, which follow from the definition of a frame.

ghost use Rattle.std.specs.Prelude.{◌≡◌, ◌≤◌, ◌%◌, ℕ, List, None, length};
ghost use Rattle.ipx_wire.specs.declared.address.Node.{Node};
ghost use Rattle.ipx_ethernet.specs.declared.encapsulation.Encapsulation.{Encapsulation};
ghost use Rattle.ipx_ethernet.specs.declared.encapsulation.Encapsulation.TheVariants.{Raw};
ghost use Rattle.ipx_ethernet.specs.Frame.{FrameView, IsFrame, IsHeardBy, length_or_type};
ghost use Rattle.ipx_ethernet.specs.FrameFault.{frame_fault};
ghost use Rattle.ipx_ethernet.specs.SentFrame.{IsSentFrame};

use ipx_wire::{bytes_are_one_packet, ipx_fault_is_of_no_packet, packet_before_any_bytes};

/// No bytes are two frames, nor a frame of two encapsulations.
pub fn bytes_are_one_frame()
    ensures { (d e : Encapsulation) (f g : FrameView) (bytes s t : List ℕ)
        → IsFrame d f bytes s → IsFrame e g bytes t → (d ≡ e) × (f ≡ g) × (s ≡ t) }
{
    bytes_are_one_packet();
    packet_before_any_bytes();
}

/// A frame that a station receives has no fault for it.
pub fn frame_has_no_fault()
    ensures { (own : Node) (e : Encapsulation) (f : FrameView) (bytes tail : List ℕ)
        → IsFrame e f bytes tail → IsHeardBy own f → frame_fault own bytes ≡ None }
{
    packet_before_any_bytes();
    ipx_fault_is_of_no_packet();
}

/// Each station that receives a sent frame reads that frame and no other.
pub fn sent_frame_is_read_back()
    ensures heard { (own : Node) (e : Encapsulation) (f : FrameView) (bytes : List ℕ)
        → IsSentFrame e f bytes → IsHeardBy own f → frame_fault own bytes ≡ None }
    ensures itself { (d e : Encapsulation) (f g : FrameView) (bytes tail : List ℕ)
        → IsSentFrame e f bytes → IsFrame d g bytes tail → (d ≡ e) × (g ≡ f) }
{
    frame_has_no_fault();
    bytes_are_one_frame();
}

/// A frame that is sent has 60 to 1,514 bytes.
pub fn sent_frame_is_sized()
    ensures { (e : Encapsulation) (f : FrameView) (bytes : List ℕ) → IsSentFrame e f bytes
        → (60 ≤ length bytes) × (length bytes ≤ 1514) }
{}

/// The length field of a raw frame that is sent is even.
pub fn sent_raw_frame_is_even()
    ensures { (f : FrameView) (bytes : List ℕ) → IsSentFrame Raw f bytes
        → length_or_type bytes % 2 ≡ 0 }
{}
