//! The destination and the source of a frame.

ghost use Rattle.std.specs.Prelude.{◌≡◌, ◌≤◌, ◌+◌, List, ℕ, IfErr, IfOk, OnOk, None, Some, length, take, drop};
ghost use Rattle.ipx_ethernet.specs.Frame.{IsHeardBy, frame_of};
ghost use Rattle.ipx_ethernet.specs.FrameFault.{addressed_fault, node_of, size_fault};

use crate::fault::FrameFault;
use crate::frame::{FRAME_MAX_SIZE, HEADER_SIZE};
use ipx_wire::Node;

/// The station whose address is at this position.
pub fn station_at(bytes: &[u8], place: usize) -> Node
    requires { place + 6 ≤ length bytes.now }
    ensures { result.0 ≡ take 6 (drop place bytes.now) }
{
    let mut node = [0; 6];
    node.copy_from_slice(&bytes[place..place + 6]);
    Node(node)
}

/// The destination and the source of a frame, whatever else it holds. The error is FrameShort or
/// FrameLong.
///
/// Call it to forward frames from one remote of an Ethernet segment to others.
pub fn stations_of(bytes: &[u8]) -> Result<(Node, Node), FrameFault>
    ensures to { IfOk result (λ r. r.0 ≡ node_of (take 6 bytes.now)) }
    ensures from { IfOk result (λ r. r.1 ≡ node_of (take 6 (drop 6 bytes.now))) }
    ensures fault { IfErr result (λ f. size_fault (length bytes.now) ≡ Some f) }
    ensures whole { IfOk result (λ _. size_fault (length bytes.now) ≡ None) }
{
    if bytes.len() < HEADER_SIZE {
        return Err(FrameFault::FrameShort(bytes.len()));
    }
    if bytes.len() > FRAME_MAX_SIZE {
        return Err(FrameFault::FrameLong(bytes.len()));
    }
    Ok((station_at(bytes, 0), station_at(bytes, 6)))
}

/// Whether the station `own` receives a frame for `to`, from `from`.
pub fn hears(own: Node, to: Node, from: Node) -> Result<(), FrameFault>
    ensures heard { OnOk result ((packet : List ℕ) → IsHeardBy own (frame_of to from packet)) }
    ensures fault { IfErr result (λ f. addressed_fault own to from ≡ Some f) }
    ensures whole { OnOk result (addressed_fault own to from ≡ None) }
{
    if from.0[0] % 2 == 1 {
        return Err(FrameFault::SourceGroup(from));
    }
    if from == Node([0; 6]) {
        return Err(FrameFault::SourceZero);
    }
    if from == own {
        return Err(FrameFault::OwnSource);
    }
    let for_it = to == own || to == Node::BROADCAST;
    if !for_it {
        return Err(FrameFault::OtherStation(to));
    }
    Ok(())
}
