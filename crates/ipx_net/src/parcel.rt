//! A packet that was sent.

use crate::place::Place;
use ipx_wire::{Network, Node};

/// A packet that was sent. It is never used up: it may be delivered several times, late, or never.
#[derive(Debug, Drop)]
pub struct Parcel {
    /// The network that it was sent on.
    pub segment: Network,
    /// Its next node there. FFFFFFFFFFFF is all nodes.
    pub next: Node,
    pub bytes: Vec<u8>,
    /// Its sender. `None` if it was injected from outside.
    pub sent_by: Option<Place>,
}
