//! The summary of an end.

use spx_link::State;

/// An end of a connection: its host, its state, and the number of its messages.
#[derive(Clone, Copy, Debug, PartialEq, Eq)]
pub struct EndInfo {
    /// The number of its host.
    pub host: usize,
    /// The state of its link. `None` after it was released.
    pub state: Option<State>,
    /// How many messages were handed in at it.
    pub given: usize,
    /// How many messages it handed out.
    pub out: usize,
    /// Its next sequence number. For a released end, the last one that it had.
    pub next: u16,
    /// The number of the end on the other side.
    pub peer: Option<usize>,
}
