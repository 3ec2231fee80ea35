//! What a link may do.

/// What a link may do at its next poll.
#[derive(Clone, Copy, Debug, PartialEq, Eq)]
pub struct Plan {
    /// How many units may be outstanding, at most 8,192.
    pub window: u16,
    /// The place of the unit to send again, counted from the first outstanding unit.
    pub again: Option<u16>,
}
