//! What became of a packet of an answer.

/// What became of a packet of an answer.
#[derive(Clone, Copy)]
pub struct AnswerHeard {
    /// It is not full, so it is the last one of its answer.
    pub ended: bool,
    /// The table was full before all of it was learned.
    pub cut: bool,
}
