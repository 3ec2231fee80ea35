//! One offer of a table.

use crate::moments::Timed;
use crate::source::Source;

/// A way to a key: from which source, how good it is, and when it was last learned.
#[derive(Clone, Copy, Debug)]
pub struct Offer<K, M> {
    pub key: K,
    pub source: Source,
    pub metric: M,
    pub heard: u64,
}

impl<K: Copy, M: Copy> Timed for Offer<K, M> {
    ghost moment = { λ o. o.heard };

    fn moment(&self) -> u64 {
        self.heard
    }
}
