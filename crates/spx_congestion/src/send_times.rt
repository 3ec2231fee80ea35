//! Times in a ring, by position.

ghost use Rattle.std.specs.Prelude.{◌≡◌, ◌%◌, IfOk};
ghost use Rattle.spx_congestion.specs.SendTimes.{no_times, time_at, with_time};

use std::alloc::{AllocError, Global};
use std::marker::Model;

/// How many times a ring holds.
const PLACES: usize = 8192;

/// The times of the last 8,192 positions. Each position has one or none.
#[derive(Drop)]
pub struct SendTimes {
    ring: Vec<Option<u64>>,
}

impl Model for SendTimes {
    ghost use Rattle.std.specs.Prelude.{ℕ, List, Option};

    ghost Value = { List (Option ℕ) };

    ghost view = { λ s. s.ring.items };
}

impl SendTimes {
    /// A ring without times.
    pub fn new(alloc: Global) -> Result<SendTimes, AllocError>
        ensures { IfOk result (λ times. times ≡ no_times) }
    {
        let ring = vec![in alloc; None; PLACES]?;
        Ok(SendTimes { ring })
    }

    /// The time at a position.
    pub fn at(&self, position: u64) -> Option<u64>
        ensures { result ≡ time_at self.now position }
    {
        self.ring.get(place_of(position)).copied().flatten()
    }

    /// Stores a time at a position. It replaces that of the position 8,192 before.
    pub fn put(&mut self, position: u64, moment: Option<u64>)
        ensures { self.new ≡ with_time self.old position moment }
    {
        if let Some(place) = self.ring.get_mut(place_of(position)) {
            *place = moment;
        }
    }

    /// How many times are no earlier than `moment`.
    pub fn count_since(&self, moment: u64) -> u64 {
        let mut count: u64 = 0;
        for at in &self.ring {
            if at.is_some_and(|at| at >= moment) {
                count = count.saturating_add(1);
            }
        }
        count
    }
}

/// The place of a position in a ring.
fn place_of(position: u64) -> usize
    ensures { result ≡ position % 8192 }
{
    (position % 8192) as usize
}
