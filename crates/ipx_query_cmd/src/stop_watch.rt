//! Measures time by the system's clock.

use std::rt::Clock;
use std::time::Instant;

/// The nanoseconds in a tenth of a millisecond.
const TENTH: u128 = 100_000;

/// The time since a start. Nothing is proved about it.
#[derive(Drop)]
pub struct StopWatch<'a, R: Clock> {
    system: &'a R,
    start: Option<Instant>,
}

impl<'a, R: Clock> StopWatch<'a, R> {
    /// Starts now.
    pub fn new(system: &'a R) -> StopWatch<'a, R> {
        StopWatch {
            system,
            start: Instant::now(system).ok(),
        }
    }

    /// Restarts now.
    pub fn restart(&mut self) {
        self.start = Instant::now(self.system).ok();
    }

    /// The tenths of a millisecond that have passed; 0 if the system does not tell the time.
    pub fn tenths(&self) -> u64 {
        let Some(start) = self.start else {
            return 0;
        };
        match start.elapsed(self.system) {
            Ok(passed) => u64::try_from(passed.as_nanos() / TENTH).unwrap_or(u64::MAX),
            Err(_) => 0,
        }
    }
}
