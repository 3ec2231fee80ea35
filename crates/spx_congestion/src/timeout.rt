//! The timeout of an acknowledgement, without doubling.

ghost use Rattle.std.specs.Prelude.{◌≡◌, ◌≤◌, max, min};

/// The timeout before anything is measured, in milliseconds.
const FIRST: u64 = 500;

/// The least and the greatest timeout.
const LEAST: u64 = 200;

const MAX: u64 = 60_000;

/// A timeout in milliseconds, within its bounds.
#[derive(Clone, Copy)]
pub struct Timeout {
    millis: u64,
    ghost at_least: { 200 ≤ millis },
    ghost at_most: { millis ≤ 60000 },
}

impl Timeout {
    /// The timeout before anything is measured.
    pub fn new() -> Timeout
        ensures { result.millis ≡ 500 }
    {
        Timeout { millis: FIRST }
    }

    /// A timeout of so many milliseconds, or the nearest within the bounds.
    pub fn of(millis: u64) -> Timeout
        ensures { result.millis ≡ min (max millis 200) 60000 }
    {
        Timeout {
            millis: millis.max(LEAST).min(MAX),
        }
    }

    /// How many milliseconds it lasts.
    pub fn millis(&self) -> u64
        ensures { result ≡ self.now.millis }
    {
        self.millis
    }
}
