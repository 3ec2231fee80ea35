//! The least round trip of the last seconds.

ghost use Rattle.std.specs.Prelude.{◌≡◌, None};
ghost use Rattle.spx_congestion.specs.Remembered.{least_of, loses_least, noted, remembered};

/// How long a period is, in milliseconds.
const PERIOD: u64 = 10_000;

/// The least round trip of a period and of the one before it. A period begins at each multiple of
/// ten seconds. So each round trip is remembered for 10 to 20 seconds, and after a move to a longer
/// path the shorter one is forgotten.
#[derive(Clone, Copy)]
pub struct LeastTrip {
    /// The number of the period in which a round trip was noted last.
    period: u64,
    /// The least one of that period.
    present: Option<u64>,
    /// The least one of the period before that.
    before: Option<u64>,
}

impl LeastTrip {
    /// Nothing is measured yet.
    pub fn new() -> LeastTrip
        ensures { result ≡ record { period = 0; present = None; before = None } }
    {
        LeastTrip {
            period: 0,
            present: None,
            before: None,
        }
    }

    /// What is remembered at this time. If the clock went back, no time has passed.
    fn at(self, now: u64) -> LeastTrip
        ensures { result ≡ remembered self now }
    {
        let period = now / PERIOD;
        if period <= self.period {
            return self;
        }
        let is_next = period - self.period == 1;
        LeastTrip {
            period,
            present: None,
            before: if is_next { self.present } else { None },
        }
    }

    /// The least round trip as of the last one that was noted. None before anything is measured.
    pub fn last(self) -> Option<u64>
        ensures { result ≡ least_of self }
    {
        match (self.present, self.before) {
            (Some(present), Some(before)) => Some(present.min(before)),
            (present, before) => present.or(before),
        }
    }

    /// The least round trip that is remembered at this time.
    pub fn get(self, now: u64) -> Option<u64>
        ensures { result ≡ least_of (remembered self now) }
    {
        self.at(now).last()
    }

    /// Whether the least round trip is forgotten when the next one is noted, though longer ones
    /// were measured since.
    pub fn is_forgotten(self, now: u64) -> bool
        ensures { result ≡ loses_least self now }
    {
        match (self.present, self.before) {
            (Some(present), Some(before)) => before < present && now / PERIOD > self.period,
            _ => false,
        }
    }

    /// Adds a round trip that was measured now.
    pub fn note(&mut self, trip: u64, now: u64)
        ensures { self.new ≡ noted self.old trip now }
    {
        *self = self.at(now);
        self.present = Some(self.present.map_or(trip, |least| least.min(trip)));
    }
}
