//! A clock.

ghost use Rattle.std.specs.Prelude.{◌≡◌, ℕ};

/// A clock. A run reads it once a turn.
pub trait Clock {
    /// A read may give this time, and leave the clock as the last argument says.
    ghost tells: { Self → ℕ → Self → Type 0 };

    /// The time in milliseconds, from an arbitrary start. It may go back.
    fn now(&mut self) -> u64
        ensures { tells self.old result self.new };
}

/// A clock that advances by the same step at each read. It stays at the greatest u64.
#[derive(Clone, Copy)]
pub struct SteppedClock {
    moment: u64,
    step: u64,
}

impl SteppedClock {
    /// A clock whose first read gives `moment`. Each later read gives `step` milliseconds more.
    pub fn new(moment: u64, step: u64) -> SteppedClock
        ensures first { result.moment ≡ moment }
        ensures step { result.step ≡ step }
    {
        SteppedClock { moment, step }
    }
}

impl Clock for SteppedClock {
    ghost use Rattle.ipx_carrier.specs.Stepped.{StepsOn};

    ghost tells = { StepsOn };

    fn now(&mut self) -> u64 {
        let moment = self.moment;
        self.moment = moment.saturating_add(self.step);
        moment
    }
}
