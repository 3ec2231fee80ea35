//! The system's clock.

ghost use Rattle.std.specs.Prelude.{◌≡◌, IfOk, false, true};
ghost use Rattle.ipx_sockets.specs.Steady.{StopsThere};

use ipx_carrier::Clock;
use std::rt::Clock as SystemClock;
use std::time::Instant;
use thiserror::Error;

/// The system could not tell the time when it was asked for the first time.
#[derive(Clone, Copy, Debug, PartialEq, Eq, Error)]
pub enum ClockFault {
    #[error("cannot read the system's clock")]
    Unread,
}

/// Milliseconds since the clock was created, by the system's monotonic clock. It never goes back.
///
/// It asks the system each time, until it is stopped.
#[derive(Drop)]
pub struct SteadyClock<'a, R: SystemClock> {
    system: &'a R,
    start: Instant,
    last: u64,
    /// Whether it returns its last time, without asking the system.
    stopped: bool,
}

impl<'a, R: SystemClock> SteadyClock<'a, R> {
    /// A clock that starts at 0 now. It fails if the system does not tell the time, because nothing
    /// would ever become due by a clock that stays at 0.
    pub fn new(system: &'a R) -> Result<SteadyClock<'a, R>, ClockFault>
        ensures begins { IfOk result (λ c. c.last ≡ 0) }
        ensures goes { IfOk result (λ c. c.stopped ≡ false) }
    {
        match Instant::now(system) {
            Ok(start) => Ok(SteadyClock {
                system,
                start,
                last: 0,
                stopped: false,
            }),
            Err(_) => Err(ClockFault::Unread),
        }
    }

    /// Reads the system's time, and stops the clock there until this is called again.
    ///
    /// A caller that takes many turns at once stops the clock first. All the turns then have this
    /// time, and none asks the system.
    pub fn stop(&mut self) -> u64
        ensures { StopsThere self.old result self.new }
    {
        self.stopped = false;
        let moment = self.now();
        self.stopped = true;
        moment
    }

    /// The milliseconds since the start, if the system tells them.
    fn since_start(&self) -> Option<u64> {
        let passed = self.start.elapsed(self.system).ok()?;
        u64::try_from(passed.as_millis()).ok()
    }
}

impl<'a, R: SystemClock> Clock for SteadyClock<'a, R> {
    ghost use Rattle.ipx_sockets.specs.Steady.{NeverGoesBack};

    ghost tells = { NeverGoesBack };

    fn now(&mut self) -> u64
        ensures told { NeverGoesBack self.old result self.new }
        ensures stays { self.old.stopped ≡ true
            → (result ≡ self.old.last) × (self.new ≡ self.old) }
    {
        if self.stopped {
            return self.last;
        }
        if let Some(moment) = self.since_start() {
            self.last = self.last.max(moment);
        }
        self.last
    }
}
