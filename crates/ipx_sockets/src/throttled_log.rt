//! Limits how often a line reports what happens again and again.

ghost use Rattle.std.specs.Prelude.{◌≡◌, ◌↔◌, ◌+◌, ◌^◌, ◌<◌, ◌≤◌, ℕ, IsTrue, MatchOption, Some, IfSome, None};
ghost use Rattle.ipx_sockets.specs.Moments.{IsDue, IsReached};

/// How long a cause is not logged again, in milliseconds.
const PAUSE: u64 = 60_000;

/// A cause that is logged: how often it had happened when it was logged last, and when that was.
#[derive(Clone, Copy, PartialEq, Eq)]
pub struct ThrottledLog {
    logged: u64,
    at: Option<u64>,
}

impl ThrottledLog {
    /// A cause that has not been logged yet.
    pub fn new() -> ThrottledLog
        ensures never_logged { (result.logged ≡ 0) × (result.at ≡ None) }
    {
        ThrottledLog {
            logged: 0,
            at: None,
        }
    }

    /// Whether a cause that happened `count` times is due. It is if it has happened since it was
    /// last logged, and that was a minute ago or never.
    pub fn is_due(&self, count: u64, now: u64) -> bool
        ensures { IsTrue result ↔ IsDue self.now count now }
    {
        if count <= self.logged {
            return false;
        }
        match self.at {
            None => true,
            Some(at) => now >= at && now - at >= PAUSE,
        }
    }

    /// Logs a cause that happened `count` times, if it is due. The result is how often it happened
    /// since it was last logged.
    pub fn tell(&mut self, count: u64, now: u64) -> Option<u64>
        ensures told { IfSome result (λ more. IsDue self.old count now
            × (more + self.old.logged ≡ count) × (self.new.logged ≡ count) × (self.new.at ≡ Some now)) }
        ensures silent { result ≡ None → self.new ≡ self.old }
        ensures due { IsDue self.old count now → (result ≡ None → ⊥) }
    {
        if !self.is_due(count, now) {
            return None;
        }
        let more = count - self.logged;
        self.logged = count;
        self.at = Some(now);
        Some(more)
    }

    /// When it is due, if it happened `count` times. None if it is not, or if that time exceeds a
    /// u64.
    pub fn next(&self, count: u64) -> Option<u64>
        ensures next { MatchOption result ((t : ℕ) → t < 2 ^ 64 → IsDue self.now count t → ⊥)
            (λ m. (t : ℕ) → IsDue self.now count t ↔ (m ≤ t)) }
        ensures reached { (t : ℕ) → t < 2 ^ 64 → IsReached result t ↔ IsDue self.now count t }
    {
        if count <= self.logged {
            return None;
        }
        match self.at {
            None => Some(0),
            Some(at) => at.checked_add(PAUSE),
        }
    }
}
