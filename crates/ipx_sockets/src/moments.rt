//! Times at which something is due, and how long it is until then.

ghost use Rattle.std.specs.Prelude.{◌↔◌, ◌<◌, ◌^◌, ◌⊎◌, ℕ, IsTrue};
ghost use Rattle.ipx_sockets.specs.Moments.{IsTimeUntilDue, HasPassed, IsReached};

/// The longest that a router waits, in milliseconds.
pub const LONGEST: u64 = 10_000;

/// The time at which `period` has passed since something was done, or 0 if it never was. None if
/// that time exceeds a u64.
pub fn end_of(last: Option<u64>, period: u64) -> Option<u64>
    ensures { (t : ℕ) → t < 2 ^ 64 → IsReached result t ↔ HasPassed period last t }
{
    match last {
        None => Some(0),
        Some(last) => last.checked_add(period),
    }
}

/// Whether `period` has passed since something was done, or it never was.
pub fn is_over(last: Option<u64>, period: u64, now: u64) -> bool
    ensures { IsTrue result ↔ HasPassed period last now }
{
    match end_of(last, period) {
        None => false,
        Some(end) => end <= now,
    }
}

/// The earlier of two times, if there is any.
pub fn sooner(a: Option<u64>, b: Option<u64>) -> Option<u64>
    ensures { (t : ℕ) → IsReached result t ↔ (IsReached a t ⊎ IsReached b t) }
{
    match (a, b) {
        (Some(a), Some(b)) => Some(a.min(b)),
        (Some(a), None) => Some(a),
        (None, b) => b,
    }
}

/// How long it is from `now` to a moment, at most [`LONGEST`]. Without a moment it is [`LONGEST`].
pub fn time_to(moment: Option<u64>, now: u64) -> u64
    ensures { IsTimeUntilDue (IsReached moment) now result }
{
    match moment {
        None => LONGEST,
        Some(moment) => moment.saturating_sub(now).min(LONGEST),
    }
}
