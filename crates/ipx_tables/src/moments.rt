//! How long offers are valid.

ghost use Rattle.std.specs.Prelude.{◌≡◌, ℕ, ◌+◌, ◌-◌, ◌^◌, min};
ghost use Rattle.ipx_tables.specs.Content.{is_young};

/// How long an offer is valid after it was learned, in milliseconds.
const LIFE: u64 = 180_000;

/// Something with a time.
pub trait Timed {
    /// Its time.
    ghost moment: { Self → ℕ };

    /// Its time.
    fn moment(&self) -> u64
        ensures { result ≡ moment self.now };
}

/// Whether an offer that was learned at this time is valid.
pub fn counts(now: u64, moment: u64) -> bool
    ensures { result ≡ is_young now moment }
{
    now.saturating_sub(moment) < LIFE
}

/// The time from which an offer that was learned at this time is expired.
pub fn expiry(moment: u64) -> u64
    ensures { result ≡ min (moment + 180000) (2 ^ 64 - 1) }
{
    moment.saturating_add(LIFE)
}
