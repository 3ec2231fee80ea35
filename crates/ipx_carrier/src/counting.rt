//! Counts that saturate.

ghost use Rattle.std.specs.Prelude.{◌≡◌, ◌≤◌};
ghost use Rattle.ipx_carrier.specs.Counting.{raised};

/// Adds one to a count, which stays at the greatest u64.
pub fn saturating_increment(count: &mut u64)
    ensures counted { count.new ≡ raised count.old }
    ensures grows { count.old ≤ count.new }
{
    *count = count.saturating_add(1);
}
