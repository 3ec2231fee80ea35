//! The end of a repair.

ghost use Rattle.std.specs.Prelude.{ℕ, ◌≡◌, ◌≤◌, ◌⊎◌, IsTrue, Some};
ghost use Rattle.spx_congestion.specs.Hearing.{BeginsRepair, EndsRepair};
ghost use Rattle.spx_congestion.specs.Pacing.{MendsOn};

use crate::loss_recovery::LossRecovery;
use crate::pacer::Pacer;

/// How many received units after the first outstanding one mean that it is missing.
const MISSING: u16 = 3;

impl Pacer {
    /// Everything that was outstanding when the repair began is acknowledged.
    ///
    /// If more was sent again than was known to be missing, duplicates caused by that mean nothing.
    /// Otherwise received units after the first outstanding one mean that it is missing too.
    pub(crate) fn leave(&mut self, now: u64)
        ensures counts { self.new.out ≡ self.old.out }
        ensures timer { self.new.timer ≡ self.old.timer }
        ensures base { self.new.base ≡ self.old.base }
        ensures credit { (self.new.credit ≡ self.old.credit) × (self.new.tick ≡ self.old.tick) }
        ensures trip { self.new.trip ≡ self.old.trip }
        ensures ended { self.new.ended ≡ self.old.ended }
        ensures mends { MendsOn self.old now self.new }
        // The repair ends, or the next one begins.
        ensures ends { (end : ℕ) → self.old.recover ≡ Some end → EndsRepair self.old self.new
            ⊎ (IsTrue self.old.mends × (3 ≤ self.old.left) × BeginsRepair self.old now self.new) }
    {
        let blind = self.repair.messy || self.repair.timed;
        self.repair = LossRecovery::new();
        self.past = self.next();
        self.in_flight = 0;
        if blind {
            let since = now.saturating_sub(self.trip.with_slack());
            self.ignore = self.repairs.count_since(since);
            self.left = 0;
        } else if self.left >= MISSING {
            self.enter(now);
        } else {
            self.left = 0;
        }
    }
}
