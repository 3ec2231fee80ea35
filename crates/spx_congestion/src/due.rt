//! When something is due by itself.

ghost use Rattle.std.specs.Prelude.{◌≡◌, ◌+◌, ◌≤◌, IfSome, IsNone, IsTrue, false};
ghost use Rattle.spx_congestion.specs.Pacing.{asks_often, has_given_up, holds_back, missing_at};
ghost use Rattle.spx_congestion.specs.Pacing.{waits_till, wakes_at};

use crate::pacer::Pacer;

/// The longest time, in milliseconds, until a plan is needed again while something is outstanding.
const MAX_SLEEP: u64 = 60_000;

/// After so many timeouts in a row a connection is given up.
const MAX_TIMEOUTS: u32 = 10;

impl Pacer {
    /// The time at which the plan may change, if nothing is heard before.
    ///
    /// None only if nothing is outstanding and nothing is held back.
    pub fn next_due(&self, now: u64) -> Option<u64>
        ensures value { result ≡ wakes_at self.now now }
        ensures rests { IsNone result → (self.now.out ≡ 0) × (holds_back self.now ≡ false) }
        ensures none { self.now.out ≡ 0 → holds_back self.now ≡ false → IsNone result }
        ensures soon { IsTrue (holds_back self.now) → IfSome result (λ at. at ≤ now + 1) }
        // So a caller never sleeps more than a minute past a timeout.
        ensures bound { IfSome result (λ at. at ≤ now + 60000) }
    {
        if self.holds_back() {
            let soon = now.saturating_add(1);
            return Some(soon.min(self.wakes().unwrap_or(soon)));
        }
        if self.out == 0 {
            return None;
        }
        let latest = now.saturating_add(MAX_SLEEP);
        Some(self.wakes().unwrap_or(now).min(latest))
    }

    /// Whether the connection is to be given up: after ten timeouts in a row, with no
    /// acknowledgement of anything new since the first wait began.
    ///
    /// A caller asks this after each plan.
    pub fn has_given_up(&self) -> bool
        ensures { result ≡ has_given_up self.now }
    {
        self.trip.timeouts() >= MAX_TIMEOUTS
    }

    /// When the wait for an acknowledgement, or for a unit that was sent again, is over. None if it
    /// does not wait.
    fn wakes(&self) -> Option<u64>
        ensures { result ≡ Rattle.spx_congestion.specs.Pacing.wakes self.now }
    {
        match (self.waits_till(), self.repair_due()) {
            (Some(till), Some(due)) => Some(till.min(due)),
            (till, _) => till,
        }
    }

    /// Whether a unit could be sent now, but lacks credit or waits for a retransmission.
    fn holds_back(&self) -> bool
        ensures { result ≡ holds_back self.now }
    {
        self.place_again().is_some() || (!self.credit.is_enough() && self.spare() > 0)
    }

    /// Until when the pacer waits for an acknowledgement.
    pub(crate) fn waits_till(&self) -> Option<u64>
        ensures { result ≡ waits_till self.now }
    {
        let wait = if self.asks_often() {
            self.trip.wait().max(self.trip.end_wait())
        } else {
            self.trip.wait()
        };
        Some(self.timer?.saturating_add(wait))
    }

    /// Whether the peer is asked often. The end of the connection was sent, and either only the end
    /// is outstanding, or a timeout came since anything new was acknowledged.
    fn asks_often(&self) -> bool
        ensures { result ≡ asks_often self.now }
    {
        self.ended && (self.out == 1 || self.trip.timeouts() > 0)
    }

    /// When the first outstanding unit, which was sent again, is sent once more. If the peer is
    /// asked often, that is half a second to a second after it was sent.
    pub(crate) fn repair_due(&self) -> Option<u64>
        ensures { result ≡ missing_at self.now }
    {
        if self.asks_often() && self.repair.is_idle(self.base) {
            let went = self.repair.fixed_at.max(self.timer.unwrap_or(0));
            return Some(went.saturating_add(self.trip.end_wait()));
        }
        self.repair.missing_at(self.base, self.trip.with_slack())
    }

    /// When an unused window decreases.
    pub(crate) fn rests_at(&self) -> Option<u64> {
        let spoke = self.spoke?;
        if self.out > 0 {
            return None;
        }
        Some(spoke.saturating_add(self.trip.plain_wait()))
    }
}
