//! What the link may do at its next poll.

ghost use Rattle.std.specs.Prelude.{◌≡◌, ◌+◌, ◌<◌, ◌≤◌, IfSome, IsTrue};
ghost use Rattle.spx_congestion.specs.Measured.{IsBounded};
ghost use Rattle.spx_congestion.specs.Pacing.{Tends, holds_back, is_over, plan_of, spare, tended};
ghost use Rattle.spx_congestion.specs.Pacing.{waits_till};

use crate::loss_recovery::LossRecovery;
use crate::pacer::Pacer;
use crate::plan::Plan;
use spx_link::{MAX_UNITS, Numbers};

impl Pacer {
    /// What the link with these numbers may do at its next poll, at this time.
    ///
    /// A missing unit is sent again, also the first one after a timeout, and then no new unit goes.
    /// What the window allows is spread over the round trip.
    pub fn plan(&mut self, numbers: Numbers, now: u64) -> Plan
        ensures value { result ≡ plan_of self.new }
        ensures tends { Tends self.old numbers.out now self.new }
        ensures counts { self.new.out ≡ numbers.out }
        ensures most { result.window ≤ 8192 }
        ensures place { IfSome result.again (λ place. place < numbers.out) }
        ensures alone { IfSome result.again (λ _. result.window ≤ numbers.out) }
        ensures within { result.window ≤ numbers.out + spare self.new }
        ensures held { result.window ≤ numbers.out → 0 < spare self.new → numbers.out < 8192
            → IsTrue (holds_back self.new) }
        ensures moves { numbers.out ≡ 0 → result.window ≡ 0 → IsTrue (holds_back self.new) }
    {
        self.count(numbers.out, now);
        self.tend(now);
        let rate = self.window.rate(self.trip.smoothed());
        self.credit.grow(rate, now);
        self.choose()
    }

    /// Does what is due by itself.
    fn tend(&mut self, now: u64)
        ensures value { self.new ≡ record (tended self.old now) { window = self.new.window } }
        ensures counts { self.new.out ≡ self.old.out }
    {
        if is_over(self.waits_till(), now) {
            self.time_out(now);
        } else if is_over(self.repair_due(), now) {
            self.repair.repeat(self.base);
        }
        if is_over(self.rests_at(), now) {
            self.window.rest();
        }
    }

    /// A timeout passed: the first outstanding unit is sent again, and the others in order as units
    /// are acknowledged.
    fn time_out(&mut self, now: u64)
        ensures { IsTrue (is_over (waits_till self.old) now)
            → self.new ≡ record (tended self.old now) { window = self.new.window } }
    {
        let next = self.next();
        self.window.collapse(self.trip.is_first_wait());
        self.trip.back_off();
        self.safe = next;
        self.left = self.out;
        self.in_flight = 0;
        self.timer = Some(now);
        self.repair = LossRecovery::begin(self.base, next, now);
        self.repair.timed = true;
    }

    /// The plan for the present state.
    fn choose(&self) -> Plan
        ensures value { result ≡ plan_of self.now }
        ensures most { result.window ≤ 8192 }
        ensures place { IfSome result.again (λ place. place < self.now.out) }
        ensures alone { IfSome result.again (λ _. result.window ≤ self.now.out) }
        ensures within { result.window ≤ self.now.out + spare self.now }
        ensures held { result.window ≤ self.now.out → 0 < spare self.now → self.now.out < 8192
            → IsTrue (holds_back self.now) }
        ensures wide { (1024 ≤ self.now.window) × (self.now.window ≤ 2097152) }
        ensures timed { IsBounded self.now.trip }
    {
        if !self.credit.is_enough() {
            return Plan {
                window: self.out.min(MAX_UNITS),
                again: None,
            };
        }
        if let Some(place) = self.place_again() {
            return Plan {
                window: 0,
                again: Some(place),
            };
        }
        Plan {
            window: self.open_to(),
            again: None,
        }
    }

    /// How many units may be outstanding, if none is to be sent again.
    fn open_to(&self) -> u16
        ensures { result ≡ Rattle.spx_congestion.specs.Pacing.open_to self.now }
    {
        let more = self.spare().min(self.credit.units());
        (u64::from(self.out).saturating_add(more)).min(u64::from(MAX_UNITS)) as u16
    }
}

/// Whether there is such a time, and it has passed.
fn is_over(at: Option<u64>, now: u64) -> bool
    ensures { result ≡ is_over at now }
{
    at.is_some_and(|at| at <= now)
}
