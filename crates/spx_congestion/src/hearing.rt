//! What the pacer learns from a packet that the link read.

ghost use Rattle.std.specs.Prelude.{◌≡◌, ◌+◌, ◌<◌, ◌⊎◌, ◌&&◌, ◌==◌, IsTrue, None, Some};
ghost use Rattle.std.specs.Prelude.{true};
ghost use Rattle.spx_congestion.specs.Hearing.{Acknowledges, Hears, Repairs, Repeats, measured};
ghost use Rattle.spx_congestion.specs.Hearing.{sample_from};
ghost use Rattle.spx_congestion.specs.Measured.{IsBounded, heard_trip, sampled_since};
ghost use Rattle.spx_congestion.specs.Pacing.{MendsOn, saturating_sum, flight};
ghost use Rattle.spx_congestion.specs.Pacing.{waited_since};

use crate::loss_recovery::LossRecovery;
use crate::pacer::Pacer;
use crate::window::UNIT;
use spx_link::Numbers;

/// How many duplicates say that a unit is missing (RFC 5681).
const MISSING: u16 = 3;

impl Pacer {
    /// The link read a packet, which changed its numbers from `before` to `after`. `joined` is
    /// whether it is the reply to the request.
    ///
    /// A packet that acknowledges no unit, brings none, and allows no more is a duplicate: a unit
    /// after a missing one was received. Three of them mean that a unit is missing, fewer if fewer
    /// are outstanding (RFC 5681, RFC 5827).
    pub fn heard(&mut self, before: Numbers, after: Numbers, joined: bool, now: u64)
        ensures { Hears self.old before after joined now self.new }
    {
        self.answered(joined, now);
        let flight = self.flight();
        let units = before.out.saturating_sub(after.out);
        if units > 0 {
            self.acknowledged(units, after.out, flight, now);
        } else if after.out > 0 && before.room >= after.room && before.expected == after.expected {
            self.count(after.out, now);
            self.doubled(now);
        } else {
            self.count(after.out, now);
        }
    }

    /// If the packet is the reply to the request, the request was answered.
    fn answered(&mut self, joined: bool, now: u64)
        ensures value { self.new
            ≡ record self.old { trip = heard_trip joined self.old.trip now } }
        ensures doubled { self.new.trip.doubled ≡ self.old.trip.doubled }
    {
        if joined {
            self.trip.answer(now);
        }
    }

    /// So many units were acknowledged. `flight` units were in flight before.
    fn acknowledged(&mut self, units: u16, out: u16, flight: u64, now: u64)
        ensures counts { self.new.out ≡ out }
        ensures timer { self.new.timer ≡ waited_since None out now }
        ensures doubled { self.new.trip.doubled ≡ 0 }
        ensures base { self.new.base ≡ saturating_sum self.old.base units }
        ensures credit { (self.new.credit ≡ self.old.credit) × (self.new.tick ≡ self.old.tick) }
        ensures mends { MendsOn self.old now self.new }
        ensures ended { self.new.ended ≡ self.old.ended }
        ensures timed { IsBounded self.new.trip }
        ensures moves { Acknowledges self.old units out now self.new }
        ensures measures { self.new.trip ≡ measured self.old units self.old.trip now }
    {
        self.measure(units, now);
        self.trip.come_back();
        self.dup_acks = 0;
        self.base = self.base.saturating_add(u64::from(units));
        self.left = self.left.saturating_sub(units.saturating_sub(1));
        self.timer = None;
        self.count(out, now);
        if self.base > self.past {
            self.ignore = 0;
        }
        match self.repair.recover {
            Some(recover) => self.mend(units, recover, now),
            None => self.grow(units, flight, now),
        }
    }

    /// When the last unit that is acknowledged was sent, if it gives the round trip: it was sent
    /// only once (RFC 6298, Karn's rule), with no duplicate before it and nothing repaired.
    fn sample_from(&self, units: u16) -> Option<u64>
        ensures { result ≡ sample_from self.now units }
    {
        if self.dup_acks > 0 || self.repair.is_on() {
            return None;
        }
        let last = self.base.saturating_add(u64::from(units.saturating_sub(1)));
        self.sent.at(last)
    }

    /// Measures the round trip of the last unit that is acknowledged. If the least round trip is
    /// about to be forgotten, a possible queue is drained first, so that a longer path is not taken
    /// for a queue.
    fn measure(&mut self, units: u16, now: u64)
        ensures { self.new ≡ record self.old {
          trip = sampled_since (sample_from self.old units) self.old.trip now;
          window = self.new.window;
        } }
    {
        let Some(sent) = self.sample_from(units) else {
            return;
        };
        if let Some((least, trip)) = self.trip.forgotten(now) {
            self.window.drain(least, trip);
        }
        self.trip.sample(now.saturating_sub(sent), now);
    }

    /// The window grows, if it was the limit.
    fn grow(&mut self, units: u16, flight: u64, now: u64)
        ensures { self.new ≡ record self.old { window = self.new.window } }
    {
        if self.window.is_limit(flight) {
            self.window.grow(u64::from(units), now, &self.trip);
        }
    }

    /// Units were acknowledged during a repair.
    fn mend(&mut self, units: u16, recover: u64, now: u64)
        ensures counts { self.new.out ≡ self.old.out }
        ensures timer { self.new.timer ≡ self.old.timer }
        ensures base { self.new.base ≡ self.old.base }
        ensures credit { (self.new.credit ≡ self.old.credit) × (self.new.tick ≡ self.old.tick) }
        ensures trip { self.new.trip ≡ self.old.trip }
        ensures ended { self.new.ended ≡ self.old.ended }
        ensures mends { MendsOn self.old now self.new }
        ensures repairs { self.old.recover ≡ Some recover
            → Repairs recover self.old now self.new }
    {
        self.in_flight = self.in_flight.saturating_sub(1);
        if self.base >= recover {
            self.leave(now);
            return;
        }
        self.repair
            .go_on(self.base, u64::from(self.left), recover, now);
        if self.repair.timed {
            self.window
                .widen_to_threshold(u64::from(units.min(2)) * UNIT);
        }
    }

    /// A duplicate was received.
    fn doubled(&mut self, now: u64)
        ensures counts { self.new.out ≡ self.old.out }
        ensures timer { (self.new.timer ≡ self.old.timer) ⊎ ((self.new.timer ≡ Some now)
            × IsTrue self.old.mends × (self.old.trip.doubled ≡ 0)
            × (flight self.new < flight self.old)) }
        ensures base { self.new.base ≡ self.old.base }
        ensures credit { (self.new.credit ≡ self.old.credit) × (self.new.tick ≡ self.old.tick) }
        ensures trip { self.new.trip ≡ self.old.trip }
        ensures ended { self.new.ended ≡ self.old.ended }
        ensures mends { MendsOn self.old now self.new }
        ensures timed { IsBounded self.new.trip }
        ensures repeats { Repeats self.old now self.new }
    {
        if self.ignore > 0 {
            self.ignore -= 1;
            return;
        }
        self.dup_acks = self.dup_acks.saturating_add(1);
        let flight = self.flight();
        if self.repair.counts_repairs() && self.in_flight > 0 {
            self.in_flight -= 1;
        } else if self.left < self.out {
            self.left += 1;
        }
        if self.repair.is_on() {
            if self.flight() < flight && self.waits_anew() {
                self.timer = Some(now);
            }
            self.widen();
        } else if self.first_is_missing() {
            self.enter(now);
        }
    }

    /// Whether a duplicate restarts the timer. After a timeout it does not, since the first
    /// outstanding unit is sent again only at the next one.
    fn waits_anew(&self) -> bool
        ensures { result ≡ (self.now.mends && (self.now.trip.doubled == 0)) }
    {
        self.repair.is_on() && !self.repair.timed && self.trip.is_first_wait()
    }

    /// Whether the duplicates mean that the first outstanding unit is missing, and not that a
    /// received unit was sent again (RFC 6582).
    fn first_is_missing(&self) -> bool {
        let wanted = self.out.saturating_sub(1).max(1).min(MISSING);
        self.dup_acks >= wanted && self.base >= self.safe
    }

    /// A packet left the line during a repair.
    fn widen(&mut self)
        ensures { self.new ≡ record self.old { window = self.new.window } }
    {
        if self.repair.timed {
            self.window.widen_to_threshold(UNIT / 2);
        } else if !self.repair.crowded {
            self.window.widen_in_repair();
        }
    }

    /// A repair begins with the first outstanding unit.
    pub(crate) fn enter(&mut self, now: u64)
        ensures { self.new ≡ record self.old {
          in_flight = 0;
          from = self.old.base;
          to = saturating_sum self.old.base 1;
          window = self.new.window;
          recover = Some (saturating_sum self.old.base self.old.out);
          run = 1;
          fixed = saturating_sum self.old.base 1;
          mends = true;
          fixed_at = now;
          tries = 0;
        } }
    {
        let next = self.next();
        let queued = self.trip.is_queued(now);
        self.safe = next;
        self.window.lessen(queued);
        self.repair = LossRecovery::begin(self.base, next, now);
        self.repair.crowded = queued;
        self.in_flight = 0;
    }
}
