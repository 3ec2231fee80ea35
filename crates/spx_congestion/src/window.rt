//! The window: how many units may be in flight, in 256ths of a unit.

ghost use Rattle.std.specs.Prelude.{◌≡◌, ◌≤◌, nat_lt};
ghost use Rattle.spx_congestion.specs.Pacing.{most_rate, rate_of};

use crate::cubic::{grows_in, window_at};
use crate::round_trip::RoundTrip;

/// A unit, as windows count it.
pub const UNIT: u64 = 256;

/// The initial window: 14,418 bytes (RFC 6928: 14,600).
const FIRST: u64 = 27 * UNIT;

/// Below this size little is lost if slow start ends too late.
const SMALL: u64 = 256 * UNIT;

/// The least window after a decrease, and the greatest window.
const LEAST: u64 = 4 * UNIT;

const MAX: u64 = 8192 * UNIT;

/// How many units a pacer lets go in a second at most, some 17 MB. With the credit of a few
/// milliseconds that was saved before, fewer than 32,767 go within any 1,000 ms. So a packet that
/// arrives within a second of its sending is fewer than 32,768 numbers old, and its number, of 16
/// bits, is not taken for a later one.
pub const MOST_UNITS_EACH_SECOND: u64 = 32_000;

/// The same for a millisecond, in 256ths of a unit.
const MOST_RATE: u64 = MOST_UNITS_EACH_SECOND * UNIT / 1000;

/// When the cubic growth of the window began, and after how many milliseconds the window is back at
/// the size before the last decrease.
#[derive(Clone, Copy)]
struct Epoch {
    since: u64,
    back_in: u64,
}

/// The window of a sender.
#[derive(Clone, Copy)]
pub struct Window {
    size: u64,
    /// Below it the window is in slow start.
    threshold: u64,
    /// The size before the last decrease.
    top: u64,
    epoch: Option<Epoch>,
    /// The window of three flows that each grow by one unit a round trip.
    estimate: u64,
    /// Whether a queue ended slow start, and nothing was missing since.
    fresh: bool,
    ghost least: { 1024 ≤ size },
    ghost most: { size ≤ 2097152 },
}

impl Window {
    /// The initial window.
    pub fn new() -> Window
        ensures { result.size ≡ 6912 }
    {
        Window {
            size: FIRST,
            threshold: MAX,
            top: 0,
            epoch: None,
            estimate: 0,
            fresh: false,
        }
    }

    /// The window, in 256ths of a unit.
    pub fn size(&self) -> u64
        ensures { result ≡ self.now.size }
    {
        self.size
    }

    /// Whether it is in slow start.
    pub fn is_starting(&self) -> bool
        ensures { result ≡ nat_lt self.now.size self.now.threshold }
    {
        self.size < self.threshold
    }

    /// Whether the window was the limit, with so many units in flight. In slow start half of it is
    /// enough, since the rest still waits for credit.
    pub fn is_limit(&self, flight: u64) -> bool {
        let used = if self.is_starting() {
            flight.saturating_mul(2)
        } else {
            flight
        };
        used.saturating_add(3).saturating_mul(UNIT) >= self.size
    }

    /// So many units were acknowledged while the window was the limit.
    pub fn grow(&mut self, units: u64, now: u64, trip: &RoundTrip) {
        if self.is_to_start_again(now, trip) {
            self.threshold = MAX;
            self.epoch = None;
            self.fresh = false;
        }
        if !self.is_starting() {
            self.climb(units, now, trip);
        } else if self.ends_start(now, trip) {
            self.threshold = self.size;
            self.top = self.size;
            self.fresh = true;
        } else {
            self.widen(units.min(4).saturating_mul(UNIT));
        }
    }

    /// Whether the queue that ended slow start was a false alarm: it is gone within five round
    /// trips (RFC 9406, its conservative slow start).
    fn is_to_start_again(&self, now: u64, trip: &RoundTrip) -> bool {
        let since = match self.epoch {
            Some(epoch) => epoch.since,
            None => now,
        };
        let soon = trip.smoothed().saturating_mul(5);
        self.fresh && !trip.is_slowing(now) && now.saturating_sub(since) <= soon
    }

    /// Whether slow start ends: there is a queue on the line, or one begins and the window is no
    /// longer small.
    fn ends_start(&self, now: u64, trip: &RoundTrip) -> bool {
        trip.is_queued(now) || (self.size >= SMALL && trip.is_slowing(now))
    }

    /// Grows as in RFC 9438, as fast as three flows.
    fn climb(&mut self, units: u64, now: u64, trip: &RoundTrip) {
        let epoch = self.epoch_at(now);
        let share = self.share_of(units.saturating_mul(3));
        self.estimate = self.estimate.saturating_add(share);
        let mut target = self.estimate;
        if !trip.is_queued(now) {
            let at = epoch.since.saturating_add(epoch.back_in);
            let soon = now.saturating_add(trip.smoothed());
            target = target.max(window_at(self.top, at, soon));
        }
        let missing = target
            .min(self.size.saturating_add(self.size / 2))
            .saturating_sub(self.size);
        let part = missing.saturating_mul(units.saturating_mul(UNIT)) / self.size.max(1);
        self.widen(part);
    }

    /// The epoch. If there is none, one begins now.
    fn epoch_at(&mut self, now: u64) -> Epoch {
        if let Some(epoch) = self.epoch {
            return epoch;
        }
        let epoch = Epoch {
            since: now,
            back_in: grows_in(self.top.saturating_sub(self.size)),
        };
        self.estimate = self.size;
        self.epoch = Some(epoch);
        epoch
    }

    /// The growth at the acknowledgement of one unit, if the window grows by half of `units` a
    /// round trip.
    fn share_of(&self, units: u64) -> u64 {
        units.saturating_mul(UNIT * UNIT) / self.size.saturating_mul(2).max(1)
    }

    /// Widens the window, up to the greatest.
    fn widen(&mut self, by: u64) {
        self.size = self.size.saturating_add(by).min(MAX);
    }

    /// Widens the window, up to the threshold of slow start.
    pub fn widen_to_threshold(&mut self, by: u64) {
        let wider = self.size.saturating_add(by).min(self.threshold);
        self.size = self.size.max(wider).min(MAX);
    }

    /// A packet left the line during a repair, and there was no queue.
    pub fn widen_in_repair(&mut self) {
        self.widen(self.share_of(3));
    }

    /// A unit is missing, so the window decreases. It decreases more if there is a queue on the
    /// line, or if slow start may have gone too far.
    pub fn lessen(&mut self, queued: bool) {
        self.top = self.size;
        self.epoch = None;
        let (part, of) = match (self.is_starting(), self.fresh, queued) {
            (true, _, true) => (1, 2),
            (true, _, false) => (3, 5),
            (false, true, _) => (7, 10),
            (false, false, true) => (4, 5),
            (false, false, false) => (19, 20),
        };
        self.size = fraction(self.size, part, of);
        self.threshold = self.size;
        self.fresh = false;
    }

    /// Sets the window to what a round trip without a queue carries, less an eighth, so that the
    /// queue drains.
    pub fn drain(&mut self, least: u64, trip: u64) {
        self.top = self.size;
        self.epoch = None;
        let part = least.min(trip).saturating_mul(7);
        self.size = fraction(self.size, part, trip.saturating_mul(8));
        self.threshold = self.size;
        self.fresh = false;
    }

    /// A timeout passed. `first` is whether it is the first since an acknowledgement.
    pub fn collapse(&mut self, first: bool) {
        if first {
            self.threshold = fraction(self.size, 7, 10);
            self.top = self.size;
            self.epoch = None;
            self.fresh = false;
        }
        self.size = LEAST;
    }

    /// Nothing was in flight for as long as the timeout (RFC 5681).
    pub fn rest(&mut self) {
        self.size = self.size.min(FIRST);
    }

    /// By how much credit grows in a millisecond, in 256ths of a unit. In slow start it is twice
    /// what a round trip carries, otherwise five quarters of it, and never more than the most.
    pub fn rate(&self, trip: u64) -> u64
        ensures value { result
            ≡ rate_of (nat_lt self.now.size self.now.threshold) self.now.size trip }
        ensures bound { result ≤ most_rate }
    {
        let ahead = if self.is_starting() {
            self.size.saturating_mul(2)
        } else {
            self.size.saturating_mul(5) / 4
        };
        (ahead / trip.max(1)).max(1).min(MOST_RATE)
    }
}

/// A fraction of a window, and no less than the least.
fn fraction(size: u64, part: u64, of: u64) -> u64
    ensures least { 1024 ≤ result }
    ensures most { result ≤ 2097152 }
{
    (size.saturating_mul(part) / of.max(1)).max(LEAST).min(MAX)
}
