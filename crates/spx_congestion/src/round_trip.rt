//! The measured round trip, and the timeout of an acknowledgement (RFC 6298).

ghost use Rattle.std.specs.Prelude.{◌≡◌, ◌==◌, ◌+◌, ◌-◌, ◌^◌, max, min, slice_set};
ghost use Rattle.spx_congestion.specs.Measured.{answered, are_over, asked_now, doubled_wait};
ghost use Rattle.spx_congestion.specs.Measured.{made_trip, recent_before, replied, sampled};
ghost use Rattle.spx_congestion.specs.Measured.{slack, trip_of};
ghost use Rattle.spx_congestion.specs.Measured.{turn_after, variation_on};
ghost use Rattle.spx_congestion.specs.Remembered.{least_of};

use crate::least_trip::LeastTrip;
use crate::timeout::Timeout;

/// The greatest timeout that doubling gives.
const MAX_DOUBLED: u64 = 4000;

/// The longest time before the end of a connection is sent again. A listener keeps a connection
/// only some seconds after its end.
const MAX_END_WAIT: u64 = 1000;

/// The shortest time before the end of a connection is sent again, if only the end is outstanding.
const LEAST_END_WAIT: u64 = 500;

/// How many samples are used to detect a queue.
const RECENT: usize = 8;

/// The round trips of a connection, in milliseconds.
#[derive(Clone, Copy)]
pub struct RoundTrip {
    /// Eight times the smoothed round trip.
    smooth: Option<u64>,
    /// Four times its variation.
    variation: u64,
    /// The round trip of the request, which is no sample.
    first: Option<u64>,
    /// The timeout without doubling.
    wait: Timeout,
    /// How often in a row the timeout passed.
    doubled: u32,
    least: LeastTrip,
    recent: [u64; RECENT],
    /// Which of the recent samples is replaced next.
    turn: usize,
    /// Whether the request was sent, and when, if it was sent only once and is not answered yet.
    asked: bool,
    asked_at: Option<u64>,
}

impl RoundTrip {
    /// Nothing is measured yet.
    pub fn new() -> RoundTrip
        ensures { trip_of result ≡ made_trip }
    {
        RoundTrip {
            smooth: None,
            variation: 0,
            first: None,
            wait: Timeout::new(),
            doubled: 0,
            least: LeastTrip::new(),
            recent: [0; RECENT],
            turn: 0,
            asked: false,
            asked_at: None,
        }
    }

    /// The request was sent. If it was sent before, it is not measured.
    pub fn ask(&mut self, now: u64)
        ensures { trip_of self.new ≡ asked_now (trip_of self.old) now }
    {
        self.asked_at = if self.asked { None } else { Some(now) };
        self.asked = true;
    }

    /// The reply to the request was received. It is measured if the request was sent only once.
    pub fn answer(&mut self, now: u64)
        ensures value { trip_of self.new ≡ replied (trip_of self.old) now }
        ensures doubled { self.new.doubled ≡ self.old.doubled }
    {
        if let Some(asked_at) = self.asked_at {
            self.answer_request(now.saturating_sub(asked_at));
        }
        self.asked_at = None;
    }

    /// A request was answered at its first sending.
    pub fn answer_request(&mut self, trip: u64)
        ensures { trip_of self.new ≡ answered (trip_of self.old) trip }
    {
        self.first = Some(trip);
        self.wait = Timeout::of(trip.saturating_mul(3));
    }

    /// A unit that was sent only once was acknowledged now.
    pub fn sample(&mut self, trip: u64, now: u64)
        ensures { trip_of self.new ≡ sampled (trip_of self.old) (max trip 1) now }
    {
        let trip = trip.max(1);
        let smooth = self.smooth_on(trip);
        self.smooth = Some(smooth);
        self.wait = Timeout::of((smooth / 8).saturating_add(self.variation.max(1)));
        self.least.note(trip, now);
        self.note(trip);
    }

    /// Eight times the smoothed round trip after a sample. The variation is what it is after it.
    fn smooth_on(&mut self, trip: u64) -> u64
        ensures value { result ≡ Rattle.spx_congestion.specs.Measured.smooth_on self.old.smooth trip }
        ensures varies { self.new ≡ record self.old {
          variation = variation_on self.old.smooth self.old.variation trip;
          recent = recent_before self.old.smooth self.old.recent trip;
        } }
    {
        match self.smooth {
            None => {
                self.variation = trip.saturating_mul(2);
                self.recent = [trip; RECENT];
                trip.saturating_mul(8)
            }
            Some(smooth) => {
                let off = (smooth / 8).abs_diff(trip);
                self.variation = (self.variation - self.variation / 4).saturating_add(off);
                (smooth - smooth / 8).saturating_add(trip)
            }
        }
    }

    /// The round trip without a queue and the present one, if the first is about to be forgotten
    /// and there seems to be a queue on the line.
    pub fn forgotten(&self, now: u64) -> Option<(u64, u64)>
        ensures { result ≡ Rattle.spx_congestion.specs.Measured.forgotten (trip_of self.now) now
            (least_of self.now.least) }
    {
        let least = self.least.last()?;
        if self.least.is_forgotten(now) && self.is_over(least, 8, 16) {
            Some((least, self.smoothed()))
        } else {
            None
        }
    }

    /// Adds a sample to the recent ones.
    fn note(&mut self, trip: u64)
        ensures { self.new ≡ record self.old {
          recent = slice_set self.old.recent self.old.turn trip;
          turn = turn_after self.old.turn;
        } }
    {
        if self.turn < RECENT {
            self.recent[self.turn] = trip;
        }
        self.turn = if self.turn < RECENT - 1 {
            self.turn + 1
        } else {
            0
        };
    }

    /// The smoothed round trip, at least 1. Before the first sample it is the round trip of the
    /// request. If the request was sent more than once, it is the timeout.
    pub fn smoothed(&self) -> u64
        ensures { result ≡ (trip_of self.now).smoothed }
    {
        match (self.smooth, self.first) {
            (Some(smooth), _) => (smooth / 8).max(1),
            (None, Some(first)) => first.max(1),
            (None, None) => self.wait.millis().max(1),
        }
    }

    /// A round trip with its tolerance. A unit that was sent again and is not acknowledged by then
    /// is missing again (RFC 8985, the reordering window).
    pub fn with_slack(&self) -> u64
        ensures { result ≡ slack (trip_of self.now) }
    {
        let trip = self.smoothed();
        trip.saturating_add((trip / 4).max(10))
    }

    /// Whether there is a queue on the line: the least of the last eight samples exceeds the least
    /// of the last seconds by an eighth, at least 4 and at most 16 (RFC 9406, its threshold).
    pub fn is_queued(&self, now: u64) -> bool
        ensures { result ≡ Rattle.spx_congestion.specs.Measured.is_queued (trip_of self.now) now }
    {
        let least = self.least.get(now);
        least.is_some_and(|least| self.is_over(least, 8, 16))
    }

    /// Whether a queue begins to form: the excess is a 32nd, at least 4 and at most 8.
    pub fn is_slowing(&self, now: u64) -> bool
        ensures { result ≡ Rattle.spx_congestion.specs.Measured.is_slowing (trip_of self.now) now }
    {
        let least = self.least.get(now);
        least.is_some_and(|least| self.is_over(least, 32, 8))
    }

    /// Whether the last eight samples exceed the least one by that fraction of it, at least 4 and
    /// at most `most`.
    fn is_over(&self, least: u64, part: u64, most: u64) -> bool
        ensures { result ≡ are_over self.now.recent part most least }
    {
        let over = (least / part.max(1)).max(4).min(most);
        self.recent
            .iter()
            .all(|trip| *trip >= least.saturating_add(over))
    }

    /// The timeout without doubling.
    pub fn plain_wait(&self) -> u64
        ensures { result ≡ (trip_of self.now).wait }
    {
        self.wait.millis()
    }

    /// The timeout of an acknowledgement.
    pub fn wait(&self) -> u64
        ensures { result ≡ doubled_wait (trip_of self.now) }
    {
        let wait = self.wait.millis();
        let times = 2_u64.saturating_pow(self.doubled);
        wait.saturating_mul(times).min(MAX_DOUBLED).max(wait)
    }

    /// If only the end of a connection is outstanding, how long to wait before it is sent again.
    pub fn end_wait(&self) -> u64
        ensures { result ≡ Rattle.spx_congestion.specs.Measured.end_wait (trip_of self.now) }
    {
        self.wait.millis().max(LEAST_END_WAIT).min(MAX_END_WAIT)
    }

    /// Whether no timeout passed since the last acknowledgement.
    pub fn is_first_wait(&self) -> bool
        ensures { result ≡ (self.now.doubled == 0) }
    {
        self.doubled == 0
    }

    /// How many timeouts passed in a row.
    pub fn timeouts(&self) -> u32
        ensures { result ≡ (trip_of self.now).doubled }
    {
        self.doubled
    }

    /// A timeout passed.
    pub fn back_off(&mut self)
        ensures { self.new ≡ record self.old { doubled = min (self.old.doubled + 1) (2 ^ 32 - 1) } }
    {
        self.doubled = self.doubled.saturating_add(1);
    }

    /// Something was acknowledged.
    pub fn come_back(&mut self)
        ensures { self.new ≡ record self.old { doubled = 0 } }
    {
        self.doubled = 0;
    }
}
