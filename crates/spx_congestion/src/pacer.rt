//! The state of a pacer.

ghost use Rattle.std.specs.Prelude.{◌≡◌, ◌&&◌, IfOk, is_some, not};
ghost use Rattle.spx_congestion.specs.Measured.{IsBounded, trip_of};
ghost use Rattle.spx_congestion.specs.Pacing.{PacerView, saturating_sum, flight, made_pacer, place_again};
ghost use Rattle.spx_congestion.specs.Pacing.{with_outstanding};

use crate::loss_recovery::LossRecovery;
use crate::round_trip::RoundTrip;
use crate::send_budget::SendBudget;
use crate::send_times::SendTimes;
use crate::window::{UNIT, Window};
use ipx_wire::OutOfMemory;
use std::alloc::Global;
use std::marker::Model;

/// When the units of one connection are sent.
///
/// It works beside a manual link. The caller tells it of each packet that the link read, by
/// [`Pacer::heard`], or gave, by [`Pacer::gave`]. Before each poll of the link the caller asks what
/// the link may do, by [`Pacer::plan`]. [`Pacer::next_due`] says when to wake up without a packet.
/// Times are in milliseconds from any start, and the caller passes them.
#[derive(Drop)]
pub struct Pacer {
    pub(crate) trip: RoundTrip,
    pub(crate) window: Window,
    pub(crate) credit: SendBudget,
    pub(crate) repair: LossRecovery,
    /// The position of the first outstanding unit, and how many are outstanding.
    pub(crate) base: u64,
    pub(crate) out: u16,
    /// How many of these are no longer in flight, as they were received or given up, and how many
    /// retransmissions are in flight.
    pub(crate) left: u16,
    pub(crate) in_flight: u16,
    /// The number of duplicates since the last acknowledgement of a unit. `ignore` more are
    /// expected from unneeded repairs, up to the position `past`.
    pub(crate) dup_acks: u16,
    pub(crate) ignore: u64,
    pub(crate) past: u64,
    /// No repair begins again before this position.
    pub(crate) safe: u64,
    /// Since when the pacer waits for an acknowledgement.
    pub(crate) timer: Option<u64>,
    /// When a unit was last sent.
    pub(crate) spoke: Option<u64>,
    /// Whether the end of the connection was sent.
    pub(crate) ended: bool,
    /// When each unit was sent, if it was sent only once.
    pub(crate) sent: SendTimes,
    /// When units were sent again, by the number of earlier retransmissions.
    pub(crate) repairs: SendTimes,
    pub(crate) repaired: u64,
}

impl Model for Pacer {
    ghost Value = { PacerView };

    ghost view = { λ p. record {
      base = p.base;
      out = p.out;
      left = p.left;
      in_flight = p.in_flight;
      from = p.repair.from;
      to = p.repair.to;
      window = p.window.size;
      credit = p.credit.amount;
      tick = p.credit.tick;
      trip = trip_of p.trip;
      timer = p.timer;
      ended = p.ended;
      recover = p.repair.recover;
      run = p.repair.run;
      fixed = p.repair.fixed;
      mends = is_some p.repair.recover && not p.repair.timed;
      fixed_at = p.repair.fixed_at;
      tries = p.repair.tries;
      duplicates = p.dup_acks;
      sent = p.sent;
    } };
}

impl Pacer {
    /// A pacer for a connection that is about to be made. It allocates all the memory that it ever
    /// needs, and is refused only if out of memory.
    pub fn new(alloc: Global) -> Result<Pacer, OutOfMemory>
        ensures { IfOk result (λ p. p ≡ made_pacer) }
    {
        let sent = SendTimes::new(alloc)?;
        let repairs = SendTimes::new(alloc)?;
        Ok(Pacer {
            trip: RoundTrip::new(),
            window: Window::new(),
            credit: SendBudget::new(),
            repair: LossRecovery::new(),
            base: 0,
            out: 0,
            left: 0,
            in_flight: 0,
            dup_acks: 0,
            ignore: 0,
            past: 0,
            safe: 0,
            timer: None,
            spoke: None,
            ended: false,
            sent,
            repairs,
            repaired: 0,
        })
    }

    /// The position of the next new unit.
    pub(crate) fn next(&self) -> u64
        ensures { result ≡ saturating_sum self.now.base self.now.out }
    {
        self.base.saturating_add(u64::from(self.out))
    }

    /// How many units are in flight.
    pub(crate) fn flight(&self) -> u64
        ensures { result ≡ flight self.now }
    {
        u64::from(self.out.saturating_sub(self.left)) + u64::from(self.in_flight)
    }

    /// How many more the window allows.
    pub(crate) fn spare(&self) -> u64
        ensures { result ≡ Rattle.spx_congestion.specs.Pacing.spare self.now }
    {
        (self.window.size() / UNIT).saturating_sub(self.flight())
    }

    /// The place of the first outstanding unit that is to be sent again.
    pub(crate) fn place_again(&self) -> Option<u16>
        ensures { result ≡ place_again self.now }
    {
        if self.repair.is_idle(self.base) {
            return None;
        }
        let place = self.repair.from.saturating_sub(self.base);
        if place < u64::from(self.out) {
            Some(place as u16)
        } else {
            None
        }
    }

    /// So many units are outstanding now, as the link says.
    pub(crate) fn count(&mut self, out: u16, now: u64)
        ensures value { self.new ≡ with_outstanding self.old out now }
        ensures timed { IsBounded self.new.trip }
    {
        self.out = out;
        self.left = self.left.min(out);
        self.in_flight = if out > 0 { self.in_flight } else { 0 };
        self.timer = match self.timer {
            _ if out == 0 => None,
            Some(since) => Some(since),
            None => Some(now),
        };
    }
}
