//! Retransmission: which units are to be sent again, and which were.

ghost use Rattle.std.specs.Prelude.{◌≡◌, ◌+◌, ◌-◌, ◌*◌, ◌^◌, ◌&&◌, Some, None, if◌then◌else◌, is_some, min};
ghost use Rattle.std.specs.Prelude.{◌⊎◌, false, not};
ghost use Rattle.spx_congestion.specs.Asking.{AsksUpTo, RunsAhead, RunsOn, asked_by, is_idle};
ghost use Rattle.spx_congestion.specs.Pacing.{saturating_sum};

/// The state of a repair. Positions count units from 0.
///
/// It begins with the first missing unit, and lasts until everything is acknowledged that was
/// outstanding then.
#[derive(Clone, Copy)]
pub struct LossRecovery {
    /// The position at which it ends. None if nothing is being repaired.
    pub recover: Option<u64>,
    /// How many units, from the first outstanding one on, may be sent again.
    pub run: u64,
    /// The range of positions that are to be sent again.
    pub from: u64,
    pub to: u64,
    /// The end of the range that was marked for retransmission so far, and when the first
    /// outstanding unit was marked.
    pub fixed: u64,
    pub fixed_at: u64,
    /// How often the first outstanding unit was sent again and was missing again.
    pub tries: u32,
    /// Whether there was a queue on the line when it began.
    pub crowded: bool,
    /// Whether more units are sent again than are known to be missing.
    pub messy: bool,
    /// Whether no acknowledgement advanced it yet.
    pub fresh: bool,
    /// Whether a timeout passed.
    pub timed: bool,
}

/// The longest run after a timeout.
const MAX_RUN: u64 = 64;

impl LossRecovery {
    /// Nothing is being repaired.
    pub fn new() -> LossRecovery
        ensures off { result.recover ≡ None }
        ensures run { result.run ≡ 1 }
        ensures from { result.from ≡ 0 }
        ensures to { result.to ≡ 0 }
        ensures fixed { result.fixed ≡ 0 }
        ensures fixed_at { result.fixed_at ≡ 0 }
        ensures tries { result.tries ≡ 0 }
    {
        LossRecovery {
            recover: None,
            run: 1,
            from: 0,
            to: 0,
            fixed: 0,
            fixed_at: 0,
            tries: 0,
            crowded: false,
            messy: false,
            fresh: false,
            timed: false,
        }
    }

    /// A repair that begins with the unit at `base`, and ends at `next`.
    pub fn begin(base: u64, next: u64, now: u64) -> LossRecovery
        ensures on { result.recover ≡ Some next }
        ensures run { result.run ≡ 1 }
        ensures from { result.from ≡ base }
        ensures to { result.to ≡ saturating_sum base 1 }
        ensures fixed { result.fixed ≡ saturating_sum base 1 }
        ensures fixed_at { result.fixed_at ≡ now }
        ensures tries { result.tries ≡ 0 }
        ensures timed { result.timed ≡ false }
    {
        LossRecovery {
            recover: Some(next),
            run: 1,
            from: base,
            to: base.saturating_add(1),
            fixed: base.saturating_add(1),
            fixed_at: now,
            tries: 0,
            crowded: false,
            messy: false,
            fresh: true,
            timed: false,
        }
    }

    /// Whether something is being repaired.
    pub fn is_on(&self) -> bool
        ensures { result ≡ is_some self.now.recover }
    {
        self.recover.is_some()
    }

    /// Whether nothing that is outstanding from `base` on is to be sent again.
    pub fn is_idle(&self, base: u64) -> bool
        ensures { result ≡ is_idle base self.now.from self.now.to }
    {
        self.to <= self.from.max(base)
    }

    /// Whether a duplicate acknowledges a retransmission, and not a new unit.
    pub fn counts_repairs(&self) -> bool {
        self.is_on() && (self.run > 1 || self.timed)
    }

    /// An acknowledgement was received, and the unit at `base` is the next missing one. `left` of
    /// those after it were received.
    pub fn go_on(&mut self, base: u64, left: u64, recover: u64, now: u64)
        ensures recover { self.new.recover ≡ self.old.recover }
        ensures timed { self.new.timed ≡ self.old.timed }
        ensures tries { self.new.tries ≡ 0 }
        ensures fixed_at { (self.new.fixed_at ≡ now) ⊎ (self.new.fixed_at ≡ self.old.fixed_at) }
        ensures runs { RunsOn (not self.old.timed) (recover - base) (recover - base - left)
            self.old.run self.new.run }
        ensures asks { AsksUpTo base (min (saturating_sum base self.new.run) recover) now
            (asked_by self.old) (asked_by self.new) }
    {
        self.tries = 0;
        let wanted = recover.saturating_sub(base);
        if self.timed {
            self.run = self.run.saturating_mul(2).min(MAX_RUN);
        } else if self.fresh {
            self.choose_run(wanted, wanted.saturating_sub(left));
        }
        self.fresh = false;
        self.ask(base, recover, now);
    }

    /// Chooses how many units may be sent again, if `missing` of `wanted` units are missing: a
    /// sixth of `wanted`, if many are. If there was a queue, twice as many as are missing, if that
    /// is more, since every second unit beyond a line's capacity is lost.
    fn choose_run(&mut self, wanted: u64, missing: u64)
        ensures value { self.new ≡ record self.old { run = self.new.run; messy = self.new.messy } }
        ensures runs { (self.new.run ≡ 1) ⊎ RunsAhead wanted missing self.new.run }
    {
        let many = self.crowded || missing.saturating_mul(6) > wanted;
        if missing > 6 && many {
            let twice = if self.crowded {
                missing.saturating_mul(2)
            } else {
                0
            };
            self.run = wanted.div_ceil(6).max(twice);
            self.messy = true;
        } else {
            self.run = 1;
        }
    }

    /// Adds the units of the run that were not yet to be sent again.
    fn ask(&mut self, base: u64, recover: u64, now: u64)
        ensures recover { self.new.recover ≡ self.old.recover }
        ensures timed { self.new.timed ≡ self.old.timed }
        ensures tries { self.new.tries ≡ self.old.tries }
        ensures run { self.new.run ≡ self.old.run }
        ensures fixed_at { (self.new.fixed_at ≡ now) ⊎ (self.new.fixed_at ≡ self.old.fixed_at) }
        ensures asks { AsksUpTo base (min (saturating_sum base self.old.run) recover) now
            (asked_by self.old) (asked_by self.new) }
    {
        let was_idle = self.is_idle(base);
        let first = self.fixed.max(base);
        let end = base.saturating_add(self.run).min(recover);
        if was_idle {
            self.from = first;
            self.to = first;
            self.fixed_at = now;
        }
        if first < end {
            self.to = end;
            self.fixed = end;
            if first == base {
                self.fixed_at = now;
            }
        }
    }

    /// When the first outstanding unit, which was sent again, counts as missing again: after a
    /// round trip and its tolerance, which doubles each time. None if others are to be sent first.
    pub fn missing_at(&self, base: u64, slack: u64) -> Option<u64>
        ensures { result ≡ (if is_some self.now.recover && not self.now.timed
            && is_idle base self.now.from self.now.to
            then Some (saturating_sum self.now.fixed_at (slack * 2 ^ min self.now.tries 6)) else None) }
    {
        if !self.is_on() || self.timed || !self.is_idle(base) {
            return None;
        }
        let times = 2_u64.saturating_pow(self.tries.min(6));
        Some(self.fixed_at.saturating_add(slack.saturating_mul(times)))
    }

    /// The first outstanding unit is to be sent once more.
    pub fn repeat(&mut self, base: u64)
        ensures { self.new ≡ record self.old {
          from = base;
          to = saturating_sum base 1;
          tries = min (self.old.tries + 1) (2 ^ 32 - 1);
        } }
    {
        self.from = base;
        self.to = base.saturating_add(1);
        self.tries = self.tries.saturating_add(1);
    }
}
