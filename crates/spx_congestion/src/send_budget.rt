//! Credit: how much may be sent at once, so that units are spread over the round trip.

ghost use Rattle.std.specs.Prelude.{◌≡◌, ◌<◌, ◌+◌, ◌-◌, ◌*◌, ◌/◌, ◌^◌, if◌then◌else◌, max, min, nat_lt};

use crate::window::UNIT;

/// The initial credit, to which it may always grow, in 256ths of a unit.
const FIRST: u64 = 10 * UNIT;

/// The credit of a sender, in 256ths of a unit. Each unit sent costs 256.
#[derive(Clone, Copy)]
pub struct SendBudget {
    amount: u64,
    /// Until when it has grown.
    tick: u64,
}

impl SendBudget {
    /// The initial credit.
    pub fn new() -> SendBudget
        ensures { result ≡ record { amount = 2560; tick = 0 } }
    {
        SendBudget {
            amount: FIRST,
            tick: 0,
        }
    }

    /// Grows the credit until `now` by `rate` a millisecond, up to four milliseconds' worth, or ten
    /// units.
    pub fn grow(&mut self, rate: u64, now: u64)
        requires { rate < 2 ^ 62 }
        ensures amount { self.new.amount ≡ (if nat_lt self.old.tick now
            then min (self.old.amount + rate * (now - self.old.tick)) (max (rate * 4) 2560)
            else self.old.amount) }
        ensures tick { self.new.tick ≡ max self.old.tick now }
    {
        if now <= self.tick {
            return;
        }
        let gained = rate.saturating_mul(now - self.tick);
        let most = rate.saturating_mul(4).max(FIRST);
        self.amount = self.amount.saturating_add(gained).min(most);
        self.tick = now;
    }

    /// Whether there is enough for a unit.
    pub fn is_enough(&self) -> bool
        ensures { result ≡ nat_lt 255 self.now.amount }
    {
        self.amount >= UNIT
    }

    /// How many units the credit is enough for.
    pub fn units(&self) -> u64
        ensures { result ≡ self.now.amount / 256 }
    {
        self.amount / UNIT
    }

    /// A unit was sent.
    pub fn spend(&mut self)
        ensures { self.new ≡ record self.old { amount = self.old.amount - 256 } }
    {
        self.amount = self.amount.saturating_sub(UNIT);
    }
}
