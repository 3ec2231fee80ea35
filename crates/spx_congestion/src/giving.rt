//! How a pacer counts the packets that the link gives.

ghost use Rattle.std.specs.Prelude.{◌≡◌, ◌-◌, Some};
ghost use Rattle.spx_congestion.specs.Pacing.{credit_after, given_by, newest, with_outstanding};
ghost use Rattle.spx_congestion.specs.SendTimes.{with_time};
ghost use Rattle.spx_congestion.specs.declared.sent_kind.SentKind.TheVariants as Gaves;

use crate::pacer::Pacer;
use crate::sent_kind::SentKind;
use spx_link::Numbers;

impl Pacer {
    /// The link gave a packet, and `after` are its numbers since.
    pub fn gave(&mut self, what: SentKind, after: Numbers, now: u64)
        ensures value { self.new ≡ given_by (with_outstanding self.old after.out now) what now }
        ensures counts { self.new.out ≡ after.out }
        ensures credit { self.new.credit ≡ credit_after self.old.credit what }
    {
        self.count(after.out, now);
        match what {
            SentKind::Request => self.trip.ask(now),
            SentKind::Unit => self.sends(now),
            SentKind::End => {
                self.ended = true;
                self.sends(now);
            }
            SentKind::Again => self.sends_again(now),
            SentKind::Other => {}
        }
    }

    /// A unit was sent for the first time.
    fn sends(&mut self, now: u64)
        ensures { self.new ≡ record self.old {
          credit = self.old.credit - 256;
          sent = with_time self.old.sent (newest self.old) (Some now);
        } }
    {
        let position = self.next().saturating_sub(1);
        self.sent.put(position, Some(now));
        self.spoke = Some(now);
        self.credit.spend();
    }

    /// The first of the units to be sent again was sent.
    fn sends_again(&mut self, now: u64)
        ensures { self.new ≡ given_by self.old Gaves.Again now }
    {
        let position = self.repair.from.max(self.base);
        self.sent.put(position, None);
        self.repairs.put(self.repaired, Some(now));
        self.repaired = self.repaired.saturating_add(1);
        self.repair.from = position.saturating_add(1);
        if position == self.base {
            self.repair.fixed_at = now;
        }
        self.in_flight = self.in_flight.saturating_add(1);
        self.credit.spend();
    }
}
