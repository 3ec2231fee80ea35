//! What became of the datagrams that a router received.

ghost use Rattle.std.specs.Prelude.{◌≡◌, ◌+◌};
ghost use Rattle.ipx_router.specs.OutcomeView.{router_outcome};
ghost use Rattle.ipx_carrier.specs.OutcomeCounters.{outcome_counted, outcomes_after, none, outcomes_in};

use crate::counting::saturating_increment;
use ipx_router::{Outcome, Reason};

/// How many datagrams a router forwarded, answered, took in, or dropped for each reason. Each count
/// stays at the greatest u64.
#[derive(Clone, Copy, PartialEq, Eq)]
pub struct OutcomeCounters {
    pub forwarded: u64,
    pub answered: u64,
    pub heard: u64,
    pub bad: u64,
    pub propagated: u64,
    pub not_ours: u64,
    pub no_route: u64,
    pub hop_limit: u64,
    pub bad_control: u64,
    pub table_full: u64,
}

impl OutcomeCounters {
    /// Counts of no datagram.
    pub fn new() -> OutcomeCounters
        ensures { result ≡ none }
    {
        OutcomeCounters {
            forwarded: 0,
            answered: 0,
            heard: 0,
            bad: 0,
            propagated: 0,
            not_ours: 0,
            no_route: 0,
            hop_limit: 0,
            bad_control: 0,
            table_full: 0,
        }
    }

    /// Counts a dropped datagram.
    fn count_reason(&mut self, reason: Reason)
        ensures { self.new ≡ outcomes_after reason self.old }
    {
        match reason {
            Reason::Bad(_) => saturating_increment(&mut self.bad),
            Reason::Propagated => saturating_increment(&mut self.propagated),
            Reason::NotOurs => saturating_increment(&mut self.not_ours),
            Reason::NoRoute(_) => saturating_increment(&mut self.no_route),
            Reason::HopLimit => saturating_increment(&mut self.hop_limit),
            Reason::BadControl(_) => saturating_increment(&mut self.bad_control),
            Reason::TableFull => saturating_increment(&mut self.table_full),
        }
    }

    /// How many datagrams were dropped.
    fn dropped(&self) -> u128
        ensures { result ≡ self.now.bad + self.now.propagated + self.now.not_ours
            + self.now.no_route + self.now.hop_limit + self.now.bad_control + self.now.table_full }
    {
        u128::from(self.bad)
            + u128::from(self.propagated)
            + u128::from(self.not_ours)
            + u128::from(self.no_route)
            + u128::from(self.hop_limit)
            + u128::from(self.bad_control)
            + u128::from(self.table_full)
    }

    /// How many datagrams were counted, whatever became of them.
    pub fn total(&self) -> u128
        ensures { result ≡ outcomes_in self.now }
    {
        u128::from(self.forwarded)
            + u128::from(self.answered)
            + u128::from(self.heard)
            + self.dropped()
    }

    /// Counts what became of a datagram.
    pub fn count(&mut self, outcome: &Outcome)
        ensures { self.new ≡ outcome_counted (router_outcome outcome.now) self.old }
    {
        match outcome {
            Outcome::Forward(_) => saturating_increment(&mut self.forwarded),
            Outcome::Replies(_) => saturating_increment(&mut self.answered),
            Outcome::Heard(_) => saturating_increment(&mut self.heard),
            Outcome::Dropped(reason) => self.count_reason(*reason),
        }
    }
}
