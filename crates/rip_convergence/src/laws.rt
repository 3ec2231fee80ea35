//! The theorems of runs, whatever tables they start with.

ghost use Rattle.rip_convergence.specs.Fair.{
  RunsForget,
  RunsSettle,
  RunsSettleAtAnyCost,
  RunsSolve,
  RunsTakeLeastWays,
  RunsTakeWays,
  SolutionsAreOne,
};
ghost use Rattle.rip_convergence.specs.RouterRuns.{RunsAreHistories};
ghost use Rattle.rip_convergence.specs.ReceiveSteps.{ReceivingIsAStep};
ghost use Rattle.rip_convergence.specs.LearnedAdvertisements.{AdvertisementsAreLearned};
ghost use Rattle.rip_convergence.specs.TwoRouters.{FairRunsExist, ForgedRouteGoes};

use crate::below::{laws_below, packet_laws};

/// 48 minutes after the first step of an honest run, each route follows a path that exists.
pub fn runs_take_ways()
    ensures { RunsTakeWays }
{
    laws_below();
}

/// So a network that no path leads to has been forgotten.
pub fn runs_forget()
    ensures { RunsForget }
{
    laws_below();
}

/// Any two fair runs of one network of routers reach the same routes, and keep them.
pub fn runs_settle()
    ensures { RunsSettle }
{
    laws_below();
}

/// The same if ports may have cost 0, after a longer time.
pub fn runs_settle_at_any_cost()
    ensures { RunsSettleAtAnyCost }
{
    laws_below();
}

/// The routes that a fair run reaches solve the routers' own equations.
pub fn runs_solve()
    ensures { RunsSolve }
{
    laws_below();
}

/// There is at most one solution, whatever ports cost.
pub fn solutions_are_one()
    ensures { SolutionsAreOne }
{
    laws_below();
}

/// If shortest paths extend one another, each router takes its own one, three minutes later for
/// each hop.
pub fn runs_take_least_ways()
    ensures { RunsTakeLeastWays }
{
    laws_below();
}

/// The routes of a run are a history: each was advertised recently, and what is advertised all the
/// time is learned.
pub fn runs_are_histories()
    ensures { RunsAreHistories }
{
    laws_below();
}

/// What `receive` of a router does to its routes is a step of a run. The routes are aged, and the
/// first entries of the response that arrived are learned, or none.
pub fn receiving_is_a_step()
    ensures { ReceivingIsAStep }
{}

/// If `receive` of a router on the same network reads what `tell` gives for a port, it learns
/// exactly the entries that are advertised on that port.
pub fn advertisements_are_learned()
    ensures { AdvertisementsAreLearned }
{
    packet_laws();
}

/// Two routers that advertise to each other in turn are a fair run, whatever their tables. So what
/// the theorems require is possible.
pub fn fair_runs_exist()
    ensures { FairRunsExist }
{
    laws_below();
}

/// So is one that starts with a forged route, which is gone 48 minutes later.
pub fn forged_route_goes()
    ensures { ForgedRouteGoes }
{
    laws_below();
}
