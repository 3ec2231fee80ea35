//! Runs a router, round after round.

ghost use Rattle.std.specs.Prelude.{◌≤◌, ◌==◌, is_ok};
ghost use Rattle.ipx_site.specs.RoutingRuns.{RunsTo};

use crate::routing::{RouteFault, tell_route_fault};
use crate::running_router::RunningRouter;
use ipx_sockets::WaitFault;
use log::Log;
use std::alloc::Global;
use std::rt::{Clock as SystemClock, Files};

impl<'a, R: SystemClock> RunningRouter<'a, R> {
    /// Runs one round after another, until a wait fails.
    pub(crate) fn run<S: Log + Files>(&mut self, rt: &S, alloc: Global) -> Result<(), WaitFault>
        // It ends with the round after which the wait failed, or successfully after 2^64 - 1
        // rounds.
        ensures { RunsTo self.old self.new (is_ok result) }
    {
        for _round in 0..u64::MAX {
            self.step(rt, alloc)?;
        }
        Ok(())
    }
}

/// Runs a started router until a wait fails, and returns the exit status: 1 then, and 0 after
/// 2^64 - 1 rounds. One line on standard error, which begins with the path of the router's file,
/// says why.
pub fn run_router<R: Log + Files + SystemClock + Eprint>(
    rt: &R,
    alloc: Global,
    path: &str,
    router: &mut RunningRouter<'_, R>,
) -> u8
    ensures few { result ≤ 1 }
    // It ran rounds, each from where the last one left it. This also holds if a wait failed.
    ensures runs { RunsTo router.old router.new (result == 0) }
{
    match router.run(rt, alloc) {
        Ok(()) => 0,
        Err(fault) => tell_route_fault(rt, path, RouteFault::Wait(fault)),
    }
}
