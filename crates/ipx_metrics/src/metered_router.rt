//! A router as a core, which counts at each of its ports.

ghost use Rattle.std.specs.Prelude.{◌≡◌, ◌+◌, false, length, replicate, IfOk};
ghost use Rattle.ipx_carrier.specs.OutcomeCounters.{none};
ghost use Rattle.ipx_carrier.specs.PriorityRouterCore.{nothing_waits};
ghost use Rattle.ipx_metrics.specs.LastDrops.{nothing_dropped};
ghost use Rattle.ipx_metrics.specs.PortCounts.{changed_at, outcomes_over, no_traffic, with_heard_there, with_sent_there};

use crate::last_drops::LastDrops;
use crate::port_counts::PortCounts;
use ipx_carrier::{Core, OutcomeCounters, PriorityRouterCore};
use ipx_router::Router;
use ipx_wire::{Node, OutOfMemory};
use std::alloc::{AllocError, Global};
use std::marker::Model;

/// A router that runs over a device, like `PriorityRouterCore`. It also counts the traffic and the
/// outcomes at each of its ports. The outcomes of all ports together are those that the router
/// counts. It keeps the last datagram that it dropped for each reason.
#[derive(Drop)]
pub struct MeteredRouter {
    core: PriorityRouterCore,
    ports: Vec<PortCounts>,
    last: LastDrops,
}

impl Model for MeteredRouter {
    ghost use Rattle.std.specs.Prelude.{◌≡◌, length};
    ghost use Rattle.ipx_metrics.specs.MeteredRouter.{CountedView};
    ghost use Rattle.ipx_metrics.specs.PortCounts.{outcomes_over};

    ghost Value = { CountedView };

    ghost view = { λ c. record {
      router = c.core.router;
      queues = c.core.queues;
      started = c.core.started;
      dropped = c.core.dropped;
      outcomes = c.core.outcomes;
      port_counters = c.ports.items;
      last = c.last;
    } };

    ghost invariant = { λ c. (length c.ports.items ≡ length c.core.router.ports)
        × (c.core.outcomes ≡ outcomes_over c.ports.items) };
}

/// Counts at a port what came there.
fn hear_at(
    ports: &mut [PortCounts],
    port: usize,
    before: &OutcomeCounters,
    after: &OutcomeCounters,
    bytes: usize,
)
    ensures { ports.new ≡ changed_at ports.old port (with_heard_there before.now after.now bytes) }
{
    if port < ports.len() {
        ports[port].hear(before, after, bytes);
    }
}

/// Counts at a port what is given to be sent there.
fn send_at(ports: &mut [PortCounts], port: usize, bytes: usize)
    ensures { ports.new ≡ changed_at ports.old port (with_sent_there bytes) }
{
    if port < ports.len() {
        ports[port].send(bytes);
    }
}

impl MeteredRouter {
    /// A router that has sent and heard nothing yet.
    pub fn new(alloc: Global, router: Router) -> Result<MeteredRouter, AllocError>
        ensures router { IfOk result (λ c. c.router ≡ router) }
        ensures fresh { IfOk result (λ c.
            (c.queues ≡ nothing_waits) × (c.started ≡ false) × (c.dropped ≡ 0)) }
        ensures unheard { IfOk result (λ c. c.outcomes ≡ none) }
        ensures uncounted { IfOk result (λ c.
            (c.port_counters ≡ replicate (length router.ports) no_traffic) × (c.last ≡ nothing_dropped)) }
    {
        let ports = vec![in alloc; PortCounts::new(); router.ports().len()]?;
        Ok(MeteredRouter {
            core: PriorityRouterCore::new(alloc, router),
            ports,
            last: LastDrops::new(),
        })
    }

    /// How many packets were dropped because their queue was full. Saturates at the greatest u64.
    pub fn dropped(&self) -> u64
        ensures { result ≡ self.now.dropped }
    {
        self.core.dropped()
    }

    /// How many packets wait to be sent.
    pub fn queued(&self) -> usize
        ensures { result ≡ length self.now.queues.forwarded + length self.now.queues.own }
    {
        self.core.queued()
    }

    /// The router, for inspection between two runs.
    pub fn router(&self) -> &Router
        ensures { result.now ≡ self.now.router }
    {
        self.core.router()
    }

    /// The outcomes of the datagrams that it heard.
    pub fn outcomes(&self) -> OutcomeCounters
        ensures { result ≡ self.now.outcomes }
    {
        self.core.outcomes()
    }

    /// The counts of each of its ports. For each outcome they add up to its own count.
    pub fn port_counters(&self) -> &[PortCounts]
        ensures counts { result.now ≡ self.now.port_counters }
        ensures sums { self.now.outcomes ≡ outcomes_over result.now }
        ensures ports { length result.now ≡ length self.now.router.ports }
    {
        &self.ports
    }

    /// The last datagrams that it dropped.
    pub fn last(&self) -> LastDrops
        ensures { result ≡ self.now.last }
    {
        self.last
    }

    /// The router repeats its requests to its neighbours, as
    /// `PriorityRouterCore::restart_discovery` says.
    pub fn restart_discovery(&mut self)
        ensures { self.new ≡ record self.old { started = false } }
    {
        self.core.restart_discovery();
    }
}

impl Core for MeteredRouter {
    ghost use Rattle.std.specs.Prelude.{length};
    ghost use Rattle.ipx_metrics.specs.MeteredRouter.{CountsAsItGives, CountsHeard, CountsMissed, CountsWithheld};

    ghost port_count = { λ c. length c.router.ports };

    ghost hears = { CountsHeard };

    ghost gives = { CountsAsItGives };

    ghost hear_out_of_memory = { CountsMissed };

    ghost next_out_of_memory = { CountsWithheld };

    fn ports(&self) -> usize {
        self.core.ports()
    }

    fn hear(
        &mut self,
        alloc: Global,
        port: usize,
        bytes: &[u8],
        now: u64,
    ) -> Result<(), OutOfMemory> {
        let before = self.core.outcomes();
        let heard = self.core.hear(alloc, port, bytes, now);
        let after = self.core.outcomes();
        hear_at(&mut self.ports, port, &before, &after, bytes.len());
        self.last.note(&before, &after, port, bytes);
        heard
    }

    fn next(
        &mut self,
        alloc: Global,
        now: u64,
        room: &mut [u8],
    ) -> Result<Option<(usize, Node, usize)>, OutOfMemory> {
        let given = self.core.next(alloc, now, room)?;
        if let Some((port, _node, count)) = given {
            send_at(&mut self.ports, port, count);
        }
        Ok(given)
    }
}
