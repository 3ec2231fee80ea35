//! A router as a core that gives forwarded packets before its own.

ghost use Rattle.std.specs.Prelude.{◌≡◌, ◌≤◌, ◌+◌, false, length};
ghost use Rattle.ipx_carrier.specs.OutcomeCounters.{none};
ghost use Rattle.ipx_carrier.specs.PriorityRouterCore.{AdvertisementsAreQueued, ForwardedLeaveFirst, nothing_waits};

use crate::cores::Core;
use crate::outcome_counters::OutcomeCounters;
use crate::priority_queue::{dequeue, enqueue_advertisements, put_outcome};
use crate::queue::enqueue_start;
use ipx_router::{Reply, Router};
use ipx_wire::{Node, OutOfMemory};
use std::alloc::Global;
use std::collections::VecDeque;
use std::marker::Model;

/// A router that runs over a device, as [`RouterCore`](crate::RouterCore) does, and gives packets
/// that it forwards before those that it originates.
///
/// Packets to send wait in two queues of at most 16,384 packets each. One is for forwarded packets,
/// and one for the router's own: answers, packets of its start, and advertisements. If the packets
/// of an answer or of the start don't all fit, all of them are dropped and counted. If those of an
/// advertisement don't, they take the place of those that wait, which are dropped and counted. Only
/// an advertisement that is longer than the queue is dropped itself.
///
/// Forwarded packets are given first, then at most eight of its own in a row. After a forwarded
/// packet only two of its own follow if more than 64 of them wait. Then it gives none once, so that
/// its ports are read.
#[derive(Drop)]
pub struct PriorityRouterCore {
    router: Router,
    forwarded: VecDeque<Reply>,
    own: VecDeque<Reply>,
    originated_run: u32,
    started: bool,
    dropped: u64,
    outcomes: OutcomeCounters,
}

impl Model for PriorityRouterCore {
    ghost use Rattle.std.specs.Prelude.{◌≤◌, length};
    ghost use Rattle.ipx_router.specs.RouterPackets.{sendings};
    ghost use Rattle.ipx_carrier.specs.RouterQueues.{AreGivable, max_queued};
    ghost use Rattle.ipx_carrier.specs.PriorityRouterCore.{PriorityCoreView};
    ghost use Rattle.ipx_carrier.specs.PriorityQueued.{priority_queues};

    ghost Value = { PriorityCoreView };

    ghost view = { λ c. record {
      router = c.router;
      queues = priority_queues c.forwarded.items c.own.items c.originated_run;
      started = c.started;
      dropped = c.dropped;
      outcomes = c.outcomes;
    } };

    ghost invariant = { λ c. (length c.router.ports ≤ 16)
        × (length c.forwarded.items ≤ max_queued) × (length c.own.items ≤ max_queued)
        × AreGivable (length c.router.ports) (sendings c.forwarded.items)
        × AreGivable (length c.router.ports) (sendings c.own.items) };
}

impl PriorityRouterCore {
    /// A router that has sent nothing yet. Its queues use memory of `alloc`.
    pub fn new(alloc: Global, router: Router) -> PriorityRouterCore
        ensures router { result.router ≡ router }
        ensures fresh { (result.queues ≡ nothing_waits) × (result.started ≡ false)
            × (result.dropped ≡ 0) }
        ensures unheard { result.outcomes ≡ none }
    {
        // A router has at most 16 ports, as its ports' contract says.
        let _ports = router.ports();
        PriorityRouterCore {
            router,
            forwarded: VecDeque::new(alloc),
            own: VecDeque::new(alloc),
            originated_run: 0,
            started: false,
            dropped: 0,
            outcomes: OutcomeCounters::new(),
        }
    }

    /// How many packets were dropped because their queue was full. It stays at the greatest u64.
    pub fn dropped(&self) -> u64
        ensures { result ≡ self.now.dropped }
    {
        self.dropped
    }

    /// How many packets wait to be sent. A caller must not sleep while some do, even after a turn
    /// that sent none.
    pub fn queued(&self) -> usize
        ensures { result ≡ length self.now.queues.forwarded + length self.now.queues.own }
    {
        self.forwarded.len() + self.own.len()
    }

    /// The router, to inspect between two runs.
    pub fn router(&self) -> &Router
        ensures { result.now ≡ self.now.router }
    {
        &self.router
    }

    /// What became of the datagrams that it received.
    pub fn outcomes(&self) -> OutcomeCounters
        ensures { result ≡ self.now.outcomes }
    {
        self.outcomes
    }

    /// The router asks its neighbours for all routes and services once more, as it did when it
    /// started. The packets of its start are given again. Call it soon after the start, for
    /// neighbours that weren't there yet or knew little.
    pub fn restart_discovery(&mut self)
        ensures { self.new ≡ record self.old { started = false } }
    {
        self.started = false;
    }
}

/// A router that has started and advertised is asked for packets until it gives none. It gives all
/// forwarded packets, then the first of its own. That is at most 8 of its own, or 2 after a
/// forwarded packet if more than 64 wait. The others still wait, and all else is as it was after it
/// started and advertised.
pub fn forwarded_packets_leave_first()
    ensures { ForwardedLeaveFirst }
{}

/// Whatever waits, an advertisement of at most 16,384 packets is queued whole. On 16 ports, of 1,024
/// networks and 4,096 services, it has at most 9,712 packets, by arithmetic and not by proof.
pub fn advertisements_are_queued()
    ensures { AdvertisementsAreQueued }
{}

impl Core for PriorityRouterCore {
    ghost use Rattle.std.specs.Prelude.{length};
    ghost use Rattle.ipx_carrier.specs.PriorityRouterCore.{PriorityGives, PriorityHears, PriorityHearOutOfMemory, PriorityNextOutOfMemory};

    ghost port_count = { λ c. length c.router.ports };

    ghost hears = { PriorityHears };

    ghost gives = { PriorityGives };

    ghost hear_out_of_memory = { PriorityHearOutOfMemory };

    ghost next_out_of_memory = { PriorityNextOutOfMemory };

    fn ports(&self) -> usize {
        self.router.ports().len()
    }

    fn hear(
        &mut self,
        alloc: Global,
        port: usize,
        bytes: &[u8],
        now: u64,
    ) -> Result<(), OutOfMemory> {
        let outcome = self.router.receive(alloc, port as u8 + 1, bytes, now)?;
        self.outcomes.count(&outcome);
        put_outcome(
            &mut self.forwarded,
            &mut self.own,
            &mut self.dropped,
            outcome,
        )
    }

    fn next(
        &mut self,
        alloc: Global,
        now: u64,
        room: &mut [u8],
    ) -> Result<Option<(usize, Node, usize)>, OutOfMemory> {
        enqueue_start(
            alloc,
            &self.router,
            &mut self.started,
            &mut self.own,
            &mut self.dropped,
        )?;
        enqueue_advertisements(
            alloc,
            &mut self.router,
            now,
            &mut self.own,
            &mut self.dropped,
        )?;
        Ok(dequeue(
            &mut self.forwarded,
            &mut self.own,
            &mut self.originated_run,
            room,
        ))
    }
}
