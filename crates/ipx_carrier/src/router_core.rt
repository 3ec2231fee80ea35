//! A router as a core.

ghost use Rattle.std.specs.Prelude.{◌≡◌, ◌≤◌, [], false, length};
ghost use Rattle.ipx_carrier.specs.OutcomeCounters.{none};

use crate::cores::Core;
use crate::outcome_counters::OutcomeCounters;
use crate::queue::{dequeue, enqueue_advertisements, enqueue_start, put_outcome};
use ipx_router::{Reply, Router};
use ipx_wire::{Node, OutOfMemory};
use std::alloc::Global;
use std::collections::VecDeque;
use std::marker::Model;

/// A router that runs over a device. The router's port numbers are one more than the device's.
///
/// Packets to send wait in a queue of at most 16,384 packets, first in, first out. If the packets
/// of an answer, of the router's start or of an advertisement don't all fit, all of them are
/// dropped and counted.
#[derive(Drop)]
pub struct RouterCore {
    router: Router,
    queue: VecDeque<Reply>,
    started: bool,
    dropped: u64,
    outcomes: OutcomeCounters,
}

impl Model for RouterCore {
    ghost use Rattle.std.specs.Prelude.{◌≤◌, length};
    ghost use Rattle.ipx_router.specs.RouterPackets.{sendings};
    ghost use Rattle.ipx_carrier.specs.RouterCore.{CoreView};
    ghost use Rattle.ipx_carrier.specs.RouterQueues.{AreGivable, max_queued};

    ghost Value = { CoreView };

    ghost view = { λ c. record {
      router = c.router;
      queue = sendings c.queue.items;
      started = c.started;
      dropped = c.dropped;
      outcomes = c.outcomes;
    } };

    ghost invariant = { λ c. (length c.router.ports ≤ 16)
        × (length c.queue.items ≤ max_queued)
        × AreGivable (length c.router.ports) (sendings c.queue.items) };
}

impl RouterCore {
    /// A router that has sent nothing yet. Its queue uses memory of `alloc`.
    pub fn new(alloc: Global, router: Router) -> RouterCore
        ensures router { result.router ≡ router }
        ensures fresh { (result.queue ≡ []) × (result.started ≡ false) × (result.dropped ≡ 0) }
        ensures unheard { result.outcomes ≡ none }
    {
        // A router has at most 16 ports, as its ports' contract says.
        let _ports = router.ports();
        RouterCore {
            router,
            queue: VecDeque::new(alloc),
            started: false,
            dropped: 0,
            outcomes: OutcomeCounters::new(),
        }
    }

    /// How many packets were dropped because the queue was full. It stays at the greatest u64.
    pub fn dropped(&self) -> u64
        ensures { result ≡ self.now.dropped }
    {
        self.dropped
    }

    /// The router, to inspect between two runs.
    pub fn router(&self) -> &Router
        ensures { result.now ≡ self.now.router }
    {
        &self.router
    }

    /// What became of the datagrams that it received.
    pub fn outcomes(&self) -> OutcomeCounters
        ensures { result ≡ self.now.outcomes }
    {
        self.outcomes
    }

    /// The router asks its neighbours for all routes and services once more, as it did when it
    /// started. The packets of its start are given again. Call it soon after the start, for
    /// neighbours that weren't there yet or knew little.
    pub fn restart_discovery(&mut self)
        ensures { self.new ≡ record self.old { started = false } }
    {
        self.started = false;
    }
}

impl Core for RouterCore {
    ghost use Rattle.std.specs.Prelude.{length};
    ghost use Rattle.ipx_carrier.specs.RouterCore.{RouterGives, RouterHears, HearOutOfMemory, NextOutOfMemory};

    ghost port_count = { λ c. length c.router.ports };

    ghost hears = { RouterHears };

    ghost gives = { RouterGives };

    ghost hear_out_of_memory = { HearOutOfMemory };

    ghost next_out_of_memory = { NextOutOfMemory };

    fn ports(&self) -> usize {
        self.router.ports().len()
    }

    fn hear(
        &mut self,
        alloc: Global,
        port: usize,
        bytes: &[u8],
        now: u64,
    ) -> Result<(), OutOfMemory> {
        let outcome = self.router.receive(alloc, port as u8 + 1, bytes, now)?;
        self.outcomes.count(&outcome);
        put_outcome(&mut self.queue, &mut self.dropped, outcome)
    }

    fn next(
        &mut self,
        alloc: Global,
        now: u64,
        room: &mut [u8],
    ) -> Result<Option<(usize, Node, usize)>, OutOfMemory> {
        enqueue_start(
            alloc,
            &self.router,
            &mut self.started,
            &mut self.queue,
            &mut self.dropped,
        )?;
        enqueue_advertisements(
            alloc,
            &mut self.router,
            now,
            &mut self.queue,
            &mut self.dropped,
        )?;
        Ok(dequeue(&mut self.queue, room))
    }
}
