//! The packets that a router is to send, in two queues: forwarded packets leave before its own.

ghost use Rattle.std.specs.Prelude.{◌≡◌, ◌↔◌, ℕ, ◌<◌, ◌≤◌, ◌+◌, [], length, option_map, OnOk, OnErr, IfSome, IsTrue};
ghost use Rattle.ipx_router.specs.RouterPackets.{sending_of, sendings};
ghost use Rattle.ipx_router.specs.OutcomeView.{router_outcome};
ghost use Rattle.ipx_carrier.specs.GivenPackets.{given_in};
ghost use Rattle.ipx_carrier.specs.PriorityQueued.{PutsAdvertisement, PutsByPriority, PutsToldPackets, priority_queues};
ghost use Rattle.ipx_carrier.specs.PriorityRouterCore.{GivesNext, IsSpaceByPriority, Dequeues, run_after_forward};
ghost use Rattle.ipx_carrier.specs.RouterQueues.{AreGivable, IsNotAdvertised, IsSpaceFor, max_queued};

use crate::queue::{MAX_QUEUED, enqueue_all, enqueue_one, write_to};
use ipx_router::{Outcome, Reply, Router};
use ipx_wire::{Node, OutOfMemory};
use std::alloc::Global;
use std::collections::VecDeque;

/// How many of its own packets a router gives in a row.
const MAX_ORIGINATED_RUN: u32 = 8;

/// If more of its own packets wait than this, fewer leave in a row after a forwarded packet.
const FEW_WAITING: usize = 64;

/// How many then leave in a row.
const LEAST_IN_A_ROW: u32 = 2;

/// Puts the packets of a router's answer into their queue.
pub fn put_outcome(
    forwarded: &mut VecDeque<Reply>,
    own: &mut VecDeque<Reply>,
    dropped: &mut u64,
    outcome: Outcome,
) -> Result<(), OutOfMemory>
    requires forwarded { length forwarded.old.items ≤ max_queued }
    requires own { length own.old.items ≤ max_queued }
    ensures put { OnOk result (PutsByPriority (router_outcome outcome)
        (sendings forwarded.old.items) (sendings own.old.items) dropped.old
        (sendings forwarded.new.items) (sendings own.new.items) dropped.new) }
    ensures refused { OnErr result ((forwarded.new.items ≡ forwarded.old.items)
        × (own.new.items ≡ own.old.items) × (dropped.new ≡ dropped.old)) }
    ensures lost { OnErr result (IsSpaceByPriority
        (sendings forwarded.old.items) (sendings own.old.items) (router_outcome outcome)) }
{
    match outcome {
        Outcome::Forward(reply) => enqueue_one(forwarded, dropped, reply),
        Outcome::Replies(replies) => enqueue_all(own, dropped, replies),
        Outcome::Heard(_) | Outcome::Dropped(_) => Ok(()),
    }
}

/// Whether an advertisement of so many packets takes the place of those that wait: there is no room
/// for all, but there is for it alone.
fn takes_their_place(waiting: usize, told: usize) -> bool
    requires { waiting ≤ max_queued }
    ensures { IsTrue result ↔ ((max_queued < waiting + told) × (told ≤ max_queued)) }
{
    told > MAX_QUEUED - waiting && told <= MAX_QUEUED
}

/// Puts an advertisement after the packets that wait. If there is no room for all of them, it takes
/// their place, and they are counted as dropped. If it is longer than the queue, it is dropped.
fn enqueue_told(
    own: &mut VecDeque<Reply>,
    dropped: &mut u64,
    told: Vec<Reply>,
) -> Result<(), OutOfMemory>
    requires { length own.old.items ≤ max_queued }
    ensures put { OnOk result (PutsToldPackets (sendings told.items)
        (sendings own.old.items) dropped.old (sendings own.new.items) dropped.new) }
    ensures refused { OnErr result
        ((own.new.items ≡ own.old.items) × (dropped.new ≡ dropped.old)) }
    ensures lost { OnErr result (IsSpaceFor (sendings own.old.items) (sendings told.items)) }
{
    if takes_their_place(own.len(), told.len()) {
        *dropped = dropped.saturating_add(own.len() as u64);
        *own = VecDeque::from(told);
        return Ok(());
    }
    enqueue_all(own, dropped, told)
}

/// Puts a router's advertisements into the queue of its own packets, if they are due.
pub fn enqueue_advertisements(
    alloc: Global,
    router: &mut Router,
    now: u64,
    own: &mut VecDeque<Reply>,
    dropped: &mut u64,
) -> Result<(), OutOfMemory>
    requires { length own.old.items ≤ max_queued }
    ensures put { OnOk result (PutsAdvertisement router.old now router.new
        (sendings own.old.items) dropped.old (sendings own.new.items) dropped.new) }
    ensures ports { router.new.ports ≡ router.old.ports }
    ensures refused { OnErr result
        ((own.new.items ≡ own.old.items) × (dropped.new ≡ dropped.old)) }
    ensures lost { OnErr result
        (IsNotAdvertised router.old now (sendings own.old.items) router.new) }
{
    let told = router.tell(alloc, now)?;
    enqueue_told(own, dropped, told)
}

/// Takes the first of the router's own packets, unless the most in a row have left. If none leaves,
/// another row begins.
fn take_own(own: &mut VecDeque<Reply>, originated_run: &mut u32) -> Option<Reply>
    ensures { Dequeues (priority_queues [] own.old.items originated_run.old) (option_map sending_of result)
        (priority_queues [] own.new.items originated_run.new) }
{
    let count = *originated_run;
    *originated_run = 0;
    if count >= MAX_ORIGINATED_RUN {
        return None;
    }
    let reply = own.pop_front()?;
    *originated_run = count + 1;
    Some(reply)
}

/// How many of the router's own packets count as having left in a row, once a forwarded packet
/// leaves.
fn run_after_forward(own: &VecDeque<Reply>) -> u32
    ensures { result ≡ run_after_forward (sendings own.now.items) }
{
    if own.len() > FEW_WAITING {
        MAX_ORIGINATED_RUN - LEAST_IN_A_ROW
    } else {
        0
    }
}

/// Takes the packet that leaves next: the first forwarded one, otherwise one of the router's own.
fn take_next(
    forwarded: &mut VecDeque<Reply>,
    own: &mut VecDeque<Reply>,
    originated_run: &mut u32,
) -> Option<Reply>
    ensures { Dequeues (priority_queues forwarded.old.items own.old.items originated_run.old)
        (option_map sending_of result)
        (priority_queues forwarded.new.items own.new.items originated_run.new) }
{
    let Some(reply) = forwarded.pop_front() else {
        return take_own(own, originated_run);
    };
    *originated_run = run_after_forward(own);
    Some(reply)
}

/// Takes the packet that leaves next, and writes it to the front of `room`.
pub fn dequeue(
    forwarded: &mut VecDeque<Reply>,
    own: &mut VecDeque<Reply>,
    originated_run: &mut u32,
    room: &mut [u8],
) -> Option<(usize, Node, usize)>
    requires room { 1536 ≤ length room.old }
    requires givable { (ports : ℕ) × AreGivable ports (sendings forwarded.old.items)
        × AreGivable ports (sendings own.old.items) }
    ensures given { GivesNext (priority_queues forwarded.old.items own.old.items originated_run.old)
        (given_in room.new result)
        (priority_queues forwarded.new.items own.new.items originated_run.new) }
    ensures within { IfSome result (λ g. g.2 ≤ length room.old) }
    ensures there { (ports : ℕ) → AreGivable ports (sendings forwarded.old.items)
        → AreGivable ports (sendings own.old.items) → IfSome result (λ g. g.0 < ports) }
{
    let reply = take_next(forwarded, own, originated_run)?;
    Some(write_to(reply, room))
}
