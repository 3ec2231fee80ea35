//! The packets that a router is to send, in a queue: first in, first out.

ghost use Rattle.std.specs.Prelude.{◌≡◌, ℕ, ◌<◌, ◌≤◌, ◌∷◌, [], length, true, false, Some, OnOk, OnErr, IfSome};
ghost use Rattle.ipx_router.specs.RouterPackets.{sending_of, sendings};
ghost use Rattle.ipx_router.specs.OutcomeView.{router_outcome};
ghost use Rattle.ipx_carrier.specs.GivenPackets.{given_in};
ghost use Rattle.ipx_carrier.specs.Queued.{Puts, PutsAnswer, PutsStart, PutsAdvertised};
ghost use Rattle.ipx_carrier.specs.RouterCore.{GivesFront, IsSpaceForAnswer};
ghost use Rattle.ipx_carrier.specs.RouterQueues.{AreGivable, CanBeSent, IsNotAdvertised, IsSpaceFor, given_of, max_queued};

use crate::counting::saturating_increment;
use ipx_router::{Outcome, Reply, Router};
use ipx_wire::{Node, OutOfMemory};
use std::alloc::Global;
use std::collections::VecDeque;

/// The most packets that wait in a queue.
pub const MAX_QUEUED: usize = 16_384;

/// Puts packets at the end of a queue if all of them fit, and otherwise counts them as dropped.
pub fn enqueue_all(
    queue: &mut VecDeque<Reply>,
    dropped: &mut u64,
    replies: Vec<Reply>,
) -> Result<(), OutOfMemory>
    requires { length queue.old.items ≤ max_queued }
    ensures put { OnOk result (Puts (sendings replies.items)
        (sendings queue.old.items) dropped.old (sendings queue.new.items) dropped.new) }
    ensures refused { OnErr result
        ((queue.new.items ≡ queue.old.items) × (dropped.new ≡ dropped.old)) }
    ensures lost { OnErr result
        (IsSpaceFor (sendings queue.old.items) (sendings replies.items)) }
{
    if replies.is_empty() {
        return Ok(());
    }
    if replies.len() > MAX_QUEUED - queue.len() {
        *dropped = dropped.saturating_add(replies.len() as u64);
        return Ok(());
    }
    queue.append(&mut VecDeque::from(replies))?;
    Ok(())
}

/// Puts a packet at the end of a queue if it fits, and otherwise counts it as dropped.
pub fn enqueue_one(
    queue: &mut VecDeque<Reply>,
    dropped: &mut u64,
    reply: Reply,
) -> Result<(), OutOfMemory>
    requires { length queue.old.items ≤ max_queued }
    ensures put { OnOk result (Puts (sendings (reply ∷ []))
        (sendings queue.old.items) dropped.old (sendings queue.new.items) dropped.new) }
    ensures refused { OnErr result
        ((queue.new.items ≡ queue.old.items) × (dropped.new ≡ dropped.old)) }
    ensures lost { OnErr result
        (IsSpaceFor (sendings queue.old.items) (sendings (reply ∷ []))) }
{
    if queue.len() >= MAX_QUEUED {
        saturating_increment(dropped);
        return Ok(());
    }
    queue.push_back(reply)?;
    Ok(())
}

/// Puts the packets of a router's answer into the queue.
pub fn put_outcome(
    queue: &mut VecDeque<Reply>,
    dropped: &mut u64,
    outcome: Outcome,
) -> Result<(), OutOfMemory>
    requires { length queue.old.items ≤ max_queued }
    ensures put { OnOk result (PutsAnswer (router_outcome outcome)
        (sendings queue.old.items) dropped.old (sendings queue.new.items) dropped.new) }
    ensures refused { OnErr result
        ((queue.new.items ≡ queue.old.items) × (dropped.new ≡ dropped.old)) }
    ensures lost { OnErr result
        (IsSpaceForAnswer (sendings queue.old.items) (router_outcome outcome)) }
{
    match outcome {
        Outcome::Forward(reply) => enqueue_one(queue, dropped, reply),
        Outcome::Replies(replies) => enqueue_all(queue, dropped, replies),
        Outcome::Heard(_) | Outcome::Dropped(_) => Ok(()),
    }
}

/// Puts the packets of a router's start into the queue, if it has not started yet.
pub fn enqueue_start(
    alloc: Global,
    router: &Router,
    started: &mut bool,
    queue: &mut VecDeque<Reply>,
    dropped: &mut u64,
) -> Result<(), OutOfMemory>
    requires { length queue.old.items ≤ max_queued }
    ensures put { OnOk result (PutsStart router.now started.old
        (sendings queue.old.items) dropped.old (sendings queue.new.items) dropped.new) }
    ensures started { started.new ≡ true }
    ensures refused { OnErr result
        ((queue.new.items ≡ queue.old.items) × (dropped.new ≡ dropped.old)) }
    ensures once { OnErr result (started.old ≡ false) }
{
    if *started {
        return Ok(());
    }
    *started = true;
    let asked = router.start(alloc)?;
    enqueue_all(queue, dropped, asked)
}

/// Puts a router's advertisements into the queue, if they are due.
pub fn enqueue_advertisements(
    alloc: Global,
    router: &mut Router,
    now: u64,
    queue: &mut VecDeque<Reply>,
    dropped: &mut u64,
) -> Result<(), OutOfMemory>
    requires { length queue.old.items ≤ max_queued }
    ensures put { OnOk result (PutsAdvertised router.old now router.new
        (sendings queue.old.items) dropped.old (sendings queue.new.items) dropped.new) }
    ensures ports { router.new.ports ≡ router.old.ports }
    ensures refused { OnErr result
        ((queue.new.items ≡ queue.old.items) × (dropped.new ≡ dropped.old)) }
    ensures lost { OnErr result
        (IsNotAdvertised router.old now (sendings queue.old.items) router.new) }
{
    let told = router.tell(alloc, now)?;
    enqueue_all(queue, dropped, told)
}

/// Writes a packet to the front of `room`.
pub fn write_to(reply: Reply, room: &mut [u8]) -> (usize, Node, usize)
    requires room { 1536 ≤ length room.old }
    requires givable { (ports : ℕ) × CanBeSent ports (sending_of reply) }
    ensures given { given_in room.new (Some result) ≡ Some (given_of (sending_of reply)) }
    ensures within { result.2 ≤ length room.old }
    ensures there { (ports : ℕ) → CanBeSent ports (sending_of reply) → result.0 < ports }
{
    let count = reply.bytes.len();
    room[..count].copy_from_slice(&reply.bytes);
    (reply.port as usize - 1, reply.next, count)
}

/// Takes the packet at the front of the queue, and writes it to the front of `room`.
pub fn dequeue(queue: &mut VecDeque<Reply>, room: &mut [u8]) -> Option<(usize, Node, usize)>
    requires room { 1536 ≤ length room.old }
    requires givable { (ports : ℕ) × AreGivable ports (sendings queue.old.items) }
    ensures given { GivesFront (sendings queue.old.items)
        (given_in room.new result) (sendings queue.new.items) }
    ensures within { IfSome result (λ g. g.2 ≤ length room.old) }
    ensures there { (ports : ℕ) → AreGivable ports (sendings queue.old.items)
        → IfSome result (λ g. g.0 < ports) }
{
    let reply = queue.pop_front()?;
    Some(write_to(reply, room))
}
