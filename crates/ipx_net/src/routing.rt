//! Events at routers, with the entries that they add to the log.

ghost use Rattle.std.specs.Prelude.{◌≡◌, ◌+◌, ◌<◌, ◌≤◌, IfOk, IfSome, OnErr, length, map, slice_get};
ghost use Rattle.std.specs.List.{range_with_len};
ghost use Rattle.ipx_router.specs.OutcomeView.{router_outcome};
ghost use Rattle.ipx_router.specs.declared.outcome.Outcome.TheVariants as Outcomes;
ghost use Rattle.ipx_router.specs.RouterPackets.{sending_of, sendings};
ghost use Rattle.ipx_net.specs.StepResultView.{step_result_view};
ghost use Rattle.ipx_net.specs.RouterEvents.{MemberPolled, MemberReached, routed_growth, told_growth};
ghost use Rattle.ipx_net.specs.EventMemory.{IsMade, IsSent, RouterPollNeedsMemory, RouterNeedsMemory};

use crate::answer::Answer;
use crate::entry::Entry;
use crate::parcel::Parcel;
use crate::routers::{RouterNow, poll_router, post, post_all, told_entries};
use crate::step_result::{StepResult, quiet};
use ipx_router::{Outcome, Port, Reply};
use ipx_wire::OutOfMemory;
use std::alloc::Global;

/// So many numbers, from `first` on.
fn numbers(alloc: Global, first: usize, count: usize) -> Result<Vec<usize>, OutOfMemory>
    requires { first + count ≤ 18446744073709551615 }
    ensures numbers { IfOk result (λ v.
        v.items ≡ map (λ k. first + k) (range_with_len 0 count)) }
    ensures refused { OnErr result (0 < count) }
{
    let mut all = Vec::with_capacity(alloc, count)?;
    for k in 0..count {
        all.push(first + k)?;
    }
    Ok(all)
}

/// The packets that a router made itself. The first gets this number.
fn told(
    alloc: Global,
    router: usize,
    ports: &[Port],
    replies: Vec<Reply>,
    first: usize,
) -> Result<StepResult, OutOfMemory>
    ensures grows { IfOk result
        (λ g. step_result_view g ≡ told_growth router ports.now first (sendings replies.items)) }
    ensures refused { OnErr result (0 < length replies.items) }
{
    let count = replies.len();
    if count > usize::MAX - first {
        return Err(OutOfMemory);
    }
    let numbers = numbers(alloc, first, count)?;
    let parcels = post_all(alloc, router, ports, replies)?;
    let entries = told_entries(alloc, router, first, &parcels)?;
    Ok(StepResult {
        parcels,
        entries,
        answer: Answer::Parcels(numbers),
    })
}

/// A packet that a router forwarded, with this number.
fn carried(
    alloc: Global,
    router: usize,
    ports: &[Port],
    parcel: usize,
    reply: Reply,
    first: usize,
) -> Result<StepResult, OutOfMemory>
    ensures { IfOk result (λ g.
        step_result_view g
        ≡ routed_growth router ports.now parcel first (router_outcome (Outcomes.Forward reply))) }
{
    let mut numbers = Vec::new(alloc);
    numbers.push(first)?;
    let mut entries = Vec::new(alloc);
    entries.push(Entry::Carried {
        from: parcel,
        parcel: first,
    })?;
    let mut parcels = Vec::new(alloc);
    parcels.push(post(router, ports, reply))?;
    Ok(StepResult {
        parcels,
        entries,
        answer: Answer::Parcels(numbers),
    })
}

/// Polls a router: what it asks as it starts, and its advertisements if they are due.
pub fn poll_member(
    alloc: Global,
    routers: &mut [RouterNow],
    router: usize,
    first: usize,
    now: u64,
) -> Result<StepResult, OutOfMemory>
    requires { router < length routers.old }
    ensures polled { IfOk result
        (λ g. MemberPolled routers.old router first now (step_result_view g) routers.new) }
    ensures memory { IsMade result
        → IfSome (slice_get routers.old router) (λ r. RouterPollNeedsMemory r now) }
{
    let member = &mut routers[router];
    let replies = poll_router(alloc, member, now)?;
    let growth = told(alloc, router, member.router.ports(), replies, first)?;
    Ok(growth)
}

/// What an outcome adds to the log.
fn routed(
    alloc: Global,
    router: usize,
    ports: &[Port],
    parcel: usize,
    outcome: Outcome,
    first: usize,
) -> Result<StepResult, OutOfMemory>
    ensures grows { IfOk result
        (λ g. step_result_view g ≡ routed_growth router ports.now parcel first (router_outcome outcome)) }
    ensures memory { IsMade result → IsSent (router_outcome outcome) }
{
    match outcome {
        Outcome::Forward(reply) => carried(alloc, router, ports, parcel, reply, first),
        Outcome::Replies(replies) => told(alloc, router, ports, replies, first),
        Outcome::Heard(count) => Ok(quiet(alloc, Answer::Heard(count))),
        Outcome::Dropped(reason) => Ok(quiet(alloc, Answer::Dropped(reason))),
    }
}

/// Delivers the bytes of a parcel to a port of a router.
pub fn deliver_member(
    alloc: Global,
    routers: &mut [RouterNow],
    router: usize,
    port: u8,
    parcel: usize,
    bytes: &[u8],
    first: usize,
    now: u64,
) -> Result<StepResult, OutOfMemory>
    requires there { router < length routers.old }
    requires port { IfSome (slice_get routers.old router)
        (λ r. (1 ≤ port) × (port ≤ length r.router.ports)) }
    ensures reached { IfOk result (λ g.
        MemberReached routers.old router port parcel bytes.now first now
        (step_result_view g) routers.new) }
    ensures memory { IsMade result → RouterNeedsMemory routers.old router port bytes.now now }
{
    let member = &mut routers[router];
    let outcome = member.router.receive(alloc, port, bytes, now)?;
    let growth = routed(alloc, router, member.router.ports(), parcel, outcome, first)?;
    Ok(growth)
}
