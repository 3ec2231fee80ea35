//! What an event does, and what it adds to the log.

ghost use Rattle.std.specs.Prelude.{◌≡◌, ◌++◌, None, IfOk, slice_get};
ghost use Rattle.ipx_net_hosts.specs.Hosts.{FitTogether, KeepsMarks, SameHomes};
ghost use Rattle.ipx_net.specs.StepResultView.{step_result_view};
ghost use Rattle.ipx_net.specs.NetEvents.{DeliversTo, Happens, IsOwed, LeavesMarks, PollsOf, injected};
ghost use Rattle.ipx_net.specs.NetFaults.{fault_before, network_at, place_fault, poll_fault};
ghost use Rattle.ipx_net.specs.NetView.{net_of};
ghost use Rattle.ipx_net.specs.EventMemory.{EventNeedsMemory, IsMade, PollNeedsMemory};
ghost use Rattle.ipx_net.specs.declared.event.Event.TheVariants as Events;

use crate::answer::Answer;
use crate::calling::{again, close, dial, pace, release, send, take};
use crate::delivering::deliver_host;
use crate::entry::Entry;
use crate::event::{Event, Member};
use crate::indexed_log::IndexedLog;
use crate::parcel::Parcel;
use crate::place::Place;
use crate::polling::poll_host;
use crate::routers::RouterNow;
use crate::routing::{deliver_member, poll_member};
use crate::step_result::{StepResult, quiet};
use ipx_net_hosts::Hosts;
use ipx_wire::{Network, Node, OutOfMemory};
use std::alloc::Global;

/// Injects a packet from outside, with this number.
fn inject(
    alloc: Global,
    segment: Network,
    next: Node,
    bytes: Vec<u8>,
    first: usize,
) -> Result<StepResult, OutOfMemory>
    ensures { IfOk result (λ g. step_result_view g ≡ injected segment next bytes.items first) }
{
    let mut numbers = Vec::new(alloc);
    numbers.push(first)?;
    let mut entries = Vec::new(alloc);
    entries.push(Entry::Injected { parcel: first })?;
    let mut parcels = Vec::new(alloc);
    parcels.push(Parcel {
        segment,
        next,
        bytes,
        sent_by: None,
    })?;
    Ok(StepResult {
        parcels,
        entries,
        answer: Answer::Parcels(numbers),
    })
}

/// Polls a host or a router for packets to send.
fn poll(
    alloc: Global,
    hosts: &mut Hosts,
    routers: &mut [RouterNow],
    indexed_log: &IndexedLog,
    member: Member,
    now: u64,
) -> Result<StepResult, OutOfMemory>
    requires { poll_fault (net_of hosts.old routers.old indexed_log.now.parcels indexed_log.now.log now) member
        ≡ None }
    ensures polls { IfOk result (λ g. PollsOf member (step_result_view g).answer
        (net_of hosts.old routers.old indexed_log.now.parcels indexed_log.now.log now)
        (net_of hosts.new routers.new (indexed_log.now.parcels ++ (step_result_view g).parcels)
        (indexed_log.now.log ++ (step_result_view g).notes) now)) }
    ensures memory { IsMade result → PollNeedsMemory
        (net_of hosts.old routers.old indexed_log.now.parcels indexed_log.now.log now) member }
    ensures homes { SameHomes hosts.old hosts.new }
    ensures marks { KeepsMarks hosts.old hosts.new }
{
    let first = indexed_log.parcels().len();
    match member {
        Member::Host(host) => poll_host(alloc, hosts, host, first, now),
        Member::Router(router) => poll_member(alloc, routers, router, first, now),
    }
}

/// Delivers a parcel to a place on its network.
fn deliver(
    alloc: Global,
    hosts: &mut Hosts,
    routers: &mut [RouterNow],
    indexed_log: &IndexedLog,
    parcel: usize,
    place: Place,
    now: u64,
) -> Result<StepResult, OutOfMemory>
    requires { place_fault (slice_get indexed_log.now.parcels parcel)
        (network_at (net_of hosts.old routers.old indexed_log.now.parcels indexed_log.now.log now) place) ≡ None }
    ensures delivers { IfOk result (λ g. DeliversTo parcel place (step_result_view g).answer
        (net_of hosts.old routers.old indexed_log.now.parcels indexed_log.now.log now)
        (net_of hosts.new routers.new (indexed_log.now.parcels ++ (step_result_view g).parcels)
        (indexed_log.now.log ++ (step_result_view g).notes) now)) }
    ensures memory { IsMade result → EventNeedsMemory
        (net_of hosts.old routers.old indexed_log.now.parcels indexed_log.now.log now)
        (Events.Deliver parcel place) }
    ensures homes { SameHomes hosts.old hosts.new }
    ensures marks { LeavesMarks (Events.Deliver parcel place) hosts.old.ends hosts.new.ends }
{
    let parcels = indexed_log.parcels();
    let bytes = &parcels[parcel].bytes;
    match place {
        Place::Host(host) => deliver_host(alloc, hosts, host, parcel, bytes, now),
        Place::Port(router, port) => {
            deliver_member(
                alloc,
                routers,
                router,
                port,
                parcel,
                bytes,
                parcels.len(),
                now,
            )
        }
    }
}

/// Does an event for which no fault was found.
pub fn happen(
    alloc: Global,
    hosts: &mut Hosts,
    routers: &mut [RouterNow],
    indexed_log: &IndexedLog,
    moment: &mut u64,
    event: Event,
) -> Result<StepResult, OutOfMemory>
    requires order { FitTogether hosts.old }
    requires owed { IsOwed event }
    requires sound { fault_before
        (net_of hosts.old routers.old indexed_log.now.parcels indexed_log.now.log moment.old) event ≡ None }
    ensures happens { IfOk result (λ g. Happens event (step_result_view g).answer
        (net_of hosts.old routers.old indexed_log.now.parcels indexed_log.now.log moment.old)
        (net_of hosts.new routers.new (indexed_log.now.parcels ++ (step_result_view g).parcels)
        (indexed_log.now.log ++ (step_result_view g).notes) moment.new)) }
    ensures memory { IsMade result → EventNeedsMemory
        (net_of hosts.old routers.old indexed_log.now.parcels indexed_log.now.log moment.old) event }
    ensures homes { SameHomes hosts.old hosts.new }
    ensures marks { IsMade result → LeavesMarks event hosts.old.ends hosts.new.ends }
{
    let now = *moment;
    let first = indexed_log.parcels().len();
    match event {
        Event::Dial {
            host,
            socket,
            to,
            buffers,
        } => dial(alloc, hosts, host, socket, to, buffers, first, now),
        Event::Send { who, message } => send(alloc, hosts, who, message, first, now),
        Event::Take { who } => take(alloc, hosts, who, first, now),
        Event::Close { who } => close(alloc, hosts, who, first, now),
        Event::Pace {
            who,
            window,
            manual,
        } => Ok(pace(alloc, hosts, who, window, manual, first, now)),
        Event::Again { who, place } => Ok(again(alloc, hosts, who, place, first, now)),
        Event::Release { who } => release(alloc, hosts, who, first, now),
        Event::Tick { now } => {
            *moment = now;
            Ok(quiet(alloc, Answer::Done))
        }
        Event::Poll { member } => poll(alloc, hosts, routers, indexed_log, member, now),
        Event::Deliver { parcel, place } => deliver(
            alloc,
            hosts,
            routers,
            indexed_log,
            parcel,
            place,
            now,
        ),
        Event::Inject {
            segment,
            next,
            bytes,
        } => inject(alloc, segment, next, bytes, first),
    }
}
