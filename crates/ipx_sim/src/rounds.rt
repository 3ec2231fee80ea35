//! Queued messages, and rounds: all members are polled, and all that was not delivered yet is
//! delivered.

ghost use Rattle.std.specs.Prelude.{◌≡◌};
ghost use Rattle.ipx_sim.specs.Act.{outcome_view};
ghost use Rattle.ipx_sim.specs.ScriptDoing.{DoesEach};
ghost use Rattle.ipx_sim.specs.Delivering.{delivered_view};
ghost use Rattle.ipx_sim.specs.Going.{FillsEnd, PollsOnce, PollsOut, RunRound, RunRounds, SendsNumber, made_of, hand_in_result};

use crate::acting::step;
use crate::delivering::{Delivered, deliver_all};
use crate::names::Names;
use crate::stop::LineFault;
use crate::taking::drain_if;
use ipx_net::{Answer, Event, Member, Net, NetFault};
use spx_messages::Message;
use std::alloc::Global;

/// Whether a message was queued.
fn sent(outcome: Result<Answer, NetFault>) -> Result<bool, LineFault>
    ensures { result ≡ hand_in_result (outcome_view outcome) }
{
    match outcome? {
        Answer::Refused(fault) => Err(LineFault::Refused(fault)),
        _ => Ok(true),
    }
}

/// Queues a message of one byte: its number, modulo 256.
fn send_number(alloc: Global, net: &mut Net, end: usize, number: u32) -> Result<bool, LineFault>
    ensures { SendsNumber end number net.old result net.new }
{
    let body = vec![in alloc; (number % 256) as u8]?;
    let message = Message { stream: 0, body };
    sent(step(alloc, net, Event::Send { who: end, message }))
}

/// Queues `count` messages of one byte each, which is their number from 0, modulo 256. Returns
/// whether one was queued.
pub fn fill(alloc: Global, net: &mut Net, end: usize, count: u32) -> Result<bool, LineFault>
    ensures { FillsEnd end count net.old result net.new }
{
    let mut any = false;
    for number in 0..count {
        any |= send_number(alloc, net, end, number)?;
    }
    Ok(any)
}

/// Whether a parcel was made.
fn made_some(outcome: Result<Answer, NetFault>) -> Result<bool, LineFault>
    ensures { result ≡ made_of (outcome_view outcome) }
{
    match outcome? {
        Answer::Parcels(made) => Ok(!made.is_empty()),
        _ => Ok(false),
    }
}

/// Polls a member once, and returns whether it sent something.
fn poll_once(alloc: Global, net: &mut Net, member: Member) -> Result<bool, LineFault>
    ensures { PollsOnce member net.old result net.new }
{
    made_some(step(alloc, net, Event::Poll { member }))
}

/// Polls a member until it is quiet, and returns whether it sent something.
fn poll_out(alloc: Global, net: &mut Net, member: Member) -> Result<bool, LineFault>
    ensures { PollsOut member net.old result net.new }
{
    let mut any = false;
    for _ in 0..u64::MAX {
        let made = poll_once(alloc, net, member)?;
        if !made {
            return Ok(any);
        }
        any = true;
    }
    Ok(any)
}

/// Polls all members, each until it is quiet, and returns whether one sent something.
fn poll_all(alloc: Global, net: &mut Net, members: &[Member]) -> Result<bool, LineFault>
    ensures { DoesEach PollsOut members.now net.old result net.new }
{
    let mut any = false;
    for member in members {
        any |= poll_out(alloc, net, *member)?;
    }
    Ok(any)
}

/// One round. Returns whether a parcel was made or delivered, or a unit taken.
fn run_round(
    alloc: Global,
    net: &mut Net,
    map: &Names,
    delivered: &mut Delivered,
    takes: bool,
) -> Result<bool, LineFault>
    ensures { RunRound map.now.members.items map.now.spots.items takes
        (record { net = net.old; delivered = delivered_view delivered.old }) result
        (record { net = net.new; delivered = delivered_view delivered.new }) }
{
    let polled = poll_all(alloc, net, &map.members)?;
    let reached = deliver_all(alloc, net, &map.spots, delivered)?;
    let taken = drain_if(alloc, net, takes)?;
    Ok(polled | reached | taken)
}

/// At most this many rounds. One in which nothing happens is the last. Returns whether something
/// happened.
pub fn run_rounds(
    alloc: Global,
    net: &mut Net,
    map: &Names,
    delivered: &mut Delivered,
    rounds: u32,
    takes: bool,
) -> Result<bool, LineFault>
    ensures { RunRounds rounds map.now.members.items map.now.spots.items takes
        (record { net = net.old; delivered = delivered_view delivered.old }) result
        (record { net = net.new; delivered = delivered_view delivered.new }) }
{
    let mut any = false;
    for _ in 0..rounds {
        let more = run_round(alloc, net, map, delivered, takes)?;
        if !more {
            return Ok(any);
        }
        any = true;
    }
    Ok(any)
}
