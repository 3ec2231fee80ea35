//! Answers to datagrams in a buffer that the router may change.

ghost use Rattle.std.specs.Prelude.{◌≡◌, ℕ, List, length, IfOk, IfNone, IfSome, OnErr};
ghost use Rattle.ipx_router.specs.Knowledge.{known_aged, known_in};
ghost use Rattle.ipx_router.specs.Ports.{IsPortNumber, IsSound};
ghost use Rattle.ipx_router.specs.OutcomeView.{IsOnPort, router_outcome};
ghost use Rattle.ipx_router.specs.InPlaceView.{ChangesOnlyPacket, outcome_in};
ghost use Rattle.ipx_router.specs.Onward.{ForwardsNothing, IsOnward};
ghost use Rattle.ipx_router.specs.Answer.{AnswersBytes};
ghost use Rattle.ipx_router.specs.OutOfMemoryCases.{BytesOutOfMemoryInPlace, NoneIsOnward};
ghost use Rattle.ipx_router.specs.Forwarded.{ForwardsEachReading, ForwardsPacket};

use crate::answering::answer_to;
use crate::classify::{PacketClass, classify};
use crate::forwarding::forward_front;
use crate::outcome::{InPlace, Outcome};
use crate::port::{Port, PortNow};
use ipx_tables::{RouteTable, ServiceTable};
use ipx_wire::{IPX_HEADER_SIZE, IpxHeader, OutOfMemory, decode};
use std::alloc::Global;

/// The header and length of the packet at the front of the bytes, if it is for another network. The
/// result borrows nothing, so the bytes can be changed.
#[inline(always)]
fn onward_packet(arrived: Port, bytes: &[u8]) -> Option<(IpxHeader, usize)>
    ensures some { IfSome result (λ p. IsOnward arrived bytes.now p.0 p.1) }
    ensures none { IfNone result (NoneIsOnward arrived bytes.now) }
{
    let Ok(packet) = decode(bytes) else {
        return None;
    };
    match classify(arrived, packet.header) {
        PacketClass::Forward => Some((packet.header, IPX_HEADER_SIZE + packet.body.len())),
        PacketClass::Dropped(_) | PacketClass::Rip | PacketClass::Sap => None,
    }
}

/// An answer that forwards nothing, so the bytes stay unchanged.
fn left_in_place(outcome: Outcome) -> InPlace
    requires { ForwardsNothing (router_outcome outcome) }
    ensures same { (room : List ℕ) → outcome_in room result ≡ router_outcome outcome }
    ensures stays { (room : List ℕ) → ChangesOnlyPacket room room result }
{
    match outcome {
        Outcome::Forward(_) => unreachable!(),
        Outcome::Replies(replies) => InPlace::Replies(replies),
        Outcome::Heard(count) => InPlace::Heard(count),
        Outcome::Dropped(reason) => InPlace::Dropped(reason),
    }
}

/// The answer to bytes that are no packet for another network. They stay unchanged.
#[inline(never)] // keeps it out of the forwarding path
fn answer_unchanged(
    alloc: Global,
    ports: &[Port],
    routes: &mut RouteTable,
    services: &mut ServiceTable,
    at: PortNow,
    bytes: &[u8],
) -> Result<InPlace, OutOfMemory>
    requires none { NoneIsOnward at.port bytes.now }
    requires sound { IsSound ports.now (routes.old, services.old) }
    requires port { IsPortNumber (length ports.now) at.number }
    ensures answer { IfOk result (λ o.
        AnswersBytes (known_in ports.now routes.old services.old) at bytes.now
        (outcome_in bytes.now o) (routes.new, services.new)) }
    ensures refused { OnErr result
        (BytesOutOfMemoryInPlace (known_in ports.now routes.old services.old) at bytes.now
        (routes.new, services.new)) }
    ensures packet { IfOk result (λ o. ForwardsPacket bytes.now (outcome_in bytes.now o)) }
    ensures one_hop_on { IfOk result (λ o.
        ForwardsEachReading at.port bytes.now (outcome_in bytes.now o)) }
    ensures there { IfOk result (λ o. IsOnPort (length ports.now) (outcome_in bytes.now o)) }
    ensures stays { IfOk result (ChangesOnlyPacket bytes.now bytes.now) }
    ensures capacity { (routes.new.capacity ≡ routes.old.capacity) × (services.new.capacity ≡ services.old.capacity) }
    ensures sound { IsSound ports.now (routes.new, services.new) }
{
    let outcome = answer_to(alloc, ports, routes, services, at, bytes)?;
    Ok(left_in_place(outcome))
}

/// The answer to bytes that came in on a port, after old offers were removed.
fn answer_in_place(
    alloc: Global,
    ports: &[Port],
    routes: &mut RouteTable,
    services: &mut ServiceTable,
    at: PortNow,
    bytes: &mut [u8],
) -> Result<InPlace, OutOfMemory>
    requires sound { IsSound ports.now (routes.old, services.old) }
    requires port { IsPortNumber (length ports.now) at.number }
    ensures answer { IfOk result (λ o.
        AnswersBytes (known_in ports.now routes.old services.old) at bytes.old
        (outcome_in bytes.new o) (routes.new, services.new)) }
    ensures refused { OnErr result
        (BytesOutOfMemoryInPlace (known_in ports.now routes.old services.old) at bytes.old
        (routes.new, services.new)) }
    ensures packet { IfOk result (λ o. ForwardsPacket bytes.old (outcome_in bytes.new o)) }
    ensures one_hop_on { IfOk result (λ o.
        ForwardsEachReading at.port bytes.old (outcome_in bytes.new o)) }
    ensures there { IfOk result (λ o. IsOnPort (length ports.now) (outcome_in bytes.new o)) }
    ensures changes { IfOk result (ChangesOnlyPacket bytes.old bytes.new) }
    ensures stays { OnErr result (bytes.new ≡ bytes.old) }
    ensures capacity { (routes.new.capacity ≡ routes.old.capacity) × (services.new.capacity ≡ services.old.capacity) }
    ensures sound { IsSound ports.now (routes.new, services.new) }
{
    match onward_packet(at.port, bytes) {
        None => return answer_unchanged(alloc, ports, routes, services, at, bytes),
        Some((header, count)) => {
            return Ok(forward_front(ports, routes, at, bytes, header, count));
        }
    }
}

/// Removes old offers, and then answers bytes that came in on a port and that may be changed. The
/// removal stays, whatever the answer is.
pub fn receive_in_place_at(
    alloc: Global,
    ports: &[Port],
    routes: &mut RouteTable,
    services: &mut ServiceTable,
    at: PortNow,
    bytes: &mut [u8],
) -> Result<InPlace, OutOfMemory>
    requires sound { IsSound ports.now (routes.old, services.old) }
    requires port { IsPortNumber (length ports.now) at.number }
    ensures answer { IfOk result (λ o.
        AnswersBytes (known_aged ports.now routes.old services.old at.now) at bytes.old
        (outcome_in bytes.new o) (routes.new, services.new)) }
    ensures refused { OnErr result
        (BytesOutOfMemoryInPlace (known_aged ports.now routes.old services.old at.now) at bytes.old
        (routes.new, services.new)) }
    ensures packet { IfOk result (λ o. ForwardsPacket bytes.old (outcome_in bytes.new o)) }
    ensures one_hop_on { IfOk result (λ o.
        ForwardsEachReading at.port bytes.old (outcome_in bytes.new o)) }
    ensures there { IfOk result (λ o. IsOnPort (length ports.now) (outcome_in bytes.new o)) }
    ensures changes { IfOk result (ChangesOnlyPacket bytes.old bytes.new) }
    ensures stays { OnErr result (bytes.new ≡ bytes.old) }
    ensures capacity { (routes.new.capacity ≡ routes.old.capacity) × (services.new.capacity ≡ services.old.capacity) }
    ensures sound { IsSound ports.now (routes.new, services.new) }
{
    routes.age(at.now);
    services.age(at.now);
    answer_in_place(alloc, ports, routes, services, at, bytes)
}
