//! What a router answers to a datagram.

ghost use Rattle.std.specs.Prelude.{◌≡◌, ◌≤◌, ℕ, length, IfOk, OnErr, Err, MatchResult};
ghost use Rattle.ipx_wire.specs.Ipx.{BeginsWith, packet_view};
ghost use Rattle.ipx_tables.specs.Content.{IsTable};
ghost use Rattle.ipx_tables.specs.Route.{network_cmp};
ghost use Rattle.ipx_tables.specs.Service.{service_key_cmp};
ghost use Rattle.ipx_router.specs.Knowledge.{known_aged, known_in, routes_in, services_in};
ghost use Rattle.ipx_router.specs.Ports.{AreFromPorts, IsPortNumber, IsSound};
ghost use Rattle.ipx_router.specs.Classify.{class_of};
ghost use Rattle.ipx_router.specs.Protocols.{class_of_protocol};
ghost use Rattle.ipx_router.specs.OutcomeView.{Dropped, Heard, IsOnPort, router_outcome};
ghost use Rattle.ipx_router.specs.Answer.{AnswersByClass, AnswersBytes, AnswersRip, AnswersSap};
ghost use Rattle.ipx_router.specs.OutOfMemoryCases.{BytesOutOfMemory, ClassOutOfMemory, RipOutOfMemory, SapOutOfMemory};
ghost use Rattle.ipx_router.specs.Forwarded.{ForwardsEachReading, ForwardsPacket, IsForwardOf};

use crate::classify::{PacketClass, classify};
use crate::forwarding::forward;
use crate::hearing::{hear_routes, hear_services, neighbour_of};
use crate::outcome::Outcome;
use crate::packets::recipient_of;
use crate::port::{Port, PortNow};
use crate::reason::Reason;
use crate::replying::{reply_routes, reply_services};
use ipx_control::{RipBody, SapBody, read_rip, read_sap};
use ipx_tables::{RouteTable, ServiceTable, TableFault};
use ipx_wire::{OutOfMemory, Packet, decode};
use std::alloc::Global;

/// A protocol that the router answers itself.
enum Protocol {
    Rip,
    Sap,
}

fn outcome_of_hearing(heard: Result<u16, TableFault>) -> Result<Outcome, OutOfMemory>
    ensures answer { IfOk result (λ o. MatchResult heard (λ n. router_outcome o ≡ Heard n)
        (λ f. (f ≡ TableFault.Full) × (router_outcome o ≡ Dropped Reason.TableFull))) }
    ensures refused { OnErr result (heard ≡ Err TableFault.OutOfMemory) }
{
    match heard {
        Ok(count) => Ok(Outcome::Heard(count)),
        Err(TableFault::Full) => Ok(Outcome::Dropped(Reason::TableFull)),
        Err(TableFault::OutOfMemory) => Err(OutOfMemory),
    }
}

/// The answer to a packet for socket 0453.
fn answer_rip(
    alloc: Global,
    ports: &[Port],
    routes: &mut RouteTable,
    at: PortNow,
    packet: Packet<'_>,
) -> Result<Outcome, OutOfMemory>
    requires ports { length ports.now ≤ 16 }
    requires table { IsTable network_cmp routes.old }
    ensures answer { IfOk result (λ o.
        AnswersRip ports.now (routes_in routes.old) at (packet_view packet.entry) (router_outcome o)
        routes.new) }
    ensures refused { OnErr result
        (RipOutOfMemory ports.now (routes_in routes.old) at (packet_view packet.entry) routes.new) }
    ensures capacity { routes.new.capacity ≡ routes.old.capacity }
    ensures valid { IsTable network_cmp routes.new }
    ensures sources { (count : ℕ) → IsPortNumber count at.number
        → AreFromPorts count (routes_in routes.old) → AreFromPorts count (routes_in routes.new) }
{
    match read_rip(packet.body) {
        Err(fault) => return Ok(Outcome::Dropped(Reason::BadControl(fault))),
        Ok(RipBody::Request(asked)) => {
            let to = recipient_of(at, packet.header);
            let replies = reply_routes(alloc, ports, routes, at, to, asked)?;
            return Ok(Outcome::Replies(replies));
        }
        Ok(RipBody::Response(entries)) => {
            let source = neighbour_of(at, packet.header);
            let heard = hear_routes(alloc, ports, routes, source, entries, at.now);
            return outcome_of_hearing(heard);
        }
    }
}

/// The answer to a packet for socket 0452.
fn answer_sap(
    alloc: Global,
    services: &mut ServiceTable,
    at: PortNow,
    packet: Packet<'_>,
) -> Result<Outcome, OutOfMemory>
    requires { IsTable service_key_cmp services.old }
    ensures answer { IfOk result (λ o.
        AnswersSap (services_in services.old) at (packet_view packet.entry) (router_outcome o)
        services.new) }
    ensures refused { OnErr result
        (SapOutOfMemory (services_in services.old) at (packet_view packet.entry) services.new) }
    ensures capacity { services.new.capacity ≡ services.old.capacity }
    ensures valid { IsTable service_key_cmp services.new }
    ensures sources { (count : ℕ) → IsPortNumber count at.number
        → AreFromPorts count (services_in services.old)
        → AreFromPorts count (services_in services.new) }
{
    match read_sap(packet.body) {
        Err(fault) => return Ok(Outcome::Dropped(Reason::BadControl(fault))),
        Ok(SapBody::Query { nearest, kind }) => {
            let to = recipient_of(at, packet.header);
            let replies = reply_services(alloc, services, at, to, nearest, kind)?;
            return Ok(Outcome::Replies(replies));
        }
        Ok(
            SapBody::Response {
                nearest: _,
                services: entries,
            },
        ) => {
            let source = neighbour_of(at, packet.header);
            let heard = hear_services(alloc, services, source, entries, at.now);
            return outcome_of_hearing(heard);
        }
    }
}

/// The answer to a packet for the router's RIP or SAP socket.
#[inline(never)] // keeps it out of the forwarding path
fn answer_control(
    alloc: Global,
    ports: &[Port],
    routes: &mut RouteTable,
    services: &mut ServiceTable,
    at: PortNow,
    packet: Packet<'_>,
    protocol: Protocol,
) -> Result<Outcome, OutOfMemory>
    requires sound { IsSound ports.now (routes.old, services.old) }
    requires port { IsPortNumber (length ports.now) at.number }
    ensures answer { IfOk result (λ o.
        AnswersByClass (known_in ports.now routes.old services.old) at (packet_view packet.entry)
        (router_outcome o) (routes.new, services.new) (class_of_protocol protocol)) }
    ensures refused { OnErr result
        (ClassOutOfMemory (known_in ports.now routes.old services.old) at
        (packet_view packet.entry) (routes.new, services.new)
        (class_of_protocol protocol)) }
    ensures one_hop_on { IfOk result (λ o.
        IsForwardOf at.port (packet_view packet.entry) (router_outcome o)) }
    ensures there { IfOk result (λ o. IsOnPort (length ports.now) (router_outcome o)) }
    ensures capacity { (routes.new.capacity ≡ routes.old.capacity) × (services.new.capacity ≡ services.old.capacity) }
    ensures sound { IsSound ports.now (routes.new, services.new) }
{
    match protocol {
        Protocol::Rip => return answer_rip(alloc, ports, routes, at, packet),
        Protocol::Sap => return answer_sap(alloc, services, at, packet),
    }
}

fn answer_packet(
    alloc: Global,
    ports: &[Port],
    routes: &mut RouteTable,
    services: &mut ServiceTable,
    at: PortNow,
    datagram: &[u8],
    packet: Packet<'_>,
) -> Result<Outcome, OutOfMemory>
    requires reading { BeginsWith datagram.now (packet_view packet) }
    requires sound { IsSound ports.now (routes.old, services.old) }
    requires port { IsPortNumber (length ports.now) at.number }
    ensures answer { IfOk result (λ o.
        AnswersByClass (known_in ports.now routes.old services.old) at (packet_view packet.entry)
        (router_outcome o) (routes.new, services.new) (class_of at.port packet.entry.header)) }
    ensures refused { OnErr result
        (ClassOutOfMemory (known_in ports.now routes.old services.old) at
        (packet_view packet.entry) (routes.new, services.new)
        (class_of at.port packet.entry.header)) }
    ensures one_hop_on { IfOk result (λ o.
        IsForwardOf at.port (packet_view packet.entry) (router_outcome o)) }
    ensures there { IfOk result (λ o. IsOnPort (length ports.now) (router_outcome o)) }
    ensures capacity { (routes.new.capacity ≡ routes.old.capacity) × (services.new.capacity ≡ services.old.capacity) }
    ensures sound { IsSound ports.now (routes.new, services.new) }
{
    match classify(at.port, packet.header) {
        PacketClass::Dropped(reason) => return Ok(Outcome::Dropped(reason)),
        PacketClass::Rip => {
            return answer_control(alloc, ports, routes, services, at, packet, Protocol::Rip);
        }
        PacketClass::Sap => {
            return answer_control(alloc, ports, routes, services, at, packet, Protocol::Sap);
        }
        PacketClass::Forward => return forward(alloc, ports, routes, at, datagram, packet),
    }
}

/// The answer to bytes that came in on a port, after old offers were removed.
pub fn answer_to(
    alloc: Global,
    ports: &[Port],
    routes: &mut RouteTable,
    services: &mut ServiceTable,
    at: PortNow,
    bytes: &[u8],
) -> Result<Outcome, OutOfMemory>
    requires sound { IsSound ports.now (routes.old, services.old) }
    requires port { IsPortNumber (length ports.now) at.number }
    ensures answer { IfOk result (λ o.
        AnswersBytes (known_in ports.now routes.old services.old) at bytes.now (router_outcome o)
        (routes.new, services.new)) }
    ensures refused { OnErr result
        (BytesOutOfMemory (known_in ports.now routes.old services.old) at bytes.now
        (routes.new, services.new)) }
    ensures packet { IfOk result (λ o. ForwardsPacket bytes.now (router_outcome o)) }
    ensures one_hop_on { IfOk result (λ o. ForwardsEachReading at.port bytes.now (router_outcome o)) }
    ensures there { IfOk result (λ o. IsOnPort (length ports.now) (router_outcome o)) }
    ensures capacity { (routes.new.capacity ≡ routes.old.capacity) × (services.new.capacity ≡ services.old.capacity) }
    ensures sound { IsSound ports.now (routes.new, services.new) }
{
    match decode(bytes) {
        Err(fault) => return Ok(Outcome::Dropped(Reason::Bad(fault))),
        Ok(packet) => return answer_packet(alloc, ports, routes, services, at, bytes, packet),
    }
}

/// Removes old offers, and then answers bytes that came in on a port. The removal stays, whatever
/// the answer is.
pub fn receive_at(
    alloc: Global,
    ports: &[Port],
    routes: &mut RouteTable,
    services: &mut ServiceTable,
    at: PortNow,
    bytes: &[u8],
) -> Result<Outcome, OutOfMemory>
    requires sound { IsSound ports.now (routes.old, services.old) }
    requires port { IsPortNumber (length ports.now) at.number }
    ensures answer { IfOk result (λ o.
        AnswersBytes (known_aged ports.now routes.old services.old at.now) at bytes.now (router_outcome o)
        (routes.new, services.new)) }
    ensures refused { OnErr result
        (BytesOutOfMemory (known_aged ports.now routes.old services.old at.now) at bytes.now
        (routes.new, services.new)) }
    ensures packet { IfOk result (λ o. ForwardsPacket bytes.now (router_outcome o)) }
    ensures one_hop_on { IfOk result (λ o. ForwardsEachReading at.port bytes.now (router_outcome o)) }
    ensures there { IfOk result (λ o. IsOnPort (length ports.now) (router_outcome o)) }
    ensures capacity { (routes.new.capacity ≡ routes.old.capacity) × (services.new.capacity ≡ services.old.capacity) }
    ensures sound { IsSound ports.now (routes.new, services.new) }
{
    routes.age(at.now);
    services.age(at.now);
    answer_to(alloc, ports, routes, services, at, bytes)
}
