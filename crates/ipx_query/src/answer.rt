//! The bodies of answers.

ghost use Rattle.std.specs.Prelude.{◌≡◌, IfOk, OnErr, Err, Some, MatchResult, true, false};
ghost use Rattle.ipx_tables.specs.Content.{IsTable};
ghost use Rattle.ipx_tables.specs.Route.{network_cmp};
ghost use Rattle.ipx_tables.specs.Service.{service_key_cmp};
ghost use Rattle.ipx_query.specs.QueryAnswers.{HearsRip, HearsSap, RipBodyOutOfMemory, SapBodyOutOfMemory, source_at};

use crate::answer_heard::AnswerHeard;
use crate::entries::{hear_routes, hear_services};
use ipx_control::{RIP_MAX_ENTRIES, RipBody, SAP_MAX_SERVICES, SapBody, read_rip, read_sap};
use ipx_tables::{RouteTable, ServiceTable, Source, TableFault};
use ipx_wire::{Address, Node, OutOfMemory};
use std::alloc::Global;

/// The source of an answer: a node on the host's one port.
fn source_of(node: Node) -> Source
    ensures { result ≡ source_at node }
{
    Source {
        port: 1,
        neighbour: node,
    }
}

fn outcome_of(
    heard: Result<(), TableFault>,
    ended: bool,
) -> Result<Option<AnswerHeard>, OutOfMemory>
    ensures answer { IfOk result (λ a. MatchResult heard
        (λ _. a ≡ Some (record { ended = ended; cut = false }))
        (λ f. (f ≡ TableFault.Full) × (a ≡ Some (record { ended = ended; cut = true })))) }
    ensures refused { OnErr result (heard ≡ Err TableFault.OutOfMemory) }
{
    match heard {
        Ok(()) => Ok(Some(AnswerHeard { ended, cut: false })),
        Err(TableFault::Full) => Ok(Some(AnswerHeard { ended, cut: true })),
        Err(TableFault::OutOfMemory) => Err(OutOfMemory),
    }
}

/// Learns a body as a RIP response. Returns `None` if it is not one.
pub fn hear_rip(
    alloc: Global,
    own: Address,
    routes: &mut RouteTable,
    node: Node,
    body: &[u8],
    now: u64,
) -> Result<Option<AnswerHeard>, OutOfMemory>
    requires { IsTable network_cmp routes.old }
    ensures answer { IfOk result (λ a. HearsRip own node now routes.old body.now a routes.new) }
    ensures refused { OnErr result
        (RipBodyOutOfMemory own node now routes.old body.now routes.new) }
    ensures valid { IsTable network_cmp routes.new }
{
    match read_rip(body) {
        Err(_) => return Ok(None),
        Ok(RipBody::Request(_)) => return Ok(None),
        Ok(RipBody::Response(entries)) => {
            let ended = entries.len() < RIP_MAX_ENTRIES;
            let heard = hear_routes(alloc, own, routes, source_of(node), entries, now);
            return outcome_of(heard, ended);
        }
    }
}

/// Learns a body as a SAP response. Returns `None` if it is not one.
pub fn hear_sap(
    alloc: Global,
    services: &mut ServiceTable,
    node: Node,
    body: &[u8],
    now: u64,
) -> Result<Option<AnswerHeard>, OutOfMemory>
    requires { IsTable service_key_cmp services.old }
    ensures answer { IfOk result (λ a. HearsSap node now services.old body.now a services.new) }
    ensures refused { OnErr result
        (SapBodyOutOfMemory node now services.old body.now services.new) }
    ensures valid { IsTable service_key_cmp services.new }
{
    match read_sap(body) {
        Err(_) => return Ok(None),
        Ok(
            SapBody::Query {
                nearest: _,
                kind: _,
            },
        ) => return Ok(None),
        Ok(
            SapBody::Response {
                nearest: _,
                services: entries,
            },
        ) => {
            let ended = entries.len() < SAP_MAX_SERVICES;
            let heard = hear_services(alloc, services, source_of(node), entries, now);
            return outcome_of(heard, ended);
        }
    }
}
