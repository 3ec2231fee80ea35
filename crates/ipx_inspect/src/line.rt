//! The lines that are printed.

ghost use Rattle.std.specs.Prelude.{◌≡◌, IfOk, string_bytes};
ghost use Rattle.std.specs.List.{flat_map};
ghost use Rattle.ipx_router.specs.OutcomeView.{router_outcome};
ghost use Rattle.ipx_router.specs.RouterPackets.{sending_of, sendings};
ghost use Rattle.ipx_inspect.specs.Line.{control_fault_name, control_fault_text, fault_name, fault_text, lines_of, no_route_name, numbered, reason_text, sending_line, sending_text, spx_fault_name, spx_fault_text, status_of};

use ipx_control::ControlFault;
use ipx_router::{Outcome, Reason, Reply};
use ipx_wire::{IpxFault, Network, SpxFault};
use std::alloc::{AllocError, Global};

/// A number in brackets, and its name.
pub fn numbered_text(alloc: Global, number: u8, name: &str) -> Result<String, AllocError>
    ensures { IfOk result (λ t. string_bytes t ≡ numbered number name.now) }
{
    format!(in alloc; "({number}) {name}")
}

fn fault_to_name(alloc: Global, fault: IpxFault) -> Result<String, AllocError>
    ensures { IfOk result (λ t. string_bytes t ≡ fault_name fault) }
{
    match fault {
        IpxFault::Short(have) => format!(in alloc; "Short {have}"),
        IpxFault::Checksummed(value) => format!(in alloc; "Checksummed {value}"),
        IpxFault::LengthShort(value) => format!(in alloc; "LengthShort {value}"),
        IpxFault::Truncated(said, have) => format!(in alloc; "Truncated {said} {have}"),
        IpxFault::TooLong(value) => format!(in alloc; "TooLong {value}"),
    }
}

fn spx_fault_to_name(alloc: Global, fault: SpxFault) -> Result<String, AllocError>
    ensures { IfOk result (λ t. string_bytes t ≡ spx_fault_name fault) }
{
    match fault {
        SpxFault::SpxShort(have) => format!(in alloc; "SpxShort {have}"),
        SpxFault::OverSize(have) => format!(in alloc; "OverSize {have}"),
    }
}

fn control_fault_to_name(alloc: Global, fault: ControlFault) -> Result<String, AllocError>
    ensures { IfOk result (λ t. string_bytes t ≡ control_fault_name fault) }
{
    match fault {
        ControlFault::NoOperation => String::from_str(alloc, "NoOperation"),
        ControlFault::UnknownOperation(operation) => {
            format!(in alloc; "UnknownOperation {operation}")
        }
        ControlFault::TooManyEntries(count) => format!(in alloc; "TooManyEntries {count}"),
        ControlFault::QueryShort(have) => format!(in alloc; "QueryShort {have}"),
        ControlFault::OutOfMemory => String::from_str(alloc, "OutOfMemory"),
    }
}

/// An IPX header fault: its number, its name and its values.
pub fn fault_to_text(alloc: Global, fault: IpxFault) -> Result<String, AllocError>
    ensures { IfOk result (λ t. string_bytes t ≡ fault_text fault) }
{
    let name = fault_to_name(alloc, fault)?;
    numbered_text(alloc, fault.number(), &name)
}

/// The same for a fault of an SPX header.
pub fn spx_fault_to_text(alloc: Global, fault: SpxFault) -> Result<String, AllocError>
    ensures { IfOk result (λ t. string_bytes t ≡ spx_fault_text fault) }
{
    let name = spx_fault_to_name(alloc, fault)?;
    numbered_text(alloc, fault.number(), &name)
}

/// The same for a fault of a RIP or SAP packet.
pub fn control_fault_to_text(alloc: Global, fault: ControlFault) -> Result<String, AllocError>
    ensures { IfOk result (λ t. string_bytes t ≡ control_fault_text fault) }
{
    let name = control_fault_to_name(alloc, fault)?;
    numbered_text(alloc, fault.number(), &name)
}

fn no_route_to_name(alloc: Global, network: Network) -> Result<String, AllocError>
    ensures { IfOk result (λ t. string_bytes t ≡ no_route_name network) }
{
    let digits = hex::encode(alloc, network.0.to_be_bytes())?;
    format!(in alloc; "NoRoute {digits}")
}

/// Why a packet was dropped: the reason's number and name, or those of the fault that it holds.
pub fn reason_to_text(alloc: Global, reason: Reason) -> Result<String, AllocError>
    ensures { IfOk result (λ t. string_bytes t ≡ reason_text reason) }
{
    let number = reason.number();
    match reason {
        Reason::Bad(fault) => fault_to_text(alloc, fault),
        Reason::Propagated => numbered_text(alloc, number, "Propagated"),
        Reason::NotOurs => numbered_text(alloc, number, "NotOurs"),
        Reason::NoRoute(network) => {
            let name = no_route_to_name(alloc, network)?;
            numbered_text(alloc, number, &name)
        }
        Reason::HopLimit => numbered_text(alloc, number, "HopLimit"),
        Reason::BadControl(fault) => control_fault_to_text(alloc, fault),
        Reason::TableFull => numbered_text(alloc, number, "TableFull"),
    }
}

/// A packet that is sent: its port, the next node and its bytes.
fn reply_to_text(alloc: Global, reply: &Reply) -> Result<String, AllocError>
    ensures { IfOk result (λ t. string_bytes t ≡ sending_text (sending_of reply.now)) }
{
    let port = reply.port;
    let next = hex::encode(alloc, reply.next.0)?;
    let bytes = hex::encode(alloc, reply.bytes.as_slice())?;
    format!(in alloc; "{port} {next} {bytes}")
}

fn reply_to_line(alloc: Global, reply: &Reply) -> Result<String, AllocError>
    ensures { IfOk result (λ t. string_bytes t ≡ sending_line (sending_of reply.now)) }
{
    let text = reply_to_text(alloc, reply)?;
    format!(in alloc; "reply {text}\n")
}

fn replies_to_lines(alloc: Global, replies: &[Reply]) -> Result<String, AllocError>
    ensures { IfOk result (λ t. string_bytes t ≡ flat_map sending_line (sendings replies.now)) }
{
    let mut lines = String::new(alloc);
    for reply in replies {
        let line = reply_to_line(alloc, reply)?;
        lines.push_str(&line)?;
    }
    Ok(lines)
}

/// The lines of an outcome, none for no replies.
pub fn outcome_lines(alloc: Global, outcome: &Outcome) -> Result<String, AllocError>
    ensures { IfOk result (λ t. string_bytes t ≡ lines_of (router_outcome outcome.now)) }
{
    match outcome {
        Outcome::Forward(reply) => {
            let text = reply_to_text(alloc, reply)?;
            format!(in alloc; "forward {text}\n")
        }
        Outcome::Replies(replies) => replies_to_lines(alloc, replies),
        Outcome::Heard(count) => format!(in alloc; "heard {count}\n"),
        Outcome::Dropped(reason) => {
            let text = reason_to_text(alloc, *reason)?;
            format!(in alloc; "dropped {text}\n")
        }
    }
}

/// 1 for a packet that was dropped, otherwise 0.
pub fn outcome_status(outcome: &Outcome) -> u8
    ensures { result ≡ status_of (router_outcome outcome.now) }
{
    match outcome {
        Outcome::Forward(_) => 0,
        Outcome::Replies(_) => 0,
        Outcome::Heard(_) => 0,
        Outcome::Dropped(_) => 1,
    }
}
