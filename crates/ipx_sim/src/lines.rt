//! The lines that report an event.

ghost use Rattle.std.specs.Prelude.{◌≡◌, ◌++◌, ◌∷◌, [], IfOk, codes, string_bytes};
ghost use Rattle.ipx_inspect.specs.Line.{fault_text, reason_text, spx_fault_text};
ghost use Rattle.std.specs.List.{flat_map};
ghost use Rattle.ipx_net.specs.AnswerView.{answer_view};
ghost use Rattle.ipx_net.specs.Parcels.{parcel_view, parcel_views};
ghost use Rattle.ipx_sim.specs.Act.{outcome_view};
ghost use Rattle.ipx_sim.specs.ActLine.{act_lines, act_status, answer_lines, answer_status, arrived_text, bytes_text, done_line, end_text, fault_line, line_at, made_lines, parcel_line, refused_line};

use crate::words::{end_fault_to_name, net_fault_name, received_word};
use ipx_inspect::{fault_to_text, numbered_text, reason_to_text, spx_fault_to_text};
use ipx_net::{Answer, NetFault, Parcel};
use ipx_router::Reason;
use ipx_wire::{IpxFault, OutOfMemory, SpxFault};
use spx_messages::{Arrived, EndFault};
use std::alloc::{AllocError, Global};

/// `refused (n) TEXT`, for a call that an end refused.
pub fn refused_to_line(alloc: Global, fault: EndFault) -> Result<String, AllocError>
    ensures { IfOk result (λ t. string_bytes t ≡ refused_line fault) }
{
    let name = end_fault_to_name(alloc, fault)?;
    let text = numbered_text(alloc, fault.number(), &name)?;
    format!(in alloc; "refused {text}\n")
}

/// `fault (n) NAME`, for an event that a network refused.
pub fn fault_to_line(alloc: Global, fault: NetFault) -> Result<String, AllocError>
    ensures { IfOk result (λ t. string_bytes t ≡ fault_line fault) }
{
    let text = numbered_text(alloc, fault.number(), net_fault_name(fault))?;
    format!(in alloc; "fault {text}\n")
}

/// Bytes in hex, and `-` for none.
pub fn bytes_to_text(alloc: Global, bytes: &[u8]) -> Result<String, AllocError>
    ensures { IfOk result (λ t. string_bytes t ≡ bytes_text bytes.now) }
{
    if bytes.is_empty() {
        return String::from_str(alloc, "-");
    }
    hex::encode(alloc, bytes)
}

/// A parcel with its number: its network, its next node, and its bytes.
fn parcel_to_line(alloc: Global, number: usize, parcel: &Parcel) -> Result<String, AllocError>
    ensures { IfOk result (λ t. string_bytes t ≡ parcel_line number (parcel_view parcel.now)) }
{
    let segment = hex::encode(alloc, parcel.segment.0.to_be_bytes())?;
    let next = hex::encode(alloc, parcel.next.0)?;
    let bytes = bytes_to_text(alloc, &parcel.bytes)?;
    format!(in alloc; "parcel {number} {segment} {next} {bytes}\n")
}

fn line_at(alloc: Global, parcels: &[Parcel], number: usize) -> Result<String, AllocError>
    ensures { IfOk result (λ t. string_bytes t ≡ line_at (parcel_views parcels.now) number) }
{
    match parcels.get(number) {
        Some(parcel) => parcel_to_line(alloc, number, parcel),
        None => Ok(String::new(alloc)),
    }
}

fn parcels_to_lines(
    alloc: Global,
    parcels: &[Parcel],
    numbers: &[usize],
) -> Result<String, AllocError>
    ensures { IfOk result (λ t.
        string_bytes t ≡ flat_map (line_at (parcel_views parcels.now)) numbers.now) }
{
    let mut lines = String::new(alloc);
    for number in numbers {
        let line = line_at(alloc, parcels, *number)?;
        lines.push_str(&line)?;
    }
    Ok(lines)
}

/// The parcels that were made, or that there were none.
fn made_to_lines(alloc: Global, parcels: &[Parcel], numbers: &[usize]) -> Result<String, AllocError>
    ensures { IfOk result
        (λ t. string_bytes t ≡ made_lines (parcel_views parcels.now) numbers.now) }
{
    if numbers.is_empty() {
        return String::from_str(alloc, "quiet\n");
    }
    parcels_to_lines(alloc, parcels, numbers)
}

fn end_to_text(alloc: Global, end: Option<usize>) -> Result<String, AllocError>
    ensures { IfOk result (λ t. string_bytes t ≡ end_text end) }
{
    match end {
        Some(who) => format!(in alloc; "end {who} "),
        None => Ok(String::new(alloc)),
    }
}

/// What an end of a host did with a datagram.
fn end_line(alloc: Global, end: Option<usize>, word: &str) -> Result<String, AllocError>
    ensures { IfOk result (λ t. string_bytes t ≡ end_text end ++ word.now) }
{
    let mut text = end_to_text(alloc, end)?;
    text.push_str(word)?;
    Ok(text)
}

fn dropped_text(alloc: Global, fault: IpxFault) -> Result<String, AllocError>
    ensures { IfOk result (λ t. string_bytes t ≡ codes "dropped " ++ fault_text fault) }
{
    let text = fault_to_text(alloc, fault)?;
    format!(in alloc; "dropped {text}")
}

fn dropped_spx_text(alloc: Global, fault: SpxFault) -> Result<String, AllocError>
    ensures { IfOk result (λ t. string_bytes t ≡ codes "dropped " ++ spx_fault_text fault) }
{
    let text = spx_fault_to_text(alloc, fault)?;
    format!(in alloc; "dropped {text}")
}

/// What became of a datagram at a host.
fn arrived_to_text(
    alloc: Global,
    end: Option<usize>,
    arrived: Arrived,
) -> Result<String, AllocError>
    ensures { IfOk result (λ t. string_bytes t ≡ arrived_text end arrived) }
{
    match arrived {
        Arrived::Bad(fault) => dropped_text(alloc, fault),
        Arrived::NotOurs => String::from_str(alloc, "not-ours"),
        Arrived::BadSpx(fault) => dropped_spx_text(alloc, fault),
        Arrived::NoListener => String::from_str(alloc, "no-listener"),
        Arrived::NoRoom => String::from_str(alloc, "no-room"),
        Arrived::Stranger => String::from_str(alloc, "stranger"),
        Arrived::Accepted(_) => end_line(alloc, end, "accepted"),
        Arrived::Link(_, received) => end_line(alloc, end, received_word(received)),
    }
}

fn arrived_to_line(
    alloc: Global,
    end: Option<usize>,
    arrived: Arrived,
) -> Result<String, AllocError>
    ensures { IfOk result (λ t. string_bytes t ≡ arrived_text end arrived ++ 10 ∷ []) }
{
    let text = arrived_to_text(alloc, end, arrived)?;
    format!(in alloc; "{text}\n")
}

fn dropped_to_line(alloc: Global, reason: Reason) -> Result<String, AllocError>
    ensures { IfOk result
        (λ t. string_bytes t ≡ codes "dropped " ++ (reason_text reason ++ 10 ∷ [])) }
{
    let text = reason_to_text(alloc, reason)?;
    format!(in alloc; "dropped {text}\n")
}

fn done_to_line(alloc: Global, moment: Option<u64>) -> Result<String, AllocError>
    ensures { IfOk result (λ t. string_bytes t ≡ done_line moment) }
{
    match moment {
        Some(now) => format!(in alloc; "now {now}\n"),
        None => String::from_str(alloc, "ok\n"),
    }
}

/// The lines of an answer to an event that set this time, if it set one.
fn answer_to_lines(
    alloc: Global,
    moment: Option<u64>,
    parcels: &[Parcel],
    answer: &Answer,
) -> Result<String, AllocError>
    ensures { IfOk result (λ t.
        string_bytes t ≡ answer_lines moment (parcel_views parcels.now) (answer_view answer.now)) }
{
    match answer {
        Answer::End(who) => format!(in alloc; "end {who}\n"),
        Answer::Done => done_to_line(alloc, moment),
        Answer::Taken(_) => Ok(String::new(alloc)),
        Answer::Parcels(numbers) => made_to_lines(alloc, parcels, numbers),
        Answer::Arrived(end, arrived) => arrived_to_line(alloc, *end, *arrived),
        Answer::Heard(count) => format!(in alloc; "heard {count}\n"),
        Answer::Dropped(reason) => dropped_to_line(alloc, *reason),
        Answer::Refused(fault) => refused_to_line(alloc, *fault),
    }
}

/// 1 if an end refused, otherwise 0.
fn answer_to_status(answer: &Answer) -> u8
    ensures { result ≡ answer_status (answer_view answer.now) }
{
    match answer {
        Answer::Refused(_) => 1,
        _ => 0,
    }
}

/// The lines and the status of an event: those of its answer, or of the fault that refused it.
pub fn outcome_to_lines(
    alloc: Global,
    moment: Option<u64>,
    parcels: &[Parcel],
    outcome: &Result<Answer, NetFault>,
) -> Result<(String, u8), OutOfMemory>
    ensures { IfOk result (λ l.
        (string_bytes l.0 ≡ act_lines moment (parcel_views parcels.now) (outcome_view outcome.now))
        × (l.1 ≡ act_status (outcome_view outcome.now))) }
{
    match outcome {
        Ok(answer) => {
            let lines = answer_to_lines(alloc, moment, parcels, answer)?;
            Ok((lines, answer_to_status(answer)))
        }
        Err(fault) => {
            let line = fault_to_line(alloc, *fault)?;
            Ok((line, 1))
        }
    }
}
