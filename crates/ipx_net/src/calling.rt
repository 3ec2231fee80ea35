//! The calls of users on ends. Each call adds its entry to the log.

ghost use Rattle.std.specs.Prelude.{◌≡◌, ◌<◌, ◌≤◌, ◌++◌, [], IfOk, None, Ok, OnErr, length, slice_get, true};
ghost use Rattle.spx_link.specs.Limits.{most_units};
ghost use Rattle.spx_messages.specs.Taking.{taken_view};
ghost use Rattle.spx_messages.specs.Message.{message_view};
ghost use Rattle.ipx_net_hosts.specs.Hosts.{FitTogether, KeepsMarks, MayAddEnd, SameHomes, is_present};
ghost use Rattle.ipx_net_hosts.specs.Refusing.{close_fault, dial_fault, end_held, send_fault};
ghost use Rattle.spx_theory.specs.HostSteps.{unit_notes, whole_notes};
ghost use Rattle.ipx_net.specs.AnswerView as views;
ghost use Rattle.ipx_net.specs.LogEntries.{taken_unit};
ghost use Rattle.ipx_net.specs.StepResultView.{GrowsWorld, step_result_view};
ghost use Rattle.ipx_net.specs.HostEvents.{AskingAgain, Closing, Dialling, Pacing, Releasing, Sending, TakingFrom};
ghost use Rattle.ipx_net.specs.EventMemory.{IsMade, TakeIsLogged};

use crate::answer::Answer;
use crate::entry::{Entry, TakenUnit};
use crate::step_result::{StepResult, noted, quiet};
use ipx_net_hosts::{Hosts, Refusal};
use ipx_wire::{Address, OutOfMemory, Socket};
use spx_link::Unit;
use spx_messages::{Message, Taken};
use std::alloc::Global;

/// A host requests a connection. The caller must pass 1 to 8,192 buffers.
pub fn dial(
    alloc: Global,
    hosts: &mut Hosts,
    host: usize,
    socket: Socket,
    to: Address,
    buffers: u16,
    first: usize,
    now: u64,
) -> Result<StepResult, OutOfMemory>
    requires there { host < length hosts.old.stations }
    requires range { (0 < buffers) × (buffers ≤ most_units) }
    ensures grows { IfOk result (λ g. GrowsWorld hosts.old hosts.new first now (step_result_view g)
        (Dialling host socket to buffers)) }
    ensures memory { IsMade result → dial_fault (slice_get hosts.old.stations host) ≡ None }
    ensures homes { SameHomes hosts.old hosts.new }
    ensures marks { MayAddEnd hosts.old hosts.new }
{
    match hosts.dial(alloc, host, socket, to, buffers, now) {
        Ok(who) => noted(
            alloc,
            Entry::Opened { who, host, buffers },
            Answer::End(who),
        ),
        Err(Refusal::ByEnd(fault)) => Ok(quiet(alloc, Answer::Refused(fault))),
        Err(Refusal::OutOfMemory) => Err(OutOfMemory),
    }
}

/// Queues a message at a live end.
pub fn send(
    alloc: Global,
    hosts: &mut Hosts,
    who: usize,
    message: Message,
    first: usize,
    now: u64,
) -> Result<StepResult, OutOfMemory>
    requires order { FitTogether hosts.old }
    requires present { is_present hosts.old who ≡ true }
    ensures grows { IfOk result (λ g. GrowsWorld hosts.old hosts.new first now (step_result_view g)
        (Sending who (message_view message))) }
    ensures memory { IsMade result → send_fault
        (end_held hosts.old.stations hosts.old.ends who) (message_view message) ≡ None }
    ensures homes { SameHomes hosts.old hosts.new }
    ensures marks { KeepsMarks hosts.old hosts.new }
{
    match hosts.send(alloc, who, &message, now) {
        Ok(()) => noted(alloc, Entry::HandIn { who, message }, Answer::Done),
        Err(fault) => Ok(quiet(alloc, Answer::Refused(fault))),
    }
}

/// Ends the connection of a live end.
pub fn close(
    alloc: Global,
    hosts: &mut Hosts,
    who: usize,
    first: usize,
    now: u64,
) -> Result<StepResult, OutOfMemory>
    requires order { FitTogether hosts.old }
    requires present { is_present hosts.old who ≡ true }
    ensures grows { IfOk result
        (λ g. GrowsWorld hosts.old hosts.new first now (step_result_view g) (Closing who)) }
    ensures memory { IsMade result
        → close_fault (end_held hosts.old.stations hosts.old.ends who) ≡ None }
    ensures homes { SameHomes hosts.old hosts.new }
    ensures marks { KeepsMarks hosts.old hosts.new }
{
    match hosts.close(alloc, who, now) {
        Ok(()) => noted(alloc, Entry::EndAsked { who }, Answer::Done),
        Err(fault) => Ok(quiet(alloc, Answer::Refused(fault))),
    }
}

/// Sets the window of a live end's link. No end refuses that, and it needs no memory.
pub fn pace(
    alloc: Global,
    hosts: &mut Hosts,
    who: usize,
    window: u16,
    manual: bool,
    first: usize,
    now: u64,
) -> StepResult
    requires order { FitTogether hosts.old }
    requires present { is_present hosts.old who ≡ true }
    ensures grows { GrowsWorld hosts.old hosts.new first now (step_result_view result)
        (Pacing who window manual) }
    ensures quiet { step_result_view result ≡ record { parcels = []; notes = []; answer = views.Done } }
    ensures homes { SameHomes hosts.old hosts.new }
    ensures marks { KeepsMarks hosts.old hosts.new }
{
    hosts.pace(who, window, manual, now).unwrap();
    quiet(alloc, Answer::Done)
}

/// Asks the link of a live end for the unit at a place again. No end refuses that, and it needs no
/// memory.
pub fn again(
    alloc: Global,
    hosts: &mut Hosts,
    who: usize,
    place: u16,
    first: usize,
    now: u64,
) -> StepResult
    requires order { FitTogether hosts.old }
    requires present { is_present hosts.old who ≡ true }
    ensures grows { GrowsWorld hosts.old hosts.new first now (step_result_view result)
        (AskingAgain who place) }
    ensures quiet { step_result_view result ≡ record { parcels = []; notes = []; answer = views.Done } }
    ensures homes { SameHomes hosts.old hosts.new }
    ensures marks { KeepsMarks hosts.old hosts.new }
{
    hosts.again(who, place, now).unwrap();
    quiet(alloc, Answer::Done)
}

/// Releases a live end. No end refuses that.
pub fn release(
    alloc: Global,
    hosts: &mut Hosts,
    who: usize,
    first: usize,
    now: u64,
) -> Result<StepResult, OutOfMemory>
    requires order { FitTogether hosts.old }
    requires present { is_present hosts.old who ≡ true }
    ensures grows { IfOk result
        (λ g. GrowsWorld hosts.old hosts.new first now (step_result_view g) (Releasing who)) }
    ensures homes { SameHomes hosts.old hosts.new }
    ensures marks { KeepsMarks hosts.old hosts.new }
{
    hosts.release(who, now).unwrap();
    noted(alloc, Entry::Released { who }, Answer::Done)
}

/// A copy of a message.
fn copy_of(alloc: Global, message: &Message) -> Result<Message, OutOfMemory>
    ensures { IfOk result (λ m. message_view m ≡ message_view message.now) }
{
    let body = Vec::from_slice(alloc, &message.body)?;
    Ok(Message {
        stream: message.stream,
        body,
    })
}

/// A unit as the log stores it.
fn kept(alloc: Global, unit: &Unit) -> Result<TakenUnit, OutOfMemory>
    ensures { IfOk result (λ u. taken_unit u ≡ unit.now) }
{
    let body = Vec::from_slice(alloc, unit.body.as_slice())?;
    Ok(TakenUnit {
        stream: unit.stream,
        last: unit.last,
        body,
    })
}

/// What the log has of a take that was not refused: the unit that was held, and the message that it
/// ended.
fn taken(
    alloc: Global,
    who: usize,
    unit: Option<Unit>,
    taken: Taken,
) -> Result<StepResult, OutOfMemory>
    ensures grows { IfOk result (λ g. step_result_view g ≡ record {
      parcels = [];
      notes = unit_notes (Ok (taken_view taken)) unit who
          ++ whole_notes (Ok (taken_view taken)) who;
      answer = views.Taken (taken_view taken);
    }) }
    ensures refused { OnErr result (0 < length
        (unit_notes (Ok (taken_view taken)) unit who ++ whole_notes (Ok (taken_view taken)) who)) }
{
    let mut entries = Vec::new(alloc);
    if let Some(unit) = unit {
        let unit = kept(alloc, &unit)?;
        entries.push(Entry::UnitTaken { who, unit })?;
    }
    if let Taken::Whole(message) = &taken {
        let message = copy_of(alloc, message)?;
        entries.push(Entry::HandOut { who, message })?;
    }
    Ok(StepResult {
        parcels: Vec::new(alloc),
        entries,
        answer: Answer::Taken(taken),
    })
}

/// Takes a unit from a live end.
pub fn take(
    alloc: Global,
    hosts: &mut Hosts,
    who: usize,
    first: usize,
    now: u64,
) -> Result<StepResult, OutOfMemory>
    requires order { FitTogether hosts.old }
    requires present { is_present hosts.old who ≡ true }
    ensures grows { IfOk result
        (λ g. GrowsWorld hosts.old hosts.new first now (step_result_view g) (TakingFrom who)) }
    ensures memory { IsMade result
        → TakeIsLogged (end_held hosts.old.stations hosts.old.ends who) who }
    ensures homes { SameHomes hosts.old hosts.new }
    ensures marks { IsMade result → KeepsMarks hosts.old hosts.new }
{
    let (unit, result) = hosts.take(alloc, who, now);
    match result {
        Ok(answer) => taken(alloc, who, unit, answer),
        Err(fault) => Ok(quiet(alloc, Answer::Refused(fault))),
    }
}
