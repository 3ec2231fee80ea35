//! Polls of a host.

ghost use Rattle.std.specs.Prelude.{◌≡◌, ◌<◌, ◌∷◌, [], IfOk, Some, length};
ghost use Rattle.spx_theory.specs.PacketsOnWay.{note_of};
ghost use Rattle.spx_theory.specs.World.{AtHost};
ghost use Rattle.ipx_net_hosts.specs.Hosts.{KeepsMarks, SameHomes};
ghost use Rattle.ipx_net.specs.AnswerView as views;
ghost use Rattle.ipx_net.specs.LogEntries.{entry_note, entry_notes};
ghost use Rattle.ipx_net.specs.StepResultView.{GrowsWorld, step_result_view};
ghost use Rattle.ipx_net.specs.HostEvents.{PollingHost};
ghost use Rattle.ipx_net.specs.Parcels.{parcel_view};
ghost use Rattle.ipx_net.specs.Speaking.{spoken_notes};
ghost use Rattle.ipx_net.specs.EventMemory.{IsMade, PollIsSent};

use crate::answer::Answer;
use crate::entry::Entry;
use crate::parcel::Parcel;
use crate::place::Place;
use crate::step_result::{StepResult, quiet};
use ipx_net_hosts::Hosts;
use ipx_wire::{Network, Node, OutOfMemory, SPX_MAX_PACKET_SIZE};
use spx_link::Sent;
use std::alloc::Global;

/// The entry of a packet that an end sent.
fn entry_of(sent: Sent, who: usize, parcel: usize) -> Entry
    ensures { entry_note result ≡ note_of sent who parcel }
{
    match sent {
        Sent::Unit => Entry::Unit { who, parcel },
        Sent::Again => Entry::Again { who, parcel },
        _ => Entry::System { who, parcel },
    }
}

/// The entries of a packet: one, if an end sent it.
fn spoken(
    alloc: Global,
    spoke: Option<(usize, Sent)>,
    parcel: usize,
) -> Result<Vec<Entry>, OutOfMemory>
    ensures { IfOk result (λ v. entry_notes v.items ≡ spoken_notes spoke parcel) }
{
    let mut entries = Vec::new(alloc);
    if let Some((who, sent)) = spoke {
        entries.push(entry_of(sent, who, parcel))?;
    }
    Ok(entries)
}

/// A packet of a host as a parcel with this number, with its entries.
fn posted(
    alloc: Global,
    parcel: Parcel,
    entries: Vec<Entry>,
    number: usize,
) -> Result<StepResult, OutOfMemory>
    ensures { IfOk result (λ g. step_result_view g ≡ record {
      parcels = parcel_view parcel ∷ [];
      notes = entry_notes entries.items;
      answer = views.Parcels (number ∷ []);
    }) }
{
    let mut numbers = Vec::new(alloc);
    numbers.push(number)?;
    let mut parcels = Vec::new(alloc);
    parcels.push(parcel)?;
    Ok(StepResult {
        parcels,
        entries,
        answer: Answer::Parcels(numbers),
    })
}

/// What a host wrote, as a parcel with only as much space as these bytes need.
fn letter(
    alloc: Global,
    host: usize,
    segment: Network,
    next: Node,
    written: &[u8],
) -> Result<Parcel, OutOfMemory>
    ensures { IfOk result (λ p. parcel_view p ≡ record {
      segment = segment;
      next = next;
      bytes = written.now;
      sent_by = Some (AtHost host);
    }) }
{
    let bytes = Vec::from_slice(alloc, written)?;
    Ok(Parcel {
        segment,
        next,
        bytes,
        sent_by: Some(Place::Host(host)),
    })
}

/// Polls a host for packets to send. If there is none, nothing is allocated.
pub fn poll_host(
    alloc: Global,
    hosts: &mut Hosts,
    host: usize,
    first: usize,
    now: u64,
) -> Result<StepResult, OutOfMemory>
    requires { host < length hosts.old.stations }
    ensures grows { IfOk result (λ g. GrowsWorld hosts.old hosts.new first now (step_result_view g)
        (PollingHost host)) }
    ensures memory { IsMade result → PollIsSent hosts.old host now }
    ensures homes { SameHomes hosts.old hosts.new }
    ensures marks { KeepsMarks hosts.old hosts.new }
{
    let segment = hosts.network(host).unwrap();
    let mut room = [0; SPX_MAX_PACKET_SIZE];
    let Some((next, length)) = hosts.poll(host, now, &mut room) else {
        return Ok(quiet(alloc, Answer::Parcels(Vec::new(alloc))));
    };
    let entries = spoken(alloc, hosts.spoke(host), first)?;
    let parcel = letter(alloc, host, segment, next, &room[..length])?;
    posted(alloc, parcel, entries, first)
}
