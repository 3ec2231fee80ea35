//! A parcel is delivered to a host.

ghost use Rattle.std.specs.Prelude.{◌≡◌, ◌<◌, ◌≤◌, ◌∷◌, [], IfOk, IfSome, OnErr, Some, length, slice_get};
ghost use Rattle.spx_theory.specs.Note as Notes;
ghost use Rattle.spx_theory.specs.PacketsOnWay.{notes_of};
ghost use Rattle.spx_theory.specs.HostSteps.{arrival_notes, read_notes};
ghost use Rattle.ipx_net_hosts.specs.Hosts.{MayAddEnd, SameHomes};
ghost use Rattle.ipx_net.specs.LogEntries.{entry_notes};
ghost use Rattle.ipx_net.specs.StepResultView.{step_result_view};
ghost use Rattle.ipx_net.specs.HostEvents.{DeliversSo, end_for};
ghost use Rattle.ipx_net.specs.EventMemory.{HostNeedsMemory, IsMade};

use crate::answer::Answer;
use crate::entry::Entry;
use crate::step_result::StepResult;
use ipx_net_hosts::Hosts;
use ipx_wire::OutOfMemory;
use spx_link::Received;
use spx_messages::Arrived;
use std::alloc::Global;

/// The entries of a packet that an end read. A packet of an unknown sender is not read.
fn read_by(
    alloc: Global,
    who: usize,
    received: Received,
    parcel: usize,
) -> Result<Vec<Entry>, OutOfMemory>
    ensures read { IfOk result (λ v. entry_notes v.items ≡ notes_of received who parcel) }
    ensures refused { OnErr result (0 < length (notes_of received who parcel)) }
{
    if received == Received::Stranger {
        return Ok(Vec::new(alloc));
    }
    let mut entries = Vec::with_capacity(alloc, 2)?;
    if received == Received::Joined {
        entries.push(Entry::Joined { who, parcel })?;
    }
    entries.push(Entry::Got { who, parcel })?;
    Ok(entries)
}

/// The entries of a packet that was for a link, if an end read it.
fn heard_by(
    alloc: Global,
    reader: Option<usize>,
    received: Received,
    parcel: usize,
) -> Result<Vec<Entry>, OutOfMemory>
    ensures read { IfOk result (λ v. entry_notes v.items ≡ read_notes reader received parcel) }
    ensures refused { OnErr result (0 < length (read_notes reader received parcel)) }
{
    match reader {
        Some(who) => read_by(alloc, who, received, parcel),
        None => Ok(Vec::new(alloc)),
    }
}

/// The entries of a request that made an end.
fn accepted_by(
    alloc: Global,
    who: usize,
    buffers: u16,
    parcel: usize,
) -> Result<Vec<Entry>, OutOfMemory>
    ensures { IfOk result (λ v. entry_notes v.items
        ≡ Notes.Accepted who parcel buffers ∷ Notes.Got who parcel ∷ []) }
{
    let mut entries = Vec::with_capacity(alloc, 2)?;
    entries.push(Entry::Accepted {
        who,
        parcel,
        buffers,
    })?;
    entries.push(Entry::Got { who, parcel })?;
    Ok(entries)
}

/// The end that a datagram was for, if there is one, and the entries about it. `who` is the number
/// of the end that the datagram made, if it made one.
fn told_of(
    alloc: Global,
    hosts: &Hosts,
    host: usize,
    arrived: Arrived,
    who: usize,
    parcel: usize,
) -> Result<(Option<usize>, Vec<Entry>), OutOfMemory>
    ensures told { IfSome (slice_get hosts.now.stations host) (λ s. IfOk result (λ p.
        (p.0 ≡ end_for arrived s who)
        × (entry_notes p.1.items ≡ arrival_notes arrived s who parcel))) }
    ensures refused { IfSome (slice_get hosts.now.stations host) (λ s.
        OnErr result (0 < length (arrival_notes arrived s who parcel))) }
{
    match arrived {
        Arrived::Accepted(id) => {
            let buffers = hosts.buffers(host, id);
            let entries = accepted_by(alloc, who, buffers, parcel)?;
            Ok((Some(who), entries))
        }
        Arrived::Link(id, received) => {
            let reader = hosts.reader(host);
            let entries = heard_by(alloc, reader, received, parcel)?;
            Ok((hosts.end(host, id), entries))
        }
        Arrived::Bad(_) => Ok((None, Vec::new(alloc))),
        Arrived::NotOurs => Ok((None, Vec::new(alloc))),
        Arrived::BadSpx(_) => Ok((None, Vec::new(alloc))),
        Arrived::NoListener => Ok((None, Vec::new(alloc))),
        Arrived::NoRoom => Ok((None, Vec::new(alloc))),
        Arrived::Stranger => Ok((None, Vec::new(alloc))),
    }
}

/// Delivers the parcel with this number to a host, as these bytes.
pub fn deliver_host(
    alloc: Global,
    hosts: &mut Hosts,
    host: usize,
    parcel: usize,
    bytes: &[u8],
    now: u64,
) -> Result<StepResult, OutOfMemory>
    requires { host < length hosts.old.stations }
    ensures delivers { IfOk result (λ g.
        DeliversSo hosts.old host parcel bytes.now now (step_result_view g) hosts.new) }
    ensures memory { IsMade result → HostNeedsMemory hosts.old host parcel bytes.now now }
    ensures homes { SameHomes hosts.old hosts.new }
    ensures marks { MayAddEnd hosts.old hosts.new }
{
    let count = hosts.ends();
    let arrived = hosts.deliver(alloc, host, bytes, now)?;
    let (who, entries) = told_of(alloc, hosts, host, arrived, count, parcel)?;
    Ok(StepResult {
        parcels: Vec::new(alloc),
        entries,
        answer: Answer::Arrived(who, arrived),
    })
}
