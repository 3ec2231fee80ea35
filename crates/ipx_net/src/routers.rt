//! The routers of a network.

ghost use Rattle.std.specs.Prelude.{◌≡◌, ◌+◌, ◌<◌, ◌≤◌, [], IfOk, MatchBool, All, OnErr, false, length, option_map};
ghost use Rattle.ipx_router.specs.NewRouter.{IsOwnNetwork};
ghost use Rattle.ipx_router.specs.RouterPackets.{AreOwn, sending_of, sendings};
ghost use Rattle.ipx_router.specs.Ports.{AreOnPorts};
ghost use Rattle.ipx_router.specs.Starting.{AreStarts};
ghost use Rattle.spx_theory.specs.Routers.{told_notes};
ghost use Rattle.ipx_net.specs.LogEntries.{entry_notes};
ghost use Rattle.ipx_net.specs.Parcels.{parcel_view, parcel_views};
ghost use Rattle.ipx_net.specs.RouterMembers.{IsPolled, letter_of, letters_of, network_of, port_at};
ghost use Rattle.ipx_net.specs.EventMemory.{RouterPollNeedsMemory};

use crate::entry::Entry;
use crate::parcel::Parcel;
use crate::place::Place;
use ipx_router::{Port, Reply, Router};
use ipx_wire::{Network, OutOfMemory};
use std::alloc::Global;

/// A router of a network, and whether it has asked its neighbours yet.
#[derive(Drop)]
pub struct RouterNow {
    pub router: Router,
    pub started: bool,
}

/// The network of a port, by its number.
pub fn network_at(ports: &[Port], port: u8) -> Option<Network>
    ensures { result ≡ option_map (λ p. p.network) (port_at ports.now port) }
{
    let place = usize::from(port).checked_sub(1)?;
    let port = ports.get(place)?;
    Some(port.network)
}

/// The packets by which a router asks as it starts. None if it has asked already.
fn questions(alloc: Global, member: &RouterNow) -> Result<Vec<Reply>, OutOfMemory>
    ensures asks { IfOk result (λ v. MatchBool member.now.started (sendings v.items ≡ [])
        (AreStarts 1 member.now.router.ports (sendings v.items))) }
    ensures there { IfOk result
        (λ v. AreOnPorts (length member.now.router.ports) (sendings v.items)) }
    ensures own { IfOk result (λ v. AreOwn (sendings v.items)) }
    ensures refused { OnErr result (member.now.started ≡ false) }
{
    if member.started {
        return Ok(Vec::new(alloc));
    }
    member.router.start(alloc)
}

/// The packets that a router gives in a poll: what it asks as it starts, once, followed by its
/// advertisements if they are due.
pub fn poll_router(
    alloc: Global,
    member: &mut RouterNow,
    now: u64,
) -> Result<Vec<Reply>, OutOfMemory>
    ensures polled { IfOk result (λ v. IsPolled member.old member.new now (sendings v.items)) }
    ensures there { IfOk result
        (λ v. AreOnPorts (length member.old.router.ports) (sendings v.items)) }
    ensures own { IfOk result (λ v. AreOwn (sendings v.items)) }
    ensures refused { OnErr result (RouterPollNeedsMemory member.old now) }
    ensures ports { member.new.router.ports ≡ member.old.router.ports }
{
    let mut packets = questions(alloc, member)?;
    let mut told = member.router.tell(alloc, now)?;
    member.started = true;
    packets.append(&mut told)?;
    Ok(packets)
}

/// A packet of a router as a parcel.
pub fn post(router: usize, ports: &[Port], reply: Reply) -> Parcel
    ensures { parcel_view result ≡ letter_of router ports.now (sending_of reply) }
{
    Parcel {
        segment: network_at(ports, reply.port).unwrap_or(Network(0)),
        next: reply.next,
        bytes: reply.bytes,
        sent_by: Some(Place::Port(router, reply.port)),
    }
}

/// The packets of a router as parcels, in order.
pub fn post_all(
    alloc: Global,
    router: usize,
    ports: &[Port],
    replies: Vec<Reply>,
) -> Result<Vec<Parcel>, OutOfMemory>
    ensures letters { IfOk result (λ v.
        parcel_views v.items ≡ letters_of router ports.now (sendings replies.items)) }
    ensures refused { OnErr result (0 < length replies.items) }
{
    let mut parcels = Vec::with_capacity(alloc, replies.len())?;
    for reply in replies {
        parcels.push(post(router, ports, reply))?;
    }
    Ok(parcels)
}

/// The log entries of parcels that a router made itself. They are numbered from `first` on.
pub fn told_entries(
    alloc: Global,
    router: usize,
    first: usize,
    parcels: &[Parcel],
) -> Result<Vec<Entry>, OutOfMemory>
    requires { first + length parcels.now ≤ 18446744073709551615 }
    ensures notes { IfOk result (λ v.
        entry_notes v.items ≡ told_notes router first (parcel_views parcels.now)) }
    ensures refused { OnErr result (0 < length parcels.now) }
{
    let mut entries = Vec::with_capacity(alloc, parcels.len())?;
    let mut number = first;
    for _parcel in parcels {
        entries.push(Entry::Told {
            router,
            parcel: number,
        })?;
        number += 1;
    }
    Ok(entries)
}
