//! The faults that are found before an event does anything.

ghost use Rattle.std.specs.Prelude.{◌≡◌, ◌<◌, ℕ, length, nat_lt, option_map, slice_get};
ghost use Rattle.ipx_net_hosts.specs.Hosts.{is_present};
ghost use Rattle.ipx_net.specs.NetFaults.{end_fault, fault_before, member_fault, network_at, place_fault, poll_fault};
ghost use Rattle.ipx_net.specs.IndexedLogView.{IndexedLogView};
ghost use Rattle.ipx_net.specs.NetView.{net_of};
ghost use Rattle.ipx_net.specs.Parcels.{parcel_views};

use crate::event::{Event, Member};
use crate::fault::NetFault;
use crate::indexed_log::IndexedLog;
use crate::parcel::Parcel;
use crate::place::Place;
use crate::routers::{RouterNow, network_at};
use ipx_net_hosts::Hosts;
use ipx_wire::Network;

/// The fault if there is no such end, or it was released.
fn end_fault(hosts: &Hosts, who: usize) -> Option<NetFault>
    ensures { result ≡ end_fault (is_present hosts.now who) }
{
    if hosts.is_present(who) {
        None
    } else {
        Some(NetFault::NoSuchEnd)
    }
}

/// The fault if there is no such host or router.
fn member_fault(count: usize, number: usize) -> Option<NetFault>
    ensures { result ≡ member_fault (nat_lt number count) }
{
    if number < count {
        None
    } else {
        Some(NetFault::NotOnSegment)
    }
}

/// The network of a place, if that exists.
fn network_of(hosts: &Hosts, routers: &[RouterNow], place: &Place) -> Option<Network>
    ensures { (indexed_log : IndexedLogView) (moment : ℕ)
        → result
        ≡ network_at (net_of hosts.now routers.now indexed_log.parcels indexed_log.log moment) place.now }
{
    match place {
        Place::Host(host) => hosts.network(*host),
        Place::Port(router, port) => network_at(routers.get(*router)?.router.ports(), *port),
    }
}

/// The network of a parcel, if that exists.
fn segment_of(parcels: &[Parcel], parcel: usize) -> Option<Network>
    ensures { result ≡ option_map (λ p. p.segment) (slice_get parcels.now parcel) }
{
    let parcel = parcels.get(parcel)?;
    Some(parcel.segment)
}

/// The fault if a parcel does not exist, or is not on the network of a place.
fn place_fault(parcels: &[Parcel], parcel: usize, network: Option<Network>) -> Option<NetFault>
    ensures { result ≡ place_fault (slice_get (parcel_views parcels.now) parcel) network }
{
    match (segment_of(parcels, parcel), network) {
        (None, _) => Some(NetFault::NoSuchParcel),
        (Some(segment), Some(network)) if network.0 == segment.0 => None,
        (Some(_), _) => Some(NetFault::NotOnSegment),
    }
}

/// The fault that is found before an event does anything, if there is one.
pub fn fault_of(
    hosts: &Hosts,
    routers: &[RouterNow],
    indexed_log: &IndexedLog,
    event: &Event,
) -> Option<NetFault>
    ensures { (moment : ℕ) → result ≡ fault_before
        (net_of hosts.now routers.now indexed_log.now.parcels indexed_log.now.log moment) event.now }
{
    match event {
        Event::Dial { host, .. } => member_fault(hosts.count(), *host),
        Event::Send { who, .. } => end_fault(hosts, *who),
        Event::Take { who } => end_fault(hosts, *who),
        Event::Close { who } => end_fault(hosts, *who),
        Event::Pace { who, .. } => end_fault(hosts, *who),
        Event::Again { who, .. } => end_fault(hosts, *who),
        Event::Release { who } => end_fault(hosts, *who),
        Event::Poll {
            member: Member::Host(host),
        } => member_fault(hosts.count(), *host),
        Event::Poll {
            member: Member::Router(router),
        } => member_fault(routers.len(), *router),
        Event::Deliver { parcel, place } => {
            let network = network_of(hosts, routers, place);
            place_fault(indexed_log.parcels(), *parcel, network)
        }
        Event::Tick { .. } => None,
        Event::Inject { .. } => None,
    }
}
