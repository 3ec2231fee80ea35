//! Sockets in memory, for tests and for runs without a network.

ghost use Rattle.std.specs.Prelude.{◌≡◌, ◌++◌, ◌∷◌, [], None, Some, OnErr, OnOk};
ghost use Rattle.ipx_ipxnet_ports.specs.PlaceTraffic.{place_datagram};
ghost use Rattle.ipx_ipxnet_ports.specs.PlacesMemory.{datagrams_waiting, memory_datagrams, places_traffic};

use crate::front::put_front;
use crate::place_sockets::{DatagramCame, PlaceSockets};
use ipx_carrier::{DeviceFault, saturating_increment};
use ipx_wire::OutOfMemory;
use std::alloc::Global;
use std::net::SocketAddrV4;

/// A datagram that came from an address, or that was sent to one.
#[derive(Drop)]
pub struct MemoryDatagram {
    pub port: usize,
    pub place: SocketAddrV4,
    pub bytes: Vec<u8>,
}

/// Sockets that receive the datagrams that are put into them, and record what was received and
/// sent. Each datagram has an address.
///
/// Datagrams of a port are received in the order in which they were put. Sending fails to the
/// address that [`MemoryPlaces::break_place`] named. Otherwise calls fail only if out of memory.
#[derive(Drop)]
pub struct MemoryPlaces {
    alloc: Global,
    ports: usize,
    waiting: Vec<MemoryDatagram>,
    came: Vec<MemoryDatagram>,
    went: Vec<MemoryDatagram>,
    broken: Option<SocketAddrV4>,
    failures: u64,
}

/// Records a datagram after others.
fn keep_datagram(
    alloc: Global,
    datagrams: &mut Vec<MemoryDatagram>,
    port: usize,
    place: SocketAddrV4,
    bytes: &[u8],
) -> Result<(), OutOfMemory>
    ensures kept { OnOk result (memory_datagrams datagrams.new.items
        ≡ memory_datagrams datagrams.old.items ++ place_datagram port bytes.now place ∷ []) }
    ensures refused { OnErr result (datagrams.new.items ≡ datagrams.old.items) }
{
    let bytes = bytes.to_vec(alloc)?;
    datagrams.push(MemoryDatagram { port, place, bytes })?;
    Ok(())
}

/// Takes the first datagram of a port, if one waits.
fn take_first(waiting: &mut Vec<MemoryDatagram>, port: usize) -> Option<MemoryDatagram> {
    let first = waiting.iter().position(|datagram| datagram.port == port)?;
    Some(waiting.remove(first))
}

impl MemoryPlaces {
    /// Sockets with this many ports, to which nothing came yet.
    pub fn new(alloc: Global, ports: usize) -> MemoryPlaces
        ensures ports { result.ports ≡ ports }
        ensures traffic { places_traffic result ≡ record { came = []; went = [] } }
        ensures waiting { datagrams_waiting result ≡ [] }
        ensures fresh { (result.broken ≡ None) × (result.failures ≡ 0) }
    {
        MemoryPlaces {
            alloc,
            ports,
            waiting: Vec::new(alloc),
            came: Vec::new(alloc),
            went: Vec::new(alloc),
            broken: None,
            failures: 0,
        }
    }

    /// Puts a datagram from an address after those that wait at a port.
    pub fn put(&mut self, port: usize, place: SocketAddrV4, bytes: &[u8]) -> Result<(), OutOfMemory>
        ensures put { OnOk result (datagrams_waiting self.new
            ≡ datagrams_waiting self.old ++ place_datagram port bytes.now place ∷ []) }
        ensures refused { OnErr result (datagrams_waiting self.new ≡ datagrams_waiting self.old) }
        ensures ports { self.new.ports ≡ self.old.ports }
        ensures traffic { places_traffic self.new ≡ places_traffic self.old }
        ensures rest { (self.new.failures ≡ self.old.failures)
            × (self.new.broken ≡ self.old.broken) }
    {
        keep_datagram(self.alloc, &mut self.waiting, port, place, bytes)
    }

    /// Sending to this address fails from now on. An address that was named before works again.
    pub fn break_place(&mut self, place: SocketAddrV4)
        ensures { self.new ≡ record self.old { broken = Some place } }
    {
        self.broken = Some(place);
    }

    /// What was sent so far, in order.
    pub fn went(&self) -> &[MemoryDatagram]
        ensures { memory_datagrams result.now ≡ (places_traffic self.now).went }
    {
        &self.went
    }
}

impl PlaceSockets for MemoryPlaces {
    ghost port_count = { λ m. m.ports };

    ghost failed = { λ m. m.failures };

    ghost traffic = { λ m. Some (places_traffic m) };

    // Each datagram has an address.
    ghost filtered = { λ m. 0 };

    // What they were asked is tested.
    ghost asks = { λ port answer room m n. Unit {0} };

    // Their traffic says what was sent.
    ghost sends = { λ m datagram n. Unit {0} };

    fn ports(&self) -> usize {
        self.ports
    }

    fn failures(&self) -> u64 {
        self.failures
    }

    fn from_nowhere(&self) -> u64 {
        0
    }

    fn send(&mut self, port: usize, place: SocketAddrV4, bytes: &[u8]) -> Result<(), DeviceFault> {
        if self.broken == Some(place) {
            saturating_increment(&mut self.failures);
            return Err(DeviceFault);
        }
        if keep_datagram(self.alloc, &mut self.went, port, place, bytes).is_err() {
            saturating_increment(&mut self.failures);
            return Err(DeviceFault);
        }
        Ok(())
    }

    fn receive(
        &mut self,
        port: usize,
        room: &mut [u8],
    ) -> Result<Option<DatagramCame>, DeviceFault> {
        let Some(datagram) = take_first(&mut self.waiting, port) else {
            return Ok(None);
        };
        let size = put_front(&datagram.bytes, room);
        let from = datagram.place;
        if keep_datagram(self.alloc, &mut self.came, port, from, &room[..size]).is_err() {
            saturating_increment(&mut self.failures);
            return Err(DeviceFault);
        }
        Ok(Some(DatagramCame { from, size }))
    }
}
