//! The core of a running host.

ghost use Rattle.std.specs.Prelude.{◌≡◌, ◌↔◌, ◌-◌, ◌<◌, ◌≤◌, ℕ, IfOk, IfSome, IsNone, IsTrue, None, OnErr, OnOk, Some, length, min};
ghost use Rattle.ipx_wire.specs.Ipx.{BeginsWith, PacketView};
ghost use Rattle.spx_messages.specs.Arrives.{Arrives};
ghost use Rattle.spx_messages.specs.EndpointView.{EndpointView};
ghost use Rattle.spx_messages.specs.declared.arrived.Arrived.TheVariants as Arriveds;
ghost use Rattle.spx_congestion.specs.Pacing.{made_pacer};
ghost use Rattle.ipx_config.specs.AllowedPeers.{may_ask as may_be_asked_by, named_in};
ghost use Rattle.ipx_host.specs.Barring.{IsBarred};
ghost use Rattle.ipx_host.specs.Noting.{Notes, is_untold};
ghost use Rattle.ipx_carrier.specs.GivenPackets.{given_in};
ghost use Rattle.ipx_host.specs.Paced.{GivesAsPlanned};
ghost use Rattle.ipx_host.specs.Sleeping.{IsSleep};

use crate::asking::{asker_of, is_among};
use crate::pacing::{Paced, due_of, note_datagram, note_poll, numbers_of, plan};
use ipx_carrier::{Core, saturating_increment};
use ipx_config::AllowedPeer;
use ipx_wire::{Address, Network, Node, OutOfMemory, decode};
use spx_messages::{Arrived, Endpoint};
use std::alloc::{AllocError, Global};

/// A connection that was accepted: its id, and the address that requested it.
#[derive(Clone, Copy)]
pub struct Accepted {
    pub id: u16,
    pub from: Address,
}

/// The result of a datagram.
#[derive(Clone, Copy)]
pub enum Arrival {
    /// The link of this id read it.
    Heard(u16),
    /// It made a connection.
    Accepted(Accepted),
    /// It requested one from this address, and no link was free.
    NoRoom(Address),
}

/// A host with one port, like `HostCore` of the carrier, with a list of who may request a
/// connection. It keeps the result of the last datagram, and the time of the last call. After it
/// accepts a connection, it sends nothing until `take_came` returns that connection. There may be
/// no slot for the connection, and then the request gets no reply. The paced connection is manual,
/// and follows the plan of its pacer.
pub struct PacedHostCore {
    pub endpoint: Endpoint,
    /// The network that it is on.
    network: Network,
    /// Who may request a connection. None means everybody.
    from: Option<Vec<AllowedPeer>>,
    came: Option<Arrival>,
    /// The paced connection, if there is one.
    paced: Option<Paced>,
    /// The number of requests from those who may not connect.
    rejected: u64,
    moment: u64,
}

impl Drop for PacedHostCore {
    fn drop(self) {
        let PacedHostCore {
            endpoint: _,
            network: _,
            from: _,
            came: _,
            paced: _,
            rejected: _,
            moment: _,
        } = self;
    }
}

/// Returns the time left until `due`, and no more than `most`, in milliseconds.
fn till(now: u64, due: Option<u64>, most: u64) -> u64
    ensures none { IsNone due → result ≡ most }
    ensures some { IfSome due (λ due. result ≡ min most (due - now)) }
{
    match due {
        Some(due) => due.saturating_sub(now).min(most),
        None => most,
    }
}

/// Copies the list of who may connect.
pub fn copy_origins(
    alloc: Global,
    from: &Option<Vec<AllowedPeer>>,
) -> Result<Option<Vec<AllowedPeer>>, AllocError>
    ensures { IfOk result (λ copy. named_in copy ≡ named_in from.now) }
{
    match from {
        Some(origins) => Ok(Some(Vec::from_slice(alloc, origins)?)),
        None => Ok(None),
    }
}

/// Returns the source address of a packet.
fn sender_of(bytes: &[u8]) -> Option<Address>
    ensures { (p : PacketView) → BeginsWith bytes.now p → result ≡ Some p.header.from }
{
    match decode(bytes) {
        Ok(packet) => Some(packet.header.from),
        Err(_) => None,
    }
}

/// Returns the connection that a datagram made.
fn accepted_by(id: u16, bytes: &[u8]) -> Option<Arrival>
    // The endpoint returned this result for the datagram.
    ensures { (old new : EndpointView) (now : ℕ)
        → Arrives old bytes.now now (Arriveds.Accepted id) new
        → Notes (Arriveds.Accepted id) new.heard bytes.now result }
{
    let from = sender_of(bytes)?;
    Some(Arrival::Accepted(Accepted { id, from }))
}

/// Returns the request that found no free link.
fn unlinked_by(bytes: &[u8]) -> Option<Arrival>
    // The endpoint returned this result for the datagram.
    ensures { (old new : EndpointView) (now : ℕ)
        → Arrives old bytes.now now Arriveds.NoRoom new
        → Notes Arriveds.NoRoom new.heard bytes.now result }
{
    let from = sender_of(bytes)?;
    Some(Arrival::NoRoom(from))
}

impl PacedHostCore {
    /// Creates the core of an endpoint on a network, with the list of who may connect.
    pub fn new(
        endpoint: Endpoint,
        network: Network,
        from: Option<Vec<AllowedPeer>>,
    ) -> PacedHostCore
        ensures endpoint { result.endpoint ≡ endpoint }
        ensures network { result.network ≡ network }
        ensures from { result.from ≡ from }
        ensures nobody { result.came ≡ None }
        ensures unpaced { result.paced ≡ None }
    {
        PacedHostCore {
            endpoint,
            network,
            from,
            came: None,
            paced: None,
            rejected: 0,
            moment: 0,
        }
    }

    /// Paces the connection with this id from now on. It fails only if out of memory.
    pub fn pace(&mut self, alloc: Global, id: u16) -> Result<(), OutOfMemory>
        ensures paced { OnOk result (self.new ≡ record self.old {
          paced = Some (record { id = id; pacer = made_pacer });
        }) }
        ensures unchanged { OnErr result (self.new ≡ self.old) }
    {
        self.paced = Some(Paced::new(alloc, id)?);
        Ok(())
    }

    /// Returns how long no link has anything to send and no pacer has anything to plan, in
    /// milliseconds. It is at most `most`.
    pub fn time_until_due(&self, most: u64) -> u64
        ensures { IsSleep self.now most result }
    {
        let links = till(self.moment, self.endpoint.next_due(), most);
        links.min(till(self.moment, due_of(&self.paced, self.moment), most))
    }

    /// Returns the time of the last turn, in milliseconds.
    pub fn moment(&self) -> u64
        ensures { result ≡ self.now.moment }
    {
        self.moment
    }

    /// Returns how many requests were received from those who may not connect.
    pub fn rejected(&self) -> u64
        ensures { result ≡ self.now.rejected }
    {
        self.rejected
    }

    /// Returns the result of the last datagram, and returns it only once.
    pub fn take_came(&mut self) -> Option<Arrival>
        ensures told { result ≡ self.old.came }
        ensures once { self.new ≡ record self.old { came = None } }
    {
        self.came.take()
    }

    /// Returns whether the last datagram made a connection that `take_came` has not returned yet.
    fn is_untold(&self) -> bool
        ensures { result ≡ is_untold self.now.came }
    {
        matches!(self.came, Some(Arrival::Accepted(_)))
    }

    /// Returns whether an address may request a connection.
    fn may_ask(&self, from: &Address) -> bool
        ensures { result ≡ may_be_asked_by (named_in self.now.from) self.now.network from.now }
    {
        match &self.from {
            Some(origins) => is_among(origins, self.network, from),
            None => true,
        }
    }

    /// Returns whether bytes are a request from one who may not connect.
    fn bars(&self, bytes: &[u8]) -> bool
        ensures { IsTrue result ↔ IsBarred self.now bytes.now }
    {
        match asker_of(bytes) {
            Some(from) => !self.may_ask(&from),
            None => false,
        }
    }

    /// Returns the next packet of the endpoint, after its pacer has planned.
    fn give(&mut self, now: u64, room: &mut [u8]) -> Option<(usize, Node, usize)>
        requires { 1536 ≤ length room.old }
        ensures given { GivesAsPlanned self.old now (given_in room.new result) self.new }
        ensures within { IfSome result (λ g. g.2 ≤ length room.old) }
        ensures there { IfSome result (λ g. g.0 < 1) }
    {
        self.moment = now;
        plan(&mut self.paced, &mut self.endpoint, now);
        let polled = self.endpoint.poll(now, room);
        let Some((node, count)) = polled else {
            return None;
        };
        note_poll(&mut self.paced, &self.endpoint, &room[..count], now);
        Some((0, node, count))
    }

    /// Returns what to note of a datagram for which the endpoint returned this result.
    fn came_of(&self, arrived: Arrived, bytes: &[u8]) -> Option<Arrival>
        ensures { (old : EndpointView) (now : ℕ)
            → Arrives old bytes.now now arrived self.now.endpoint
            → Notes arrived self.now.endpoint.heard bytes.now result }
    {
        match arrived {
            Arrived::Accepted(id) => accepted_by(id, bytes),
            Arrived::NoRoom => unlinked_by(bytes),
            Arrived::Link(_, _) => self.endpoint.heard().map(Arrival::Heard),
            _ => None,
        }
    }
}

impl Core for PacedHostCore {
    ghost use Rattle.ipx_host.specs.Barring.{HearAllowedOutOfMemory, HearsAllowed};
    ghost use Rattle.ipx_host.specs.Paced.{GivesOnceTold};

    ghost port_count = { λ c. 1 };

    ghost hears = { λ old port bytes now new. HearsAllowed old bytes now new };

    ghost gives = { λ old now given new. GivesOnceTold old now given new };

    ghost hear_out_of_memory = { λ old port bytes now new. HearAllowedOutOfMemory old bytes now new };

    ghost next_out_of_memory = { λ old now new. ⊥ };

    fn ports(&self) -> usize {
        1
    }

    fn hear(
        &mut self,
        alloc: Global,
        _port: usize,
        bytes: &[u8],
        now: u64,
    ) -> Result<(), OutOfMemory> {
        self.moment = now;
        if self.bars(bytes) {
            self.came = None;
            saturating_increment(&mut self.rejected);
            return Ok(());
        }
        let before = numbers_of(&self.paced, &self.endpoint);
        let arrived = self.endpoint.receive(alloc, bytes, now)?;
        note_datagram(&mut self.paced, &self.endpoint, arrived, before, now);
        self.came = self.came_of(arrived, bytes);
        Ok(())
    }

    fn next(
        &mut self,
        _alloc: Global,
        now: u64,
        room: &mut [u8],
    ) -> Result<Option<(usize, Node, usize)>, OutOfMemory> {
        if self.is_untold() {
            self.moment = now;
            return Ok(None);
        }
        Ok(self.give(now, room))
    }
}
