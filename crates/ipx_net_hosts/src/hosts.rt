//! The hosts of a network, and their ends.

ghost use Rattle.std.specs.Prelude.{◌≡◌, ◌≢◌, ◌<◌, ◌≤◌, ◌↔◌, ◌++◌, ◌∷◌, ℕ, [], Err, IfErr, IfNone, IfOk, IfSome, IsOk, None, OnErr, OnOk, length, option_map, slice_get, true};
ghost use Rattle.ipx_wire.specs.Assigned.{spx_max_packet_size};
ghost use Rattle.spx_link.specs.Limits.{most_units};
ghost use Rattle.spx_messages.specs.Message.{message_view};
ghost use Rattle.spx_theory.specs.Note.{AsksEnd, HandsIn, Opened, Released};
ghost use Rattle.spx_theory.specs.EndCalls.{AsksAgainOf, Closes, DialsFrom, PacesOf, ReleasesOf, SendsTo};
ghost use Rattle.spx_theory.specs.HostSteps.{TakesOf, buffers_of, unit_notes, whole_notes};
ghost use Rattle.spx_theory.specs.World.{end_at};
ghost use Rattle.spx_messages.specs.EndpointView.{held_at};
ghost use Rattle.ipx_net_hosts.specs.HostBeginnings.{AddsHost};
ghost use Rattle.spx_messages.specs.Arrives.{IsAcceptable};
ghost use Rattle.spx_messages.specs.OneValue.{IsBufferStill};
ghost use Rattle.spx_messages.specs.Taking.{overlong, result_view};
ghost use Rattle.ipx_net_hosts.specs.HostStates.{reader_of, speaker};
ghost use Rattle.ipx_net_hosts.specs.EndStates.{here_at, state_on_host};
ghost use Rattle.ipx_net_hosts.specs.Hosts.{DeliveredAt, FitTogether, KeepsMarks, LeftAs, LeftBy, MayAddEnd, Noting, PolledAt, SameHomes, StillPresent, is_lost, is_present};
ghost use Rattle.ipx_net_hosts.specs.Refusing.{CloseIsRefused, DialIsLeft, Overruns, PushesTo, SendIsRefused, TakeIsRefused, close_fault, dial_fault, end_held, send_fault, want};

use crate::end::EndNow;
use crate::host_state::HostState;
use crate::refusal::Refusal;
use ipx_wire::{Address, Network, Node, OutOfMemory, Socket};
use spx_link::{Sent, State, Unit};
use spx_messages::{Arrived, EndFault, Message, MessageFault, Taken};
use std::alloc::Global;
use std::marker::Model;

/// The hosts of a network, and all ends of connections that were ever made, by their numbers.
#[derive(Drop)]
pub struct Hosts {
    stations: Vec<HostState>,
    ends: Vec<EndNow>,
}

impl Model for Hosts {
    ghost use Rattle.ipx_net_hosts.specs.Hosts.{HostsView};

    ghost Value = { HostsView };

    ghost view = { λ h. record { stations = h.stations.items; ends = h.ends.items } };
}

impl Hosts {
    /// A network without hosts. It needs no memory.
    pub fn new(alloc: Global) -> Hosts
        ensures stations { result.stations ≡ [] }
        ensures ends { result.ends ≡ [] }
    {
        Hosts {
            stations: Vec::new(alloc),
            ends: Vec::new(alloc),
        }
    }

    /// Appends a host without links, which listens at one socket or at none.
    pub fn add(
        &mut self,
        alloc: Global,
        network: Network,
        node: Node,
        router: Node,
        listen: Option<(Socket, u16)>,
    ) -> Result<(), OutOfMemory>
        ensures ok { OnOk result
            (AddsHost self.old.stations self.new.stations network node router listen) }
        ensures unchanged { OnErr result (self.new.stations ≡ self.old.stations) }
        ensures ends { self.new.ends ≡ self.old.ends }
    {
        let station = HostState::listening(alloc, network, node, router, listen)?;
        self.stations.push(station)?;
        Ok(())
    }

    /// Whether there is such an end, and it was not released.
    pub fn is_present(&self, who: usize) -> bool
        ensures { result ≡ is_present self.now who }
    {
        match self.ends.get(who) {
            Some(end) => !end.released,
            None => false,
        }
    }

    /// The host of a live end, and its id there.
    fn place(&self, who: usize) -> (usize, u16)
        requires order { FitTogether self.now }
        requires present { is_present self.now who ≡ true }
        ensures { StillPresent self.now who result.0 result.1 }
    {
        let end = &self.ends[who];
        (end.host, end.id)
    }

    /// A host requests a connection, whose end gets the next number. The caller must pass 1 to 8,192
    /// buffers. It is refused if 16 links are live, otherwise only if out of memory.
    pub fn dial(
        &mut self,
        alloc: Global,
        host: usize,
        socket: Socket,
        to: Address,
        buffers: u16,
        now: u64,
    ) -> Result<usize, Refusal>
        requires there { host < length self.old.stations }
        requires range { (0 < buffers) × (buffers ≤ most_units) }
        ensures number { IfOk result (λ who. who ≡ length self.old.ends) }
        ensures ok { OnOk result ((id : ℕ) × Noting self.old self.new now
            (Opened (length self.old.ends) host buffers ∷ [])
            (λ w w'. DialsFrom w host socket to buffers id w')) }
        ensures room { OnOk result (dial_fault (slice_get self.old.stations host) ≡ None) }
        ensures fault { IfErr result (DialIsLeft (slice_get self.old.stations host)) }
        ensures refused { IfErr result (λ f. LeftBy f host self.old self.new now) }
        ensures homes { SameHomes self.old self.new }
        ensures marks { MayAddEnd self.old self.new }
    {
        let who = self.ends.len();
        let id = match self.stations[host].dial(alloc, who, socket, to, buffers, now) {
            Ok(id) => id,
            Err(refusal) => return Err(refusal),
        };
        self.ends.push(EndNow {
            host,
            id,
            released: false,
            overlong: false,
        })?;
        Ok(who)
    }

    /// Queues a message at a live end. It is refused if the message is not cut, otherwise by the
    /// state of the link. An out-of-memory refusal may replace the latter, or come if neither
    /// holds.
    pub fn send(
        &mut self,
        alloc: Global,
        who: usize,
        message: &Message,
        now: u64,
    ) -> Result<(), EndFault>
        requires order { FitTogether self.old }
        requires present { is_present self.old who ≡ true }
        ensures ok { OnOk result (Noting self.old self.new now
            (HandsIn who (message_view message.now) ∷ [])
            (λ w w'. SendsTo w who (message_view message.now) w')) }
        ensures sound { OnOk result (send_fault (end_held self.old.stations self.old.ends who)
            (message_view message.now) ≡ None) }
        ensures fault { IfErr result (SendIsRefused (end_held self.old.stations self.old.ends who)
            (message_view message.now)) }
        ensures refused { OnErr result (LeftAs who self.old self.new now) }
        ensures homes { SameHomes self.old self.new }
        ensures marks { KeepsMarks self.old self.new }
    {
        let (host, id) = self.place(who);
        self.stations[host].send(alloc, id, message)
    }

    /// Ends the connection of a live end. It is refused by the state of the link, otherwise only if
    /// out of memory.
    pub fn close(&mut self, alloc: Global, who: usize, now: u64) -> Result<(), EndFault>
        requires order { FitTogether self.old }
        requires present { is_present self.old who ≡ true }
        ensures ok { OnOk result (Noting self.old self.new now (AsksEnd who ∷ [])
            (λ w w'. Closes w who w')) }
        ensures sound { OnOk result
            (close_fault (end_held self.old.stations self.old.ends who) ≡ None) }
        ensures fault { IfErr result
            (CloseIsRefused (end_held self.old.stations self.old.ends who)) }
        ensures refused { OnErr result (LeftAs who self.old self.new now) }
        ensures homes { SameHomes self.old self.new }
        ensures marks { KeepsMarks self.old self.new }
    {
        let (host, id) = self.place(who);
        self.stations[host].close(alloc, id)
    }

    /// Sets the window of a live end's link, and whether it is manual. It is not refused.
    pub fn pace(&mut self, who: usize, window: u16, manual: bool, now: u64) -> Result<(), EndFault>
        requires order { FitTogether self.old }
        requires present { is_present self.old who ≡ true }
        ensures ok { OnOk result (Noting self.old self.new now []
            (λ w w'. PacesOf w who window manual w')) }
        ensures done { IsOk result }
        ensures homes { SameHomes self.old self.new }
        ensures marks { KeepsMarks self.old self.new }
    {
        let (host, id) = self.place(who);
        self.stations[host].pace(id, window, manual)
    }

    /// Asks the link of a live end for the unit at a place again. It is not refused.
    pub fn again(&mut self, who: usize, place: u16, now: u64) -> Result<(), EndFault>
        requires order { FitTogether self.old }
        requires present { is_present self.old who ≡ true }
        ensures ok { OnOk result (Noting self.old self.new now []
            (λ w w'. AsksAgainOf w who place w')) }
        ensures done { IsOk result }
        ensures homes { SameHomes self.old self.new }
        ensures marks { KeepsMarks self.old self.new }
    {
        let (host, id) = self.place(who);
        self.stations[host].again(id, place)
    }

    /// Releases a live end, with its link. It is not refused.
    pub fn release(&mut self, who: usize, now: u64) -> Result<(), EndFault>
        requires order { FitTogether self.old }
        requires present { is_present self.old who ≡ true }
        ensures ok { OnOk result (Noting self.old self.new now (Released who ∷ [])
            (λ w w'. ReleasesOf w who w')) }
        ensures done { IsOk result }
        ensures homes { SameHomes self.old self.new }
        ensures marks { KeepsMarks self.old self.new }
    {
        let (host, id) = self.place(who);
        if let Err(fault) = self.stations[host].release(id) {
            return Err(fault);
        }
        self.ends[who].released = true;
        Ok(())
    }

    /// Takes a unit from a live end, and returns it with the result of the take. It is refused if
    /// the message grew too long. It is refused as out of memory only if the unit joins a message.
    pub fn take(
        &mut self,
        alloc: Global,
        who: usize,
        now: u64,
    ) -> (Option<Unit>, Result<Taken, EndFault>)
        requires order { FitTogether self.old }
        requires present { is_present self.old who ≡ true }
        ensures takes { result.1 ≢ Err want → Noting self.old self.new now
            (unit_notes (result_view result.1) result.0 who
            ++ whole_notes (result_view result.1) who)
            (λ w w'. TakesOf w who (result_view result.1) w') }
        ensures overlong { (result.1 ≡ Err overlong)
            ↔ Overruns (end_held self.old.stations self.old.ends who) }
        ensures fault { IfErr result.1 TakeIsRefused }
        ensures memory { result.1 ≡ Err want
            → PushesTo (end_held self.old.stations self.old.ends who) }
        ensures refused { result.1 ≡ Err want → LeftAs who self.old self.new now }
        ensures homes { SameHomes self.old self.new }
        ensures marks { result.1 ≢ Err overlong → KeepsMarks self.old self.new }
    {
        let (host, id) = self.place(who);
        let (unit, taken) = self.stations[host].take(alloc, id);
        if is_lost(&taken) {
            self.ends[who].overlong = true;
        }
        (unit, taken)
    }

    /// Asks a host for its next packet, which it writes to the start of the buffer. The caller must pass
    /// a buffer of 576 bytes.
    pub fn poll(&mut self, host: usize, now: u64, room: &mut [u8]) -> Option<(Node, usize)>
        requires there { host < length self.old.stations }
        requires room { spx_max_packet_size ≤ length room.old }
        ensures polled { PolledAt self.old host now result room.old room.new self.new }
        ensures still { IsBufferStill room.old room.new }
        ensures homes { SameHomes self.old self.new }
        ensures marks { KeepsMarks self.old self.new }
    {
        self.stations[host].poll(now, room)
    }

    /// Delivers a datagram to a host. Memory is needed only if it requests a connection that would
    /// be accepted.
    pub fn deliver(
        &mut self,
        alloc: Global,
        host: usize,
        bytes: &[u8],
        now: u64,
    ) -> Result<Arrived, OutOfMemory>
        requires there { host < length self.old.stations }
        ensures delivered { IfOk result (λ a. DeliveredAt self.old host bytes.now now a self.new) }
        ensures memory { OnErr result (IfSome (slice_get self.old.stations host)
            (λ s. IsAcceptable s.endpoint bytes.now)) }
        ensures homes { SameHomes self.old self.new }
        ensures marks { MayAddEnd self.old self.new }
    {
        let who = self.ends.len();
        let arrived = self.stations[host].deliver(alloc, bytes, now, who)?;
        if let Arrived::Accepted(id) = arrived {
            self.ends.push(EndNow {
                host,
                id,
                released: false,
                overlong: false,
            })?;
        }
        Ok(arrived)
    }

    /// How many hosts there are.
    pub fn count(&self) -> usize
        ensures { result ≡ length self.now.stations }
    {
        self.stations.len()
    }

    /// How many ends were ever made.
    pub fn ends(&self) -> usize
        ensures { result ≡ length self.now.ends }
    {
        self.ends.len()
    }

    /// The network of a host. None if there is no such host.
    pub fn network(&self, host: usize) -> Option<Network>
        ensures { result ≡ option_map (λ s. s.endpoint.network) (slice_get self.now.stations host) }
    {
        let station = self.stations.get(host)?;
        Some(station.network())
    }

    /// The end that gave the last packet of a host, and what kind of packet it was. None if there
    /// is no such host.
    pub fn spoke(&self, host: usize) -> Option<(usize, Sent)>
        ensures absent { IfNone (slice_get self.now.stations host) (result ≡ None) }
        ensures there { IfSome (slice_get self.now.stations host) (λ s.
            result ≡ speaker s.here s.endpoint.said) }
    {
        self.stations.get(host)?.spoke()
    }

    /// The end that read the last datagram of a host. None if there is no such host.
    pub fn reader(&self, host: usize) -> Option<usize>
        ensures absent { IfNone (slice_get self.now.stations host) (result ≡ None) }
        ensures there { IfSome (slice_get self.now.stations host) (λ s.
            result ≡ reader_of s.here s.endpoint.heard) }
    {
        self.stations.get(host)?.reader()
    }

    /// The end with this id of a host. None if there is no such host.
    pub fn end(&self, host: usize, id: u16) -> Option<usize>
        ensures absent { IfNone (slice_get self.now.stations host) (result ≡ None) }
        ensures there { IfSome (slice_get self.now.stations host) (λ s. result ≡ end_at s.here id) }
    {
        self.stations.get(host)?.end(id)
    }

    /// The buffers of a link of a host; 0 if there is no such link or host.
    pub fn buffers(&self, host: usize, id: u16) -> u16
        ensures absent { IfNone (slice_get self.now.stations host) (result ≡ 0) }
        ensures there { IfSome (slice_get self.now.stations host) (λ s.
            result ≡ buffers_of (held_at s.endpoint id)) }
    {
        match self.stations.get(host) {
            Some(station) => station.buffers(id),
            None => 0,
        }
    }

    /// How many links of a host are ends; 0 if there is no such host.
    pub fn links(&self, host: usize) -> usize
        ensures { result ≡ length (here_at self.now host) }
    {
        let Some(station) = self.stations.get(host) else {
            return 0;
        };
        station.links()
    }

    /// The id of a link of a host that is an end, by its place among those.
    pub fn id(&self, host: usize, place: usize) -> Option<u16>
        ensures { result ≡ option_map (λ x. x.0) (slice_get (here_at self.now host) place) }
    {
        match self.stations.get(host) {
            Some(station) => station.id(place),
            None => None,
        }
    }

    /// The end with this id of a host, if there is such a host and such an end.
    pub fn known(&self, host: usize, id: u16) -> Option<usize>
        ensures { result ≡ end_at (here_at self.now host) id }
    {
        match self.stations.get(host) {
            Some(station) => station.end(id),
            None => None,
        }
    }

    /// The state of a link of a host; None if there is none.
    pub fn state(&self, host: usize, id: u16) -> Option<State>
        ensures { result ≡ state_on_host self.now host id }
    {
        match self.stations.get(host) {
            Some(station) => station.state(id),
            None => None,
        }
    }

    /// The host of an end, released or not.
    pub fn host_of(&self, who: usize) -> Option<usize>
        ensures { result ≡ option_map (λ e. e.host) (slice_get self.now.ends who) }
    {
        match self.ends.get(who) {
            Some(end) => Some(end.host),
            None => None,
        }
    }
}

/// Whether a take was refused, but not as out of memory: the message grew too long, and the link is
/// lost.
fn is_lost(taken: &Result<Taken, EndFault>) -> bool
    ensures { result ≡ is_lost (result_view taken.now) }
{
    match taken {
        Err(EndFault::Message(MessageFault::OutOfMemory)) => false,
        Err(_) => true,
        Ok(_) => false,
    }
}
