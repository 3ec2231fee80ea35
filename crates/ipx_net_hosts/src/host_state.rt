//! A host, and the number of the end of each of its links.

ghost use Rattle.std.specs.Prelude.{◌≡◌, ◌≢◌, ◌≤◌, ◌↔◌, ◌++◌, ◌∷◌, ◌==◌, ℕ, [], Err, IfErr, IfOk, IfSome, IsOk, None, OnErr, OnOk, Some, filter, find, length, not, option_map, slice_get};
ghost use Rattle.ipx_wire.specs.Assigned.{spx_max_packet_size};
ghost use Rattle.spx_link.specs.Offer.{again_link, end_link, first_of, offer_link, pace_link, refusal};
ghost use Rattle.spx_messages.specs.Arrives.{Arrives, IsAcceptable};
ghost use Rattle.spx_messages.specs.Polls.{Polls, home_of};
ghost use Rattle.spx_messages.specs.Taking.{overlong, result_view, take_end};
ghost use Rattle.spx_messages.specs.declared.fault.EndFault.TheVariants as EndFaults;
ghost use Rattle.spx_messages.specs.declared.message_fault.MessageFault.TheVariants as MessageFaults;
ghost use Rattle.spx_messages.specs.EndpointView.{held_at};
ghost use Rattle.spx_messages.specs.Cut.{cut_of};
ghost use Rattle.spx_messages.specs.Message.{cut_fault, message_view};
ghost use Rattle.spx_theory.specs.HostSteps.{buffers_of, here_after};
ghost use Rattle.spx_theory.specs.World.{end_at};
ghost use Rattle.spx_messages.specs.Changes.{Listens};
ghost use Rattle.ipx_net_hosts.specs.HostBeginnings.{BeginsAt};
ghost use Rattle.ipx_net_hosts.specs.Refusing.{CloseIsRefused, DialIsLeft, Overruns, PushesTo, SendIsRefused, TakeIsRefused, close_fault, dial_fault, send_fault, want};
ghost use Rattle.ipx_net_hosts.specs.HostStates.{ChangesAt, DialsAt, ReleasesAt, RefusalKeeps, StaysAt, reader_of, speaker};
ghost use Rattle.ipx_net_hosts.specs.EndStates.{state_of};

use crate::refusal::Refusal;
use ipx_wire::{Address, Fragment, Network, Node, OutOfMemory, Socket};
use spx_link::{Sent, State, Unit};
use spx_messages::{Arrived, EndFault, Endpoint, Message, Taken};
use std::alloc::Global;
use std::marker::Model;

/// A host: its endpoint, and the number of the end of each of its links.
#[derive(Drop)]
pub struct HostState {
    endpoint: Endpoint,
    here: Vec<(u16, usize)>,
}

impl Model for HostState {
    ghost use Rattle.spx_theory.specs.World.{HostState};

    ghost Value = { HostState };

    ghost view = { λ s. record { endpoint = s.endpoint; here = s.here.items } };
}

/// The number of the end with this id.
fn number_of(here: &[(u16, usize)], id: u16) -> Option<usize>
    ensures { result ≡ option_map (λ x. x.1) (find (λ x. x.0 == id) here.now) }
{
    let known = here.iter().find(|known| known.0 == id)?;
    Some(known.1)
}

/// The end with this id.
fn end_of(here: &[(u16, usize)], id: u16) -> Option<usize>
    ensures { result ≡ end_at here.now id }
{
    number_of(here, id)
}

/// A copy of a unit.
fn copy_of(unit: &Unit) -> Unit
    ensures { result ≡ unit.now }
{
    let mut body = Fragment::new();
    body.try_extend_from_slice(&unit.body).unwrap();
    Unit {
        stream: unit.stream,
        last: unit.last,
        body,
    }
}

/// Removes an id: it is no end from now on.
fn forget(here: &mut Vec<(u16, usize)>, id: u16)
    ensures kept { here.new.items ≡ filter (λ x. not (x.0 == id)) here.old.items }
    ensures forgotten { end_at here.new.items id ≡ None }
    ensures known { (q : ℕ) → q ≢ id → end_at here.new.items q ≡ end_at here.old.items q }
{
    here.retain(|known| known.0 != id);
}

impl HostState {
    /// A host without links.
    pub fn new(alloc: Global, network: Network, node: Node, router: Node) -> HostState
        ensures begins { BeginsAt network node router None result }
    {
        HostState {
            endpoint: Endpoint::new(alloc, network, node, router),
            here: Vec::new(alloc),
        }
    }

    /// A host without links, which listens at one socket or at none.
    pub fn listening(
        alloc: Global,
        network: Network,
        node: Node,
        router: Node,
        listen: Option<(Socket, u16)>,
    ) -> Result<HostState, OutOfMemory>
        ensures { IfOk result (λ s. BeginsAt network node router listen s) }
    {
        let mut station = HostState::new(alloc, network, node, router);
        if let Some((socket, buffers)) = listen {
            station.listen(alloc, socket, buffers)?;
        }
        Ok(station)
    }

    /// Accepts links at a socket.
    fn listen(&mut self, alloc: Global, socket: Socket, buffers: u16) -> Result<(), OutOfMemory>
        ensures listens { OnOk result (Listens self.old.endpoint self.new.endpoint socket buffers) }
        ensures here { self.new.here ≡ self.old.here }
        ensures said { self.new.endpoint.said ≡ self.old.endpoint.said }
        ensures heard { self.new.endpoint.heard ≡ self.old.endpoint.heard }
    {
        self.endpoint.listen(alloc, socket, buffers)
    }

    /// The network of the host.
    pub fn network(&self) -> Network
        ensures { result ≡ self.now.endpoint.network }
    {
        self.endpoint.network()
    }

    /// Requests a connection, whose end gets the number `who`. It is refused if 16 links are live.
    pub fn dial(
        &mut self,
        alloc: Global,
        who: usize,
        socket: Socket,
        to: Address,
        buffers: u16,
        now: u64,
    ) -> Result<u16, Refusal>
        ensures ok { IfOk result (λ id. DialsAt self.old who socket to buffers now id self.new) }
        ensures room { OnOk result (dial_fault (Some self.old) ≡ None) }
        ensures fault { IfErr result (DialIsLeft (Some self.old)) }
        ensures refused { IfErr result (λ f. RefusalKeeps f self.old self.new) }
        ensures home { home_of self.new.endpoint ≡ home_of self.old.endpoint }
    {
        let id = self.endpoint.dial(alloc, socket, to, buffers, now)?;
        self.here.push((id, who))?;
        Ok(id)
    }

    /// Queues a message. It is refused if no link has the id, otherwise if the message is not cut,
    /// otherwise by the state of the link.
    pub fn send(&mut self, alloc: Global, id: u16, message: &Message) -> Result<(), EndFault>
        ensures ok { IfSome (held_at self.old.endpoint id) (λ h. OnOk result (ChangesAt self.old id
            (record h { link = offer_link h.link (cut_of (message_view message.now)) }) self.new)) }
        ensures open { IfSome (held_at self.old.endpoint id) (λ h. OnOk result
            ((refusal h.link.state ≡ None) × (cut_fault (message_view message.now) ≡ None))) }
        ensures sound { OnOk result
            (send_fault (held_at self.old.endpoint id) (message_view message.now) ≡ None) }
        ensures fault { IfErr result
            (SendIsRefused (held_at self.old.endpoint id) (message_view message.now)) }
        ensures refused { OnErr result (StaysAt self.old self.new) }
        ensures home { home_of self.new.endpoint ≡ home_of self.old.endpoint }
    {
        self.endpoint.send(alloc, id, message)
    }

    /// Ends a connection. It is refused if no link has the id, otherwise by the state of the link.
    pub fn close(&mut self, alloc: Global, id: u16) -> Result<(), EndFault>
        ensures ok { IfSome (held_at self.old.endpoint id) (λ h. OnOk result
            (ChangesAt self.old id (record h { link = end_link h.link }) self.new)) }
        ensures open { IfSome (held_at self.old.endpoint id)
            (λ h. OnOk result (refusal h.link.state ≡ None)) }
        ensures sound { OnOk result (close_fault (held_at self.old.endpoint id) ≡ None) }
        ensures fault { IfErr result (CloseIsRefused (held_at self.old.endpoint id)) }
        ensures refused { OnErr result (StaysAt self.old self.new) }
        ensures home { home_of self.new.endpoint ≡ home_of self.old.endpoint }
    {
        self.endpoint.close(alloc, id)
    }

    /// Sets the window of a link, and whether it is manual. It is refused if no link has the id.
    pub fn pace(&mut self, id: u16, window: u16, manual: bool) -> Result<(), EndFault>
        ensures ok { IfSome (held_at self.old.endpoint id) (λ h. OnOk result (ChangesAt self.old id
            (record h { link = pace_link h.link window manual }) self.new)) }
        ensures done { IfSome (held_at self.old.endpoint id) (λ _. IsOk result) }
        ensures refused { OnErr result (StaysAt self.old self.new) }
        ensures home { home_of self.new.endpoint ≡ home_of self.old.endpoint }
    {
        if let Err(fault) = self.endpoint.pace(id, window, manual) {
            return Err(fault);
        }
        Ok(())
    }

    /// Asks a link for the unit at a place again. It is refused if no link has the id.
    pub fn again(&mut self, id: u16, place: u16) -> Result<(), EndFault>
        ensures ok { IfSome (held_at self.old.endpoint id) (λ h. OnOk result (ChangesAt self.old id
            (record h { link = again_link h.link place }) self.new)) }
        ensures done { IfSome (held_at self.old.endpoint id) (λ _. IsOk result) }
        ensures refused { OnErr result (StaysAt self.old self.new) }
        ensures home { home_of self.new.endpoint ≡ home_of self.old.endpoint }
    {
        if let Err(fault) = self.endpoint.again(id, place) {
            return Err(fault);
        }
        Ok(())
    }

    /// Releases a link.
    pub fn release(&mut self, id: u16) -> Result<(), EndFault>
        ensures ok { OnOk result (ReleasesAt self.old id self.new) }
        ensures done { IfSome (held_at self.old.endpoint id) (λ _. IsOk result) }
        ensures refused { OnErr result (StaysAt self.old self.new) }
        ensures home { home_of self.new.endpoint ≡ home_of self.old.endpoint }
    {
        if let Err(fault) = self.endpoint.release(id) {
            return Err(fault);
        }
        forget(&mut self.here, id);
        Ok(())
    }

    /// A copy of the unit that is taken next, if one is held.
    fn next_unit(&self, id: u16) -> Option<Unit>
        ensures { IfSome (held_at self.now.endpoint id) (λ h. result ≡ first_of h.link.held) }
    {
        match self.endpoint.peek(id) {
            Ok(Some(unit)) => Some(copy_of(unit)),
            Ok(None) => None,
            Err(_) => None,
        }
    }

    /// Takes a unit, and returns it with the result of the take.
    pub fn take(&mut self, alloc: Global, id: u16) -> (Option<Unit>, Result<Taken, EndFault>)
        ensures unit { IfSome (held_at self.old.endpoint id)
            (λ h. result.0 ≡ first_of h.link.held) }
        ensures takes { IfSome (held_at self.old.endpoint id) (λ h.
            result.1 ≢ Err (EndFaults.Message MessageFaults.OutOfMemory)
            → (result_view result.1 ≡ (take_end h).0)
            × ChangesAt self.old id (take_end h).1 self.new) }
        ensures overlong { (result.1 ≡ Err overlong) ↔ Overruns (held_at self.old.endpoint id) }
        ensures fault { IfSome (held_at self.old.endpoint id) (λ _. IfErr result.1 TakeIsRefused) }
        ensures memory { result.1 ≡ Err want → PushesTo (held_at self.old.endpoint id) }
        ensures refused { result.1 ≡ Err (EndFaults.Message MessageFaults.OutOfMemory)
            → IfSome (held_at self.old.endpoint id) (λ _. StaysAt self.old self.new) }
        ensures home { home_of self.new.endpoint ≡ home_of self.old.endpoint }
    {
        let unit = self.next_unit(id);
        (unit, self.endpoint.take(alloc, id))
    }

    /// The next packet that the host has to send.
    pub fn poll(&mut self, now: u64, room: &mut [u8]) -> Option<(Node, usize)>
        requires { spx_max_packet_size ≤ length room.old }
        ensures polls { Polls self.old.endpoint now result room.old room.new self.new.endpoint }
        ensures here { self.new.here ≡ self.old.here }
        ensures home { home_of self.new.endpoint ≡ home_of self.old.endpoint }
    {
        self.endpoint.poll(now, room)
    }

    /// The end that gave the last packet, and what kind of packet it was.
    pub fn spoke(&self) -> Option<(usize, Sent)>
        ensures { result ≡ speaker self.now.here self.now.endpoint.said }
    {
        let (id, sent) = self.endpoint.sent()?;
        let who = end_of(&self.here, id)?;
        Some((who, sent))
    }

    /// Delivers a datagram. A link that it makes becomes the end with this number.
    pub fn deliver(
        &mut self,
        alloc: Global,
        bytes: &[u8],
        now: u64,
        who: usize,
    ) -> Result<Arrived, OutOfMemory>
        ensures arrives { IfOk result
            (λ a. Arrives self.old.endpoint bytes.now now a self.new.endpoint) }
        ensures here { IfOk result (λ a. self.new.here ≡ here_after a who self.old.here) }
        ensures memory { OnErr result (IsAcceptable self.old.endpoint bytes.now) }
        ensures home { home_of self.new.endpoint ≡ home_of self.old.endpoint }
    {
        let arrived = self.endpoint.receive(alloc, bytes, now)?;
        if let Arrived::Accepted(id) = arrived {
            self.here.push((id, who))?;
        }
        Ok(arrived)
    }

    /// The end with this id.
    pub fn end(&self, id: u16) -> Option<usize>
        ensures { result ≡ end_at self.now.here id }
    {
        end_of(&self.here, id)
    }

    /// The end that read the last datagram.
    pub fn reader(&self) -> Option<usize>
        ensures { result ≡ reader_of self.now.here self.now.endpoint.heard }
    {
        let id = self.endpoint.heard()?;
        end_of(&self.here, id)
    }

    /// The buffers of a link; 0 if there is none.
    pub fn buffers(&self, id: u16) -> u16
        ensures { result ≡ buffers_of (held_at self.now.endpoint id) }
    {
        match self.endpoint.numbers(id) {
            Ok(numbers) => numbers.buffers,
            Err(_) => 0,
        }
    }

    /// How many of its links are ends.
    pub fn links(&self) -> usize
        ensures { result ≡ length self.now.here }
    {
        self.here.len()
    }

    /// The id of a link that is an end, by its place among those.
    pub fn id(&self, place: usize) -> Option<u16>
        ensures { result ≡ option_map (λ x. x.0) (slice_get self.now.here place) }
    {
        let known = self.here.get(place)?;
        Some(known.0)
    }

    /// The state of a link; None if there is none.
    pub fn state(&self, id: u16) -> Option<State>
        ensures { result ≡ state_of (held_at self.now.endpoint id) }
    {
        match self.endpoint.state(id) {
            Ok(state) => Some(state),
            Err(_) => None,
        }
    }
}
