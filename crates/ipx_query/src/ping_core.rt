//! A host that pings a listener, as a core.

ghost use Rattle.std.specs.Prelude.{◌≡◌};
ghost use Rattle.ipx_wire.specs.Ipx.{packet_view};
ghost use Rattle.spx_link.specs.Receive.{is_reply};
ghost use Rattle.ipx_query.specs.QueryAnswers.{is_at_hand};
ghost use Rattle.ipx_query.specs.PingAnswers.{IsPingAnswer, ReadsPing, is_address, is_from_pinged, ping_heard};
ghost use Rattle.ipx_query.specs.PingEnds.{is_ping_over, new_ping, ping_status};
ghost use Rattle.ipx_query.specs.PingRequests.{is_ping_due, ping_link, ping_node};

use crate::ping::ping_into;
use ipx_carrier::{Core, saturating_increment};
use ipx_wire::{
    Address, IpxHeader, Network, Node, OutOfMemory, Packet, SpxHeader, decode, decode_spx,
    packet_type,
};
use std::alloc::Global;

/// The time between two requests, in milliseconds.
const INTERVAL: u64 = 1000;

/// How long to wait for the answer to the last request, in milliseconds.
const PING_TIMEOUT: u64 = 2000;

/// A host that pings an SPX listener, over a device of one port. It sends requests for a
/// connection, all with one id, one a second. A listener answers each of them, and uses one
/// connection slot for all.
///
/// The first answer since the latest request was sent counts, for that request. Pinging is over if
/// all requests were sent, and the last one was answered or two seconds passed since.
#[derive(Clone, Copy, PartialEq, Eq)]
pub struct PingCore {
    own: Address,
    router: Node,
    to: Address,
    id: u16,
    count: u32,
    sent: u32,
    sent_at: u64,
    answered: u64,
    hops: Option<u8>,
    passed: u8,
}

/// Whether a network is 0, the local network, or the host's own.
fn is_here(own: Network, network: Network) -> bool
    ensures { result ≡ is_at_hand own network }
{
    network == Network::LOCAL || network == own
}

/// Whether two addresses are the same.
fn is_same(a: Address, b: Address) -> bool
    ensures { result ≡ is_address a b }
{
    a.network == b.network && a.node == b.node && a.socket == b.socket
}

/// Whether a packet with this header would let the link of a request of that id join.
fn joins(own: Address, to: Address, id: u16, header: SpxHeader) -> bool
    ensures { result ≡ is_reply (ping_link own to id) header }
{
    let _ = (own, to);
    let system = header.system && header.stream == 0 && !header.wants_ack;
    system && header.to_id == id && 0 < header.from_id && header.from_id < 0xffff
}

impl PingCore {
    /// A host that has sent nothing yet. `router` is the router for other networks, and `to` the
    /// listener's address. `id` is from 0001 to FFFE, and no connection of the host has it. `count`
    /// is how many requests it sends.
    pub fn new(own: Address, router: Node, to: Address, id: u16, count: u32) -> PingCore
        ensures { result ≡ new_ping own router to id count }
    {
        PingCore {
            own,
            router,
            to,
            id,
            count,
            sent: 0,
            sent_at: 0,
            answered: 0,
            hops: None,
            passed: 0,
        }
    }

    /// How many requests were sent, which is the number of the latest one.
    pub fn sent(&self) -> u32
        ensures { result ≡ self.now.sent }
    {
        self.sent
    }

    /// How many were answered.
    pub fn answered(&self) -> u64
        ensures { result ≡ self.now.answered }
    {
        self.answered
    }

    /// How many routers the answer to the latest request passed, if it was answered.
    pub fn answer(&self) -> Option<u8>
        ensures { result ≡ self.now.hops }
    {
        self.hops
    }

    /// How many routers the last answer passed, whichever request it counted for; 0 if there was
    /// none.
    pub fn passed(&self) -> u8
        ensures { result ≡ self.now.passed }
    {
        self.passed
    }

    /// Whether it is over at a given time, in milliseconds.
    pub fn is_done(&self, now: u64) -> bool
        ensures { result ≡ is_ping_over self.now now }
    {
        let late = now.saturating_sub(self.sent_at) >= PING_TIMEOUT;
        let all_sent = self.sent >= self.count;
        all_sent && (self.sent == 0 || self.hops.is_some() || late)
    }

    /// 0 if a request was answered, otherwise 1: the exit status of a program.
    pub fn status(&self) -> u8
        ensures { result ≡ ping_status self.now }
    {
        if self.answered == 0 { 1 } else { 0 }
    }

    /// The node that a request is sent to first.
    fn next_node(&self) -> Node
        ensures { result ≡ ping_node self.now }
    {
        let network = self.to.network;
        if network == self.own.network || network == Network::LOCAL {
            self.to.node
        } else {
            self.router
        }
    }

    fn is_due(&self, now: u64) -> bool
        ensures { result ≡ is_ping_due self.now now }
    {
        let late = now.saturating_sub(self.sent_at) >= INTERVAL;
        let some_left = self.sent < self.count;
        some_left && (self.sent == 0 || late)
    }

    /// Whether a packet is from the listener to this host.
    fn is_from_listener(&self, header: IpxHeader) -> bool
        ensures { result ≡ is_from_pinged self.now header }
    {
        let own = self.own;
        header.kind == packet_type::SPX
            && is_here(own.network, header.to.network)
            && header.to.node == own.node
            && header.to.socket == own.socket
            && is_same(header.from, self.to)
    }

    /// How many routers a packet from the listener passed, if it is an answer.
    fn read(&self, packet: Packet<'_>) -> Option<u8>
        ensures { ReadsPing self.now (packet_view packet.entry) result }
    {
        match decode_spx(packet.body) {
            Err(_) => return None,
            Ok((header, _)) => {
                if joins(self.own, self.to, self.id, header) {
                    return Some(packet.header.hops);
                }
                return None;
            }
        }
    }

    /// How many routers a datagram passed, if it is an answer.
    fn answer_in(&self, bytes: &[u8]) -> Option<u8>
        ensures { IsPingAnswer self.now bytes.now result }
    {
        match decode(bytes) {
            Err(_) => return None,
            Ok(packet) => {
                if !self.is_from_listener(packet.header) {
                    return None;
                }
                return self.read(packet);
            }
        }
    }

    /// Counts an answer, if there is one and the latest request has none yet.
    fn note(&mut self, answer: Option<u8>)
        ensures { self.new ≡ ping_heard answer self.old }
    {
        let Some(routers) = answer else {
            return;
        };
        if self.sent > 0 && self.hops.is_none() {
            saturating_increment(&mut self.answered);
            *self = PingCore {
                hops: Some(routers),
                passed: routers,
                ..*self
            };
        }
    }
}

impl Core for PingCore {
    ghost use Rattle.ipx_query.specs.PingAnswers.{PingHears};
    ghost use Rattle.ipx_query.specs.PingRequests.{PingGives};

    ghost port_count = { λ c. 1 };

    ghost hears = { λ old port bytes now new. PingHears old bytes new };

    ghost gives = { PingGives };

    ghost hear_out_of_memory = { λ old port bytes now new. ⊥ };

    ghost next_out_of_memory = { λ old now new. ⊥ };

    fn ports(&self) -> usize {
        1
    }

    fn hear(
        &mut self,
        _alloc: Global,
        _port: usize,
        bytes: &[u8],
        _now: u64,
    ) -> Result<(), OutOfMemory> {
        let answer = self.answer_in(bytes);
        self.note(answer);
        Ok(())
    }

    fn next(
        &mut self,
        _alloc: Global,
        now: u64,
        room: &mut [u8],
    ) -> Result<Option<(usize, Node, usize)>, OutOfMemory> {
        if !self.is_due(now) {
            return Ok(None);
        }
        let count = ping_into(self.own, self.to, self.id, room);
        let node = self.next_node();
        *self = PingCore {
            sent: self.sent + 1,
            sent_at: now,
            hops: None,
            ..*self
        };
        Ok(Some((0, node, count)))
    }
}
