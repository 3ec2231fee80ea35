//! A learning switch at an Ethernet port.

ghost use Rattle.std.specs.Prelude.{◌≡◌, List, ℕ, IfOk, IfErr, IsOkAnd, OnErr, OnOk, None, Some, drop, false, length, take};
ghost use Rattle.ipx_wire.specs.Ipx.{IsPartOf, number};
ghost use Rattle.ipx_ethernet.specs.Frame.{frame_of, own_bytes, packet_place};
ghost use Rattle.ipx_ethernet.specs.SentFrame.{IsSentFrame, sending_fault, sent_size};
ghost use Rattle.ipx_ethernet.specs.PortFrames.{IsForCore, KeepsFrame};
ghost use Rattle.ipx_ethernet.specs.Heard.{SwitchView, switch_handing, switch_keeping, switch_knowing, switch_noticing, switch_passing, switch_refusing, new_switch};
ghost use Rattle.ipx_ethernet.specs.Heard.{way_after, way_of_own};
ghost use Rattle.ipx_ethernet.specs.SwitchEnds.{is_way_to};

use crate::egress::{Egress, egress_to};
use crate::ethernet_port::{EthernetPort, FrameDrop};
use crate::fault::FrameFault;
use crate::frame_counters::FrameCounters;
use crate::frame_notice::notice_in;
use crate::mac_table::{MacTable, Station};
use crate::notices::Notices;
use crate::passing::{addresses_of, count_passed, forwarding_decision, is_group, learn, move_by};
use ipx_wire::Node;
use std::alloc::{AllocError, Global};
use std::marker::Model;

/// An Ethernet port with several remotes, and a learning switch between them.
#[derive(Drop)]
pub struct Switch {
    port: EthernetPort,
    joined: bool,
    stations: MacTable,
    counts: FrameCounters,
    passed: u64,
    refused: u64,
    notices: Notices,
}

impl Model for Switch {
    ghost use Rattle.ipx_ethernet.specs.Heard.{SwitchView};

    ghost Value = { SwitchView };

    ghost view = { λ h. record {
      port = h.port;
      joined = h.joined;
      stations = h.stations;
      counts = h.counts;
      passed = h.passed;
      refused = h.refused;
      notices = h.notices;
    } };
}

impl Switch {
    /// A switch that has received nothing yet. Frames of one remote are forwarded to others if
    /// `joined`. Only this allocates memory.
    pub fn new(alloc: Global, port: EthernetPort, joined: bool) -> Result<Switch, AllocError>
        ensures { IfOk result (λ h. h ≡ new_switch port joined) }
    {
        let stations = MacTable::new(alloc)?;
        Ok(Switch {
            port,
            joined,
            stations,
            counts: FrameCounters::new(),
            passed: 0,
            refused: 0,
            notices: Notices::new(),
        })
    }

    /// The port.
    pub fn port(&self) -> EthernetPort
        ensures { result ≡ self.now.port }
    {
        self.port
    }

    /// The counts of received frames, by what the core got of them.
    pub fn counts(&self) -> FrameCounters
        ensures { result ≡ self.now.counts }
    {
        self.counts
    }

    /// How many frames were to be forwarded from one remote to others. This includes frames that
    /// nobody got because there is no other remote.
    pub fn passed(&self) -> u64
        ensures { result ≡ self.now.passed }
    {
        self.passed
    }

    /// The stations that were heard, in the order in which they were last heard.
    pub fn stations(&self) -> &[Station]
        ensures { result.now ≡ self.now.stations }
    {
        self.stations.all()
    }

    /// How many packets of the core did not fit a frame.
    pub fn refused(&self) -> u64
        ensures { result ≡ self.now.refused }
    {
        self.refused
    }

    /// What it noticed of frames that show a mistake on the segment.
    pub fn notices(&self) -> Notices
        ensures { result ≡ self.now.notices }
    {
        self.notices
    }

    /// Where the port's own frame to a node is sent at time `now`, in ms. A broadcast goes to each
    /// remote, another frame to the remote where the node was heard, or to each if it is not known.
    pub fn egress_for(&self, node: Node, now: u64) -> Egress
        ensures { result ≡ way_of_own node now self.now.stations }
    {
        if is_group(node) {
            return Egress::ToAll;
        }
        egress_to(self.stations.end_of(node, now))
    }

    /// Writes the frame of a packet of the core for a node to the front of `out`. Returns where it
    /// is sent, as for `egress_for`, and its size.
    ///
    /// It refuses what `EthernetPort::frame_into` refuses, with the same faults, and counts that.
    /// Then `out` is as it was. No memory is allocated.
    pub fn frame_into(
        &mut self,
        node: Node,
        packet: &[u8],
        now: u64,
        out: &mut [u8],
    ) -> Result<(Egress, usize), FrameFault>
        ensures ends { IfOk result (λ r. r.0 ≡ way_of_own node now self.old.stations) }
        ensures count { IfOk result (λ r.
            r.1 ≡ sent_size self.old.port.encapsulation (number 2 2 packet.now)) }
        ensures written { IfOk result (λ r. IsSentFrame self.old.port.encapsulation
            (frame_of node self.old.port.own (own_bytes packet.now)) (take r.1 out.new)) }
        ensures rest { IfOk result (λ r. drop r.1 out.new ≡ drop r.1 out.old) }
        ensures sent { OnOk result (self.new ≡ self.old) }
        ensures unchanged { OnErr result (out.new ≡ out.old) }
        ensures counted { OnErr result (self.new ≡ switch_refusing self.old) }
        ensures fault { IfErr result (λ f. sending_fault self.old.port.encapsulation packet.now
            (length out.old) ≡ Some f) }
        ensures whole { IfOk result (λ _. sending_fault self.old.port.encapsulation packet.now
            (length out.old) ≡ None) }
    {
        match self.port.frame_into(node, packet, out) {
            Ok(size) => Ok((self.egress_for(node, now), size)),
            Err(fault) => {
                self.refused = self.refused.saturating_add(1);
                Err(fault)
            }
        }
    }

    /// Takes a frame that came from the remote `end` at time `now`, in ms. It tells to which other
    /// remotes the frame is forwarded, as it came. It also tells which packet of it goes to the
    /// core, or why none does. No memory is allocated: the table has room for 1,024 stations, and
    /// never holds more.
    ///
    /// Call it with all bytes that come from a remote, and send them on to the remotes that
    /// `Egress::is_to` names. From then on the source address is known at that remote. It stays
    /// known for five minutes, as long as it is among the 1,024 heard last. A group, zero and the
    /// port's own address are not learned. Nothing is learned from fewer than 14 bytes or more than
    /// 1,522, which are not forwarded.
    pub fn hear<'a>(
        &mut self,
        end: usize,
        bytes: &'a [u8],
        now: u64,
    ) -> (Egress, Result<&'a [u8], FrameDrop>)
        // Which remotes it is forwarded to; never the one that it came from.
        ensures onward { result.0 ≡ way_after self.new bytes.now end now }
        ensures back { is_way_to result.0 end ≡ false }
        // Exactly the packets for the core go to it, and why another does not.
        ensures heard { IfOk result.1 (λ r. IsForCore self.old.port bytes.now r.now) }
        ensures lent { IfOk result.1 (λ r.
            IsPartOf bytes.entry (packet_place self.old.port.encapsulation) r) }
        ensures only { (packet : List ℕ) → IsForCore self.old.port bytes.now packet
            → IsOkAnd result.1 (λ r. r.now ≡ packet) }
        ensures kept { IfErr result.1 (λ k. KeepsFrame self.old.port bytes.now k) }
        // What the switch is then.
        ensures handing { IfOk result.1 (λ _.
            self.new ≡ switch_handing (switch_passing self.old bytes.now end now)) }
        ensures keeping { IfErr result.1 (λ k.
            self.new ≡ switch_keeping k (switch_passing self.old bytes.now end now)) }
    {
        let onward = self.pass(end, bytes, now);
        let taken = self.take(bytes);
        (onward, taken)
    }

    /// Where a frame from a remote is forwarded.
    fn way(&self, end: usize, bytes: &[u8], now: u64) -> Egress
        ensures { result ≡ way_after self.now bytes.now end now }
    {
        if !self.joined {
            return Egress::Nowhere;
        }
        match addresses_of(bytes) {
            Some((to, from)) => {
                let place = self.stations.end_of(to, now);
                forwarding_decision(self.port.own, to, from, end, place)
            }
            None => Egress::Nowhere,
        }
    }

    /// Notices what a frame from a remote shows.
    fn notice(&mut self, end: usize, bytes: &[u8], now: u64)
        ensures { self.new ≡ switch_noticing self.old bytes.now end now }
    {
        if let Some((_, from)) = addresses_of(bytes) {
            let moved = move_by(&self.stations, self.port.own, from, end, now);
            self.notices.note_move(moved);
        }
        self.notices.note_frame(notice_in(self.port, bytes, end));
    }

    /// Learns the source address of a frame, if a station may have it.
    fn know_sender(&mut self, end: usize, bytes: &[u8], now: u64)
        ensures { self.new ≡ switch_knowing self.old bytes.now end now }
    {
        if let Some((_, from)) = addresses_of(bytes) {
            learn(&mut self.stations, self.port.own, from, end, now);
        }
    }

    /// Where a frame from a remote is forwarded, once it is noticed and its source is learned. It is
    /// counted if it is to be forwarded.
    fn pass(&mut self, end: usize, bytes: &[u8], now: u64) -> Egress
        ensures onward { result ≡ way_after self.new bytes.now end now }
        ensures leaves { self.new ≡ switch_passing self.old bytes.now end now }
    {
        self.notice(end, bytes, now);
        self.know_sender(end, bytes, now);
        let onward = self.way(end, bytes, now);
        count_passed(&mut self.passed, onward);
        onward
    }

    /// The packet of a frame that goes to the core, which is counted.
    fn take<'a>(&mut self, bytes: &'a [u8]) -> Result<&'a [u8], FrameDrop>
        ensures heard { IfOk result (λ r. IsForCore self.old.port bytes.now r.now) }
        ensures lent { IfOk result (λ r.
            IsPartOf bytes.entry (packet_place self.old.port.encapsulation) r) }
        ensures only { (packet : List ℕ) → IsForCore self.old.port bytes.now packet
            → IsOkAnd result (λ r. r.now ≡ packet) }
        ensures kept { IfErr result (λ k. KeepsFrame self.old.port bytes.now k) }
        ensures handing { IfOk result (λ _. self.new ≡ switch_handing self.old) }
        ensures keeping { IfErr result (λ k. self.new ≡ switch_keeping k self.old) }
    {
        let taken = self.port.hear(bytes);
        match taken {
            Ok(_) => self.counts.count_handed_on(),
            Err(kept) => self.counts.count_drop(kept),
        }
        taken
    }
}
