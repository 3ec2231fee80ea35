//! Ethernet ports.

ghost use Rattle.std.specs.Prelude.{◌≡◌, ◌<◌, ◌≤◌, ◌+◌, ◌^◌, [], Option, None, Some, IfOk, IfSome, OnErr, OnOk, is_some, length, map, min, slice_index, slice_set, true};
ghost use Rattle.ipx_carrier.specs.Device.{received_in};
ghost use Rattle.ipx_carrier.specs.PortDrivers.{copies_count, count_in};
ghost use Rattle.ipx_carrier.specs.Readiness.{AsksPortWithMark, MarksStay};
ghost use Rattle.ipx_ethernet_ports.specs.EndTraffic.{EndFrame, frame_at};
ghost use Rattle.ipx_ethernet_ports.specs.EthernetCalls.{ReceivesByEthernet, SendsByEthernet};
ghost use Rattle.ipx_ethernet_ports.specs.OnEthernet.{HandsOn, HandsPacket, HearsAnswerOf, HearsAtEthernet, SendsPacket, by_frames, ethernet_ports_view};

use crate::end_sockets::EndSockets;
use crate::reaching::send_to_ends;
use crate::sockets::EthernetSockets;
use crate::taking::take_packet;
use ipx_carrier::{DeviceFault, PacketSent, PortDriver, PortDriverFilters, saturating_increment};
use ipx_ethernet::{FRAME_MAX_SIZE, Switch};
use ipx_wire::Node;

/// The size of the buffer that a frame is received into: more than any that is forwarded.
const FRAME_BUFFER: usize = 1536;

/// Ethernet ports, each with a switch between its remotes. Frames of a remote are forwarded to
/// others, the core gets what is for it, and its packets are sent in frames. There are as many
/// ports as both the sockets and the switches are for.
///
/// A failure to send to one remote is a lost frame, and does not affect other ports. The
/// sockets count it, and also count failures to receive.
#[derive(Drop)]
pub struct EthernetPorts<D: EndSockets + Drop> {
    sockets: D,
    switches: Vec<Switch>,
    moment: u64,
    kept: u64,
}

impl<D: EndSockets + Drop> EthernetPorts<D> {
    /// Ports over these sockets, with their switches in order, at time 0.
    pub fn new(sockets: D, switches: Vec<Switch>) -> EthernetPorts<D>
        ensures sockets { result.sockets ≡ sockets }
        ensures switches { result.switches.items ≡ switches.items }
        ensures fresh { (result.moment ≡ 0) × (result.kept ≡ 0) }
    {
        EthernetPorts {
            sockets,
            switches,
            moment: 0,
            kept: 0,
        }
    }

    /// Sets the time, in ms, of what is received and sent from now on. Call it before each turn, or
    /// before each batch.
    pub fn set_time(&mut self, moment: u64)
        ensures { self.new ≡ record self.old { moment = moment } }
    {
        self.moment = moment;
    }

    /// The sockets, to inspect between two runs.
    pub fn sockets(&self) -> &D
        ensures { result.now ≡ self.now.sockets }
    {
        &self.sockets
    }

    /// The switches of the ports, in order: their counts, and the stations that they know.
    pub fn switches(&self) -> &[Switch]
        ensures { result.now ≡ self.now.switches.items }
    {
        &self.switches
    }

    /// Sends a packet of the core to a node at a port, in one frame.
    fn send_frame(&mut self, port: usize, node: Node, packet: &[u8]) -> PacketSent
        requires switch { port < length self.old.switches.items }
        requires there { port < length (D.ends_of self.old.sockets) }
        ensures sent { SendsPacket (slice_index (D.ends_of self.old.sockets) port) self.old.moment
            port node packet.now result
            (ethernet_ports_view self.old.switches.items self.old.kept
            (D.traffic self.old.sockets) (D.failed self.old.sockets))
            (ethernet_ports_view self.new.switches.items self.new.kept
            (D.traffic self.new.sockets) (D.failed self.new.sockets)) }
        ensures hands { HandsPacket D.sends (slice_index (D.ends_of self.old.sockets) port)
            self.old.moment self.old.switches.items
            (record { port = port; node = node; bytes = packet.now }) result
            self.old.sockets self.new.sockets }
        ensures rest { self.new.moment ≡ self.old.moment }
        ensures ends { D.ends_of self.new.sockets ≡ D.ends_of self.old.sockets }
        ensures filtered { D.filtered self.new.sockets ≡ D.filtered self.old.sockets }
        ensures marks { MarksStay (D.marked self.old.sockets) (D.marked self.new.sockets) }
    {
        let mut frame = [0; FRAME_MAX_SIZE];
        let switch = &mut self.switches[port];
        match switch.frame_into(node, packet, self.moment, &mut frame) {
            Ok((way, size)) => {
                send_to_ends(&mut self.sockets, port, way, &frame[..size]);
                PacketSent::Transmitted(1)
            }
            Err(_) => PacketSent::Unmapped,
        }
    }

    /// Forwards a frame that came from a remote of a port, and puts what is for the core into
    /// `room`.
    fn hear_frame(
        &mut self,
        port: usize,
        end: usize,
        bytes: &[u8],
        room: &mut [u8],
    ) -> Option<usize>
        requires switch { port < length self.old.switches.items }
        requires there { port < length (D.ends_of self.old.sockets) }
        ensures heard { HearsAtEthernet (slice_index (D.ends_of self.old.sockets) port) self.old.moment
            (length room.old) (frame_at port bytes.now end) [] room.new result
            (ethernet_ports_view self.old.switches.items self.old.kept
            (D.traffic self.old.sockets) (D.failed self.old.sockets))
            (ethernet_ports_view self.new.switches.items self.new.kept
            (D.traffic self.new.sockets) (D.failed self.new.sockets)) }
        ensures hands { HandsOn D.sends (slice_index (D.ends_of self.old.sockets) port)
            self.old.moment self.old.switches.items self.new.switches.items
            (Some (frame_at port bytes.now end)) self.old.sockets self.new.sockets }
        ensures within { IfSome result (λ n. n ≤ length room.old) }
        ensures untouched { result ≡ None → room.new ≡ room.old }
        ensures rest { self.new.moment ≡ self.old.moment }
        ensures grows { self.old.kept ≤ self.new.kept }
        ensures ends { D.ends_of self.new.sockets ≡ D.ends_of self.old.sockets }
        ensures filtered { D.filtered self.new.sockets ≡ D.filtered self.old.sockets }
        ensures marks { MarksStay (D.marked self.old.sockets) (D.marked self.new.sockets) }
    {
        let switch = &mut self.switches[port];
        let (way, count) = take_packet(switch, end, bytes, self.moment, room);
        send_to_ends(&mut self.sockets, port, way, bytes);
        if count.is_none() {
            saturating_increment(&mut self.kept);
        }
        count
    }
}

impl EthernetPorts<EthernetSockets> {
    /// Marks a port: something came to its socket, as for `EthernetSockets::set_ready`.
    pub fn set_ready(&mut self, port: usize)
        ensures { self.new ≡ record self.old {
          sockets = record self.old.sockets {
            marks = slice_set self.old.sockets.marks port true;
          };
        } }
    {
        self.sockets.set_ready(port);
    }
}

impl<D: EndSockets + Drop> PortDriver for EthernetPorts<D> {
    ghost use Rattle.std.specs.Prelude.{List, ℕ};
    ghost use Rattle.ipx_ethernet_ports.specs.OnEthernet.{SentFrameCopy};

    ghost Copy = { SentFrameCopy };

    // How many remotes each port has.
    ghost Kept = { List ℕ };

    ghost kept = { λ w. D.ends_of w.sockets };

    ghost port_count = { λ w. min (length w.switches.items) (length (D.ends_of w.sockets)) };

    // These never fail: the sockets count what can't be sent or received.
    ghost failed = { λ w. 0 };

    ghost transmissions = { λ w. by_frames (map (λ h. h.port) w.switches.items) };

    // The sockets record what is sent and received.
    ghost traffic = { λ w. None };

    // They can't tell what waits for the core, because what is filtered or for another station is
    // not handed to it.
    ghost waiting = { λ w. None };

    // Any remote may send.
    ghost access = { λ w. [] };

    ghost filtered = { λ w. w.kept + D.filtered w.sockets };

    ghost marked = { λ w. D.marked w.sockets };

    ghost receives = { ReceivesByEthernet D.ends_of D.traffic D.failed D.asks D.sends };

    ghost sends = { SendsByEthernet D.ends_of D.traffic D.failed D.sends };

    ghost fails_to_receive = { λ w port size v. ⊥ };

    ghost fails_to_send = { λ w packet v. ⊥ };

    fn ports(&self) -> usize {
        self.switches.len().min(self.sockets.ports())
    }

    fn failures(&self) -> u64 {
        0
    }

    fn send(&mut self, port: usize, node: Node, packet: &[u8]) -> Result<PacketSent, DeviceFault>
        requires there { port < min (length self.old.switches.items)
            (length (D.ends_of self.old.sockets)) }
        // The frame of the packet is sent to the remotes of its node, or the packet does not fit a
        // frame.
        ensures sent { IfOk result (λ sent. SendsPacket
            (slice_index (D.ends_of self.old.sockets) port) self.old.moment port node packet.now sent
            (ethernet_ports_view self.old.switches.items self.old.kept
            (D.traffic self.old.sockets) (D.failed self.old.sockets))
            (ethernet_ports_view self.new.switches.items self.new.kept
            (D.traffic self.new.sockets) (D.failed self.new.sockets))) }
        ensures sends { OnOk result (SendsByEthernet D.ends_of D.traffic D.failed D.sends self.old
            (record { port = port; node = node; bytes = packet.now }) self.new) }
        ensures goes_on { OnErr result ⊥ }
        ensures count { IfOk result (λ sent. count_in sent
            ≡ copies_count (by_frames (map (λ h. h.port) self.old.switches.items))
            (record { port = port; node = node; bytes = packet.now })) }
        ensures moment { self.new.moment ≡ self.old.moment }
        ensures ports { length self.new.switches.items ≡ length self.old.switches.items }
        ensures transmissions { map (λ h. h.port) self.new.switches.items
            ≡ map (λ h. h.port) self.old.switches.items }
        ensures kept { self.new.kept ≡ self.old.kept }
        ensures filtered { D.filtered self.new.sockets ≡ D.filtered self.old.sockets }
        ensures marks { MarksStay (D.marked self.old.sockets) (D.marked self.new.sockets) }
        ensures ends { D.ends_of self.new.sockets ≡ D.ends_of self.old.sockets }
    {
        Ok(self.send_frame(port, node, packet))
    }

    fn receive(&mut self, port: usize, room: &mut [u8]) -> Result<Option<usize>, DeviceFault>
        requires there { port < min (length self.old.switches.items)
            (length (D.ends_of self.old.sockets)) }
        // The sockets were asked at the port. What they answered is heard, and handed on to them.
        ensures receives { IfOk result (λ up. ReceivesByEthernet D.ends_of D.traffic D.failed D.asks
            D.sends self.old port (length room.old) (received_in room.new up) self.new) }
        // A frame came from a remote and was forwarded, or none came, or the sockets failed.
        ensures received { IfOk result (λ up. (came : Option EndFrame)
            × IfSome came (λ frame. frame.port ≡ port)
            × HearsAnswerOf (slice_index (D.ends_of self.old.sockets) port) self.old.moment
            (length room.old) came room.new up
            (ethernet_ports_view self.old.switches.items self.old.kept
            (D.traffic self.old.sockets) (D.failed self.old.sockets))
            (ethernet_ports_view self.new.switches.items self.new.kept
            (D.traffic self.new.sockets) (D.failed self.new.sockets))) }
        ensures within { IfOk result (λ up. IfSome up (λ n. n ≤ length room.old)) }
        // The buffer is as it was if nothing is for the core.
        ensures untouched { IfOk result (λ up. up ≡ None → room.new ≡ room.old) }
        ensures goes_on { OnErr result ⊥ }
        ensures moment { self.new.moment ≡ self.old.moment }
        ensures ports { length self.new.switches.items ≡ length self.old.switches.items }
        ensures transmissions { map (λ h. h.port) self.new.switches.items
            ≡ map (λ h. h.port) self.old.switches.items }
        ensures kept { self.old.kept ≤ self.new.kept }
        ensures filtered { D.filtered self.old.sockets ≤ D.filtered self.new.sockets }
        // If the sockets fail or nothing is for the core, the port may lose its mark only as they say.
        ensures marks { IfOk result (λ up. AsksPortWithMark port (is_some up)
            (D.marked self.old.sockets) (D.marked self.new.sockets)) }
        ensures ends { D.ends_of self.new.sockets ≡ D.ends_of self.old.sockets }
    {
        let mut frame = [0; FRAME_BUFFER];
        let Ok(came) = self.sockets.receive(port, &mut frame) else {
            return Ok(None);
        };
        let Some(came) = came else {
            return Ok(None);
        };
        Ok(self.hear_frame(port, came.end, &frame[..came.size], room))
    }
}

impl<D: EndSockets + Drop> PortDriverFilters for EthernetPorts<D> {
    /// How much of what came the core did not get: frames that the switches kept from it, including
    /// those that were forwarded, and what the sockets did not hand over.
    fn filtered(&self) -> u128
        ensures total { result ≡ self.now.kept + D.filtered self.now.sockets }
        ensures few { result < 2 ^ 65 }
    {
        u128::from(self.kept) + u128::from(self.sockets.filtered())
    }
}
