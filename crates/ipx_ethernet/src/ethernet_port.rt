//! A port on an Ethernet segment: which of the frames there hold a packet for its core.

ghost use Rattle.std.specs.Prelude.{◌≡◌, ◌≤◌, ℕ, List, IfOk, IfErr, OnErr, OnOk, IsOkAnd, Some, None, [], true, false, length, take, drop};
ghost use Rattle.ipx_wire.specs.Ipx.{IsIpx, IsPartOf, PacketView, number};
ghost use Rattle.ipx_ethernet.specs.Frame.{frame_of, own_bytes, packet_place};
ghost use Rattle.ipx_ethernet.specs.SentFrame.{IsSentFrame, sending_fault, sent_size};
ghost use Rattle.ipx_ethernet.specs.PortFrames.{IsForCore, KeepsFrame, is_for_segment, destination_network};

use crate::encapsulation::Encapsulation;
use crate::fault::FrameFault;
use crate::reading::decode_frame;
use crate::writing::encode_frame_into;
use byteorder::{BigEndian, ByteOrder};
use ipx_wire::{Network, Node};
use thiserror::Error;

/// A port on an Ethernet segment: its address there, and the segment's network and encapsulation.
#[derive(Clone, Copy, Debug, PartialEq, Eq)]
pub struct EthernetPort {
    /// Its node, which is its Ethernet address.
    pub own: Node,
    pub network: Network,
    pub encapsulation: Encapsulation,
}

/// Why a frame is kept from the core.
#[derive(Clone, Copy, Debug, PartialEq, Eq, Error)]
pub enum FrameDrop {
    /// It is not a frame that the port receives.
    #[error("{0}")]
    Unheard(FrameFault),
    /// It holds a packet in another encapsulation, which is the first value. The second is the
    /// port's.
    #[error("frames of another encapsulation: {0}, this port has {1}")]
    OtherEncapsulation(Encapsulation, Encapsulation),
    /// It is for all stations, and its packet is for another network, which is the value. Each
    /// router on the segment would forward it.
    #[error("a frame to all stations, with a packet for network {0}")]
    OtherNetwork(Network),
}

impl From<FrameFault> for FrameDrop {
    ghost use Rattle.ipx_ethernet.specs.declared.ethernet_port.FrameDrop.TheVariants.{Unheard};

    ghost from_gives = { λ f e. e ≡ Unheard f };

    fn from(fault: FrameFault) -> FrameDrop {
        FrameDrop::Unheard(fault)
    }
}

/// The network that a packet is for.
fn destination_of(packet: &[u8]) -> Network
    requires { (p : PacketView) × IsIpx p packet.now [] }
    ensures { result.0 ≡ destination_network packet.now }
{
    Network(BigEndian::read_u32(&packet[6..]))
}

impl EthernetPort {
    /// Whether a packet that came to a node is accepted, with the network that it is for as the
    /// error.
    fn admits(&self, to: Node, packet: &[u8]) -> Result<(), Network>
        requires { (p : PacketView) × IsIpx p packet.now [] }
        ensures admitted { OnOk result (is_for_segment self.now to packet.now ≡ true) }
        ensures other { IfErr result (λ n. (is_for_segment self.now to packet.now ≡ false)
            × (n.0 ≡ destination_network packet.now)) }
    {
        let network = destination_of(packet);
        if to == Node::BROADCAST && network != Network(0) && network != self.network {
            return Err(network);
        }
        Ok(())
    }

    /// The packet for the core that the bytes hold, as one frame of the segment. It is lent from
    /// the frame, cut to its length, and no memory is allocated. The error says why the frame is
    /// kept from the core.
    pub fn hear<'a>(&self, bytes: &'a [u8]) -> Result<&'a [u8], FrameDrop>
        // Exactly the packets for the core are handed to it.
        ensures heard { IfOk result (λ r. IsForCore self.now bytes.now r.now) }
        ensures lent { IfOk result (λ r.
            IsPartOf bytes.entry (packet_place self.now.encapsulation) r) }
        ensures only { (packet : List ℕ) → IsForCore self.now bytes.now packet
            → IsOkAnd result (λ r. r.now ≡ packet) }
        // Why another frame is kept from it.
        ensures kept { IfErr result (λ k. KeepsFrame self.now bytes.now k) }
    {
        let (frame, encapsulation) = decode_frame(bytes, self.own)?;
        if encapsulation != self.encapsulation {
            return Err(FrameDrop::OtherEncapsulation(encapsulation, self.encapsulation));
        }
        if let Err(network) = self.admits(frame.to, frame.packet) {
            return Err(FrameDrop::OtherNetwork(network));
        }
        Ok(frame.packet)
    }

    /// Writes the frame of a packet for a node, as `encode_frame_into` does.
    pub fn frame_into(&self, node: Node, packet: &[u8], out: &mut [u8]) -> Result<usize, FrameFault>
        ensures count { IfOk result (λ n.
            n ≡ sent_size self.now.encapsulation (number 2 2 packet.now)) }
        ensures written { IfOk result (λ n. IsSentFrame self.now.encapsulation
            (frame_of node self.now.own (own_bytes packet.now)) (take n out.new)) }
        ensures rest { IfOk result (λ n. drop n out.new ≡ drop n out.old) }
        ensures unchanged { OnErr result (out.new ≡ out.old) }
        ensures fault { IfErr result (λ f. sending_fault self.now.encapsulation packet.now
            (length out.old) ≡ Some f) }
        ensures whole { IfOk result (λ _. sending_fault self.now.encapsulation packet.now
            (length out.old) ≡ None) }
    {
        encode_frame_into(self.encapsulation, node, self.own, packet, out)
    }
}
