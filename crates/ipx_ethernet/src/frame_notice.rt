//! What one frame shows of a mistake on the segment.

ghost use Rattle.std.specs.Prelude.{◌≡◌, []};
ghost use Rattle.ipx_wire.specs.Ipx.{IsIpx, PacketView, number};
ghost use Rattle.ipx_ethernet.specs.Notices.{is_claim, is_of_other_network, is_of_router, notice_in};

use crate::ethernet_port::EthernetPort;
use crate::fault::FrameFault;
use crate::notices::{Claim, FrameNotice, Sender};
use crate::reading::decode_frame;
use crate::stations::station_at;
use byteorder::{BigEndian, ByteOrder};
use ipx_wire::{Network, Node, Socket};

/// The network that a packet comes from.
fn source_network(packet: &[u8]) -> Network
    requires { (p : PacketView) × IsIpx p packet.now [] }
    ensures { result.0 ≡ number 4 18 packet.now }
{
    Network(BigEndian::read_u32(&packet[18..]))
}

/// Whether a packet is RIP or SAP of the router that sent its frame.
fn is_of_router(from: Node, packet: &[u8]) -> bool
    requires { (p : PacketView) × IsIpx p packet.now [] }
    ensures { result ≡ is_of_router from packet.now }
{
    let socket = BigEndian::read_u16(&packet[28..]);
    (socket == Socket::RIP.0 || socket == Socket::SAP.0)
        && packet[4] == 0
        && station_at(packet, 22) == from
}

/// Whether a packet comes from another network than the port's, which is known.
fn is_of_other_network(port: EthernetPort, packet: &[u8]) -> bool
    requires { (p : PacketView) × IsIpx p packet.now [] }
    ensures { result ≡ is_of_other_network port packet.now }
{
    let network = source_network(packet);
    !(network == Network(0) || network == port.network)
}

/// Whether a router says by a frame that the segment has another network than the port's.
fn is_claim(port: EthernetPort, to: Node, from: Node, packet: &[u8]) -> bool
    requires { (p : PacketView) × IsIpx p packet.now [] }
    ensures { result ≡ is_claim port to from packet.now }
{
    to == Node::BROADCAST && is_of_router(from, packet) && is_of_other_network(port, packet)
}

/// What a frame from a remote shows, if anything.
pub fn notice_in(port: EthernetPort, bytes: &[u8], end: usize) -> Option<FrameNotice>
    ensures { result ≡ notice_in port bytes.now end }
{
    match decode_frame(bytes, port.own) {
        Ok((frame, encapsulation)) => {
            let router = Sender {
                node: frame.from,
                end,
            };
            if encapsulation != port.encapsulation {
                return Some(FrameNotice::OtherEncapsulation(router));
            }
            if !is_claim(port, frame.to, frame.from, frame.packet) {
                return None;
            }
            let network = source_network(frame.packet);
            Some(FrameNotice::OtherNetwork(Claim { router, network }))
        }
        Err(FrameFault::OwnSource) => Some(FrameNotice::OwnFrame(end)),
        Err(_) => None,
    }
}
