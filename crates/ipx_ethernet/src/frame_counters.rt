//! What a port on an Ethernet segment counts of the frames that arrive.

ghost use Rattle.std.specs.Prelude.{◌≡◌};
ghost use Rattle.ipx_ethernet.specs.PortFrames.{encapsulation_counted, frame_counted, frames_raised, no_frames, unheard_counted};

use crate::encapsulation::Encapsulation;
use crate::ethernet_port::FrameDrop;
use crate::fault::FrameFault;

/// The frames that arrived, by what became of them. Each count stays at the greatest u64.
#[derive(Clone, Copy, Debug, PartialEq, Eq)]
pub struct FrameCounters {
    /// Their packet was handed to the core.
    pub handed_on: u64,
    /// Too short, too long or truncated, or with a source that is zero or a group.
    pub broken: u64,
    /// The port's own frames, which came back.
    pub own: u64,
    /// For another station, or for a group.
    pub not_ours: u64,
    /// With a VLAN tag.
    pub tagged: u64,
    /// Of another protocol, by its type.
    pub other_type: u64,
    /// Of another protocol, by what follows its length.
    pub other_llc: u64,
    /// What they hold is not an IPX packet.
    pub no_packet: u64,
    /// An IPX packet in 802.3, and the port has another encapsulation.
    pub in_raw: u64,
    /// An IPX packet in 802.2, and the port has another encapsulation.
    pub in_llc: u64,
    /// An IPX packet in SNAP, and the port has another encapsulation.
    pub in_snap: u64,
    /// An IPX packet in Ethernet II, and the port has another encapsulation.
    pub in_ethernet_ii: u64,
    /// To all stations, with a packet for another network.
    pub other_network: u64,
}

/// Adds one to a count, which stays at the greatest u64.
fn saturating_increment(count: &mut u64)
    ensures { count.new ≡ frames_raised count.old }
{
    *count = count.saturating_add(1);
}

impl FrameCounters {
    /// Counts of no frame.
    pub fn new() -> FrameCounters
        ensures { result ≡ no_frames }
    {
        FrameCounters {
            handed_on: 0,
            broken: 0,
            own: 0,
            not_ours: 0,
            tagged: 0,
            other_type: 0,
            other_llc: 0,
            no_packet: 0,
            in_raw: 0,
            in_llc: 0,
            in_snap: 0,
            in_ethernet_ii: 0,
            other_network: 0,
        }
    }

    fn count_unheard(&mut self, fault: FrameFault)
        ensures { self.new ≡ unheard_counted fault self.old }
    {
        match fault {
            FrameFault::OwnSource => saturating_increment(&mut self.own),
            FrameFault::OtherStation(_) => saturating_increment(&mut self.not_ours),
            FrameFault::Tagged(_) => saturating_increment(&mut self.tagged),
            FrameFault::OtherType(_) => saturating_increment(&mut self.other_type),
            FrameFault::OtherLlc => saturating_increment(&mut self.other_llc),
            FrameFault::NoPacket(_) => saturating_increment(&mut self.no_packet),
            FrameFault::FrameShort(_)
            | FrameFault::FrameLong(_)
            | FrameFault::SourceGroup(_)
            | FrameFault::SourceZero
            | FrameFault::FrameTruncated(_, _)
            | FrameFault::PacketLong(_, _)
            | FrameFault::NoRoom(_, _) => saturating_increment(&mut self.broken),
        }
    }

    fn count_encapsulation(&mut self, came: Encapsulation)
        ensures { self.new ≡ encapsulation_counted came self.old }
    {
        match came {
            Encapsulation::Raw => saturating_increment(&mut self.in_raw),
            Encapsulation::Llc => saturating_increment(&mut self.in_llc),
            Encapsulation::Snap => saturating_increment(&mut self.in_snap),
            Encapsulation::EthernetII => saturating_increment(&mut self.in_ethernet_ii),
        }
    }

    /// Counts a frame that was kept from the core: its count rises, and nothing else changes.
    pub fn count_drop(&mut self, kept: FrameDrop)
        ensures { self.new ≡ frame_counted kept self.old }
    {
        match kept {
            FrameDrop::Unheard(fault) => self.count_unheard(fault),
            FrameDrop::OtherEncapsulation(came, _) => self.count_encapsulation(came),
            FrameDrop::OtherNetwork(_) => saturating_increment(&mut self.other_network),
        }
    }

    /// Counts a frame whose packet was handed to the core.
    pub fn count_handed_on(&mut self)
        ensures { self.new ≡ record self.old { handed_on = frames_raised self.old.handed_on } }
    {
        saturating_increment(&mut self.handed_on);
    }
}
