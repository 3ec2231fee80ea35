//! Why bytes are not a frame that a station receives, or why none is written.

ghost use Rattle.std.specs.Prelude.{◌≡◌};
ghost use Rattle.ipx_ethernet.specs.FrameFault.{frame_fault_number};
ghost use Rattle.ipx_ethernet.specs.declared.fault.FrameFault.TheVariants.{NoPacket as no_packet};

use ipx_wire::{IpxFault, Node};
use thiserror::Error;

/// The first condition that keeps a frame from being received, or from being written. Lengths are
/// in bytes.
#[derive(Clone, Copy, Debug, PartialEq, Eq, Error)]
pub enum FrameFault {
    /// Fewer than 14 bytes. The value is how many.
    #[error("{0} bytes, a frame has at least 14")]
    FrameShort(usize),
    /// More than 1,514 bytes. The value is how many.
    #[error("{0} bytes, a frame has at most 1514")]
    FrameLong(usize),
    /// The source is a group address, which can't send. The value is the source.
    #[error("source {0} is a group")]
    SourceGroup(Node),
    /// The source is zero.
    #[error("source is zero")]
    SourceZero,
    /// The source is the station itself: its own frame came back.
    #[error("source is this station")]
    OwnSource,
    /// It is for another station, or for a group. The value is its destination.
    #[error("it is for {0}")]
    OtherStation(Node),
    /// It has a VLAN tag. The value is its type.
    #[error("type {0:04x} is a tag, none is accepted")]
    Tagged(u16),
    /// It holds another protocol. The value is its type.
    #[error("type {0:04x}, IPX has 8137")]
    OtherType(u16),
    /// The frame is shorter than its length field says. The values are that field, and how many
    /// bytes there are.
    #[error("length says {0} bytes, frame has {1} with the 14 before them")]
    FrameTruncated(u16, usize),
    /// What follows the length does not begin any of the encapsulations.
    #[error("neither ffff nor e0e003 nor aaaa030000008137 follows the length")]
    OtherLlc,
    /// What it holds is not an IPX packet.
    #[error("{0}")]
    NoPacket(IpxFault),
    /// The packet is longer than the encapsulation takes. The values are its length, and the most
    /// allowed.
    #[error("a packet of {0} bytes, the encapsulation takes at most {1}")]
    PacketLong(usize, usize),
    /// The frame does not fit the buffer. The values are the lengths of frame and buffer.
    #[error("a frame of {0} bytes, there is room for {1}")]
    NoRoom(usize, usize),
}

impl FrameFault {
    /// The fault's number, 40 to 52, which programs print and compare.
    pub fn number(&self) -> u8
        ensures { result ≡ frame_fault_number self.now }
    {
        match self {
            FrameFault::FrameShort(_) => 40,
            FrameFault::FrameLong(_) => 41,
            FrameFault::SourceGroup(_) => 42,
            FrameFault::SourceZero => 43,
            FrameFault::OwnSource => 44,
            FrameFault::OtherStation(_) => 45,
            FrameFault::Tagged(_) => 46,
            FrameFault::OtherType(_) => 47,
            FrameFault::FrameTruncated(_, _) => 48,
            FrameFault::OtherLlc => 49,
            FrameFault::NoPacket(_) => 50,
            FrameFault::PacketLong(_, _) => 51,
            FrameFault::NoRoom(_, _) => 52,
        }
    }
}

impl From<IpxFault> for FrameFault {
    ghost from_gives = { λ f e. e ≡ no_packet f };

    fn from(fault: IpxFault) -> FrameFault {
        FrameFault::NoPacket(fault)
    }
}
