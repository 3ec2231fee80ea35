//! An Ethernet frame that holds an IPX packet.

use ipx_wire::Node;

/// The shortest frame that is sent, in bytes, without its check sequence.
pub const FRAME_MIN_SIZE: usize = 60;

/// The longest frame, in bytes, without its check sequence.
pub const FRAME_MAX_SIZE: usize = 1514;

/// The size of the addresses and of the length or type, in bytes.
pub(crate) const HEADER_SIZE: usize = 14;

/// The greatest length. A greater number in its field is a type.
pub(crate) const MAX_LENGTH: u16 = 1500;

/// The type of a frame that holds an IPX packet.
pub(crate) const IPX_TYPE: u16 = 0x8137;

/// The contents of a frame. The packet is lent from the frame that was read.
#[derive(Clone, Copy)]
pub struct Frame<'a> {
    /// The destination station, or `Node::BROADCAST`.
    pub to: Node,
    /// The station that sent it. If the packet passed a router, this is the router.
    pub from: Node,
    /// The IPX packet, cut to its length.
    pub packet: &'a [u8],
}
