//! An SPX header, and the data that one SPX packet carries.

use crate::size::SPX_MAX_DATA_SIZE;
use arrayvec::ArrayVec;

/// Connection control: a system packet, which belongs to the connection itself.
pub(crate) const SYSTEM: u8 = 0x80;

/// Connection control: an acknowledgement is required.
pub(crate) const WANTS_ACK: u8 = 0x40;

/// Connection control: the end of a message.
pub(crate) const LAST: u8 = 0x10;

/// The header of an SPX packet (Novell SPX).
///
/// `seq`, `ack` and `limit` count the units of one direction and wrap from FFFF to 0000.
#[derive(Clone, Copy, Debug, PartialEq, Eq)]
pub struct SpxHeader {
    /// Connection control bit 80: a system packet, which has no sequence number of its own.
    pub system: bool,
    /// Connection control bit 40: it asks the receiver for an acknowledgement.
    pub wants_ack: bool,
    /// Connection control bit 10: the end of a message.
    pub last: bool,
    /// Datastream type: FE ends the connection, FF confirms its end.
    pub stream: u8,
    /// Source connection id: the sender's number for the connection.
    pub from_id: u16,
    /// Destination connection id, FFFF while the sender does not know it.
    pub to_id: u16,
    /// Sequence number: that of the unit, or of the next unit if the packet carries none.
    pub seq: u16,
    /// Acknowledge number: the next unit that the sender of this packet expects.
    pub ack: u16,
    /// Allocation number: the last unit that the receiver of this packet may send.
    pub limit: u16,
}

/// The data of one SPX packet, at most 534 bytes, as an owned copy.
pub type Fragment = ArrayVec<u8, SPX_MAX_DATA_SIZE>;
