//! Sizes of headers, bodies and packets, in bytes.

/// The size of an IPX header.
pub const IPX_HEADER_SIZE: usize = 30;

/// The largest IPX packet, header and body.
pub const IPX_MAX_PACKET_SIZE: usize = 1500;

/// The largest body of an IPX packet.
pub const IPX_MAX_BODY_SIZE: usize = 1470;

/// The size of an SPX header.
pub const SPX_HEADER_SIZE: usize = 12;

/// The most data in an SPX packet.
pub const SPX_MAX_DATA_SIZE: usize = 534;

/// The largest SPX header and data, which are the body of an IPX packet of type 5.
pub const SPX_MAX_SIZE: usize = 546;

/// The largest SPX packet with its IPX header: a buffer of this size fits every SPX packet.
pub const SPX_MAX_PACKET_SIZE: usize = 576;
