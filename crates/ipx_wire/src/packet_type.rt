//! Packet types (Novell IPX): the values of `kind` in a header. Routers recognize RIP and SAP by
//! their sockets, not by these.

/// Unknown type.
pub const UNKNOWN: u8 = 0;

/// Routing Information Protocol.
pub const RIP: u8 = 1;

/// Packet Exchange Protocol.
pub const PACKET_EXCHANGE: u8 = 4;

/// Sequenced Packet Exchange: the body is an SPX packet.
pub const SPX: u8 = 5;

/// NetWare Core Protocol.
pub const NCP: u8 = 17;

/// NetBIOS propagation: a broadcast to every network, which routers of other vendors forward.
pub const NETBIOS_PROPAGATION: u8 = 20;
