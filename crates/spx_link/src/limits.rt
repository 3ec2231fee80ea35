//! The numbers of a link: those of Novell SPX, and the limits of this project.

/// The most units that may be outstanding, and the most buffers that an end may have.
pub const MAX_UNITS: u16 = 8192;

/// The most links that a host may hold.
pub const MAX_LINKS: usize = 16;

/// The most times that a unit, a request or a probe is sent.
pub const MAX_SENDS: u8 = 10;

/// The most probes of a manual link: at 500 ms each, half a minute.
pub const MAX_MANUAL_PROBES: u8 = 60;

/// The number of milliseconds before a retransmission.
pub const RESEND_AFTER: u64 = 500;

/// How far ahead of the next unit an allocation may be.
pub const MAX_WINDOW: u16 = 16383;

/// The datastream type of the end of a connection.
pub const END_STREAM: u8 = 0xfe;

/// The datastream type of its confirmation.
pub const CONFIRM_STREAM: u8 = 0xff;

/// The connection id that means none.
pub const NO_ID: u16 = 0xffff;
