//! What a link gave, as a pacer counts it.

ghost use Rattle.std.specs.Prelude.{◌≡◌};
ghost use Rattle.spx_congestion.specs.Giving.{gave_of};

use spx_link::Sent;

/// The datastream type of the end of a connection.
const END_STREAM: u8 = 0xfe;

/// What kind of packet a link gave.
#[derive(Clone, Copy, Debug, PartialEq, Eq)]
pub enum SentKind {
    /// It requests a connection.
    Request,
    /// A unit for the first time.
    Unit,
    /// The end of the connection for the first time. No unit comes after it.
    End,
    /// A unit, or the end, that was sent before.
    Again,
    /// Anything else: it carries no unit of this side.
    Other,
}

impl SentKind {
    /// The kind of a packet, by what it was sent for and by its datastream type.
    pub fn of(what: Sent, stream: u8) -> SentKind
        ensures { result ≡ gave_of what stream }
    {
        match what {
            Sent::Request => SentKind::Request,
            Sent::Unit if stream == END_STREAM => SentKind::End,
            Sent::Unit => SentKind::Unit,
            Sent::Again => SentKind::Again,
            Sent::Reply | Sent::Confirm | Sent::Ack | Sent::Probe => SentKind::Other,
        }
    }
}
