//! The answer of a network to an event.

use ipx_router::Reason;
use spx_messages::{Arrived, EndFault, Taken};

/// What an event did.
#[derive(Drop)]
pub enum Answer {
    /// A new end has this number.
    End(usize),
    /// It was done, and there is nothing to report.
    Done,
    /// What was taken from an end.
    Taken(Taken),
    /// Parcels of these numbers were made.
    Parcels(Vec<usize>),
    /// The host read a datagram in this way. The end is the one that it was for, if there is one.
    Arrived(Option<usize>, Arrived),
    /// A router learned so many routes or services.
    Heard(u16),
    /// A router dropped the packet.
    Dropped(Reason),
    /// A call on a host or an end was refused.
    Refused(EndFault),
}
