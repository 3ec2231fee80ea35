//! What a take from a connection gives.

use crate::message::Message;

/// What a take gave.
#[derive(Drop)]
pub enum Taken {
    /// The link held no unit.
    Nothing,
    /// A unit that does not complete a message.
    Part,
    /// A message, completed by the unit.
    Whole(Message),
    /// The end of the connection: the peer sends nothing more.
    PeerEnd,
}
