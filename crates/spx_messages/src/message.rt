//! What a user of a connection sends and receives.

/// The most bytes that a message may have.
pub const MAX_BYTES: usize = 65_535;

/// A message: bytes with a datastream type under FE.
///
/// A message may have no bytes.
#[derive(Drop)]
pub struct Message {
    pub stream: u8,
    pub body: Vec<u8>,
}
