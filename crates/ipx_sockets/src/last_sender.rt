//! A device that knows the sender of what it received.

ghost use Rattle.std.specs.Prelude.{◌≡◌, ℕ, List, Option};

use ipx_carrier::Datagrams;

/// A device that knows the senders of its datagrams.
pub trait Senders: Datagrams {
    /// The IP address from which the last received datagram came.
    ghost last_sender: { Self → Option (List ℕ) };

    /// The IP address from which the last received datagram came, if it has one.
    fn sender(&self) -> Option<[u8; 4]>
        ensures { result ≡ last_sender self.now };
}
