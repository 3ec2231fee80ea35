//! What sockets were asked, which only proofs read.

ghost use Rattle.std.specs.Prelude.{◌≡◌, List, [], ◌∷◌, ◌++◌};
ghost use Rattle.std.specs.Borrow.{ftrue};
ghost use Rattle.ipx_carrier.specs.SocketEvents.{SocketEvent, Received, FoundNothing, ReceiveFailed, Sent, SendRefused};

use std::marker::Model;
use std::net::SocketAddr;

/// What a socket was asked, in order, and what came of it. Only proofs read it. It takes no memory,
/// and its functions do nothing when the program runs.
#[derive(Drop)]
pub struct Trace {
    pub ghost items: { List SocketEvent },
}

impl Model for Trace {
    ghost also_owns = { λ _. ftrue };
}

impl Trace {
    /// Nothing was asked.
    pub(crate) fn new() -> Trace
        ensures { result.items ≡ [] }
    {
        Trace {}
    }

    /// Adds that a datagram came, as the socket was asked into a buffer of this size.
    pub(crate) fn note_received(&mut self, _from: &SocketAddr, _size: &usize, _bytes: &[u8])
        ensures { self.new.items
            ≡ self.old.items ++ Received _from.now _size.now _bytes.now ∷ [] }
    {}

    /// Adds that nothing waited, as the socket was asked into a buffer of this size.
    pub(crate) fn note_nothing(&mut self, _size: &usize)
        ensures { self.new.items ≡ self.old.items ++ FoundNothing _size.now ∷ [] }
    {}

    /// Adds that the system failed to receive into a buffer of this size.
    pub(crate) fn note_failed(&mut self, _size: &usize)
        ensures { self.new.items ≡ self.old.items ++ ReceiveFailed _size.now ∷ [] }
    {}

    /// Adds that a datagram was sent.
    pub(crate) fn note_sent(&mut self, _to: &SocketAddr, _bytes: &[u8])
        ensures { self.new.items ≡ self.old.items ++ Sent _to.now _bytes.now ∷ [] }
    {}

    /// Adds that the system refused to send a datagram.
    pub(crate) fn note_refused(&mut self, _to: &SocketAddr, _bytes: &[u8])
        ensures { self.new.items ≡ self.old.items ++ SendRefused _to.now _bytes.now ∷ [] }
    {}
}
