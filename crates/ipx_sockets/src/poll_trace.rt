//! What a poller was asked, and what came of it, which only proofs read.

ghost use Rattle.std.specs.Prelude.{◌≡◌, List, None, Some, [], ◌∷◌, ◌++◌};
ghost use Rattle.std.specs.Borrow.{ftrue};
ghost use Rattle.ipx_sockets.specs.PollEvents.{PollEvent, Waited, Watched, numbers_of};

use mio::Events;
use std::marker::Model;
use std::os::fd::RawFd;

/// What a poller was asked, in order: which descriptors to watch, and how long to wait; and what
/// each wait reported. Only proofs read it. It takes no memory, and its functions do nothing when
/// the program runs.
#[derive(Drop)]
pub struct PollTrace {
    pub ghost items: { List PollEvent },
}

impl Model for PollTrace {
    ghost also_owns = { λ _. ftrue };
}

impl PollTrace {
    /// Nothing was asked.
    pub(crate) fn new() -> PollTrace
        ensures { result.items ≡ [] }
    {
        PollTrace {}
    }

    /// Adds that it is to watch a descriptor.
    pub(crate) fn note_watched(&mut self, _descriptor: &RawFd)
        ensures { self.new.items ≡ self.old.items ++ Watched _descriptor.now ∷ [] }
    {}

    /// Adds that it was to wait, at most so many milliseconds, and that these events came.
    pub(crate) fn note_waited(&mut self, _most: &u64, _events: &Events)
        ensures { self.new.items
            ≡ self.old.items ++ Waited _most.now (Some (numbers_of _events.now)) ∷ [] }
    {}

    /// Adds that it was to wait, at most so many milliseconds, and that the system failed to.
    pub(crate) fn note_failed(&mut self, _most: &u64)
        ensures { self.new.items ≡ self.old.items ++ Waited _most.now None ∷ [] }
    {}
}
