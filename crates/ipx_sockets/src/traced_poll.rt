//! The system's poll, with a trace.

ghost use Rattle.std.specs.Prelude.{◌≡◌, ◌<◌, ◌^◌, ◌++◌, ◌∷◌, [], IfOk, None, OnErr, OnOk, Some};
ghost use Rattle.ipx_carrier.specs.Counting.{raised};
ghost use Rattle.ipx_sockets.specs.PollEvents.{Waited, Watched, numbers_of};

use crate::poll_trace::PollTrace;
use mio::unix::SourceFd;
use mio::{Events, Interest, Poll, Token};
use std::io;
use std::net::Net;
use std::os::fd::RawFd;
use std::time::Duration;

/// The system's poll, which numbers the descriptors that it watches.
///
/// Only here a poller asks the system to watch descriptors, and to wait. Each call that asks it
/// adds that, and what came of it, to a trace, which contracts read.
#[derive(Drop)]
pub(crate) struct TracedPoll {
    poll: Poll,
    /// The number of descriptors that it was asked to watch.
    watched: usize,
    trace: PollTrace,
    ghost small: { watched < 2 ^ 64 },
}

impl TracedPoll {
    /// A poll that watches nothing. The error is the system's.
    pub(crate) fn new<R: Net>(rt: &R) -> io::Result<TracedPoll>
        ensures watched { IfOk result (λ p. p.watched ≡ 0) }
        ensures fresh { IfOk result (λ p. p.trace.items ≡ []) }
    {
        let poll = Poll::new(rt)?;
        Ok(TracedPoll {
            poll,
            watched: 0,
            trace: PollTrace::new(),
        })
    }

    /// Watches this descriptor too. Its events have its index among those that it was asked to
    /// watch, starting at 0. The error is the system's.
    pub(crate) fn watch(&mut self, descriptor: RawFd) -> io::Result<()>
        ensures watched { self.new.watched ≡ raised self.old.watched }
        ensures trace { self.new.trace.items ≡ self.old.trace.items ++ Watched descriptor ∷ [] }
    {
        let token = Token(self.watched);
        self.watched = self.watched.saturating_add(1);
        self.trace.note_watched(&descriptor);
        self.poll
            .registry()
            .register(&mut SourceFd(&descriptor), token, Interest::READABLE)
    }

    /// Waits until a descriptor is readable, a signal comes, or `most` milliseconds have passed. The
    /// events are then those that the system reported. The error is the system's.
    pub(crate) fn wait(&mut self, events: &mut Events, most: u64) -> io::Result<()>
        ensures watched { self.new.watched ≡ self.old.watched }
        ensures came { OnOk result (self.new.trace.items
            ≡ self.old.trace.items ++ Waited most (Some (numbers_of events.new)) ∷ []) }
        ensures failed { OnErr result (self.new.trace.items
            ≡ self.old.trace.items ++ Waited most None ∷ []) }
        ensures nothing { OnErr result (numbers_of events.new ≡ []) }
    {
        let timeout = Duration::from_millis(most);
        match self.poll.poll(events, Some(timeout)) {
            Ok(()) => {
                self.trace.note_waited(&most, events);
                Ok(())
            }
            Err(error) => {
                self.trace.note_failed(&most);
                Err(error)
            }
        }
    }
}
