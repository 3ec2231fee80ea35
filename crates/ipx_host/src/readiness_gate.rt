//! Whether a read or a write would block.

use mio::unix::SourceFd;
use mio::{Events, Interest, Poll, Token};
use std::alloc::Global;
use std::net::Net;
use std::os::fd::{AsRawFd, RawFd};
use std::time::Duration;

/// The system's poll of a descriptor, and its events.
#[derive(Drop)]
struct Watch {
    poll: Poll,
    events: Events,
}

/// A descriptor, such as standard input, that is checked before each read or write: would the call
/// block?
///
/// A descriptor that the system can't poll, such as a file on a disk, is always open. So is a
/// descriptor whose poll failed, because the system refused it or it ran out of memory. A read or a
/// write may block then.
#[derive(Drop)]
pub struct Gate {
    fd: RawFd,
    interest: Interest,
    watch: Option<Watch>,
    open: bool,
}

/// Creates a poll of a descriptor.
fn watch_of<R: Net>(rt: &R, alloc: Global, fd: RawFd, interest: Interest) -> Option<Watch> {
    let poll = Poll::new(rt).ok()?;
    let events = Events::with_capacity(alloc, 1).ok()?;
    poll.registry()
        .register(&mut SourceFd(&fd), Token(0), interest)
        .ok()?;
    Some(Watch { poll, events })
}

impl Gate {
    /// Creates a gate for reads or for writes of a descriptor.
    pub fn new<R: Net>(rt: &R, alloc: Global, fd: RawFd, interest: Interest) -> Gate {
        Gate {
            fd,
            interest,
            watch: watch_of(rt, alloc, fd, interest),
            open: false,
        }
    }

    /// Returns whether a read, or a write of at most 4,096 bytes, would not block.
    pub fn is_open(&mut self) -> bool {
        let Some(watch) = &mut self.watch else {
            return true;
        };
        if !self.open {
            let asked = watch
                .poll
                .poll(&mut watch.events, Some(Duration::from_millis(0)));
            self.open = asked.is_err() || !watch.events.is_empty();
        }
        self.open
    }

    /// Must be called after each read or write, so that the descriptor is polled again.
    pub fn pass(&mut self) {
        self.open = false;
        if let Some(watch) = &self.watch {
            let mut source = SourceFd(&self.fd);
            let registry = watch.poll.registry();
            let _ = registry.reregister(&mut source, Token(0), self.interest);
        }
    }

    /// Returns a descriptor that becomes readable when the gate opens, or None if it is always
    /// open.
    pub fn fd(&self) -> Option<RawFd> {
        let watch = self.watch.as_ref()?;
        Some(watch.poll.as_raw_fd())
    }
}
