//! Waiting until a descriptor is readable, or for some time.

ghost use Rattle.std.specs.Prelude.{◌≡◌, ◌↔◌, ◌<◌, ◌+◌, ◌++◌, ◌∷◌, [], ℤ, IfOk, None, Ok, OnOk, Some, is_err, length, map, true};
ghost use Rattle.ipx_carrier.specs.Counting.{counted, raised};
ghost use Rattle.ipx_ethernet_ports.specs.EthernetAddresses.{ethernet_fds};
ghost use Rattle.ipx_ipxnet_ports.specs.ServerAddresses.{server_fds};
ghost use Rattle.ipx_sockets.specs.PollEvents.{Waited, Watched};
ghost use Rattle.ipx_sockets.specs.Polling.{numbers_come, reported};
ghost use Rattle.ipx_sockets.specs.Senders.{udp_fds};

use crate::sockets::UdpSockets;
use crate::traced_poll::TracedPoll;
use ipx_carrier::Datagrams;
use ipx_ethernet_ports::{EndSockets, EthernetSockets};
use ipx_ipxnet_ports::{PlaceSockets, ServerSockets};
use mio::Events;
use std::alloc::Global;
use std::net::Net;
use std::os::fd::RawFd;
use thiserror::Error;

/// Why waiting failed.
#[derive(Clone, Copy, Debug, PartialEq, Eq, Error)]
pub enum WaitFault {
    #[error("out of memory")]
    OutOfMemory,
    #[error("cannot wait for the sockets")]
    System,
}

/// The most events that one wait returns; more come with the next one.
const EVENTS: usize = 32;

/// Waits for sockets. It reports once that something came. Read everything before the next wait,
/// until nothing is left.
pub struct Poller {
    poll: TracedPoll,
    events: Events,
    /// The longest time, in milliseconds, that the last wait was asked to take.
    asked: Option<u64>,
    /// Whether the system failed to wait then.
    failed: bool,
}

impl Drop for Poller {
    fn drop(self) {
        let Poller {
            poll: _,
            events: _,
            asked: _,
            failed: _,
        } = self;
    }
}

impl Poller {
    /// Waits for each of these sockets.
    pub fn new<R: Net>(rt: &R, alloc: Global, sockets: &UdpSockets) -> Result<Poller, WaitFault>
        ensures watched { IfOk result (λ r. r.poll.watched ≡ length sockets.now.sockets.items) }
        ensures asked { IfOk result (λ r. r.asked ≡ None) }
        // It watches their descriptors, in order, and has not waited.
        ensures trace { IfOk result (λ r.
            r.poll.trace.items ≡ map Watched (udp_fds sockets.now.sockets.items)) }
    {
        let Ok(poll) = TracedPoll::new(rt) else {
            return Err(WaitFault::System);
        };
        let Ok(events) = Events::with_capacity(alloc, EVENTS) else {
            return Err(WaitFault::OutOfMemory);
        };
        let mut poller = Poller {
            poll,
            events,
            asked: None,
            failed: false,
        };
        poller.watch_sockets(sockets)?;
        Ok(poller)
    }

    fn watch_sockets(&mut self, sockets: &UdpSockets) -> Result<(), WaitFault>
        ensures watched { OnOk result (self.new.poll.watched
            ≡ counted (self.old.poll.watched + length sockets.now.sockets.items)) }
        ensures asked { self.new.asked ≡ self.old.asked }
        ensures trace { OnOk result (self.new.poll.trace.items
            ≡ self.old.poll.trace.items ++ map Watched (udp_fds sockets.now.sockets.items)) }
    {
        for port in 0..sockets.ports() {
            self.watch_socket(sockets.descriptor(port))?;
        }
        Ok(())
    }

    /// Waits for the sockets of Ethernet ports too.
    pub fn watch_ethernet(&mut self, sockets: &EthernetSockets) -> Result<(), WaitFault>
        ensures watched { OnOk result (self.new.poll.watched
            ≡ counted (self.old.poll.watched + length sockets.now.ethernet.items)) }
        ensures asked { self.new.asked ≡ self.old.asked }
        ensures trace { OnOk result (self.new.poll.trace.items
            ≡ self.old.poll.trace.items ++ map Watched (ethernet_fds sockets.now.ethernet.items)) }
    {
        for wire in 0..sockets.ports() {
            self.watch_socket(sockets.descriptor(wire))?;
        }
        Ok(())
    }

    /// Waits for the sockets of ipxnet servers too.
    pub fn watch_servers(&mut self, sockets: &ServerSockets) -> Result<(), WaitFault>
        ensures watched { OnOk result (self.new.poll.watched
            ≡ counted (self.old.poll.watched + length sockets.now.sockets.items)) }
        ensures asked { self.new.asked ≡ self.old.asked }
        ensures trace { OnOk result (self.new.poll.trace.items
            ≡ self.old.poll.trace.items ++ map Watched (server_fds sockets.now.sockets.items)) }
    {
        for server in 0..sockets.ports() {
            self.watch_socket(sockets.descriptor(server))?;
        }
        Ok(())
    }

    /// Waits for the socket with this descriptor too. It fails if there is none, or if the system
    /// cannot wait for it.
    fn watch_socket(&mut self, descriptor: Option<RawFd>) -> Result<(), WaitFault>
        ensures watched { OnOk result (self.new.poll.watched ≡ raised self.old.poll.watched) }
        ensures trace { OnOk result ((fd : ℤ) × (descriptor ≡ Some fd)
            × (self.new.poll.trace.items ≡ self.old.poll.trace.items ++ Watched fd ∷ [])) }
        ensures asked { self.new.asked ≡ self.old.asked }
    {
        match descriptor {
            Some(descriptor) if self.watch_reading(descriptor) => Ok(()),
            _ => Err(WaitFault::System),
        }
    }

    /// Waits for this descriptor too, until it is readable. It returns false if the system cannot
    /// wait for it: a file on disk is always readable.
    pub fn watch_reading(&mut self, descriptor: RawFd) -> bool
        ensures watched { self.new.poll.watched ≡ raised self.old.poll.watched }
        ensures asked { self.new.asked ≡ self.old.asked }
        // The system is asked to watch it, whatever the result.
        ensures trace { self.new.poll.trace.items ≡ self.old.poll.trace.items ++ Watched descriptor ∷ [] }
    {
        self.poll.watch(descriptor).is_ok()
    }

    /// The events of the last wait. The token of each is the index of its descriptor among all that
    /// it was asked to wait for, starting at 0.
    pub fn events(&self) -> &Events
        ensures { result.now ≡ self.now.events }
    {
        &self.events
    }

    /// Waits until something is readable, a signal comes, or `most` milliseconds have passed. It
    /// returns whether something is readable.
    pub fn wait(&mut self, most: u64) -> Result<bool, WaitFault>
        ensures watched { self.new.poll.watched ≡ self.old.poll.watched }
        // The system is asked once, to wait this long, whatever the result. The poller then holds
        // just the events that the system reported.
        ensures asked { self.new.asked ≡ Some most }
        ensures trace { self.new.poll.trace.items
            ≡ self.old.poll.trace.items ++ Waited most (reported self.new) ∷ [] }
        // It records whether the system failed.
        ensures failed { self.new.failed ≡ is_err result }
        // It holds none if the system failed.
        ensures came { (result ≡ Ok true) ↔ (0 < length (numbers_come self.new)) }
    {
        self.asked = Some(most);
        self.failed = self.poll.wait(&mut self.events, most).is_err();
        if self.failed {
            return Err(WaitFault::System);
        }
        Ok(!self.events.is_empty())
    }
}
