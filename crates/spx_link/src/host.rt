//! What a host does with a link: it makes it, makes it reply again, paces it and gives it up.

ghost use Rattle.std.specs.Prelude.{◌≡◌, IfOk};
ghost use Rattle.spx_link.specs.Offer as spec;

use crate::buffers::Buffers;
use crate::limits::{MAX_UNITS, NO_ID};
use crate::link::Link;
use crate::queue::Queue;
use crate::state::State;
use ipx_wire::{Address, Socket, SpxHeader};
use std::alloc::{AllocError, Global};

impl Link {
    /// A link that requests a connection from a local socket to a remote address. Its buffers are
    /// allocated here. `now` is in milliseconds.
    ///
    /// The caller must pass an id from 0001 to FFFE that no other link of its host has, and 1 to 8,192
    /// buffers. A host calls `Links::dial`, which assigns the id.
    pub fn dial(
        alloc: Global,
        own: u16,
        local: Socket,
        remote: Address,
        buffers: u16,
        now: u64,
    ) -> Result<Link, AllocError>
        ensures { IfOk result (λ l. l ≡ spec.dialed own local remote buffers now) }
    {
        let buffers = Buffers::new(alloc, buffers)?;
        Ok(Link {
            state: State::Opening,
            own,
            peer: NO_ID,
            local,
            remote,
            queue: Queue::new(alloc),
            out: 0,
            next: 0,
            room: 0,
            expected: 0,
            buffers,
            asked_at: 0,
            asked_count: 0,
            spoke: now,
            probes: 0,
            owes_reply: false,
            owes_confirm: false,
            owes_ack: false,
            accepted: false,
            end_queued: false,
            peer_ended: false,
            window: MAX_UNITS,
            manual: false,
            again: None,
        })
    }

    /// A link for a request that was received from a remote address at a local socket. It must send its
    /// reply.
    ///
    /// The caller must pass the same as for `dial`. A host calls `Links::accept`.
    pub fn accept(
        alloc: Global,
        own: u16,
        local: Socket,
        remote: Address,
        request: &SpxHeader,
        buffers: u16,
        now: u64,
    ) -> Result<Link, AllocError>
        ensures { IfOk result
            (λ l. l ≡ spec.accepted_from own local remote request.now buffers now) }
    {
        let mut link = Link::dial(alloc, own, local, remote, buffers, now)?;
        link.state = State::Live;
        link.peer = request.from_id;
        link.owes_reply = true;
        link.accepted = true;
        link.read_limit(request.limit);
        Ok(link)
    }

    /// The link must send its reply again. A host calls this if the request that made the link arrives
    /// again, since the reply to it was lost.
    pub fn owe_reply(&mut self)
        ensures { self.new ≡ spec.owe_reply_link self.old }
    {
        self.owes_reply = true;
    }

    /// Sets how many units may be outstanding, at most 8,192. A manual link retransmits a unit when
    /// `again` asks for it, and not 500 milliseconds after it was sent.
    pub fn pace(&mut self, window: u16, manual: bool)
        ensures { self.new ≡ spec.pace_link self.old window manual }
    {
        self.window = window;
        self.manual = manual;
        self.again = None;
    }

    /// Asks a manual link to retransmit the outstanding unit at this place, counted from the first
    /// one.
    pub fn again(&mut self, place: u16)
        ensures { self.new ≡ spec.again_link self.old place }
    {
        self.again = Some(place);
    }

    /// Gives the link up. It then sends and reads nothing, but what it holds may still be taken. A
    /// host calls this if the units of the peer make no message.
    pub fn lose(&mut self)
        ensures { self.new ≡ spec.lose_link self.old }
    {
        self.state = State::Lost;
    }
}
