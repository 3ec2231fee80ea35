//! One end of a connection: its fields, and what it shows.

ghost use Rattle.std.specs.Prelude.{◌≡◌, ◌+◌, ◌≤◌, ◌↔◌, IsTrue, length};
ghost use Rattle.spx_link.specs.Courses.{IsWhole};
ghost use Rattle.spx_link.specs.Limits.{most_units};
ghost use Rattle.spx_link.specs.LinkView.{LinkView, numbers_of};

use crate::buffers::Buffers;
use crate::numbers::Numbers;
use crate::queue::Queue;
use crate::state::State;
use ipx_wire::{Address, Socket};
use std::marker::Model;

/// One end of a connection.
///
/// The first `out` units of the queue are sent and not acknowledged. Times are in milliseconds, and
/// the caller passes them. `poll` gives the packets to send, and `receive` reads those of the peer.
#[derive(Drop)]
pub struct Link {
    pub(crate) state: State,
    pub(crate) own: u16,
    pub(crate) peer: u16,
    pub(crate) local: Socket,
    pub(crate) remote: Address,
    pub(crate) queue: Queue,
    pub(crate) out: u16,
    pub(crate) next: u16,
    pub(crate) room: u16,
    pub(crate) expected: u16,
    pub(crate) buffers: Buffers,
    pub(crate) asked_at: u64,
    pub(crate) asked_count: u8,
    pub(crate) spoke: u64,
    pub(crate) probes: u8,
    pub(crate) owes_reply: bool,
    pub(crate) owes_confirm: bool,
    pub(crate) owes_ack: bool,
    pub(crate) accepted: bool,
    pub(crate) end_queued: bool,
    pub(crate) peer_ended: bool,
    pub(crate) window: u16,
    pub(crate) manual: bool,
    pub(crate) again: Option<u16>,
}

impl Model for Link {
    ghost Value = { LinkView };

    ghost view = { λ l. record {
      state = l.state;
      own = l.own;
      peer = l.peer;
      local = l.local;
      remote = l.remote;
      queue = l.queue;
      out = l.out;
      next = l.next;
      room = l.room;
      expected = l.expected;
      held = l.buffers.held;
      ahead = l.buffers.ahead;
      buffers = l.buffers.size;
      asked_at = l.asked_at;
      asked_count = l.asked_count;
      spoke = l.spoke;
      probes = l.probes;
      owes_reply = l.owes_reply;
      owes_confirm = l.owes_confirm;
      owes_ack = l.owes_ack;
      accepted = l.accepted;
      end_queued = l.end_queued;
      peer_ended = l.peer_ended;
      window = l.window;
      manual = l.manual;
      again = l.again;
    } };
}

impl Link {
    pub fn state(&self) -> State
        ensures { result ≡ self.now.state }
    {
        self.state
    }

    pub fn numbers(&self) -> Numbers
        ensures value { result ≡ numbers_of self.now }
        ensures within { length self.now.held + length self.now.ahead ≤ self.now.buffers }
    {
        Numbers {
            next: self.next,
            out: self.out,
            room: self.room,
            expected: self.expected,
            held: self.buffers.held(),
            buffers: self.buffers.size(),
        }
    }

    /// Whether its end is queued and the peer has acknowledged everything that was queued, the end
    /// too.
    pub fn is_all_acked(&self) -> bool
        ensures { IsTrue result ↔ IsWhole self.now }
    {
        self.end_queued && self.queue.is_empty()
    }

    /// The local socket.
    pub fn local(&self) -> Socket
        ensures { result ≡ self.now.local }
    {
        self.local
    }

    /// The remote address.
    pub fn remote(&self) -> Address
        ensures { result ≡ self.now.remote }
    {
        self.remote
    }

    /// How many more units it can hold.
    pub(crate) fn free(&self) -> u16
        ensures { result ≡ Rattle.spx_link.specs.LinkView.free self.now }
    {
        self.buffers.left()
    }

    /// Whether units are sent in its state.
    pub(crate) fn is_working(&self) -> bool
        ensures { result ≡ Rattle.spx_link.specs.LinkView.is_working self.now.state }
    {
        matches!(self.state, State::Live | State::Ending)
    }
}
