//! UDP sockets that know where they are bound.

ghost use Rattle.std.specs.Prelude.{◌≡◌, ◌≤◌, [], IfOk, IfSome, None, Ok, OnErr, OnOk, Some, length, take};
ghost use Rattle.ipx_carrier.specs.Traces.{TriesToReceive, failed_to_receive, found_nothing, raw_fd_of, received_from, refused_to, sent_to};

use crate::fault::DeviceFault;
use crate::trace::Trace;
use std::io::{self, ErrorKind};
use std::net::{Net, SocketAddr, SocketAddrV4, UdpSocket};
use std::os::fd::{AsRawFd, RawFd};

/// A non-blocking UDP socket that knows where it is bound.
///
/// Only here the system is asked to bind, to send and to receive. Each call that asks it adds what
/// came of that to a trace, which contracts read.
#[derive(Drop)]
pub struct PlacedSocket {
    socket: UdpSocket,
    at: SocketAddrV4,
    events: Trace,
}

/// How often a socket is asked for a datagram if the system fails.
const TRIES: u32 = 8;

impl PlacedSocket {
    /// Binds a socket at a socket address. The error is the system's.
    pub fn bind<R: Net>(rt: &R, at: SocketAddrV4) -> io::Result<PlacedSocket>
        ensures at { IfOk result (λ s. s.at ≡ at) }
        ensures fresh { IfOk result (λ s. s.events.items ≡ []) }
    {
        let socket = UdpSocket::bind(rt, at)?;
        socket.set_nonblocking(true)?;
        Ok(PlacedSocket {
            socket,
            at,
            events: Trace::new(),
        })
    }

    /// Sends a datagram. If the system refuses it or does not take all bytes, it is an error.
    pub fn send_to(&mut self, to: SocketAddrV4, bytes: &[u8]) -> io::Result<()>
        ensures sent { OnOk result (self.new ≡ sent_to self.old to bytes.now) }
        ensures refused { OnErr result (self.new ≡ refused_to self.old to bytes.now) }
    {
        let place = SocketAddr::V4(to);
        match self.socket.send_to(bytes, to) {
            Ok(taken) if taken == bytes.len() => {
                self.events.note_sent(&place, bytes);
                Ok(())
            }
            Ok(_) => {
                self.events.note_refused(&place, bytes);
                Err(io::Error::from(ErrorKind::WriteZero))
            }
            Err(error) => {
                self.events.note_refused(&place, bytes);
                Err(error)
            }
        }
    }

    /// Receives a datagram into the room, and says its size and who sent it. What does not fit is
    /// lost. `None` means that nothing waits.
    pub fn receive(&mut self, room: &mut [u8]) -> io::Result<Option<(usize, SocketAddr)>>
        ensures came { IfOk result (λ came. IfSome came (λ c. self.new
            ≡ received_from self.old c.1 (length room.old) (take c.0 room.new))) }
        ensures within { IfOk result (λ came. IfSome came (λ c. c.0 ≤ length room.old)) }
        ensures nothing { result ≡ Ok None
            → self.new ≡ found_nothing self.old (length room.old) }
        ensures failed { OnErr result (self.new
            ≡ failed_to_receive 1 (length room.old) self.old) }
        ensures room { length room.new ≡ length room.old }
    {
        let buffer = room.len();
        match self.socket.recv_from(room) {
            Ok((size, from)) => {
                self.events.note_received(&from, &buffer, &room[..size]);
                Ok(Some((size, from)))
            }
            Err(error) if error.kind() == ErrorKind::WouldBlock => {
                self.events.note_nothing(&buffer);
                Ok(None)
            }
            Err(error) => {
                self.events.note_failed(&buffer);
                Err(error)
            }
        }
    }

    /// Receives in the same way, but asks again each time the system fails, eight times at most.
    /// Each failure raises the count. An error means that the system failed at each try.
    pub fn receive_in_tries(
        &mut self,
        room: &mut [u8],
        faults: &mut u64,
    ) -> Result<Option<(usize, SocketAddr)>, DeviceFault>
        ensures tries { TriesToReceive result room.new self.old self.new faults.old faults.new }
        ensures within { IfOk result (λ came. IfSome came (λ c. c.0 ≤ length room.old)) }
        ensures room { length room.new ≡ length room.old }
        ensures grows { faults.old ≤ faults.new }
    {
        let before = *faults;
        for failed in 0..TRIES {
            if let Ok(came) = self.receive(room) {
                *faults = before.saturating_add(u64::from(failed));
                return Ok(came);
            }
        }
        *faults = before.saturating_add(u64::from(TRIES));
        Err(DeviceFault)
    }
}

impl AsRawFd for PlacedSocket {
    ghost raw_fd = { λ s. Some (raw_fd_of s) };

    fn as_raw_fd(&self) -> RawFd {
        self.socket.as_raw_fd()
    }
}
