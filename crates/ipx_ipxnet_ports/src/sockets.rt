//! UDP sockets for ipxnet servers.

ghost use Rattle.std.specs.Prelude.{◌≡◌, ◌<◌, ◌≤◌, ◌++◌, ◌∷◌, [], IfOk, IfSome, IsSome, None, Ok, OnErr, OnOk, false, is_some, length, map, slice_get, slice_set, true};
ghost use Rattle.std.specs.Net.Addr.{ipv4_octets};
ghost use Rattle.std.specs.Net.Socket.{v4_ip};
ghost use Rattle.ipx_carrier.specs.declared.placed_socket.PlacedSocket.{PlacedSocket};
ghost use Rattle.ipx_carrier.specs.Counting.{raised};
ghost use Rattle.ipx_carrier.specs.Readiness.{AsksPortWithMark};
ghost use Rattle.ipx_carrier.specs.ReadySet.{is_port_marked};
ghost use Rattle.ipx_carrier.specs.Traces.{Got, TriesToReceive};
ghost use Rattle.ipx_ipxnet_ports.specs.ServerAddresses.{AsksMarkedPort, RefusesToPlace, SendsByServerSockets, SendsToPlace, bound_places, prefixes_heard, ipv4_of_place, is_ip_heard, listed_prefixes, place_heard, server_events, server_fds, with_place};
ghost use Rattle.ipx_ipxnet_ports.specs.PlaceTraffic.{failures_with, place_datagram};

use crate::allow::Allow;
use crate::place_sockets::{DatagramCame, PlaceSockets};
use ipx_carrier::{DeviceFault, PlacedSocket, ReadySet, saturating_increment};
use std::alloc::Global;
use std::io;
use std::io::ErrorKind;
use std::net::{Net, SocketAddr, SocketAddrV4};
use std::os::fd::{AsRawFd, RawFd};

/// The socket of a port, and the IP addresses from which it accepts datagrams.
#[derive(Drop)]
pub struct ServerSocket {
    socket: PlacedSocket,
    allow: Allow,
}

/// Sockets that have a UDP socket for each port. Datagrams are accepted from these IP addresses,
/// with any port, and sent to any address: the server knows who is a client. What comes from
/// another IP address, or over IPv6, is not handed over, but counted.
///
/// Which datagrams arrive depends on the network. What the system doesn't take is a failure of
/// `send`; `receive` never fails.
///
/// Each port has a mark: whether something may wait there. The system is asked only at marked
/// ports. A newly bound port is marked. The caller that waits for the sockets marks those that the
/// system reports.
#[derive(Drop)]
pub struct ServerSockets {
    sockets: Vec<ServerSocket>,
    marks: ReadySet,
    sent: u64,
    failures: u64,
    faults: u64,
    nowhere: u64,
    last_unknown: Option<[u8; 4]>,
}

/// The IP address of a sender, if it is of IPv4.
pub fn ip_of_sender(from: SocketAddr) -> Option<[u8; 4]>
    ensures { result ≡ ipv4_of_place from }
{
    match from {
        SocketAddr::V4(place) => Some(place.ip().octets()),
        SocketAddr::V6(_) => None,
    }
}

impl ServerSocket {
    /// The source address of a datagram, if it is accepted.
    fn sender(&self, from: SocketAddr) -> Option<SocketAddrV4>
        ensures { result ≡ place_heard self.now from }
    {
        match from {
            SocketAddr::V4(place) if self.allow.allows(place.ip().octets()) => Some(place),
            _ => None,
        }
    }

    /// Receives a datagram, and says its size, its sender, and the same as an IPv4 address if it is
    /// accepted. `None` means that nothing waits. If the system fails it is asked again, eight times
    /// at most, and each failure is counted. An error means that it failed each time.
    fn receive(
        &mut self,
        room: &mut [u8],
        faults: &mut u64,
    ) -> Result<Option<(usize, SocketAddr, Option<SocketAddrV4>)>, DeviceFault>
        ensures asks { (got : Got) × (after : PlacedSocket)
            × TriesToReceive got room.new self.old.socket after faults.old faults.new
            × (self.new ≡ record self.old { socket = after })
            × (result ≡ with_place self.old got) }
        ensures within { IfOk result (λ came. IfSome came (λ c. c.0 ≤ length room.old)) }
        ensures heard { IfOk result (λ came. IfSome came (λ c. IfSome c.2 (λ from.
            is_ip_heard (prefixes_heard self.old) (ipv4_octets (v4_ip from)) ≡ true))) }
        ensures room { length room.new ≡ length room.old }
        ensures faults { faults.old ≤ faults.new }
    {
        match self.socket.receive_in_tries(room, faults) {
            Ok(Some((size, from))) => Ok(Some((size, from, self.sender(from)))),
            Ok(None) => Ok(None),
            Err(fault) => Err(fault),
        }
    }
}

impl ServerSockets {
    /// Sockets without a port.
    pub fn new(alloc: Global) -> ServerSockets
        ensures none { (result.sockets.items ≡ []) × (result.marks ≡ []) }
        ensures fresh { (result.sent ≡ 0) × (result.failures ≡ 0) × (result.faults ≡ 0)
            × (result.nowhere ≡ 0) × (result.last_unknown ≡ None) }
    {
        ServerSockets {
            sockets: Vec::new(alloc),
            marks: ReadySet::new(alloc),
            sent: 0,
            failures: 0,
            faults: 0,
            nowhere: 0,
            last_unknown: None,
        }
    }

    /// Binds one more port at an address, where datagrams from these IP addresses are accepted. The
    /// error is the system's or out of memory, and the ports are then as before.
    pub fn bind<R: Net>(&mut self, rt: &R, at: SocketAddrV4, allow: Allow) -> io::Result<()>
        ensures at { OnOk result (bound_places self.new.sockets.items
            ≡ bound_places self.old.sockets.items ++ at ∷ []) }
        ensures bound { OnOk result (map prefixes_heard self.new.sockets.items
            ≡ map prefixes_heard self.old.sockets.items ++ listed_prefixes allow ∷ []) }
        // The new socket was asked nothing, and the others were asked nothing more.
        ensures fresh { OnOk result (server_events self.new.sockets.items
            ≡ server_events self.old.sockets.items ++ [] ∷ []) }
        ensures marks { OnOk result (self.new.marks ≡ self.old.marks ++ true ∷ []) }
        ensures refused { OnErr result ((self.new.sockets.items ≡ self.old.sockets.items)
            × (self.new.marks ≡ self.old.marks)) }
    {
        let socket = PlacedSocket::bind(rt, at)?;
        let socket = ServerSocket { socket, allow };
        let count = self.sockets.len();
        if self.sockets.push(socket).is_err() {
            return Err(io::Error::from(ErrorKind::OutOfMemory));
        }
        if self.marks.add().is_err() {
            self.sockets.truncate(count);
            return Err(io::Error::from(ErrorKind::OutOfMemory));
        }
        Ok(())
    }

    /// How many datagrams the system took to send. It stays at the greatest u64.
    pub fn sent(&self) -> u64
        ensures { result ≡ self.now.sent }
    {
        self.sent
    }

    /// How often the system failed as a port was asked. It stays at the greatest u64.
    pub fn faults(&self) -> u64
        ensures { result ≡ self.now.faults }
    {
        self.faults
    }

    /// The IP address of the last datagram that was not handed over. None if there is none, or if it
    /// came over IPv6.
    pub fn last_unknown(&self) -> Option<[u8; 4]>
        ensures { result ≡ self.now.last_unknown }
    {
        self.last_unknown
    }

    /// The descriptor of the socket of a port, to wait for. The first port is 0.
    pub fn descriptor(&self, port: usize) -> Option<RawFd>
        ensures { result ≡ slice_get (server_fds self.now.sockets.items) port }
    {
        let socket = self.sockets.get(port)?;
        Some(socket.socket.as_raw_fd())
    }

    /// The marks of the ports, in order.
    pub fn marks(&self) -> &ReadySet
        ensures { result.now ≡ self.now.marks }
    {
        &self.marks
    }

    /// Marks a port: something came, as the system said, and is to be received. Nothing happens if
    /// the port does not exist.
    pub fn set_ready(&mut self, port: usize)
        ensures { self.new ≡ record self.old { marks = slice_set self.old.marks port true } }
    {
        self.marks.set_ready(port);
    }
}

impl PlaceSockets for ServerSockets {
    ghost use Rattle.std.specs.Prelude.{None};
    ghost use Rattle.ipx_ipxnet_ports.specs.ServerAddresses.{AsksServerSockets, SendsByServerSockets};

    ghost port_count = { λ s. length s.sockets.items };

    ghost failed = { λ s. s.failures };

    // They do not record what passes.
    ghost traffic = { λ s. None };

    ghost filtered = { λ s. s.nowhere };

    ghost marked = { λ s. is_port_marked s.marks };

    ghost asks = { AsksServerSockets };

    ghost sends = { SendsByServerSockets };

    fn ports(&self) -> usize {
        self.sockets.len()
    }

    fn failures(&self) -> u64 {
        self.failures
    }

    fn from_nowhere(&self) -> u64 {
        self.nowhere
    }

    fn send(&mut self, port: usize, place: SocketAddrV4, bytes: &[u8]) -> Result<(), DeviceFault>
        requires { port < length self.old.sockets.items }
        // The socket of the port was asked to send the bytes to the address. The system took them,
        // or refused them.
        ensures to { OnOk result (SendsToPlace port place bytes.now self.old.sockets.items
            self.new.sockets.items) }
        ensures nowhere { OnErr result (RefusesToPlace port place bytes.now self.old.sockets.items
            self.new.sockets.items) }
        ensures sends { SendsByServerSockets self.old (place_datagram port bytes.now place)
            self.new }
        // The system took it or refused it, and that is counted.
        ensures sent { OnOk result (self.new.sent ≡ raised self.old.sent) }
        ensures refused { OnErr result (self.new.sent ≡ self.old.sent) }
        ensures failures { self.new.failures ≡ failures_with result self.old.failures }
        ensures rest { (self.new.faults ≡ self.old.faults) × (self.new.nowhere ≡ self.old.nowhere)
            × (self.new.last_unknown ≡ self.old.last_unknown) × (self.new.marks ≡ self.old.marks) }
    {
        if self.sockets[port].socket.send_to(place, bytes).is_err() {
            saturating_increment(&mut self.failures);
            return Err(DeviceFault);
        }
        saturating_increment(&mut self.sent);
        Ok(())
    }

    fn receive(&mut self, port: usize, room: &mut [u8]) -> Result<Option<DatagramCame>, DeviceFault>
        requires { port < length self.old.sockets.items }
        // A port without a mark is not asked, and nothing changes.
        ensures unmarked { is_port_marked self.old.marks port ≡ false
            → (result ≡ Ok None) × (self.new ≡ self.old) × (room.new ≡ room.old) }
        // The socket of a marked port is asked until something comes or nothing waits, at most
        // eight times. Each failure is counted. The mark is cleared exactly if nothing waits. What
        // came from an accepted address is returned. What came from another is counted, and its
        // IP address is the last unknown one.
        ensures marked { is_port_marked self.old.marks port ≡ true → IfOk result (λ answer.
            AsksMarkedPort port answer room.new self.old self.new) }
        ensures marks { IfOk result (λ answer. AsksPortWithMark port (is_some answer)
            (is_port_marked self.old.marks) (is_port_marked self.new.marks)) }
        ensures within { IfOk result (λ came. IfSome came (λ c. c.size ≤ length room.old)) }
        ensures answered { IfOk result (λ came. IsSome came
            → self.new.nowhere ≡ self.old.nowhere) }
        // It came from an IP address that is accepted there.
        ensures heard { IfOk result (λ came. IfSome came (λ c.
            IfSome (slice_get self.old.sockets.items port)
            (λ s. is_ip_heard (prefixes_heard s) (ipv4_octets (v4_ip c.from)) ≡ true))) }
        ensures filtered { self.old.nowhere ≤ self.new.nowhere }
        ensures goes_on { OnErr result ⊥ }
        ensures faults { self.old.faults ≤ self.new.faults }
        ensures rest { (self.new.sent ≡ self.old.sent) × (self.new.failures ≡ self.old.failures) }
    {
        if !self.marks.is_marked(port) {
            return Ok(None);
        }
        match self.sockets[port].receive(room, &mut self.faults) {
            Ok(Some((size, _, Some(from)))) => Ok(Some(DatagramCame { from, size })),
            Ok(Some((_, from, None))) => {
                saturating_increment(&mut self.nowhere);
                self.last_unknown = ip_of_sender(from);
                Ok(None)
            }
            Ok(None) => {
                self.marks.clear_ready(port);
                Ok(None)
            }
            Err(_) => Ok(None),
        }
    }
}
