//! UDP sockets, one for each RFC 1234 port of a site.

ghost use Rattle.std.specs.Prelude.{◌≡◌, ◌<◌, ◌≤◌, ◌↔◌, ◌∷◌, [], IfOk, IfSome, IsSome, None, Ok, OnErr, Some, false, is_some, length, map, replicate, slice_get, slice_set, true};
ghost use Rattle.ipx_carrier.specs.Counting.{raised};
ghost use Rattle.ipx_carrier.specs.Device.{received_in};
ghost use Rattle.ipx_carrier.specs.Readiness.{AsksPortWithMark};
ghost use Rattle.ipx_carrier.specs.ReadySet.{is_port_marked};
ghost use Rattle.ipx_carrier.specs.Traces.{v4_at};
ghost use Rattle.ipx_sockets.specs.Senders.{udp_events, udp_fds};
ghost use Rattle.ipx_sockets.specs.SocketCalls.{HasCountedNothing};
ghost use Rattle.ipx_config.specs.PortLists.{datagram_places, datagram_ports};
ghost use Rattle.ipx_config.specs.SitePorts.{udp_ports};

use crate::bind_fault::{BindFault, bind_error};
use crate::last_sender::Senders;
use crate::rcvbuf::set_rcvbuf;
use ipx_carrier::{
    Datagrams, DeviceFault, PlacedSocket, ReadySet, saturating_increment, socket_addr,
};
use ipx_config::PortConfig;
use ipx_ipxnet_ports::ip_of_sender;
use std::alloc::{AllocError, Global};
use std::io;
use std::io::ErrorKind;
use std::net::{Net, SocketAddrV4};
use std::os::fd::{AsRawFd, RawFd};

/// The socket of a port, the UDP port of its peers, and the size of its receive buffer in bytes.
#[derive(Drop)]
struct PortSocket {
    socket: PlacedSocket,
    udp_port: u16,
    room: u32,
}

/// A device that has a UDP socket for each port of a site.
///
/// It tells who sent the last datagram that it received. Which datagrams arrive depends on the
/// network. A datagram that the system refuses is lost like one on the way, and counted. An
/// unreachable peer therefore does not affect the others, and the device never fails.
///
/// It has a mark for each port where a datagram may wait, and reads from those ports alone. All
/// marks are set at the start. Whoever waits for the sockets marks the ports where something came,
/// or all.
#[derive(Drop)]
pub struct UdpSockets {
    sockets: Vec<PortSocket>,
    marks: ReadySet,
    sent: u64,
    faults: u64,
    last_not_sent: Option<(SocketAddrV4, io::Error)>,
    sender: Option<[u8; 4]>,
}

/// The socket of a port. 0.0.0.0 means every address of a machine, so peers could not name it,
/// and it is refused.
fn port_socket<R: Net>(rt: &R, ip: [u8; 4], udp_port: u16) -> io::Result<PortSocket>
    ensures udp_port { IfOk result (λ s. s.udp_port ≡ udp_port) }
    ensures at { IfOk result (λ s. s.socket.at ≡ v4_at ip udp_port) }
    ensures fresh { IfOk result (λ s. s.socket.events.items ≡ []) }
{
    if ip == [0; 4] {
        return Err(io::Error::from(ErrorKind::AddrNotAvailable));
    }
    let socket = PlacedSocket::bind(rt, socket_addr(ip, udp_port))?;
    let room = set_rcvbuf(socket.as_raw_fd());
    Ok(PortSocket {
        socket,
        udp_port,
        room,
    })
}

/// The socket of the port with this number, or why it could not be bound.
fn bound_port<R: Net>(
    rt: &R,
    number: usize,
    ip: [u8; 4],
    udp_port: u16,
) -> Result<PortSocket, BindFault>
    ensures udp_port { IfOk result (λ s. s.udp_port ≡ udp_port) }
    ensures at { IfOk result (λ s. s.socket.at ≡ v4_at ip udp_port) }
    ensures fresh { IfOk result (λ s. s.socket.events.items ≡ []) }
{
    match port_socket(rt, ip, udp_port) {
        Ok(socket) => Ok(socket),
        Err(error) => Err(BindFault::Port(number, bind_error(ip, udp_port, &error))),
    }
}

/// A device with these sockets, all marked.
fn device_of(alloc: Global, sockets: Vec<PortSocket>) -> Result<UdpSockets, AllocError>
    ensures ports { IfOk result (λ d. d.sockets.items ≡ sockets.items) }
    ensures marks { IfOk result (λ d. d.marks ≡ replicate (length sockets.items) true) }
    ensures uncounted { IfOk result (λ d. HasCountedNothing d) }
{
    let marks = ReadySet::all(alloc, sockets.len())?;
    Ok(UdpSockets {
        sockets,
        marks,
        sent: 0,
        faults: 0,
        last_not_sent: None,
        sender: None,
    })
}

/// The same, or the error that memory ran out.
fn bound_device(alloc: Global, sockets: Vec<PortSocket>) -> Result<UdpSockets, BindFault>
    ensures ports { IfOk result (λ d. d.sockets.items ≡ sockets.items) }
    ensures marks { IfOk result (λ d. d.marks ≡ replicate (length sockets.items) true) }
    ensures uncounted { IfOk result (λ d. HasCountedNothing d) }
{
    match device_of(alloc, sockets) {
        Ok(device) => Ok(device),
        Err(_) => Err(BindFault::OutOfMemory),
    }
}

impl UdpSockets {
    /// A device with the RFC 1234 ports among these, in their order. It stops at the first socket
    /// that cannot be bound and returns its port; then no socket stays bound.
    pub fn bind<R: Net>(
        rt: &R,
        alloc: Global,
        ports: &[PortConfig],
    ) -> Result<UdpSockets, BindFault>
        ensures ports { IfOk result (λ d. map (λ s. s.udp_port) d.sockets.items
            ≡ udp_ports (datagram_ports ports.now)) }
        ensures at { IfOk result (λ d. map (λ s. s.socket.at) d.sockets.items
            ≡ datagram_places (datagram_ports ports.now)) }
        // No socket was asked anything yet.
        ensures fresh { IfOk result (λ d. udp_events d.sockets.items
            ≡ map (λ p. []) (datagram_ports ports.now)) }
        ensures marks { IfOk result (λ d. d.marks ≡ replicate (length d.sockets.items) true) }
        ensures uncounted { IfOk result (λ d. HasCountedNothing d) }
    {
        let mut sockets = Vec::new(alloc);
        for (place, port) in ports.iter().enumerate() {
            if let PortConfig::Rfc1234(port) = port {
                let socket = bound_port(rt, place + 1, port.address, port.udp_port)?;
                if sockets.push(socket).is_err() {
                    return Err(BindFault::OutOfMemory);
                }
            }
        }
        bound_device(alloc, sockets)
    }

    /// A device with one port, for a host.
    pub fn bind_one<R: Net>(
        rt: &R,
        alloc: Global,
        address: [u8; 4],
        udp_port: u16,
    ) -> Result<UdpSockets, BindFault>
        ensures ports { IfOk result (λ d. map (λ s. s.udp_port) d.sockets.items ≡ udp_port ∷ []) }
        ensures at { IfOk result (λ d.
            map (λ s. s.socket.at) d.sockets.items ≡ v4_at address udp_port ∷ []) }
        // Its socket was asked nothing yet.
        ensures fresh { IfOk result (λ d. udp_events d.sockets.items ≡ [] ∷ []) }
        ensures marks { IfOk result (λ d. d.marks ≡ true ∷ []) }
        ensures uncounted { IfOk result (λ d. HasCountedNothing d) }
    {
        let socket = bound_port(rt, 1, address, udp_port)?;
        match vec![in alloc; socket] {
            Ok(sockets) => bound_device(alloc, sockets),
            Err(_) => Err(BindFault::OutOfMemory),
        }
    }

    /// How many datagrams the system took to be sent. Saturates at the greatest u64.
    pub fn sent(&self) -> u64
        ensures { result ≡ self.now.sent }
    {
        self.sent
    }

    /// How often the system refused to send or receive a datagram. Saturates at the greatest u64.
    pub fn faults(&self) -> u64
        ensures { result ≡ self.now.faults }
    {
        self.faults
    }

    /// Where the last datagram was to go that the system refused to send, and why it did.
    pub fn last_not_sent(&self) -> Option<(SocketAddrV4, io::Error)>
        ensures { result ≡ self.now.last_not_sent }
    {
        self.last_not_sent
    }

    /// The descriptor of a port's socket, to wait for it. Ports count from 0.
    pub fn descriptor(&self, port: usize) -> Option<RawFd>
        ensures { result ≡ slice_get (udp_fds self.now.sockets.items) port }
    {
        let port = self.sockets.get(port)?;
        Some(port.socket.as_raw_fd())
    }

    /// The size of the receive buffer of a port's socket in bytes, as the system said when it was
    /// bound; 0 if it did not say. Ports count from 0.
    pub fn room(&self, port: usize) -> Option<u32>
        ensures there { IsSome result ↔ port < length self.now.sockets.items }
        ensures room { IfSome (slice_get self.now.sockets.items port) (λ s. result ≡ Some s.room) }
    {
        let socket = self.sockets.get(port)?;
        Some(socket.room)
    }

    /// The marks of the ports, in order.
    pub fn marks(&self) -> &ReadySet
        ensures { result.now ≡ self.now.marks }
    {
        &self.marks
    }

    /// Marks a port where something came, so that what waits there is received. If there is no such
    /// port, nothing happens.
    pub fn set_ready(&mut self, port: usize)
        ensures { self.new ≡ record self.old { marks = slice_set self.old.marks port true } }
    {
        self.marks.set_ready(port);
    }

    /// Marks all ports: something may have come to any of them.
    pub fn mark_all(&mut self)
        ensures { self.new ≡ record self.old {
          marks = replicate (length self.old.marks) true;
        } }
    {
        self.marks.mark_all();
    }

    fn count_fault(&mut self)
        ensures { self.new ≡ record self.old { faults = raised self.old.faults } }
    {
        saturating_increment(&mut self.faults);
    }
}

impl Datagrams for UdpSockets {
    ghost use Rattle.ipx_sockets.specs.SocketCalls.{ReceivesPacket, SendsDatagram};

    ghost port_count = { λ d. length d.sockets.items };

    ghost failed = { λ d. 0 };

    ghost traffic = { λ d. None };

    // The system holds what waits.
    ghost waiting = { λ d. None };

    ghost fails = { λ d failed e. Unit {0} };

    // All senders are accepted.
    ghost access = { λ d. [] };

    ghost filtered = { λ d. 0 };

    ghost marked = { λ d. is_port_marked d.marks };

    ghost receives = { ReceivesPacket };

    ghost sends = { SendsDatagram };

    // It never fails.
    ghost fails_to_receive = { λ d port size e. ⊥ };

    ghost fails_to_send = { λ d datagram e. ⊥ };

    fn ports(&self) -> usize {
        self.sockets.len()
    }

    fn failures(&self) -> u64 {
        0
    }

    fn send(&mut self, port: usize, to: [u8; 4], bytes: &[u8]) -> Result<(), DeviceFault>
        requires there { port < length self.old.sockets.items }
        // The port's socket was asked to send it to that IP address, at the UDP port of the port's
        // peers. The system took it or refused it, and that is counted. Where the last one was to
        // go that it refused is known.
        ensures sends { SendsDatagram self.old
            (record { port = port; to = to; bytes = bytes.now }) self.new }
        ensures ports { length self.new.sockets.items ≡ length self.old.sockets.items }
        ensures marks { self.new.marks ≡ self.old.marks }
        ensures goes_on { OnErr result ⊥ }
    {
        let place = socket_addr(to, self.sockets[port].udp_port);
        match self.sockets[port].socket.send_to(place, bytes) {
            Ok(()) => saturating_increment(&mut self.sent),
            Err(error) => {
                self.last_not_sent = Some((place, error));
                self.count_fault();
            }
        }
        Ok(())
    }

    fn receive(&mut self, port: usize, room: &mut [u8]) -> Result<Option<usize>, DeviceFault>
        requires there { port < length self.old.sockets.items }
        // A port without a mark is not read, and nothing changes.
        ensures unmarked { is_port_marked self.old.marks port ≡ false
            → (result ≡ Ok None) × (self.new ≡ self.old) × (room.new ≡ room.old) }
        // The socket of a marked port is asked until something comes or nothing waits, at most
        // eight times. Each failure is counted. The mark is cleared exactly if nothing waits. The
        // last sender is that of what came.
        ensures receives { IfOk result (λ count. ReceivesPacket self.old port (length room.old)
            (received_in room.new count) self.new) }
        ensures marks { IfOk result (λ count. AsksPortWithMark port (is_some count)
            (is_port_marked self.old.marks) (is_port_marked self.new.marks)) }
        ensures ports { length self.new.sockets.items ≡ length self.old.sockets.items }
        ensures faults { self.old.faults ≤ self.new.faults }
        ensures within { IfOk result (λ count. IfSome count (λ n. n ≤ length room.old)) }
        ensures goes_on { OnErr result ⊥ }
    {
        if !self.marks.is_marked(port) {
            return Ok(None);
        }
        let socket = &mut self.sockets[port].socket;
        match socket.receive_in_tries(room, &mut self.faults) {
            Ok(Some((count, from))) => {
                self.sender = ip_of_sender(from);
                Ok(Some(count))
            }
            Ok(None) => {
                self.marks.clear_ready(port);
                Ok(None)
            }
            Err(_) => Ok(None),
        }
    }
}

impl Senders for UdpSockets {
    ghost last_sender = { λ d. d.sender };

    fn sender(&self) -> Option<[u8; 4]> {
        self.sender
    }
}
