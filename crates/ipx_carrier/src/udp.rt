//! Datagrams over UDP (RFC 1234, Tunneling IPX Traffic through IP Networks).

ghost use Rattle.ipx_carrier.specs.RunFaultNumbers.{device_failures};
ghost use Rattle.ipx_carrier.specs.Device.{received_in};
ghost use Rattle.ipx_carrier.specs.Traces.{FailsOnce, GivesOnce, RefusesTo, SendsTo, socket_events, v4_at};
ghost use Rattle.std.specs.Prelude.{◌≡◌, ◌<◌, ◌≤◌, ◌+◌, ◌^◌, [], IfOk, IfSome, OnErr, OnOk, length, map};

use crate::datagrams::Datagrams;
use crate::fault::DeviceFault;
use crate::placed_socket::PlacedSocket;
use std::alloc::Global;
use std::net::{Ipv4Addr, Net, SocketAddrV4};

/// The UDP port of IPX (RFC 1234).
pub const UDP_PORT: u16 = 213;

/// A device that has a UDP socket for each port.
///
/// It tells only its count of failures: which datagrams arrive depends on the network.
#[derive(Drop)]
pub struct UdpDatagrams {
    sockets: Vec<PlacedSocket>,
    port: u16,
    failures: u64,
}

/// The socket address of an IP address and a UDP port.
pub fn socket_addr(ip: [u8; 4], port: u16) -> SocketAddrV4
    ensures { result ≡ v4_at ip port }
{
    SocketAddrV4::new(Ipv4Addr::new(ip[0], ip[1], ip[2], ip[3]), port)
}

impl UdpDatagrams {
    /// Binds a port at each of these IP addresses. All use the same UDP port, which datagrams are
    /// also sent to. It fails if a socket can't be bound, or if out of memory.
    pub fn bind<R: Net>(
        rt: &R,
        alloc: Global,
        addresses: &[[u8; 4]],
        port: u16,
    ) -> Result<UdpDatagrams, DeviceFault>
        ensures ports { IfOk result (λ d. length d.sockets.items ≡ length addresses.now) }
        ensures at { IfOk result (λ d. map (λ s. s.at) d.sockets.items
            ≡ map (λ ip. v4_at ip port) addresses.now) }
        // Datagrams are sent to the UDP port of the call, and no socket was asked anything yet.
        ensures port { IfOk result (λ d. d.port ≡ port) }
        ensures fresh { IfOk result (λ d. socket_events d.sockets.items
            ≡ map (λ ip. []) addresses.now) }
        ensures failures { IfOk result (λ d. d.failures ≡ 0) }
    {
        let mut sockets = Vec::new(alloc);
        for ip in addresses {
            let Ok(socket) = PlacedSocket::bind(rt, socket_addr(*ip, port)) else {
                return Err(DeviceFault);
            };
            if sockets.push(socket).is_err() {
                return Err(DeviceFault);
            }
        }
        Ok(UdpDatagrams {
            sockets,
            port,
            failures: 0,
        })
    }
}

impl Datagrams for UdpDatagrams {
    ghost use Rattle.std.specs.Prelude.{None, [], length, ◌≡◌, ◌+◌};
    ghost use Rattle.ipx_carrier.specs.Traces.{FailsOnce, GivesOnce, RefusesTo, SendsTo, v4_at};

    ghost port_count = { λ d. length d.sockets.items };

    ghost failed = { λ d. d.failures };

    ghost traffic = { λ d. None };

    ghost waiting = { λ d. None };

    ghost fails = { λ d failed e. Unit {0} };

    ghost access = { λ d. [] };

    ghost filtered = { λ d. 0 };

    // Each call is one event of the socket of its port.
    ghost receives = { λ d port size answer e. (e.port ≡ d.port) × (e.failures ≡ d.failures)
        × GivesOnce port size answer d.sockets.items e.sockets.items };

    ghost sends = { λ d datagram e. (e.port ≡ d.port) × (e.failures ≡ d.failures)
        × SendsTo datagram.port (v4_at datagram.to d.port) datagram.bytes
        d.sockets.items e.sockets.items };

    ghost fails_to_receive = { λ d port size e. (e.port ≡ d.port) × (e.failures ≡ d.failures + 1)
        × FailsOnce port size d.sockets.items e.sockets.items };

    ghost fails_to_send = { λ d datagram e. (e.port ≡ d.port) × (e.failures ≡ d.failures + 1)
        × RefusesTo datagram.port (v4_at datagram.to d.port) datagram.bytes
        d.sockets.items e.sockets.items };

    fn ports(&self) -> usize {
        self.sockets.len()
    }

    fn failures(&self) -> u64 {
        self.failures
    }

    fn send(&mut self, port: usize, to: [u8; 4], bytes: &[u8]) -> Result<(), DeviceFault>
        requires there { port < length self.old.sockets.items }
        requires countable { self.old.failures + 1 < 2 ^ 64 }
        ensures to { OnOk result (SendsTo port (v4_at to self.old.port) bytes.now
            self.old.sockets.items self.new.sockets.items) }
        ensures nowhere { OnErr result (RefusesTo port (v4_at to self.old.port) bytes.now
            self.old.sockets.items self.new.sockets.items) }
        ensures failures { self.new.failures ≡ device_failures result self.old.failures }
        ensures ports { length self.new.sockets.items ≡ length self.old.sockets.items }
        ensures port { self.new.port ≡ self.old.port }
    {
        let to = socket_addr(to, self.port);
        if self.sockets[port].send_to(to, bytes).is_err() {
            self.failures += 1;
            return Err(DeviceFault);
        }
        Ok(())
    }

    fn receive(&mut self, port: usize, room: &mut [u8]) -> Result<Option<usize>, DeviceFault>
        requires there { port < length self.old.sockets.items }
        requires countable { self.old.failures + 1 < 2 ^ 64 }
        // The port's socket was asked once, into the whole buffer, and this came of it.
        ensures gives { IfOk result (λ count. GivesOnce port (length room.old)
            (received_in room.new count) self.old.sockets.items self.new.sockets.items) }
        ensures fails { OnErr result (FailsOnce port (length room.old)
            self.old.sockets.items self.new.sockets.items) }
        ensures within { IfOk result (λ count. IfSome count (λ n. n ≤ length room.old)) }
        ensures failures { self.new.failures ≡ device_failures result self.old.failures }
        ensures ports { length self.new.sockets.items ≡ length self.old.sockets.items }
        ensures port { self.new.port ≡ self.old.port }
    {
        match self.sockets[port].receive(room) {
            Ok(came) => Ok(came.map(|(count, _)| count)),
            Err(_) => {
                self.failures += 1;
                Err(DeviceFault)
            }
        }
    }
}
