//! The UDP socket of an Ethernet port: each datagram carries one Ethernet frame.

ghost use Rattle.std.specs.Prelude.{◌≡◌, ◌≤◌, ◌+◌, OnErr, OnOk, Some, false, length, true};
ghost use Rattle.ipx_tunnels.specs.TunnelFaults.{tunnel_fault};
ghost use Rattle.ipx_ethernet_ports.specs.EthernetAddresses.{AsksSocket, IsArrivalWithin, MakesOfDatagram, drops_of, frame_refused, frame_sent, is_plain, remote_count, remotes_of, tunnel_drops};

use crate::end_sockets::FrameCame;
use crate::remotes::Remotes;
use crate::taking::put_front;
use crate::tunnel_drops::TunnelDrops;
use ipx_carrier::PlacedSocket;
use ipx_tunnels::Tunnel;
use std::io;
use std::io::ErrorKind;
use std::net::{SocketAddr, SocketAddrV4};

/// The size of the buffer in which the datagrams of a tunnel are made and received.
const DATAGRAM_ROOM: usize = 2048;

/// The socket of a port, its remotes, how frames are carried, and what was dropped as it had no
/// frame.
#[derive(Drop)]
pub struct EthernetSocket {
    pub socket: PlacedSocket,
    pub remotes: Remotes,
    pub tunnel: Tunnel,
    pub drops: TunnelDrops,
}

/// What came of asking a socket.
#[derive(Clone, Copy)]
pub enum Arrival {
    /// A frame of a remote.
    Frame(FrameCame),
    /// A datagram of a remote without a frame.
    NoFrame,
    /// A datagram from an unknown sender.
    Unknown(SocketAddr),
    /// Nothing waits.
    Nothing,
    /// The system failed at each try.
    Failed,
}

/// Whether a datagram is a frame alone.
fn is_plain(tunnel: Tunnel) -> bool
    ensures { result ≡ is_plain tunnel }
{
    matches!(tunnel, Tunnel::Plain)
}

/// Sends a frame in a datagram of the tunnel. If it is too long, the system is not asked.
fn send_in_tunnel(
    socket: &mut PlacedSocket,
    tunnel: Tunnel,
    to: SocketAddrV4,
    frame: &[u8],
) -> io::Result<()>
    requires { is_plain tunnel ≡ false }
    ensures sent { OnOk result (socket.new ≡ frame_sent tunnel to frame.now socket.old) }
    ensures refused { OnErr result (socket.new ≡ frame_refused tunnel to frame.now socket.old) }
{
    let mut datagram = [0; DATAGRAM_ROOM];
    match tunnel.put(frame, &mut datagram) {
        Some(size) => socket.send_to(to, &datagram[..size]),
        None => Err(io::Error::from(ErrorKind::InvalidInput)),
    }
}

impl EthernetSocket {
    /// What was dropped because it had no frame in the tunnel. None if there is no tunnel.
    pub fn tunnel_drops(&self) -> Option<TunnelDrops>
        ensures { result ≡ tunnel_drops (Some self.now) }
    {
        if is_plain(self.tunnel) {
            None
        } else {
            Some(self.drops)
        }
    }

    /// Sends a frame to the place of a remote. The error is the system's, or the frame is too long
    /// for the tunnel. Nothing is then sent.
    pub fn send(&mut self, to: SocketAddrV4, bytes: &[u8]) -> io::Result<()>
        ensures sent { OnOk result (self.new ≡ record self.old {
          socket = frame_sent self.old.tunnel to bytes.now self.old.socket;
        }) }
        ensures refused { OnErr result (self.new ≡ record self.old {
          socket = frame_refused self.old.tunnel to bytes.now self.old.socket;
        }) }
        ensures remotes { self.new.remotes ≡ self.old.remotes }
    {
        if is_plain(self.tunnel) {
            self.socket.send_to(to, bytes)
        } else {
            send_in_tunnel(&mut self.socket, self.tunnel, to, bytes)
        }
    }

    /// Takes the frame of a datagram that a remote sent by the tunnel, and puts as much of it as
    /// fits into the room. A remote that is learned is then there. A datagram without a frame is
    /// counted.
    fn take_frame(
        &mut self,
        end: usize,
        from: SocketAddr,
        datagram: &[u8],
        room: &mut [u8],
    ) -> Arrival
        ensures arrival { MakesOfDatagram self.old.tunnel from datagram.now room.new (Some end)
            (tunnel_fault self.old.tunnel datagram.now) result }
        ensures drops { self.new ≡ record self.old {
          drops = drops_of from (Some end) (tunnel_fault self.old.tunnel datagram.now) self.old.drops;
          remotes = remotes_of from (Some end) (tunnel_fault self.old.tunnel datagram.now)
              self.old.remotes;
        } }
        ensures there { IsArrivalWithin (end + 1) (length room.old) result }
        ensures room { length room.new ≡ length room.old }
    {
        match self.tunnel.strip(datagram) {
            Ok(frame) => {
                let size = put_front(frame, room);
                self.remotes.learn(from);
                Arrival::Frame(FrameCame { end, size })
            }
            Err(fault) => {
                self.drops.count(from, fault);
                Arrival::NoFrame
            }
        }
    }

    /// Receives a datagram of the tunnel into a buffer of its own.
    fn receive_in_tunnel(&mut self, room: &mut [u8], faults: &mut u64) -> Arrival
        requires { is_plain self.old.tunnel ≡ false }
        ensures asks { AsksSocket self.old room.new result self.new faults.old faults.new }
        ensures there { IsArrivalWithin (remote_count self.old.remotes) (length room.old) result }
        ensures room { length room.new ≡ length room.old }
        ensures faults { faults.old ≤ faults.new }
    {
        let mut datagram = [0; DATAGRAM_ROOM];
        match self.socket.receive_in_tries(&mut datagram, faults) {
            Ok(Some((size, from))) => match self.remotes.end_from(self.tunnel, from) {
                Some(end) => self.take_frame(end, from, &datagram[..size], room),
                None => Arrival::Unknown(from),
            },
            Ok(None) => Arrival::Nothing,
            Err(_) => Arrival::Failed,
        }
    }

    /// Receives a frame that is alone in its datagram.
    fn receive_plain(&mut self, room: &mut [u8], faults: &mut u64) -> Arrival
        requires { is_plain self.old.tunnel ≡ true }
        ensures asks { AsksSocket self.old room.new result self.new faults.old faults.new }
        ensures there { IsArrivalWithin (remote_count self.old.remotes) (length room.old) result }
        ensures room { length room.new ≡ length room.old }
        ensures faults { faults.old ≤ faults.new }
    {
        match self.socket.receive_in_tries(room, faults) {
            Ok(Some((size, from))) => match self.remotes.end_from(self.tunnel, from) {
                Some(end) => {
                    self.remotes.learn(from);
                    Arrival::Frame(FrameCame { end, size })
                }
                None => Arrival::Unknown(from),
            },
            Ok(None) => Arrival::Nothing,
            Err(_) => Arrival::Failed,
        }
    }

    /// Receives a datagram. If the system fails it is asked again, eight times at most, and each
    /// failure is counted.
    pub fn receive(&mut self, room: &mut [u8], faults: &mut u64) -> Arrival
        ensures asks { AsksSocket self.old room.new result self.new faults.old faults.new }
        ensures there { IsArrivalWithin (remote_count self.old.remotes) (length room.old) result }
        ensures room { length room.new ≡ length room.old }
        ensures faults { faults.old ≤ faults.new }
        ensures count { remote_count self.new.remotes ≡ remote_count self.old.remotes }
    {
        if is_plain(self.tunnel) {
            self.receive_plain(room, faults)
        } else {
            self.receive_in_tunnel(room, faults)
        }
    }
}
