//! UDP sockets for Ethernet ports.

ghost use Rattle.std.specs.Prelude.{◌≡◌, ◌⊎◌, ◌<◌, ◌≤◌, ◌++◌, ◌∷◌, [], IfOk, IfSome, IsSome, None, Ok, OnErr, OnOk, Some, false, is_some, length, slice_get, slice_index, slice_set, true};
ghost use Rattle.ipx_carrier.specs.Counting.{raised};
ghost use Rattle.ipx_carrier.specs.Readiness.{AsksPortWithMark};
ghost use Rattle.ipx_carrier.specs.ReadySet.{is_port_marked};
ghost use Rattle.ipx_ethernet_ports.specs.EndTraffic.{failures_counted, frame_at};
ghost use Rattle.ipx_ethernet_ports.specs.EthernetAddresses.{AsksMarkedPort, KnowsNoPlace, RefusesFrame, SendsByEthernetSockets, SendsFrame, bound_places, ethernet_events, ethernet_fds, is_learned, known_places, learning_sockets, place_of_end, place_of_sender, remote_at, remote_count, remote_counts, remote_drops, remote_places, remote_tunnels, sent_counted, tunnel_drops};
ghost use Rattle.ipx_ethernet_ports.specs.TunnelDrops.{no_drops};

use crate::end_sockets::{EndSockets, FrameCame};
use crate::remotes::Remotes;
use crate::socket::{Arrival, EthernetSocket};
use crate::tunnel_drops::TunnelDrops;
use ipx_carrier::{DeviceFault, PlacedSocket, ReadySet, saturating_increment};
use ipx_tunnels::Tunnel;
use std::alloc::Global;
use std::io;
use std::io::ErrorKind;
use std::net::{Net, SocketAddr, SocketAddrV4};
use std::os::fd::{AsRawFd, RawFd};

/// Sockets that have a UDP socket for each port. Frames are sent to the addresses of its remotes,
/// and accepted only from these, each in a datagram of the port's tunnel. A frame from elsewhere is
/// not handed over, but counted. A datagram of a remote that has no frame is counted at the port.
///
/// A remote is an IP address and a UDP port. If the tunnel is VXLAN, what comes from any port of the
/// IP address is of the remote. A remote that is learned is wherever its last frame came from.
///
/// Which frames arrive depends on the network. What the system doesn't take is a failure of `send`;
/// `receive` never fails.
///
/// Each port has a mark: whether something may wait there. The system is asked only at marked
/// ports. A newly bound port is marked. The caller that waits for the sockets marks those that the
/// system reports.
#[derive(Drop)]
pub struct EthernetSockets {
    ethernet: Vec<EthernetSocket>,
    marks: ReadySet,
    sent: u64,
    failures: u64,
    faults: u64,
    filtered: u64,
    unknown_senders: u64,
    last_unknown: Option<SocketAddrV4>,
}

/// The address of a sender, if it is of IPv4.
fn place_of_sender(from: SocketAddr) -> Option<SocketAddrV4>
    ensures { result ≡ place_of_sender from }
{
    match from {
        SocketAddr::V4(place) => Some(place),
        SocketAddr::V6(_) => None,
    }
}

impl EthernetSockets {
    /// Sockets without a port.
    pub fn new(alloc: Global) -> EthernetSockets
        ensures none { (result.ethernet.items ≡ []) × (result.marks ≡ []) }
        ensures fresh { (result.sent ≡ 0) × (result.failures ≡ 0) × (result.faults ≡ 0)
            × (result.filtered ≡ 0) × (result.unknown_senders ≡ 0) × (result.last_unknown ≡ None) }
    {
        EthernetSockets {
            ethernet: Vec::new(alloc),
            marks: ReadySet::new(alloc),
            sent: 0,
            failures: 0,
            faults: 0,
            filtered: 0,
            unknown_senders: 0,
            last_unknown: None,
        }
    }

    /// Binds one more port at an address, with these remotes and this tunnel. The error is the
    /// system's or out of memory, and the ports are then as before.
    pub fn bind<R: Net>(
        &mut self,
        rt: &R,
        at: SocketAddrV4,
        remotes: Remotes,
        tunnel: Tunnel,
    ) -> io::Result<()>
        ensures at { OnOk result (bound_places self.new.ethernet.items
            ≡ bound_places self.old.ethernet.items ++ at ∷ []) }
        ensures bound { OnOk result (remote_counts self.new.ethernet.items
            ≡ remote_counts self.old.ethernet.items ++ remote_count remotes ∷ []) }
        ensures places { OnOk result (remote_places self.new.ethernet.items
            ≡ remote_places self.old.ethernet.items ++ known_places remotes ∷ []) }
        ensures learned { OnOk result (learning_sockets self.new.ethernet.items
            ≡ learning_sockets self.old.ethernet.items ++ is_learned remotes ∷ []) }
        ensures tunnels { OnOk result (remote_tunnels self.new.ethernet.items
            ≡ remote_tunnels self.old.ethernet.items ++ tunnel ∷ []) }
        ensures drops { OnOk result (remote_drops self.new.ethernet.items
            ≡ remote_drops self.old.ethernet.items ++ no_drops ∷ []) }
        // The new socket was asked nothing, and the others were asked nothing more.
        ensures fresh { OnOk result (ethernet_events self.new.ethernet.items
            ≡ ethernet_events self.old.ethernet.items ++ [] ∷ []) }
        ensures marks { OnOk result (self.new.marks ≡ self.old.marks ++ true ∷ []) }
        ensures refused { OnErr result ((self.new.ethernet.items ≡ self.old.ethernet.items)
            × (self.new.marks ≡ self.old.marks)) }
        ensures rest { (self.new.sent ≡ self.old.sent) × (self.new.failures ≡ self.old.failures)
            × (self.new.faults ≡ self.old.faults) × (self.new.filtered ≡ self.old.filtered)
            × (self.new.unknown_senders ≡ self.old.unknown_senders)
            × (self.new.last_unknown ≡ self.old.last_unknown) }
    {
        let socket = PlacedSocket::bind(rt, at)?;
        let drops = TunnelDrops::new();
        let wire = EthernetSocket {
            socket,
            remotes,
            tunnel,
            drops,
        };
        let count = self.ethernet.len();
        if self.ethernet.push(wire).is_err() {
            return Err(io::Error::from(ErrorKind::OutOfMemory));
        }
        if self.marks.add().is_err() {
            self.ethernet.truncate(count);
            return Err(io::Error::from(ErrorKind::OutOfMemory));
        }
        Ok(())
    }

    /// How many frames the system took to send. It stays at the greatest u64.
    pub fn sent(&self) -> u64
        ensures { result ≡ self.now.sent }
    {
        self.sent
    }

    /// How often the system failed as a port was asked. It stays at the greatest u64.
    pub fn faults(&self) -> u64
        ensures { result ≡ self.now.faults }
    {
        self.faults
    }

    /// How many datagrams came from unknown senders. It stays at the greatest u64.
    pub fn unknown_senders(&self) -> u64
        ensures { result ≡ self.now.unknown_senders }
    {
        self.unknown_senders
    }

    /// The address of the last unknown sender. None if there was none, or if its frame came over
    /// IPv6.
    pub fn last_unknown(&self) -> Option<SocketAddrV4>
        ensures { result ≡ self.now.last_unknown }
    {
        self.last_unknown
    }

    /// The descriptor of the socket of a port, to wait for. The first port is 0.
    pub fn descriptor(&self, port: usize) -> Option<RawFd>
        ensures { result ≡ slice_get (ethernet_fds self.now.ethernet.items) port }
    {
        let wire = self.ethernet.get(port)?;
        Some(wire.socket.as_raw_fd())
    }

    /// How the frames of a port are carried. The first port is 0.
    pub fn tunnel(&self, port: usize) -> Option<Tunnel>
        ensures { result ≡ slice_get (remote_tunnels self.now.ethernet.items) port }
    {
        let wire = self.ethernet.get(port)?;
        Some(wire.tunnel)
    }

    /// The place of a remote of a port, if it is known. The first port is 0, and so is its first
    /// remote.
    pub fn remote(&self, port: usize, end: usize) -> Option<SocketAddrV4>
        ensures { result ≡ remote_at (slice_get self.now.ethernet.items port) end }
    {
        let wire = self.ethernet.get(port)?;
        wire.remotes.place(end)
    }

    /// What was dropped at a port because it had no frame in the tunnel. None if the port does not
    /// exist, or has no tunnel.
    pub fn tunnel_drops(&self, port: usize) -> Option<TunnelDrops>
        ensures { result ≡ tunnel_drops (slice_get self.now.ethernet.items port) }
    {
        let wire = self.ethernet.get(port)?;
        wire.tunnel_drops()
    }

    /// The marks of the ports, in order.
    pub fn marks(&self) -> &ReadySet
        ensures { result.now ≡ self.now.marks }
    {
        &self.marks
    }

    /// Marks a port: something came, as the system said, and is to be received. Nothing happens if
    /// the port does not exist.
    pub fn set_ready(&mut self, port: usize)
        ensures { self.new ≡ record self.old { marks = slice_set self.old.marks port true } }
    {
        self.marks.set_ready(port);
    }
}

impl EndSockets for EthernetSockets {
    ghost use Rattle.std.specs.Prelude.{None};
    ghost use Rattle.ipx_ethernet_ports.specs.EthernetAddresses.{AsksEthernetSockets, SendsByEthernetSockets};

    ghost ends_of = { λ s. remote_counts s.ethernet.items };

    ghost failed = { λ s. s.failures };

    // They do not record what passes.
    ghost traffic = { λ s. None };

    ghost filtered = { λ s. s.filtered };

    ghost marked = { λ s. is_port_marked s.marks };

    ghost asks = { AsksEthernetSockets };

    ghost sends = { SendsByEthernetSockets };

    fn ports(&self) -> usize {
        self.ethernet.len()
    }

    fn ends(&self, port: usize) -> usize {
        self.ethernet[port].remotes.count()
    }

    fn failures(&self) -> u64 {
        self.failures
    }

    fn filtered(&self) -> u64 {
        self.filtered
    }

    fn send(&mut self, port: usize, end: usize, bytes: &[u8]) -> Result<(), DeviceFault>
        requires there { port < length (remote_counts self.old.ethernet.items) }
        requires end { end < slice_index (remote_counts self.old.ethernet.items) port }
        // The port's socket was asked to send the bytes to the place of the remote. The system
        // took them, or refused them. If no place is known yet, it was not asked.
        ensures to { OnOk result (SendsFrame port end bytes.now self.old.ethernet.items
            self.new.ethernet.items
            ⊎ KnowsNoPlace port end self.old.ethernet.items self.new.ethernet.items) }
        ensures nowhere { OnErr result (RefusesFrame port end bytes.now self.old.ethernet.items
            self.new.ethernet.items) }
        ensures sends { SendsByEthernetSockets self.old (frame_at port bytes.now end) self.new }
        ensures ends { remote_counts self.new.ethernet.items ≡ remote_counts self.old.ethernet.items }
        // The system took it or refused it, and that is counted.
        ensures sent { OnOk result (IfSome (slice_get self.old.ethernet.items port) (λ w.
            self.new.sent ≡ sent_counted (place_of_end w.remotes end) self.old.sent)) }
        ensures refused { OnErr result (self.new.sent ≡ self.old.sent) }
        ensures failures { self.new.failures ≡ failures_counted result self.old.failures }
        ensures rest { (self.new.faults ≡ self.old.faults)
            × (self.new.filtered ≡ self.old.filtered)
            × (self.new.unknown_senders ≡ self.old.unknown_senders)
            × (self.new.last_unknown ≡ self.old.last_unknown) × (self.new.marks ≡ self.old.marks) }
    {
        let Some(to) = self.ethernet[port].remotes.place(end) else {
            return Ok(());
        };
        if self.ethernet[port].send(to, bytes).is_err() {
            saturating_increment(&mut self.failures);
            return Err(DeviceFault);
        }
        saturating_increment(&mut self.sent);
        Ok(())
    }

    fn receive(&mut self, port: usize, room: &mut [u8]) -> Result<Option<FrameCame>, DeviceFault>
        requires { port < length (remote_counts self.old.ethernet.items) }
        // A port without a mark is not asked, and nothing changes.
        ensures unmarked { is_port_marked self.old.marks port ≡ false
            → (result ≡ Ok None) × (self.new ≡ self.old) × (room.new ≡ room.old) }
        // The socket of a marked port is asked until something comes or nothing waits, at most
        // eight times. Each failure is counted. The mark is cleared exactly if nothing waits. What
        // came from a remote is returned. What came from an unknown sender is counted, and its
        // address is the last unknown one. What a remote sent that has no frame is counted at the
        // port. A frame, and nothing else, shows where a remote that is learned is.
        ensures marked { is_port_marked self.old.marks port ≡ true → IfOk result (λ answer.
            AsksMarkedPort port answer room.new self.old self.new) }
        ensures marks { IfOk result (λ answer. AsksPortWithMark port (is_some answer)
            (is_port_marked self.old.marks) (is_port_marked self.new.marks)) }
        ensures end { IfOk result (λ came. IfSome came (λ c.
            c.end < slice_index (remote_counts self.old.ethernet.items) port)) }
        ensures within { IfOk result (λ came. IfSome came (λ c. c.size ≤ length room.old)) }
        ensures answered { IfOk result (λ came. IsSome came
            → self.new.filtered ≡ self.old.filtered) }
        ensures filtered { self.old.filtered ≤ self.new.filtered }
        ensures goes_on { OnErr result ⊥ }
        ensures ends { remote_counts self.new.ethernet.items ≡ remote_counts self.old.ethernet.items }
        ensures faults { self.old.faults ≤ self.new.faults }
        ensures rest { (self.new.sent ≡ self.old.sent) × (self.new.failures ≡ self.old.failures) }
    {
        if !self.marks.is_marked(port) {
            return Ok(None);
        }
        match self.ethernet[port].receive(room, &mut self.faults) {
            Arrival::Frame(came) => Ok(Some(came)),
            Arrival::NoFrame => {
                saturating_increment(&mut self.filtered);
                Ok(None)
            }
            Arrival::Unknown(from) => {
                saturating_increment(&mut self.filtered);
                saturating_increment(&mut self.unknown_senders);
                self.last_unknown = place_of_sender(from);
                Ok(None)
            }
            Arrival::Nothing => {
                self.marks.clear_ready(port);
                Ok(None)
            }
            Arrival::Failed => Ok(None),
        }
    }
}
