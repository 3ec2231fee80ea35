//! The sockets of ipxnet servers.

ghost use Rattle.std.specs.Prelude.{◌≡◌, ◌<◌, ◌≤◌, ℕ, Bool, List, [], ◌∷◌, Option, Result, IfOk, IfSome, OnErr, OnOk, is_some, length, true};
ghost use Rattle.ipx_carrier.specs.declared.fault.DeviceFault.{DeviceFault};
ghost use Rattle.ipx_carrier.specs.Readiness.{AsksPortWithMark, MarksStay};
ghost use Rattle.ipx_ipxnet_ports.specs.declared.place_sockets.DatagramCame.{DatagramCame};
ghost use Rattle.ipx_ipxnet_ports.specs.PlaceTraffic.{PlaceDatagram, PlaceTraffic, PlacesPass, came_from_place, failures_with, place_datagram, place_datagrams};

use ipx_carrier::DeviceFault;
use std::net::SocketAddrV4;

/// A datagram that came to a port: its source address, and how many bytes it has.
#[derive(Clone, Copy, PartialEq, Eq)]
pub struct DatagramCame {
    pub from: SocketAddrV4,
    pub size: usize,
}

/// Sockets with ports, which receive datagrams from addresses and send datagrams to them. Ports are
/// numbered from 0.
///
/// They count their own failures, and nothing else can raise that count. What was received and sent
/// is stated only for sockets that record it. A datagram without an IPv4 source address is not
/// handed over, but counted.
pub trait PlaceSockets {
    /// How many ports there are. No call changes it.
    ghost port_count: { Self → ℕ };

    /// How often they failed. It stays at the greatest u64.
    ghost failed: { Self → ℕ };

    /// What was received and sent so far, if the sockets record that.
    ghost traffic: { Self → Option PlaceTraffic };

    /// How many datagrams had no IPv4 source address, or one that is not accepted. That never
    /// falls.
    ghost filtered: { Self → ℕ };

    /// Whether something may wait at each port. Sockets that keep no marks say so of each.
    ghost marked: { Self → ℕ → Bool } = { λ s port. true };

    /// What `receive` does: at this port it gives this answer, with this buffer then, and the
    /// sockets before become those after.
    ghost asks: { ℕ → Result (Option DatagramCame) DeviceFault → List ℕ → Self → Self → Type 0 };

    /// How `send` of this datagram may leave the sockets, failed or not.
    ghost sends: { Self → PlaceDatagram → Self → Type 0 };

    /// How many ports there are.
    fn ports(&self) -> usize
        ensures { result ≡ port_count self.now };

    /// How often they failed to send or to receive.
    fn failures(&self) -> u64
        ensures { result ≡ failed self.now };

    /// How many datagrams had no IPv4 source address, or one that is not accepted.
    fn from_nowhere(&self) -> u64
        ensures { result ≡ filtered self.now };

    /// Sends a datagram by a port to an address. If that fails nothing is sent.
    ///
    /// The port must exist.
    fn send(&mut self, port: usize, place: SocketAddrV4, bytes: &[u8]) -> Result<(), DeviceFault>
        requires { port < port_count self.old }
        ensures sent { OnOk result (PlacesPass (traffic self.old) (traffic self.new)
            [] (place_datagram port bytes.now place ∷ [])) }
        ensures sends { sends self.old (place_datagram port bytes.now place) self.new }
        ensures refused { OnErr result (traffic self.new ≡ traffic self.old) }
        ensures failures { failed self.new ≡ failures_with result (failed self.old) }
        ensures ports { port_count self.new ≡ port_count self.old }
        ensures marks { MarksStay (marked self.old) (marked self.new) }
        ensures filtered { filtered self.new ≡ filtered self.old };

    /// Takes the first datagram that waits at a port, if there is one. Its bytes go to the front of
    /// `room`. What doesn't fit of a longer one is lost.
    ///
    /// The port must exist.
    fn receive(&mut self, port: usize, room: &mut [u8]) -> Result<Option<DatagramCame>, DeviceFault>
        requires { port < port_count self.old }
        ensures asked { asks port result room.new self.old self.new }
        ensures received { IfOk result (λ came. PlacesPass (traffic self.old) (traffic self.new)
            (place_datagrams (came_from_place port room.new came)) []) }
        ensures within { IfOk result (λ came. IfSome came (λ c. c.size ≤ length room.old)) }
        ensures refused { OnErr result (traffic self.new ≡ traffic self.old) }
        ensures failures { failed self.new ≡ failures_with result (failed self.old) }
        ensures ports { port_count self.new ≡ port_count self.old }
        ensures marks { IfOk result (λ came. AsksPortWithMark port (is_some came)
            (marked self.old) (marked self.new)) }
        ensures marks_stay { OnErr result (MarksStay (marked self.old) (marked self.new)) }
        ensures filtered { filtered self.old ≤ filtered self.new };
}
