//! How a core's packets leave its ports, and how packets come in.

ghost use Rattle.std.specs.Prelude.{◌≡◌, ◌<◌, ◌≤◌, ◌+◌, ◌^◌, ℕ, Bool, true, List, [], ◌∷◌, Option, IfOk, OnOk, OnErr, IfSome, is_some, length};
ghost use Rattle.ipx_carrier.specs.Device.{Access, Passes, TrafficOf, received_in};
ghost use Rattle.ipx_carrier.specs.RunFaultNumbers.{device_failures};
ghost use Rattle.ipx_carrier.specs.PortDrivers.{SendsFrontOf, copies_count, count_in};
ghost use Rattle.ipx_carrier.specs.Readiness.{AsksPortWithMark, MarksStay};
ghost use Rattle.ipx_carrier.specs.Turns.{Given, copies_of};
ghost use Rattle.ipx_carrier.specs.Waits.{LeavesPort, WaitingDatagrams};

use crate::fault::DeviceFault;
use ipx_wire::Node;

/// What became of a packet that a port driver was given.
#[derive(Clone, Copy, PartialEq, Eq)]
pub enum PacketSent {
    /// It was not sent: its node has no address there, or it is too long for the port.
    Unmapped,
    /// It was sent this many times.
    Transmitted(usize),
}

/// The driver of a core's ports, numbered from 0: how a packet for a node leaves a port, and what
/// is received there for the core.
///
/// It counts its own failures, and nothing else can raise that count. Contracts state what was
/// received and sent, and what waits, only for a driver that records it. For another driver they
/// state nothing of it.
pub trait PortDriver {
    /// What is sent for a packet, such as a datagram.
    ghost Copy: { Type 0 };

    /// What no call changes, besides what the clauses name.
    ghost Kept: { Type 0 } = { Unit {0} };

    /// Its value here.
    ghost kept: { Self → Self.Kept };

    /// How many ports there are.
    ghost port_count: { Self → ℕ };

    /// How often it failed.
    ghost failed: { Self → ℕ };

    /// The copies that are sent for a packet for a node, or that its node has no address. No call
    /// changes it.
    ghost transmissions: { Self → Given → Option (List Self.Copy) };

    /// What it received and sent so far, if it records that.
    ghost traffic: { Self → Option (TrafficOf Self.Copy) };

    /// What waits for the core at each port, if the driver can tell.
    ghost waiting: { Self → Option WaitingDatagrams };

    /// Who may send and receive at each port, if the driver filters. No call changes it.
    ghost access: { Self → List Access };

    /// How much of what arrived was filtered. That never falls.
    ghost filtered: { Self → ℕ };

    /// Whether something may wait at each port. A driver that keeps no marks says so of each.
    ghost marked: { Self → ℕ → Bool } = { λ s port. true };

    /// How asking a port, into a buffer of this size, may leave the driver if it gave this answer.
    ghost receives: { Self → ℕ → ℕ → Option (List ℕ) → Self → Type 0 };

    /// How sending this packet may leave the driver, or finding that its node has no address.
    ghost sends: { Self → Given → Self → Type 0 };

    /// How failing to receive at a port, into a buffer of this size, may leave the driver. It is
    /// `⊥` if that never fails.
    ghost fails_to_receive: { Self → ℕ → ℕ → Self → Type 0 };

    /// How failing to send this packet may leave the driver.
    ghost fails_to_send: { Self → Given → Self → Type 0 };

    /// How many ports there are.
    fn ports(&self) -> usize
        ensures { result ≡ port_count self.now };

    /// How often it failed to send or to receive.
    fn failures(&self) -> u64
        ensures { result ≡ failed self.now };

    /// Sends a packet by a port to a node there, as each of its copies, in order. At a failure the
    /// copies before it were sent.
    ///
    /// The port must exist, and the count of failures must be able to rise.
    fn send(&mut self, port: usize, node: Node, packet: &[u8]) -> Result<PacketSent, DeviceFault>
        requires there { port < port_count self.old }
        requires countable { failed self.old + 1 < 2 ^ 64 }
        ensures sent { OnOk result (Passes (traffic self.old) (traffic self.new) []
            (copies_of (transmissions self.old)
            (record { port = port; node = node; bytes = packet.now }))) }
        ensures count { IfOk result (λ sent. count_in sent ≡ copies_count (transmissions self.old)
            (record { port = port; node = node; bytes = packet.now })) }
        ensures sends { OnOk result (sends self.old
            (record { port = port; node = node; bytes = packet.now }) self.new) }
        ensures refused { OnErr result (SendsFrontOf (copies_of (transmissions self.old)
            (record { port = port; node = node; bytes = packet.now }))
            (traffic self.old) (traffic self.new)) }
        ensures fails_to_send { OnErr result (fails_to_send self.old
            (record { port = port; node = node; bytes = packet.now }) self.new) }
        ensures waiting { waiting self.new ≡ waiting self.old }
        ensures failures { failed self.new ≡ device_failures result (failed self.old) }
        ensures ports { port_count self.new ≡ port_count self.old }
        ensures transmissions { transmissions self.new ≡ transmissions self.old }
        ensures access { access self.new ≡ access self.old }
        ensures filtered { filtered self.old ≤ filtered self.new }
        ensures marks { MarksStay (marked self.old) (marked self.new) }
        ensures kept { Self.kept self.new ≡ Self.kept self.old };

    /// Takes what comes first for the core at a port, if there is something. Its bytes go to the
    /// front of `room`, and the number of them is returned. What doesn't fit is lost.
    ///
    /// The port must exist, and the count of failures must be able to rise.
    fn receive(&mut self, port: usize, room: &mut [u8]) -> Result<Option<usize>, DeviceFault>
        requires there { port < port_count self.old }
        requires countable { failed self.old + 1 < 2 ^ 64 }
        ensures received { IfOk result (λ count. Passes (traffic self.old) (traffic self.new)
            (record { port = port; bytes = received_in room.new count } ∷ []) []) }
        ensures receives { IfOk result (λ count. receives self.old port (length room.old)
            (received_in room.new count) self.new) }
        ensures within { IfOk result (λ count. IfSome count (λ n. n ≤ length room.old)) }
        ensures leaves { IfOk result (λ count. LeavesPort (length room.old) port
            (waiting self.old) (received_in room.new count) (waiting self.new)) }
        ensures refused { OnErr result (traffic self.new ≡ traffic self.old) }
        ensures fails_to_receive { OnErr result
            (fails_to_receive self.old port (length room.old) self.new) }
        ensures waiting { OnErr result (waiting self.new ≡ waiting self.old) }
        ensures failures { failed self.new ≡ device_failures result (failed self.old) }
        ensures ports { port_count self.new ≡ port_count self.old }
        ensures transmissions { transmissions self.new ≡ transmissions self.old }
        ensures access { access self.new ≡ access self.old }
        ensures filtered { filtered self.old ≤ filtered self.new }
        ensures marks { IfOk result (λ count. AsksPortWithMark port (is_some count)
            (marked self.old) (marked self.new)) }
        ensures marks_stay { OnErr result (MarksStay (marked self.old) (marked self.new)) }
        ensures kept { Self.kept self.new ≡ Self.kept self.old };
}

/// A port driver that tells how much it filtered.
pub trait PortDriverFilters: PortDriver {
    /// How much it filtered so far.
    fn filtered(&self) -> u128
        ensures { result ≡ Self.filtered self.now };
}
