//! A device that sends and receives datagrams.

ghost use Rattle.std.specs.Prelude.{◌≡◌, ◌<◌, ◌≤◌, ◌+◌, ◌^◌, ℕ, Bool, true, List, [], ◌∷◌, Option, IfOk, OnOk, OnErr, IfSome, is_err, is_some, length};
ghost use Rattle.ipx_carrier.specs.Device.{Access, Datagram, Passes, Traffic, received_in};
ghost use Rattle.ipx_carrier.specs.Readiness.{AsksPortWithMark, MarksStay};
ghost use Rattle.ipx_carrier.specs.RunFaultNumbers.{device_failures};
ghost use Rattle.ipx_carrier.specs.Waits.{LeavesPort, WaitingDatagrams};

use crate::fault::DeviceFault;

/// A device with ports that send and receive datagrams. Its ports are numbered from 0.
///
/// It counts its own failures, and nothing else can raise that count. A device in memory also
/// records what it received and sent, and what waits. Contracts state these only for a device that
/// records them; for sockets they state nothing. A device may filter by IP address. Then it says
/// who may send and receive at each port, and how many datagrams it filtered. Its own contract
/// promises that it filters so.
pub trait Datagrams {
    /// How many ports there are.
    ghost port_count: { Self → ℕ };

    /// How often it failed.
    ghost failed: { Self → ℕ };

    /// What it received and sent so far, if the device records that.
    ghost traffic: { Self → Option Traffic };

    /// What waits to be received at each port, if the device can tell. A device that receives from
    /// a network can't.
    ghost waiting: { Self → Option WaitingDatagrams };

    /// How a call of `send` or `receive`, failed or not, may leave the device. A device that can't
    /// tell when it fails accepts any change.
    ghost fails: { Self → Bool → Self → Type 0 };

    /// Who may send and receive at each port, if the device filters. No call changes it.
    ghost access: { Self → List Access };

    /// How many datagrams it filtered. That never falls.
    ghost filtered: { Self → ℕ };

    /// Whether something may wait at each port. A device that keeps no marks says so of each.
    ghost marked: { Self → ℕ → Bool } = { λ s port. true };

    /// How asking a port, into a buffer of this size, may leave the device if it gave this answer.
    ghost receives: { Self → ℕ → ℕ → Option (List ℕ) → Self → Type 0 };

    /// How sending this datagram may leave the device.
    ghost sends: { Self → Datagram → Self → Type 0 };

    /// How failing to receive at a port, into a buffer of this size, may leave the device. It is
    /// `⊥` if that never fails.
    ghost fails_to_receive: { Self → ℕ → ℕ → Self → Type 0 };

    /// How failing to send this datagram may leave the device.
    ghost fails_to_send: { Self → Datagram → Self → Type 0 };

    /// How many ports it has.
    fn ports(&self) -> usize
        ensures { result ≡ port_count self.now };

    /// How often it failed to send or to receive.
    fn failures(&self) -> u64
        ensures { result ≡ failed self.now };

    /// Sends a datagram from a port to an IP address. If this fails, nothing is sent.
    ///
    /// The port must exist, and the count of failures must be able to rise.
    fn send(&mut self, port: usize, to: [u8; 4], bytes: &[u8]) -> Result<(), DeviceFault>
        requires there { port < port_count self.old }
        requires countable { failed self.old + 1 < 2 ^ 64 }
        ensures sent { OnOk result (Passes (traffic self.old) (traffic self.new)
            [] (record { port = port; to = to; bytes = bytes.now } ∷ [])) }
        ensures sends { OnOk result (sends self.old
            (record { port = port; to = to; bytes = bytes.now }) self.new) }
        ensures refused { OnErr result (traffic self.new ≡ traffic self.old) }
        ensures fails_to_send { OnErr result (fails_to_send self.old
            (record { port = port; to = to; bytes = bytes.now }) self.new) }
        ensures waiting { waiting self.new ≡ waiting self.old }
        ensures fails { fails self.old (is_err result) self.new }
        ensures failures { failed self.new ≡ device_failures result (failed self.old) }
        ensures ports { port_count self.new ≡ port_count self.old }
        ensures access { access self.new ≡ access self.old }
        ensures filtered { filtered self.old ≤ filtered self.new }
        ensures marks { MarksStay (marked self.old) (marked self.new) };

    /// Takes the first datagram that waits at a port, if there is one. Its bytes go to the front of
    /// `room`, and the number of them is returned. What doesn't fit of a longer datagram is lost.
    ///
    /// The port must exist, and the count of failures must be able to rise.
    fn receive(&mut self, port: usize, room: &mut [u8]) -> Result<Option<usize>, DeviceFault>
        requires there { port < port_count self.old }
        requires countable { failed self.old + 1 < 2 ^ 64 }
        ensures received { IfOk result (λ count. Passes (traffic self.old) (traffic self.new)
            (record { port = port; bytes = received_in room.new count } ∷ []) []) }
        ensures receives { IfOk result (λ count. receives self.old port (length room.old)
            (received_in room.new count) self.new) }
        ensures within { IfOk result (λ count. IfSome count (λ n. n ≤ length room.old)) }
        ensures leaves { IfOk result (λ count. LeavesPort (length room.old) port
            (waiting self.old) (received_in room.new count) (waiting self.new)) }
        ensures refused { OnErr result (traffic self.new ≡ traffic self.old) }
        ensures fails_to_receive { OnErr result
            (fails_to_receive self.old port (length room.old) self.new) }
        ensures waiting { OnErr result (waiting self.new ≡ waiting self.old) }
        ensures fails { fails self.old (is_err result) self.new }
        ensures failures { failed self.new ≡ device_failures result (failed self.old) }
        ensures ports { port_count self.new ≡ port_count self.old }
        ensures access { access self.new ≡ access self.old }
        ensures filtered { filtered self.old ≤ filtered self.new }
        ensures marks { IfOk result (λ count. AsksPortWithMark port (is_some count)
            (marked self.old) (marked self.new)) }
        ensures marks_stay { OnErr result (MarksStay (marked self.old) (marked self.new)) };
}

/// A device that tells how many datagrams it filtered.
pub trait CountsFiltered: Datagrams {
    /// How many datagrams it filtered so far.
    fn filtered(&self) -> u128
        ensures { result ≡ Self.filtered self.now };
}
