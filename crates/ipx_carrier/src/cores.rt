//! What a run drives over a device: a router or a host.

ghost use Rattle.std.specs.Prelude.{◌≡◌, ◌<◌, ◌≤◌, ℕ, List, Option, IfOk, OnOk, OnErr, IfSome, length};
ghost use Rattle.ipx_carrier.specs.Turns.{Given};
ghost use Rattle.ipx_carrier.specs.GivenPackets.{given_in};

use ipx_wire::{Node, OutOfMemory};
use std::alloc::Global;

/// A router or a host, as a run sees it. It receives datagrams, and is asked for packets to send.
/// Its ports are those of the device, numbered from 0.
pub trait Core {
    /// How many ports it has.
    ghost port_count: { Self → ℕ };

    /// It receives bytes from a port at a given time, and is then as the last argument says.
    ghost hears: { Self → ℕ → List ℕ → ℕ → Self → Type 0 };

    /// Asked at a given time, it gives a packet or none, and is then as the last argument says.
    ghost gives: { Self → ℕ → Option Given → Self → Type 0 };

    /// It runs out of memory as it receives bytes from a port at a given time. It is then as the
    /// last argument says.
    ghost hear_out_of_memory: { Self → ℕ → List ℕ → ℕ → Self → Type 0 };

    /// It runs out of memory as it is asked at a given time. It is then as the last argument says.
    ghost next_out_of_memory: { Self → ℕ → Self → Type 0 };

    /// How many ports it has.
    fn ports(&self) -> usize
        ensures { result ≡ port_count self.now };

    /// Receives bytes from a port, at a given time in milliseconds. The port must exist.
    fn hear(
        &mut self,
        alloc: Global,
        port: usize,
        bytes: &[u8],
        now: u64,
    ) -> Result<(), OutOfMemory>
        requires { port < port_count self.old }
        ensures heard { OnOk result (hears self.old port bytes.now now self.new) }
        ensures refused { OnErr result (hear_out_of_memory self.old port bytes.now now self.new) }
        ensures ports { port_count self.new ≡ port_count self.old };

    /// Gives the next packet to send, if there is one. Returns the port, the destination node
    /// there, and the packet's length; the bytes are at the front of `room`. The caller must give
    /// room for 1,536 bytes.
    fn next(
        &mut self,
        alloc: Global,
        now: u64,
        room: &mut [u8],
    ) -> Result<Option<(usize, Node, usize)>, OutOfMemory>
        requires { 1536 ≤ length room.old }
        ensures given { IfOk result (λ given.
            gives self.old now (given_in room.new given) self.new) }
        ensures refused { OnErr result (next_out_of_memory self.old now self.new) }
        ensures within { IfOk result (λ given. IfSome given (λ g. g.2 ≤ length room.old)) }
        ensures there { IfOk result (λ given. IfSome given (λ g. g.0 < port_count self.old)) }
        ensures ports { port_count self.new ≡ port_count self.old };
}
