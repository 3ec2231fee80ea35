//! A host or a router that runs over sockets.

ghost use Rattle.std.specs.Prelude.{◌≡◌, OnOk, Err, length};
ghost use Rattle.ipx_carrier.specs.Turns.{peers_of};
ghost use Rattle.ipx_sim_udp.specs.RunnerTurns.{CanTurn, TakesRunnerTurn};

use ipx_carrier::{
    Core, Datagrams, OwnedRfc1234Ports, RunFault, SteppedClock, UdpDatagrams, run_once_over_ports,
};
use std::alloc::Global;

/// By how many milliseconds a clock advances each turn.
pub const STEP: u64 = 10;

/// A core with its sockets, the peers of each port, and its clock.
#[derive(Drop)]
pub struct Runner<C: Core + Drop> {
    pub core: C,
    ports: OwnedRfc1234Ports<UdpDatagrams>,
    clock: SteppedClock,
}

impl<C: Core + Drop> Runner<C> {
    /// A runner whose clock begins at 0.
    pub fn new(core: C, device: UdpDatagrams, peers: Vec<Vec<[u8; 4]>>) -> Runner<C>
        ensures core { result.core ≡ core }
        ensures device { result.ports.device ≡ device }
        ensures peers { peers_of result.ports.peers.items ≡ peers_of peers.items }
        ensures clock { (result.clock.moment ≡ 0) × (result.clock.step ≡ 10) }
    {
        Runner {
            core,
            ports: OwnedRfc1234Ports::new(device, peers),
            clock: SteppedClock::new(0, STEP),
        }
    }

    /// Takes one turn, and returns how many packets had a node without an IP address. A device with
    /// another number of ports than the core, or one that failed before, counts as a device that
    /// fails.
    pub fn turn(&mut self, alloc: Global) -> Result<u128, RunFault>
        ensures turn { CanTurn (C.port_count self.old.core)
            (length self.old.ports.device.sockets.items) (length self.old.ports.peers.items)
            self.old.ports.device.failures
            → TakesRunnerTurn C.hears C.hear_out_of_memory C.gives C.next_out_of_memory (C.port_count self.old.core)
            self.old.ports self.new.ports self.old.clock self.new.clock
            self.old.core self.new.core result }
        ensures refused { (CanTurn (C.port_count self.old.core)
            (length self.old.ports.device.sockets.items) (length self.old.ports.peers.items)
            self.old.ports.device.failures → ⊥) → (result ≡ Err RunFault.Device)
            × (self.new ≡ self.old) }
        ensures begun { OnOk result (CanTurn (C.port_count self.old.core)
            (length self.old.ports.device.sockets.items) (length self.old.ports.peers.items)
            self.old.ports.device.failures) }
        ensures failures { self.old.ports.device.failures ≡ 0
            → OnOk result (self.new.ports.device.failures ≡ 0) }
        ensures peers { self.new.ports.peers ≡ self.old.ports.peers }
        ensures ports { C.port_count self.new.core ≡ C.port_count self.old.core }
        ensures sockets { length self.new.ports.device.sockets.items
            ≡ length self.old.ports.device.sockets.items }
    {
        let ports = self.core.ports();
        if self.ports.device.failures() > 0 || self.ports.peers.len() != ports {
            return Err(RunFault::Device);
        }
        match run_once_over_ports(alloc, &mut self.core, &mut self.ports, &mut self.clock) {
            Ok(report) => Ok(report.unmapped),
            Err(fault) => Err(fault),
        }
    }
}
