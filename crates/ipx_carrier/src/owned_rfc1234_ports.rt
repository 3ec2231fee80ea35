//! A port driver over datagrams to IP addresses that owns its device.

ghost use Rattle.std.specs.Prelude.{◌≡◌};

use crate::datagrams::{CountsFiltered, Datagrams};
use crate::fault::DeviceFault;
use crate::port_driver::{PacketSent, PortDriver, PortDriverFilters};
use crate::rfc1234_ports::Rfc1234Ports;
use ipx_wire::Node;

/// The same port driver as [`Rfc1234Ports`], which owns its device and peers.
#[derive(Drop)]
pub struct OwnedRfc1234Ports<D: Datagrams + Drop> {
    /// The device.
    pub device: D,
    /// The IP addresses of the other nodes, for each port. A port without a list has none.
    pub peers: Vec<Vec<[u8; 4]>>,
}

impl<D: Datagrams + Drop> OwnedRfc1234Ports<D> {
    /// A port driver of a device, with the peers of its ports.
    pub fn new(device: D, peers: Vec<Vec<[u8; 4]>>) -> OwnedRfc1234Ports<D>
        ensures device { result.device ≡ device }
        ensures peers { result.peers ≡ peers }
    {
        OwnedRfc1234Ports { device, peers }
    }
}

impl<D: Datagrams + Drop> PortDriver for OwnedRfc1234Ports<D> {
    ghost use Rattle.std.specs.Prelude.{◌≡◌, List};
    ghost use Rattle.ipx_carrier.specs.Device.{Access, Datagram};
    ghost use Rattle.ipx_carrier.specs.DriverTurns.{SendsEach, SendsSomeOf};
    ghost use Rattle.ipx_carrier.specs.Turns.{Peers, by_ip, copies_of, peers_of};

    ghost Copy = { Datagram };

    // The peers, and who may send at each port of the device.
    ghost Kept = { Peers × List Access };

    ghost kept = { λ s. (peers_of s.peers.items, D.access s.device) };

    ghost port_count = { λ s. D.port_count s.device };

    ghost failed = { λ s. D.failed s.device };

    ghost transmissions = { λ s. by_ip (peers_of s.peers.items) };

    ghost traffic = { λ s. D.traffic s.device };

    ghost waiting = { λ s. D.waiting s.device };

    ghost access = { λ s. D.access s.device };

    ghost filtered = { λ s. D.filtered s.device };

    ghost marked = { λ s. D.marked s.device };

    ghost receives = { λ s port size answer t. (t.peers ≡ s.peers)
        × D.receives s.device port size answer t.device };

    // The device sends each copy, in order.
    ghost sends = { λ s packet t. (t.peers ≡ s.peers) × SendsEach D.sends
        (copies_of (by_ip (peers_of s.peers.items)) packet) s.device t.device };

    ghost fails_to_receive = { λ s port size t. (t.peers ≡ s.peers)
        × D.fails_to_receive s.device port size t.device };

    // The device sends the copies before one that it fails to send.
    ghost fails_to_send = { λ s packet t. (t.peers ≡ s.peers) × SendsSomeOf D.sends D.fails_to_send
        (copies_of (by_ip (peers_of s.peers.items)) packet) s.device t.device };

    fn ports(&self) -> usize {
        self.device.ports()
    }

    fn failures(&self) -> u64 {
        self.device.failures()
    }

    fn send(&mut self, port: usize, node: Node, packet: &[u8]) -> Result<PacketSent, DeviceFault> {
        let mut driver = Rfc1234Ports {
            datagrams: &mut self.device,
            peers: &self.peers,
        };
        driver.send(port, node, packet)
    }

    fn receive(&mut self, port: usize, room: &mut [u8]) -> Result<Option<usize>, DeviceFault> {
        self.device.receive(port, room)
    }
}

impl<D: CountsFiltered + Drop> PortDriverFilters for OwnedRfc1234Ports<D> {
    fn filtered(&self) -> u128 {
        self.device.filtered()
    }
}
