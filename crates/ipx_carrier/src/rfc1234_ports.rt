//! A port driver over datagrams to IP addresses, by RFC 1234 (Tunneling IPX Traffic through IP
//! Networks).

ghost use Rattle.std.specs.Prelude.{◌≡◌, ◌<◌, ◌≤◌, ◌+◌, ◌^◌, [], OnErr, OnOk, map, slice_get, unwrap_or};
ghost use Rattle.ipx_carrier.specs.Device.{Passes};
ghost use Rattle.ipx_carrier.specs.DriverTurns.{SendsEach, SendsSomeOf};
ghost use Rattle.ipx_carrier.specs.Readiness.{MarksStay};
ghost use Rattle.ipx_carrier.specs.RunFaultNumbers.{device_failures};
ghost use Rattle.ipx_carrier.specs.PortDrivers.{SendsFrontOf};
ghost use Rattle.ipx_carrier.specs.Turns.{by_ip, copies_of, peers_of};

use crate::datagrams::{CountsFiltered, Datagrams};
use crate::fault::DeviceFault;
use crate::mapping::ip_of;
use crate::port_driver::{PacketSent, PortDriver, PortDriverFilters};
use ipx_wire::Node;

/// A port driver over a device of datagrams. It sends a broadcast to each peer of its port, in
/// order, and another packet to the IP address of its node. A packet is not sent if its node has no
/// IP address. Received datagrams go to the core unchanged.
#[derive(Drop)]
pub struct Rfc1234Ports<'a, D> {
    /// The device.
    pub datagrams: &'a mut D,
    /// The IP addresses of the other nodes, for each port. A port without a list has none.
    pub peers: &'a [Vec<[u8; 4]>],
}

/// Sends bytes by a port to each peer, in order.
fn send_to_each<D: Datagrams>(
    datagrams: &mut D,
    port: usize,
    peers: &[[u8; 4]],
    bytes: &[u8],
) -> Result<(), DeviceFault>
    requires there { port < D.port_count datagrams.old }
    requires countable { D.failed datagrams.old + 1 < 2 ^ 64 }
    ensures sent { OnOk result (Passes (D.traffic datagrams.old) (D.traffic datagrams.new) []
        (map (λ to. record { port = port; to = to; bytes = bytes.now }) peers.now)) }
    ensures sends { OnOk result (SendsEach D.sends
        (map (λ to. record { port = port; to = to; bytes = bytes.now }) peers.now)
        datagrams.old datagrams.new) }
    ensures fault { OnErr result (SendsFrontOf
        (map (λ to. record { port = port; to = to; bytes = bytes.now }) peers.now)
        (D.traffic datagrams.old) (D.traffic datagrams.new)) }
    ensures fails { OnErr result (SendsSomeOf D.sends D.fails_to_send
        (map (λ to. record { port = port; to = to; bytes = bytes.now }) peers.now)
        datagrams.old datagrams.new) }
    ensures waiting { D.waiting datagrams.new ≡ D.waiting datagrams.old }
    ensures failures { D.failed datagrams.new ≡ device_failures result (D.failed datagrams.old) }
    ensures ports { D.port_count datagrams.new ≡ D.port_count datagrams.old }
    ensures access { D.access datagrams.new ≡ D.access datagrams.old }
    ensures filtered { D.filtered datagrams.old ≤ D.filtered datagrams.new }
    ensures marks { MarksStay (D.marked datagrams.old) (D.marked datagrams.new) }
{
    for to in peers {
        datagrams.send(port, *to, bytes)?;
    }
    Ok(())
}

/// The peers of a port.
fn peers_at(peers: &[Vec<[u8; 4]>], port: usize) -> &[[u8; 4]]
    ensures { result.now ≡ unwrap_or (slice_get (peers_of peers.now) port) [] }
{
    match peers.get(port) {
        Some(here) => here,
        None => &[],
    }
}

impl<'a, D: Datagrams> PortDriver for Rfc1234Ports<'a, D> {
    ghost use Rattle.ipx_carrier.specs.Device.{Datagram};
    ghost use Rattle.std.specs.Borrow.{GName};

    ghost Copy = { Datagram };

    // No call changes which device it uses.
    ghost Kept = { GName };

    ghost kept = { λ s. s.datagrams.ghost_name };

    ghost port_count = { λ s. D.port_count s.datagrams.now };

    ghost failed = { λ s. D.failed s.datagrams.now };

    ghost transmissions = { λ s. by_ip (peers_of s.peers.now) };

    ghost traffic = { λ s. D.traffic s.datagrams.now };

    ghost waiting = { λ s. D.waiting s.datagrams.now };

    ghost access = { λ s. D.access s.datagrams.now };

    ghost filtered = { λ s. D.filtered s.datagrams.now };

    ghost marked = { λ s. D.marked s.datagrams.now };

    ghost receives = { λ s port size answer t. (t.peers ≡ s.peers)
        × D.receives s.datagrams.now port size answer t.datagrams.now };

    // The device sends each copy, in order.
    ghost sends = { λ s packet t. (t.peers ≡ s.peers) × SendsEach D.sends
        (copies_of (by_ip (peers_of s.peers.now)) packet) s.datagrams.now t.datagrams.now };

    ghost fails_to_receive = { λ s port size t. (t.peers ≡ s.peers)
        × D.fails_to_receive s.datagrams.now port size t.datagrams.now };

    // The device sends the copies before one that it fails to send.
    ghost fails_to_send = { λ s packet t. (t.peers ≡ s.peers) × SendsSomeOf D.sends D.fails_to_send
        (copies_of (by_ip (peers_of s.peers.now)) packet) s.datagrams.now t.datagrams.now };

    fn ports(&self) -> usize {
        self.datagrams.ports()
    }

    fn failures(&self) -> u64 {
        self.datagrams.failures()
    }

    fn send(&mut self, port: usize, node: Node, packet: &[u8]) -> Result<PacketSent, DeviceFault> {
        if node == Node::BROADCAST {
            let peers = peers_at(self.peers, port);
            send_to_each(self.datagrams, port, peers, packet)?;
            return Ok(PacketSent::Transmitted(peers.len()));
        }
        let Ok(to) = ip_of(node) else {
            return Ok(PacketSent::Unmapped);
        };
        self.datagrams.send(port, to, packet)?;
        Ok(PacketSent::Transmitted(1))
    }

    fn receive(&mut self, port: usize, room: &mut [u8]) -> Result<Option<usize>, DeviceFault> {
        self.datagrams.receive(port, room)
    }
}

impl<'a, D: CountsFiltered> PortDriverFilters for Rfc1234Ports<'a, D> {
    fn filtered(&self) -> u128 {
        self.datagrams.filtered()
    }
}
