//! The place of a port, bound to send there.

ghost use Rattle.std.specs.Prelude.{◌≡◌};

use crate::fault::FarewellFault;
use ipx_carrier::{OwnedRfc1234Ports, PortDriver, socket_addr};
use ipx_config::{EthernetPortConfig, PortConfig, Rfc1234PortConfig};
use ipx_ethernet::{EthernetPort, Switch};
use ipx_ethernet_ports::{EthernetPorts, EthernetSockets};
use ipx_sockets::{BindFault, UdpSockets, bind_error, remotes_of};
use ipx_wire::Node;
use std::alloc::Global;
use std::io::ErrorKind;
use std::net::Net;

/// The bound socket of a port, with all peers and members that the port sends to.
#[derive(Drop)]
pub enum Outlet {
    Datagrams(OwnedRfc1234Ports<UdpSockets>),
    Ethernet(EthernetPorts<EthernetSockets>),
    /// A port for ipxnet, where nothing is sent.
    Nowhere,
}

/// The same fault, of the port with this number.
fn of_port(number: usize, fault: BindFault) -> FarewellFault {
    match fault {
        BindFault::OutOfMemory => FarewellFault::OutOfMemory,
        BindFault::Port(_, error) => FarewellFault::Bind(BindFault::Port(number, error)),
    }
}

/// The socket of an RFC 1234 port.
fn datagrams<R: Net>(
    rt: &R,
    alloc: Global,
    number: usize,
    port: &Rfc1234PortConfig,
) -> Result<Outlet, FarewellFault> {
    let peers = vec![in alloc; Vec::from_slice(alloc, &port.peers)?]?;
    match UdpSockets::bind_one(rt, alloc, port.address, port.udp_port) {
        Ok(sockets) => Ok(Outlet::Datagrams(OwnedRfc1234Ports::new(sockets, peers))),
        Err(fault) => Err(of_port(number, fault)),
    }
}

/// The socket of an Ethernet port, and its switch. Nothing is sent to a remote whose place is
/// learned, since no frame of it came.
fn ethernet<R: Net>(
    rt: &R,
    alloc: Global,
    number: usize,
    port: &EthernetPortConfig,
) -> Result<Outlet, FarewellFault> {
    let own = EthernetPort {
        own: port.node,
        network: port.network,
        encapsulation: port.encapsulation,
    };
    let switches = vec![in alloc; Switch::new(alloc, own, port.switched)?]?;
    let remotes = remotes_of(alloc, &port.remotes)?;
    let mut sockets = EthernetSockets::new(alloc);
    let at = socket_addr(port.address, port.udp_port);
    match sockets.bind(rt, at, remotes, port.tunnel) {
        Ok(()) => Ok(Outlet::Ethernet(EthernetPorts::new(sockets, switches))),
        Err(error) if error.kind() == ErrorKind::OutOfMemory => Err(FarewellFault::OutOfMemory),
        Err(error) => {
            let error = bind_error(port.address, port.udp_port, &error);
            Err(FarewellFault::Bind(BindFault::Port(number, error)))
        }
    }
}

impl Outlet {
    /// Binds the place of the port with this number. A port for ipxnet is not bound.
    pub fn bind<R: Net>(
        rt: &R,
        alloc: Global,
        number: usize,
        port: &PortConfig,
    ) -> Result<Outlet, FarewellFault> {
        match port {
            PortConfig::Rfc1234(port) => datagrams(rt, alloc, number, port),
            PortConfig::Ethernet(port) => ethernet(rt, alloc, number, port),
            PortConfig::Ipxnet(_) => Ok(Outlet::Nowhere),
        }
    }

    /// Sends a packet to all nodes of the port's network. What the system refuses is lost, as on
    /// the way.
    pub fn send(&mut self, packet: &[u8]) {
        match self {
            Outlet::Datagrams(ports) if ports.ports() > 0 => {
                let _ = ports.send(0, Node::BROADCAST, packet);
            }
            Outlet::Ethernet(ports) if ports.ports() > 0 => {
                let _ = ports.send(0, Node::BROADCAST, packet);
            }
            _ => {}
        }
    }
}
