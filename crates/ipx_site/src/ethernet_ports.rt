//! The Ethernet ports of a router: their sockets and their switches.

ghost use Rattle.std.specs.Prelude.{◌≡◌, ◌++◌, ◌∷◌, [], IfOk, OnOk, map, true};
ghost use Rattle.ipx_config.specs.PortLists.{end_places, ethernet_places, ethernet_ports, learning_ports, learns_place, listed_places};
ghost use Rattle.ipx_site.specs.KindPorts.{switch_of, ethernet_port_of};
ghost use Rattle.ipx_carrier.specs.Traces.{v4_at};
ghost use Rattle.ipx_ethernet_ports.specs.EthernetAddresses.{bound_places, ethernet_events, learning_sockets, remote_drops, remote_places, remote_tunnels};
ghost use Rattle.ipx_ethernet_ports.specs.TunnelDrops.{no_drops};

use ipx_carrier::socket_addr;
use ipx_config::{EthernetPortConfig, PortConfig};
use ipx_ethernet::{EthernetPort, Switch};
use ipx_ethernet_ports::{EthernetPorts, EthernetSockets};
use ipx_sockets::{BindFault, bind_error, remotes_of};
use std::alloc::{AllocError, Global};
use std::io::ErrorKind;
use std::net::Net;

/// Converts the configuration of an Ethernet port.
fn ethernet_port(port: &EthernetPortConfig) -> EthernetPort
    ensures { result ≡ ethernet_port_of port.now }
{
    EthernetPort {
        own: port.node,
        network: port.network,
        encapsulation: port.encapsulation,
    }
}

/// A new switch for each Ethernet port.
fn switches_of(alloc: Global, ports: &[PortConfig]) -> Result<Vec<Switch>, AllocError>
    ensures { IfOk result (λ v. v.items ≡ map switch_of (ethernet_ports ports.now)) }
{
    let mut switches = Vec::new(alloc);
    for port in ports {
        if let PortConfig::Ethernet(port) = port {
            let switch = Switch::new(alloc, ethernet_port(port), port.switched)?;
            switches.push(switch)?;
        }
    }
    Ok(switches)
}

/// Binds the socket of the Ethernet port with this number.
fn bind_ethernet_port<R: Net>(
    rt: &R,
    alloc: Global,
    sockets: &mut EthernetSockets,
    number: usize,
    port: &EthernetPortConfig,
) -> Result<(), BindFault>
    ensures at { OnOk result (bound_places sockets.new.ethernet.items
        ≡ bound_places sockets.old.ethernet.items ++ v4_at port.now.address port.now.udp_port ∷ []) }
    ensures ends { OnOk result (remote_places sockets.new.ethernet.items
        ≡ remote_places sockets.old.ethernet.items ++ listed_places port.now.remotes ∷ []) }
    ensures learned { OnOk result (learning_sockets sockets.new.ethernet.items
        ≡ learning_sockets sockets.old.ethernet.items ++ learns_place port.now.remotes ∷ []) }
    ensures tunnels { OnOk result (remote_tunnels sockets.new.ethernet.items
        ≡ remote_tunnels sockets.old.ethernet.items ++ port.now.tunnel ∷ []) }
    ensures drops { OnOk result (remote_drops sockets.new.ethernet.items
        ≡ remote_drops sockets.old.ethernet.items ++ no_drops ∷ []) }
    ensures fresh { OnOk result (ethernet_events sockets.new.ethernet.items
        ≡ ethernet_events sockets.old.ethernet.items ++ [] ∷ []) }
    ensures marks { OnOk result (sockets.new.marks ≡ sockets.old.marks ++ true ∷ []) }
{
    let Ok(remotes) = remotes_of(alloc, &port.remotes) else {
        return Err(BindFault::OutOfMemory);
    };
    let at = socket_addr(port.address, port.udp_port);
    match sockets.bind(rt, at, remotes, port.tunnel) {
        Ok(()) => Ok(()),
        Err(error) if error.kind() == ErrorKind::OutOfMemory => Err(BindFault::OutOfMemory),
        Err(error) => {
            let error = bind_error(port.address, port.udp_port, &error);
            Err(BindFault::Port(number, error))
        }
    }
}

/// Binds the sockets of the Ethernet ports. It stops at the first that cannot be bound and returns
/// its port; then no socket stays bound.
fn bind_ethernet_ports<R: Net>(
    rt: &R,
    alloc: Global,
    ports: &[PortConfig],
) -> Result<EthernetSockets, BindFault>
    ensures at { IfOk result (λ s.
        bound_places s.ethernet.items ≡ ethernet_places (ethernet_ports ports.now)) }
    ensures ends { IfOk result (λ s.
        remote_places s.ethernet.items ≡ end_places (ethernet_ports ports.now)) }
    ensures learned { IfOk result (λ s.
        learning_sockets s.ethernet.items ≡ learning_ports (ethernet_ports ports.now)) }
    ensures tunnels { IfOk result (λ s.
        remote_tunnels s.ethernet.items ≡ map (λ p. p.tunnel) (ethernet_ports ports.now)) }
    ensures drops { IfOk result (λ s.
        remote_drops s.ethernet.items ≡ map (λ p. no_drops) (ethernet_ports ports.now)) }
    ensures fresh { IfOk result (λ s.
        ethernet_events s.ethernet.items ≡ map (λ p. []) (ethernet_ports ports.now)) }
    ensures marks { IfOk result (λ s. s.marks ≡ map (λ p. true) (ethernet_ports ports.now)) }
{
    let mut sockets = EthernetSockets::new(alloc);
    for (place, port) in ports.iter().enumerate() {
        if let PortConfig::Ethernet(port) = port {
            bind_ethernet_port(rt, alloc, &mut sockets, place + 1, port)?;
        }
    }
    Ok(sockets)
}

/// The Ethernet ports among these, with their sockets bound and their switches.
pub fn ethernet_ports_of<R: Net>(
    rt: &R,
    alloc: Global,
    ports: &[PortConfig],
) -> Result<EthernetPorts<EthernetSockets>, BindFault>
    ensures switches { IfOk result (λ w. w.switches.items ≡ map switch_of (ethernet_ports ports.now)) }
    ensures at { IfOk result (λ w.
        bound_places w.sockets.ethernet.items ≡ ethernet_places (ethernet_ports ports.now)) }
    ensures ends { IfOk result (λ w.
        remote_places w.sockets.ethernet.items ≡ end_places (ethernet_ports ports.now)) }
    ensures learned { IfOk result (λ w.
        learning_sockets w.sockets.ethernet.items ≡ learning_ports (ethernet_ports ports.now)) }
    ensures tunnels { IfOk result (λ w.
        remote_tunnels w.sockets.ethernet.items ≡ map (λ p. p.tunnel) (ethernet_ports ports.now)) }
    // No socket dropped anything or was asked anything yet.
    ensures drops { IfOk result (λ w.
        remote_drops w.sockets.ethernet.items ≡ map (λ p. no_drops) (ethernet_ports ports.now)) }
    ensures fresh { IfOk result (λ w.
        ethernet_events w.sockets.ethernet.items ≡ map (λ p. []) (ethernet_ports ports.now)) }
    // Each is marked, so that the first turn asks it.
    ensures marks { IfOk result (λ w. w.sockets.marks ≡ map (λ p. true) (ethernet_ports ports.now)) }
{
    let Ok(switches) = switches_of(alloc, ports) else {
        return Err(BindFault::OutOfMemory);
    };
    let sockets = bind_ethernet_ports(rt, alloc, ports)?;
    Ok(EthernetPorts::new(sockets, switches))
}
