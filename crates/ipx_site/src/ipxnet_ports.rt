//! The ipxnet ports of a router: their sockets and their servers.

ghost use Rattle.std.specs.Prelude.{◌≡◌, ◌++◌, ◌∷◌, [], List, Option, IfOk, OnOk, map, true};
ghost use Rattle.ipx_ipxnet_ports.specs.ServerAddresses.{bound_places, prefixes_heard, server_events};
ghost use Rattle.ipx_site.specs.KindPorts.{client_port_of, server_of_port};
ghost use Rattle.ipx_site.specs.KnownPlaces.{is_known_here, places_known};
ghost use Rattle.ipxnet_server.specs.Restarts.{server_noting_all};
ghost use Rattle.ipx_site.specs.Registering.{MayRegister, MayRegisterAt};
ghost use Rattle.ip_prefixes.specs.declared.prefix.Prefix.{Prefix};
ghost use Rattle.ipx_config.specs.PortLists.{ipxnet_places, ipxnet_ports};
ghost use Rattle.ipx_carrier.specs.Traces.{v4_at};

use crate::registering::registering;
use crate::secret_file::SavedClients;
use ipx_carrier::socket_addr;
use ipx_config::{IpxnetPortConfig, PortConfig};
use ipx_ipxnet_ports::{ServerSockets, Servers};
use ipx_sockets::{BindFault, bind_error};
use ipx_table_dump::ClientPlace;
use ipx_wire::Network;
use ipxnet_server::{IpxnetServer, Secret, ServerPort};
use log::Log;
use std::alloc::{AllocError, Global};
use std::io::ErrorKind;
use std::net::Net;

/// Converts the configuration of an ipxnet port.
fn client_port(secret: Secret, port: &IpxnetPortConfig) -> ServerPort
    ensures { result ≡ client_port_of secret port.now }
{
    ServerPort {
        network: port.network,
        own: port.node,
        secret,
    }
}

/// Whether a client was one of this network.
fn is_known_here(network: Network, client: &ClientPlace) -> bool
    ensures { result ≡ is_known_here network client.now }
{
    client.network == network
}

/// Notes the clients of a server before a restart.
fn note_known(server: &mut IpxnetServer, network: Network, known: &[ClientPlace])
    ensures { server.new ≡ server_noting_all 0 (places_known network known.now) server.old }
{
    for client in known {
        if is_known_here(network, client) {
            server.note_again(client.place, 0);
        }
    }
}

/// The server of a port, before any client has registered. It has noted the clients of before.
fn server_of(
    alloc: Global,
    kept: &SavedClients,
    port: &IpxnetPortConfig,
) -> Result<IpxnetServer, AllocError>
    ensures { IfOk result (λ l. l ≡ server_of_port kept.now.secret kept.now.clients.items port.now) }
{
    let routers = Vec::from_slice(alloc, &port.join)?;
    let most = usize::from(port.clients);
    let ipxnet = client_port(kept.secret, port);
    let mut server = IpxnetServer::joined_to(alloc, ipxnet, most, routers)?;
    note_known(&mut server, port.network, &kept.clients);
    Ok(server)
}

/// The server of each ipxnet port.
fn servers_of_ports(
    alloc: Global,
    kept: &SavedClients,
    ports: &[PortConfig],
) -> Result<Vec<IpxnetServer>, AllocError>
    ensures { IfOk result (λ v. v.items
        ≡ map (server_of_port kept.now.secret kept.now.clients.items) (ipxnet_ports ports.now)) }
{
    let mut servers = Vec::new(alloc);
    for port in ports {
        if let PortConfig::Ipxnet(port) = port {
            let server = server_of(alloc, kept, port)?;
            servers.push(server)?;
        }
    }
    Ok(servers)
}

/// Binds the socket of the port with this number, and adds it to those of earlier ports.
fn bind_server<R: Net + Log>(
    rt: &R,
    alloc: Global,
    sockets: &mut ServerSockets,
    number: usize,
    port: &IpxnetPortConfig,
) -> Result<(), BindFault>
    ensures at { OnOk result (bound_places sockets.new.sockets.items
        ≡ bound_places sockets.old.sockets.items ++ v4_at port.now.address port.now.udp_port ∷ []) }
    ensures registering { OnOk result ((prefixes : Option (List Prefix)) × MayRegister port.now prefixes
        × (map prefixes_heard sockets.new.sockets.items
        ≡ map prefixes_heard sockets.old.sockets.items ++ prefixes ∷ [])) }
    ensures fresh { OnOk result (server_events sockets.new.sockets.items
        ≡ server_events sockets.old.sockets.items ++ [] ∷ []) }
    ensures marks { OnOk result (sockets.new.marks ≡ sockets.old.marks ++ true ∷ []) }
{
    let Ok(allow) = registering(rt, alloc, number, port) else {
        return Err(BindFault::OutOfMemory);
    };
    let at = socket_addr(port.address, port.udp_port);
    match sockets.bind(rt, at, allow) {
        Ok(()) => Ok(()),
        Err(error) if error.kind() == ErrorKind::OutOfMemory => Err(BindFault::OutOfMemory),
        Err(error) => {
            let error = bind_error(port.address, port.udp_port, &error);
            Err(BindFault::Port(number, error))
        }
    }
}

/// Binds the sockets of the ipxnet ports. It stops at the first that cannot be bound and returns
/// its port; then no socket stays bound.
fn bind_servers<R: Net + Log>(
    rt: &R,
    alloc: Global,
    ports: &[PortConfig],
) -> Result<ServerSockets, BindFault>
    ensures at { IfOk result (λ s.
        bound_places s.sockets.items ≡ ipxnet_places (ipxnet_ports ports.now)) }
    ensures registering { IfOk result (λ s.
        MayRegisterAt (ipxnet_ports ports.now) (map prefixes_heard s.sockets.items)) }
    ensures fresh { IfOk result (λ s.
        server_events s.sockets.items ≡ map (λ p. []) (ipxnet_ports ports.now)) }
    ensures marks { IfOk result (λ s. s.marks ≡ map (λ p. true) (ipxnet_ports ports.now)) }
{
    let mut sockets = ServerSockets::new(alloc);
    for (place, port) in ports.iter().enumerate() {
        if let PortConfig::Ipxnet(port) = port {
            bind_server(rt, alloc, &mut sockets, place + 1, port)?;
        }
    }
    Ok(sockets)
}

/// The ipxnet ports among these, with their sockets bound and their servers, which make nodes of the
/// secret that was kept, and have noted the clients that were.
pub fn servers_of<R: Net + Log>(
    rt: &R,
    alloc: Global,
    kept: &SavedClients,
    ports: &[PortConfig],
) -> Result<Servers<ServerSockets>, BindFault>
    ensures servers { IfOk result (λ l. l.servers.items
        ≡ map (server_of_port kept.now.secret kept.now.clients.items) (ipxnet_ports ports.now)) }
    ensures at { IfOk result (λ l.
        bound_places l.sockets.sockets.items ≡ ipxnet_places (ipxnet_ports ports.now)) }
    ensures registering { IfOk result (λ l.
        MayRegisterAt (ipxnet_ports ports.now) (map prefixes_heard l.sockets.sockets.items)) }
    // No socket was asked anything yet.
    ensures fresh { IfOk result (λ l.
        server_events l.sockets.sockets.items ≡ map (λ p. []) (ipxnet_ports ports.now)) }
    // Each is marked, so that the first turn asks it.
    ensures marks { IfOk result (λ l. l.sockets.marks ≡ map (λ p. true) (ipxnet_ports ports.now)) }
{
    let Ok(servers) = servers_of_ports(alloc, kept, ports) else {
        return Err(BindFault::OutOfMemory);
    };
    let sockets = bind_servers(rt, alloc, ports)?;
    Ok(Servers::new(sockets, servers))
}
