//! The lines that describe a network.

ghost use Rattle.std.specs.Prelude.{◌<◌, ◌≤◌, All, IfOk, IfSome};
ghost use Rattle.spx_link.specs.Limits.{most_units};
ghost use Rattle.ipx_net.specs.NetBeginnings.{ArePortsOwed, IsHostOwed};
ghost use Rattle.ipx_router.specs.NewRouter.{IsOwnNetwork};

use crate::fields::{fields_of, is_blank, is_name, own_network_of, parse_buffers, short_of};
use crate::names::{Names, ScriptTarget};
use crate::script_fault::ScriptFault;
use crate::simulation::Simulation;
use ipx_net::{Host, Member, Net, Place};
use ipx_router::{Port, Router};
use ipx_wire::{Node, Socket};
use std::alloc::Global;
use std::marker::Model;

/// The most hosts, and the most routers.
const MAX_MEMBERS: usize = 16;

/// What the lines of a layout gave so far.
#[derive(Drop)]
pub struct Layout {
    hosts: Vec<Host>,
    routers: Vec<Vec<Port>>,
    map: Names,
}

impl Model for Layout {
    ghost use Rattle.std.specs.Prelude.{All};
    ghost use Rattle.ipx_net.specs.NetBeginnings.{ArePortsOwed, IsHostOwed};

    ghost Value = { Unit {0} };

    ghost view = { λ l. tt };

    ghost invariant = { λ l. All IsHostOwed l.hosts.items × All ArePortsOwed l.routers.items };
}

/// `listen SOCKET BUFFERS`, or nothing.
fn listen_of(args: &[&[u8]]) -> Option<Option<(Socket, u16)>>
    ensures { IfSome result (λ o. IfSome o (λ l. (0 < l.1) × (l.1 ≤ most_units))) }
{
    let [word, socket, buffers] = args else {
        return if args.is_empty() { Some(None) } else { None };
    };
    match *word {
        b"listen" => Some(Some((Socket::from_hex(socket)?, parse_buffers(buffers)?))),
        _ => None,
    }
}

/// `NET NODE ROUTERNODE`, and its listener.
fn host_of(args: &[&[u8]]) -> Option<Host>
    ensures { IfSome result IsHostOwed }
{
    let [network, node, router, listen @ ..] = args else {
        return None;
    };
    Some(Host {
        network: own_network_of(network)?,
        node: Node::from_hex(node)?,
        router: Node::from_hex(router)?,
        listen: listen_of(listen)?,
    })
}

/// `NET NODE COST`.
fn port_of(args: &[&[u8]]) -> Option<Port>
    ensures { IfSome result IsOwnNetwork }
{
    let [network, node, cost] = args else {
        return None;
    };
    Some(Port {
        network: own_network_of(network)?,
        node: Node::from_hex(node)?,
        cost: short_of(cost)?,
    })
}

/// Three fields for each port.
fn ports_of(alloc: Global, args: &[&[u8]]) -> Result<Vec<Port>, ScriptFault>
    ensures { IfOk result ArePortsOwed }
{
    let mut ports = Vec::new(alloc);
    for part in args.chunks(3) {
        match port_of(part) {
            Some(port) => ports.push(port)?,
            None => return Err(ScriptFault::Bad),
        }
    }
    Ok(ports)
}

/// Whether these ports make a router; if they do not, the line is bad.
fn try_router(alloc: Global, ports: &[Port]) -> Result<(), ScriptFault>
    requires { All IsOwnNetwork ports.now }
{
    let ports = Vec::from_slice(alloc, ports)?;
    match Router::new(alloc, ports) {
        Ok(_) => Ok(()),
        Err(_) => Err(ScriptFault::Bad),
    }
}

/// A name that no member has yet.
fn new_name(alloc: Global, map: &Names, name: &[u8]) -> Result<String, ScriptFault> {
    if !is_name(name) || map.member(name).is_some() {
        return Err(ScriptFault::Bad);
    }
    match std::str::from_utf8(name) {
        Ok(text) => Ok(String::from_str(alloc, text)?),
        Err(_) => Err(ScriptFault::Bad),
    }
}

/// Adds a host to the map.
fn map_host(map: &mut Names, name: String, host: Host) -> Result<(), ScriptFault> {
    let number = map.hosts.len();
    map.hosts.push(name)?;
    map.members.push(Member::Host(number))?;
    map.spots.push(ScriptTarget {
        place: Place::Host(number),
        network: host.network,
        node: host.node,
    })?;
    Ok(())
}

/// Adds the ports of a router to the map.
fn map_ports(map: &mut Names, router: usize, ports: &[Port]) -> Result<(), ScriptFault> {
    for (port, number) in ports.iter().zip(1..17) {
        map.spots.push(ScriptTarget {
            place: Place::Port(router, number),
            network: port.network,
            node: port.node,
        })?;
    }
    Ok(())
}

/// Adds a router to the map.
fn map_router(map: &mut Names, name: String, ports: &[Port]) -> Result<(), ScriptFault> {
    let number = map.routers.len();
    map.routers.push(name)?;
    map.members.push(Member::Router(number))?;
    map_ports(map, number, ports)
}

impl Layout {
    /// A layout without members.
    pub fn new(alloc: Global) -> Layout {
        Layout {
            hosts: Vec::new(alloc),
            routers: Vec::new(alloc),
            map: Names::new(alloc),
        }
    }

    /// `host NAME NET NODE ROUTERNODE [listen SOCKET BUFFERS]`, without its first word.
    fn read_host(&mut self, alloc: Global, args: &[&[u8]]) -> Result<(), ScriptFault> {
        let Some((name, rest)) = args.split_first() else {
            return Err(ScriptFault::Bad);
        };
        let Some(host) = host_of(rest) else {
            return Err(ScriptFault::Bad);
        };
        if self.hosts.len() >= MAX_MEMBERS {
            return Err(ScriptFault::Bad);
        }
        let name = new_name(alloc, &self.map, name)?;
        self.hosts.push(host)?;
        map_host(&mut self.map, name, host)
    }

    /// `router NAME NET NODE COST ..`, without its first word.
    fn read_router(&mut self, alloc: Global, args: &[&[u8]]) -> Result<(), ScriptFault> {
        let Some((name, rest)) = args.split_first() else {
            return Err(ScriptFault::Bad);
        };
        if self.routers.len() >= MAX_MEMBERS {
            return Err(ScriptFault::Bad);
        }
        let name = new_name(alloc, &self.map, name)?;
        let ports = ports_of(alloc, rest)?;
        try_router(alloc, &ports)?;
        map_router(&mut self.map, name, &ports)?;
        self.routers.push(ports)?;
        Ok(())
    }

    /// Reads one line of a script. Returns false, and nothing was read, if the line is neither
    /// blank nor one of a layout.
    pub fn read(&mut self, alloc: Global, line: &[u8]) -> Result<bool, ScriptFault> {
        if is_blank(line) {
            return Ok(true);
        }
        let fields = fields_of(alloc, line)?;
        let Some((command, args)) = fields.split_first() else {
            return Ok(false);
        };
        match *command {
            b"host" => self.read_host(alloc, args)?,
            b"router" => self.read_router(alloc, args)?,
            _ => return Ok(false),
        }
        Ok(true)
    }

    /// The hosts of the layout, in order.
    pub fn hosts(&self) -> &[Host]
        ensures { All IsHostOwed result.now }
    {
        &self.hosts
    }

    /// The ports of each router of the layout, in order.
    pub fn routers(&self) -> &[Vec<Port>]
        ensures { All ArePortsOwed result.now }
    {
        &self.routers
    }

    /// The names and places of the layout.
    pub fn map(&self) -> &Names {
        &self.map
    }

    /// The network of the layout, in which nothing has happened yet. Each router was checked at its
    /// own line, so the only fault is out of memory.
    pub fn finish(self, alloc: Global) -> Result<Simulation, ScriptFault> {
        let Layout {
            hosts,
            routers,
            map,
        } = self;
        match Net::new(alloc, hosts, routers) {
            Ok(net) => Ok(Simulation::new(alloc, net, map)),
            Err(_) => Err(ScriptFault::Memory),
        }
    }
}
