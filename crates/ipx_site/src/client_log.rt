//! Logs the clients that connect to a router's ipxnet ports, those that time out, and the IP
//! addresses from which none does.

ghost use Rattle.std.specs.Prelude.{◌≡◌, ◌≤◌, ◌<◌, ◌↔◌, ◌+◌, ◌^◌, ◌++◌, [], ℕ, IfOk, None, Ok, OnErr, OnOk, Some, length, replicate};
ghost use Rattle.ipx_site.specs.ClientLog.{IsClientLookDue, all_clients, clients_come, clients_gone, clients_logged, clients_without};
ghost use Rattle.ipx_site.specs.ClientLog.{client_key, has_client_key, is_listed_client, max_client_lines, port_clients, port_index_clients};
ghost use Rattle.ipx_site.specs.RepeatLog.{repeats_of_ports};
ghost use Rattle.ipx_sockets.specs.Moments.{AreLoggedIfDue, HasPassed, IsReached, never_logged};

use crate::ipxnet_totals::client_count;
use crate::repeat_log::RepeatLog;
use crate::router_ports::{PortIndex, UdpRouterPorts};
use ipx_sockets::{end_of, is_over};
use ipx_wire::Node;
use ipxnet_server::{Client, IpxnetServer};
use log::{Log, info};
use std::alloc::{AllocError, Global};
use std::collections::HashSet;
use std::net::SocketAddrV4;

/// The most lines logged at once, and the time between two looks, in milliseconds.
const MAX_LINES: usize = 10;

const PERIOD: u64 = 1000;

/// A client of a port, as it is logged.
#[derive(Clone, Copy, PartialEq, Eq)]
pub struct PortClient {
    /// The number of the port, starting at 1.
    pub port: usize,
    /// The IP address and UDP port of the client.
    pub place: SocketAddrV4,
    /// The node of the client.
    pub node: Node,
}

/// The clients that one look logs: those that are gone, and those that connected.
#[derive(Drop)]
pub struct ClientChanges {
    pub gone: Vec<PortClient>,
    pub came: Vec<PortClient>,
}

/// The clients that were logged as connected, the time of the last look, and when IP addresses were
/// logged that register again and again.
#[derive(Drop)]
pub struct ClientLog {
    logged: Vec<PortClient>,
    looked: Option<u64>,
    repeats: RepeatLog,
}

/// What distinguishes a client of a port from all others.
#[derive(Clone, Copy, PartialEq, Eq, Hash)]
struct ClientKey {
    port: usize,
    ip: [u8; 4],
    udp_port: u16,
    node: [u8; 6],
}

fn key_of(client: &PortClient) -> ClientKey
    ensures { result ≡ client_key client.now }
{
    ClientKey {
        port: client.port,
        ip: client.place.ip().octets(),
        udp_port: client.place.port(),
        node: client.node.0,
    }
}

/// The keys of some clients, as a set for fast lookup.
fn keys_of(alloc: Global, clients: &[PortClient]) -> Result<HashSet<ClientKey>, AllocError>
    ensures { IfOk result (λ keys. (client : PortClient) →
        has_client_key keys client ≡ is_listed_client clients.now client) }
{
    clients.iter().map(|client| key_of(client)).collect(alloc)
}

/// Whether the key of a client is in the set.
fn is_listed(keys: &HashSet<ClientKey>, client: &PortClient) -> bool
    ensures { result ≡ has_client_key keys.now client.now }
{
    keys.contains(&key_of(client))
}

/// The clients that are not among `these`.
fn without(
    alloc: Global,
    clients: &[PortClient],
    these: &[PortClient],
) -> Result<Vec<PortClient>, AllocError>
    ensures { IfOk result (λ v.
        v.items ≡ clients_without clients.now these.now) }
{
    let these = keys_of(alloc, these)?;
    clients
        .iter()
        .filter(|client| !is_listed(&these, client))
        .copied()
        .collect(alloc)
}

/// The changes to log if `logged` were logged as connected and `there` are connected: at most ten.
fn changes_of(
    alloc: Global,
    logged: &[PortClient],
    there: &[PortClient],
) -> Result<ClientChanges, AllocError>
    ensures gone { IfOk result (λ n. n.gone.items ≡ clients_gone logged.now there.now) }
    ensures came { IfOk result (λ n. n.came.items ≡ clients_come logged.now there.now) }
{
    let mut gone = without(alloc, logged, there)?;
    gone.truncate(MAX_LINES);
    let mut came = without(alloc, there, logged)?;
    came.truncate(MAX_LINES.saturating_sub(gone.len()));
    Ok(ClientChanges { gone, came })
}

/// The clients that are logged as connected after these changes.
fn logged_after(
    alloc: Global,
    logged: &[PortClient],
    changes: &ClientChanges,
) -> Result<Vec<PortClient>, AllocError>
    ensures { IfOk result (λ v.
        v.items ≡ clients_without logged.now changes.now.gone.items ++ changes.now.came.items) }
{
    let mut all = without(alloc, logged, &changes.gone)?;
    all.extend_from_slice(&changes.came)?;
    Ok(all)
}

/// A client of the port with this number.
fn port_client(port: usize, client: &Client) -> PortClient
    ensures { result ≡ record { port = port; place = client.now.place; node = client.now.node } }
{
    PortClient {
        port,
        place: client.place,
        node: client.node,
    }
}

/// The clients of the ipxnet server of the port with this number.
fn clients_of(alloc: Global, port: usize, clients: &[Client]) -> Result<Vec<PortClient>, AllocError>
    ensures { IfOk result (λ v. v.items ≡ port_clients port clients.now) }
{
    clients
        .iter()
        .map(|client| port_client(port, client))
        .collect(alloc)
}

/// The clients of the port at `port_index`, which has this number; none if it is no ipxnet port.
fn clients_at(
    alloc: Global,
    number: usize,
    port_index: PortIndex,
    servers: &[IpxnetServer],
) -> Result<Vec<PortClient>, AllocError>
    ensures { IfOk result (λ v. v.items ≡ port_index_clients number port_index servers.now) }
{
    let PortIndex::IpxnetServer(place) = port_index else {
        return Ok(Vec::new(alloc));
    };
    match servers.get(place) {
        Some(server) => clients_of(alloc, number, server.clients()),
        None => Ok(Vec::new(alloc)),
    }
}

/// The clients of all ports, in the order of the ports.
fn clients_there(
    alloc: Global,
    port_indices: &[PortIndex],
    servers: &[IpxnetServer],
) -> Result<Vec<PortClient>, AllocError>
    ensures { IfOk result (λ v. v.items ≡ all_clients 1 port_indices.now servers.now) }
{
    let mut all = Vec::new(alloc);
    for (place, port_index) in port_indices.iter().enumerate() {
        let clients = clients_at(alloc, place + 1, *port_index, servers)?;
        all.extend_from_slice(&clients)?;
    }
    Ok(all)
}

/// The clients of a router's ports.
fn clients_in(alloc: Global, ports: &UdpRouterPorts) -> Result<Vec<PortClient>, AllocError>
    ensures { IfOk result (λ v.
        v.items ≡ all_clients 1 ports.now.port_indices.items ports.now.servers.servers.items) }
{
    clients_there(alloc, ports.port_indices(), ports.servers().servers())
}

/// Logs the clients that are gone.
fn tell_gone<R: Log>(rt: &R, gone: &[PortClient]) {
    for client in gone {
        let port = client.port;
        let [a, b, c, d] = client.place.ip().octets();
        let udp_port = client.place.port();
        info!(rt; target: "ipx", "port {port}: client {a}.{b}.{c}.{d}:{udp_port} timed out");
    }
}

/// Logs the clients that connected.
fn tell_come<R: Log>(rt: &R, came: &[PortClient]) {
    for client in came {
        let port = client.port;
        let [a, b, c, d] = client.place.ip().octets();
        let udp_port = client.place.port();
        let node = client.node;
        info!(rt; target: "ipx", "port {port}: client {a}.{b}.{c}.{d}:{udp_port} connected as {node}");
    }
}

impl ClientChanges {
    /// Logs a line for each client.
    pub fn tell<R: Log>(&self, rt: &R) {
        tell_gone(rt, &self.gone);
        tell_come(rt, &self.came);
    }
}

impl ClientLog {
    /// No client has been logged yet.
    pub fn new(alloc: Global) -> ClientLog
        ensures nobody { result.logged.items ≡ [] }
        ensures never { result.looked ≡ None }
        ensures repeats { result.repeats.ports ≡ replicate 16 never_logged }
    {
        ClientLog {
            logged: Vec::new(alloc),
            looked: None,
            repeats: RepeatLog::new(),
        }
    }

    /// The time of its next look: a second after the last one, if these servers have more or fewer
    /// clients than it logged. It is None if they do not, or if that time exceeds a u64.
    pub(crate) fn next(&self, servers: &[IpxnetServer]) -> Option<u64>
        ensures { (t : ℕ) → t < 2 ^ 64
            → IsReached result t ↔ IsClientLookDue self.now servers.now t }
    {
        if self.logged.len() as u64 == client_count(servers) {
            return None;
        }
        end_of(self.looked, PERIOD)
    }

    /// The changes to log when the clients `there` are connected. Each client that was logged but
    /// is gone, or is connected but was not logged, appears once. At most ten appear. The rest wait
    /// for the next look; if out of memory, all do.
    pub fn look(&mut self, alloc: Global, there: &[PortClient]) -> Result<ClientChanges, AllocError>
        ensures gone { IfOk result (λ n. n.gone.items ≡ clients_gone self.old.logged.items there.now) }
        ensures came { IfOk result (λ n. n.came.items ≡ clients_come self.old.logged.items there.now) }
        ensures logged { OnOk result (self.new.logged.items
            ≡ clients_logged self.old.logged.items there.now) }
        ensures few { IfOk result (λ n.
            length n.gone.items + length n.came.items ≤ max_client_lines) }
        ensures looked { self.new.looked ≡ self.old.looked }
        ensures repeats { self.new.repeats ≡ self.old.repeats }
        ensures refused { OnErr result (self.new ≡ self.old) }
    {
        let changes = changes_of(alloc, &self.logged, there)?;
        self.logged = logged_after(alloc, &self.logged, &changes)?;
        Ok(changes)
    }

    /// Looks at the clients of a router's ports at `now`, in milliseconds, and logs those that
    /// connected or are gone: at most ten lines. It also logs for each port the last IP address that
    /// registers there again and again, if that is due. If the last look was less than a second ago,
    /// it does nothing.
    pub(crate) fn tell<R: Log>(
        &mut self,
        rt: &R,
        alloc: Global,
        ports: &UdpRouterPorts,
        now: u64,
    ) -> Result<(), AllocError>
        ensures early { (HasPassed 1000 self.old.looked now → ⊥) → (result ≡ Ok tt) × (self.new ≡ self.old) }
        ensures looked { HasPassed 1000 self.old.looked now → self.new.looked ≡ Some now }
        ensures logged { HasPassed 1000 self.old.looked now → OnOk result (self.new.logged.items
            ≡ clients_logged self.old.logged.items
            (all_clients 1 ports.now.port_indices.items ports.now.servers.servers.items)) }
        ensures refused { OnErr result (self.new.logged ≡ self.old.logged) }
        ensures repeats { HasPassed 1000 self.old.looked now → AreLoggedIfDue
            (repeats_of_ports ports.now.servers.servers.items ports.now.port_indices.items) now
            self.old.repeats.ports self.new.repeats.ports }
    {
        if !is_over(self.looked, PERIOD, now) {
            return Ok(());
        }
        self.looked = Some(now);
        self.repeats.tell(rt, ports, now);
        let there = clients_in(alloc, ports)?;
        let changes = self.look(alloc, &there)?;
        changes.tell(rt);
        Ok(())
    }
}
