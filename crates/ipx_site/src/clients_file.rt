//! Writing the file of a router's secret and of its ipxnet clients while it runs.

ghost use Rattle.std.specs.Prelude.{◌≡◌, ◌≤◌, ◌↔◌, ◌⊎◌, IfErr, IfOk, IfSome, IsPermutation, IsTrue, List, None, Ok, OnErr, OnOk, Some, false, length, map, string_bytes, true};
ghost use Rattle.std.specs.List.{flat_map, list_all};
ghost use Rattle.ipx_site.specs.ClientsFile.{AreHeardLast, IsClientsFileDue, IsLatestFirst, IsListKept, IsRefusedFile, have_same_clients, heard_of, is_listed, written_at_start};
ghost use Rattle.ipx_sockets.specs.Moments.{HasPassed};
ghost use Rattle.ipx_site.specs.Secrets.{kept_text};
ghost use Rattle.ipx_table_dump.specs.ClientsText.{max_client_places};
ghost use Rattle.ipx_table_dump.specs.declared.client_places.ClientPlace.{ClientPlace};

use crate::router_ports::UdpRouterPorts;
use crate::secret_file::{SavedClients, secret_to_text, write_private};
use crate::written_files::WriteFault;
use ipx_sockets::is_over;
use ipx_table_dump::{ClientPlace, MAX_CLIENT_PLACES};
use ipx_wire::Network;
use ipxnet_server::{Client, IpxnetServer, Secret};
use std::alloc::{AllocError, Global};
use std::cmp::Reverse;
use std::rt::Files;

/// How often the clients are compared with those that the file lists, in milliseconds.
const LOOK_PERIOD: u64 = 1000;

/// How much later than the last time the file is written again at the earliest, in milliseconds.
const WRITE_PERIOD: u64 = 60_000;

/// A client, and when it was heard last.
#[derive(Clone, Copy)]
struct HeardClient {
    client: ClientPlace,
    heard: u64,
}

/// The clients that the file of a secret is to list, and its text.
#[derive(Drop)]
struct NewList {
    clients: Vec<ClientPlace>,
    text: String,
}

/// The file of a router's secret and of its clients, if it has one.
#[derive(Drop)]
pub struct ClientsFile {
    path: Option<String>,
    secret: Secret,
    /// The clients that the file lists.
    listed: Vec<ClientPlace>,
    looked: Option<u64>,
    /// When it was written last. If clients were read from it, that counts as the start.
    written: Option<u64>,
}

/// A client of the port of this network.
fn heard_client(network: Network, client: &Client) -> HeardClient
    ensures { result ≡ record {
      client = record { network = network; place = client.now.place };
      heard = client.now.heard;
    } }
{
    HeardClient {
        client: ClientPlace {
            network,
            place: client.place,
        },
        heard: client.heard,
    }
}

/// The clients of a server.
fn clients_of(alloc: Global, server: &IpxnetServer) -> Result<Vec<HeardClient>, AllocError>
    ensures { IfOk result (λ v. v.items ≡ heard_of server.now) }
{
    let network = server.port().network;
    server
        .clients()
        .iter()
        .map(|client| heard_client(network, client))
        .collect(alloc)
}

/// The clients of servers, in the order of the servers.
fn all_clients(alloc: Global, servers: &[IpxnetServer]) -> Result<Vec<HeardClient>, AllocError>
    ensures { IfOk result (λ v. v.items ≡ flat_map heard_of servers.now) }
{
    let mut all = Vec::new(alloc);
    for server in servers {
        let clients = clients_of(alloc, server)?;
        all.extend_from_slice(&clients)?;
    }
    Ok(all)
}

/// The same, those first that were heard last.
fn heard_clients(alloc: Global, servers: &[IpxnetServer]) -> Result<Vec<HeardClient>, AllocError>
    ensures all { IfOk result (λ v. IsPermutation (flat_map heard_of servers.now) v.items) }
    ensures order { IfOk result (λ v. IsLatestFirst v.items) }
{
    let mut clients = all_clients(alloc, servers)?;
    clients.sort_by_key(|client| Reverse(client.heard))?;
    Ok(clients)
}

/// The clients, without the times.
fn places_of(alloc: Global, heard: &[HeardClient]) -> Result<Vec<ClientPlace>, AllocError>
    ensures { IfOk result (λ v. v.items ≡ map (λ c. c.client) heard.now) }
{
    heard.iter().map(|client| client.client).collect(alloc)
}

/// The clients of servers that were heard last, at most 1,024.
fn last_heard(alloc: Global, servers: &[IpxnetServer]) -> Result<Vec<ClientPlace>, AllocError>
    ensures last { IfOk result (λ v. AreHeardLast servers.now v.items) }
    ensures few { IfOk result (λ v. length v.items ≤ max_client_places) }
{
    let heard = heard_clients(alloc, servers)?;
    let mut clients = places_of(alloc, &heard)?;
    clients.truncate(MAX_CLIENT_PLACES);
    Ok(clients)
}

/// Whether a client is among these.
fn is_listed(clients: &[ClientPlace], client: &ClientPlace) -> bool
    ensures { result ≡ is_listed clients.now client.now }
{
    clients.contains(client)
}

/// Whether each of these clients is among others.
fn are_all_listed(clients: &[ClientPlace], others: &[ClientPlace]) -> bool
    ensures { result ≡ list_all (is_listed others.now) clients.now }
{
    clients.iter().all(|client| is_listed(others, client))
}

/// Whether two lists, none of which has a client twice, have the same clients.
fn are_same(one: &[ClientPlace], other: &[ClientPlace]) -> bool
    ensures { result ≡ have_same_clients one.now other.now }
{
    one.len() == other.len() && are_all_listed(one, other)
}

impl ClientsFile {
    /// The file of this path, which lists these clients.
    pub fn new(path: Option<String>, kept: SavedClients) -> ClientsFile
        ensures path { result.path ≡ path }
        ensures secret { result.secret ≡ kept.secret }
        ensures listed { result.listed ≡ kept.clients }
        ensures looked { result.looked ≡ None }
        ensures written { result.written ≡ written_at_start kept.clients.items }
    {
        let written = if kept.clients.is_empty() {
            None
        } else {
            Some(0)
        };
        ClientsFile {
            path,
            secret: kept.secret,
            listed: kept.clients,
            looked: None,
            written,
        }
    }

    /// Whether it is time to compare the clients with the file, at `now`, in milliseconds.
    fn is_time(&self, now: u64) -> bool
        ensures { IsTrue result ↔ (HasPassed 1000 self.now.looked now × HasPassed 60000 self.now.written now) }
    {
        is_over(self.looked, LOOK_PERIOD, now) && is_over(self.written, WRITE_PERIOD, now)
    }

    /// What the file is to hold, if the clients of these servers are others than it lists: this
    /// router's secret, and those that were heard last.
    fn new_list(
        &self,
        alloc: Global,
        servers: &[IpxnetServer],
    ) -> Result<Option<NewList>, AllocError>
        ensures list { IfOk result (λ list. IfSome list (λ n. AreHeardLast servers.now n.clients.items
            × (string_bytes n.text ≡ kept_text self.now.secret n.clients.items))) }
        ensures others { IfOk result (λ list. IfSome list (λ n.
            have_same_clients n.clients.items self.now.listed.items ≡ false)) }
        ensures same { IfOk result (λ list. list ≡ None → (clients : List ClientPlace)
            × AreHeardLast servers.now clients
            × (have_same_clients clients self.now.listed.items ≡ true)) }
    {
        let clients = last_heard(alloc, servers)?;
        if are_same(&clients, &self.listed) {
            return Ok(None);
        }
        let text = secret_to_text(alloc, self.secret, &clients)?;
        Ok(Some(NewList { clients, text }))
    }

    /// Writes the clients of a router's ports into the file at `now`, in milliseconds, if they are
    /// others than it lists. After it was written it is not for a minute.
    pub(crate) fn keep<F: Files>(
        &mut self,
        rt: &F,
        alloc: Global,
        ports: &UdpRouterPorts,
        now: u64,
    ) -> Result<(), WriteFault>
        // If it has no file, or it is not time, nothing changes.
        ensures early { (IsClientsFileDue self.old now → ⊥) → (result ≡ Ok tt) × (self.new ≡ self.old) }
        ensures looked { IsClientsFileDue self.old now → self.new.looked ≡ Some now }
        // If it is refused, it lists the clients that it did, and counts as written when it did, or
        // now. It is then not tried for a minute if the system refused it.
        ensures refused { OnErr result ((self.new.listed ≡ self.old.listed)
            × ((self.new.written ≡ self.old.written) ⊎ (self.new.written ≡ Some now))) }
        ensures failed { IfErr result (λ e. IsRefusedFile e → self.new.written ≡ Some now) }
        // If it is time and nothing is refused, it lists those that were heard last. It was written
        // now exactly if it listed others.
        ensures kept { IsClientsFileDue self.old now
            → OnOk result (IsListKept ports.now.servers.servers.items now self.old self.new) }
        ensures rest { (self.new.path ≡ self.old.path) × (self.new.secret ≡ self.old.secret) }
    {
        if self.path.is_none() || !self.is_time(now) {
            return Ok(());
        }
        self.looked = Some(now);
        let list = match self.new_list(alloc, ports.servers().servers()) {
            Ok(Some(list)) => list,
            Ok(None) => return Ok(()),
            Err(_) => return Err(WriteFault::OutOfMemory),
        };
        self.written = Some(now);
        let Some(path) = &self.path else {
            return Ok(());
        };
        match write_private(rt, alloc, path, list.text.as_str()) {
            Ok(Ok(())) => {}
            Ok(Err(error)) => return Err(WriteFault::File(error)),
            Err(_) => return Err(WriteFault::OutOfMemory),
        }
        self.listed = list.clients;
        Ok(())
    }
}
