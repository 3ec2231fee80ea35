//! A running host: its endpoint, its socket and its clock.

ghost use Rattle.std.specs.Prelude.{◌≡◌, ◌<◌, ◌↔◌, ◌∷◌, ◌++◌, [], ℕ, false, true, IfOk, IsTrue, None, OnErr, Some, is_err, length, map, replicate};
ghost use Rattle.ipx_carrier.specs.Mapping.{node_at};
ghost use Rattle.ipx_carrier.specs.Traces.{v4_at};
ghost use Rattle.ipx_carrier.specs.Turns.{peers_of};
ghost use Rattle.ipx_sockets.specs.Moments.{AreLoggedIfDue};
ghost use Rattle.ipx_config.specs.AllowedPeers.{named_in};
ghost use Rattle.ipx_sockets.specs.PollEvents.{Watched};
ghost use Rattle.ipx_sockets.specs.PortTurns.{marked_port};
ghost use Rattle.ipx_sockets.specs.Senders.{udp_events, udp_fds};
ghost use Rattle.ipx_sockets.specs.SourceFilter.{drops_in};
ghost use Rattle.ipx_sockets.specs.AccessLists.{access_by};
ghost use Rattle.ipx_wire.specs.declared.address.Socket.{Socket};
ghost use Rattle.spx_link.specs.Links.{count_of};
ghost use Rattle.spx_messages.specs.EndpointView.{buffers_at, held_at};
ghost use Rattle.ipx_host.specs.Sessions.{raised_if};
ghost use Rattle.ipx_host.specs.Access.{guarded_host};
ghost use Rattle.ipx_host.specs.HostLines.{counts_of_host, host_counts};
ghost use Rattle.ipx_sockets.specs.Polling.{WaitsOnce, watched_if};
ghost use Rattle.ipx_host.specs.Sleeping.{IsSleep};
ghost use Rattle.ipx_host.specs.Turning.{DrivesTurn, TakesHostTurn, TellsOf, around, refused_after};

use crate::access::access_list_of;
use crate::eviction::count_if;
use crate::paced_host_core::{PacedHostCore, copy_origins};
use crate::room::warn_small_rcvbuf;
use crate::start::{StartFault, check_streams};
use crate::telling::{Counts, Telling};
use ipx_carrier::{
    CountsFiltered, OwnedRfc1234Ports, Report, RunFault, node_of, run_once_over_ports,
};
use ipx_config::HostConfig;
use ipx_sockets::{AccessList, Poller, SourceFilter, SteadyClock, UdpSockets, WaitFault};
use log::Log;
use spx_messages::Endpoint;
use std::alloc::Global;
use std::net::Net;
use std::os::fd::RawFd;
use std::rt::Clock;

/// What a turn did.
#[derive(Clone, Copy)]
pub struct Activity {
    /// A datagram was received and read.
    pub heard: bool,
    /// A datagram was filtered.
    pub kept: bool,
    /// A datagram was read, filtered or sent, a packet had no IP address to go to, or the turn ran
    /// out of memory. The next turn may then have something to do as well.
    pub active: bool,
}

/// The socket of a host with its access list, and the peers that get a broadcast. There is one
/// port, so a turn can always begin.
#[derive(Drop)]
struct HostSocket {
    ports: OwnedRfc1234Ports<SourceFilter<UdpSockets>>,
    ghost one_socket: { length ports.device.device.sockets.items ≡ 1 },
}

impl HostSocket {
    /// Marks that a datagram may be waiting at its port, whether or not a wait said so.
    fn mark_all(&mut self)
        ensures { self.new ≡ record self.old { ports = marked_port self.old.ports } }
    {
        self.ports.device.mark_all();
    }
}

/// A running host.
pub struct RunningHost<'a, R: Clock> {
    pub core: PacedHostCore,
    host_socket: HostSocket,
    clock: SteadyClock<'a, R>,
    poller: Poller,
    /// How often the host ran out of memory.
    refused: u64,
    telling: Telling,
}

impl<'a, R: Clock> Drop for RunningHost<'a, R> {
    fn drop(self) {
        let RunningHost {
            core: _,
            host_socket: _,
            clock: _,
            poller: _,
            refused: _,
            telling: _,
        } = self;
    }
}

impl HostSocket {
    /// Creates the socket of a host from one socket with its access list, and the list of its peers.
    fn new(
        sockets: UdpSockets,
        access_lists: Vec<AccessList>,
        peers: Vec<Vec<[u8; 4]>>,
    ) -> HostSocket
        requires one_socket { length sockets.sockets.items ≡ 1 }
        ensures sockets { result.ports.device.device ≡ sockets }
        ensures access_lists { result.ports.device.access_lists.items ≡ access_lists.items }
        ensures peers { result.ports.peers ≡ peers }
    {
        HostSocket {
            ports: OwnedRfc1234Ports::new(SourceFilter::new(sockets, access_lists), peers),
        }
    }

    /// Binds the socket of a host as its file says, and creates the poll that waits for it.
    fn open<R: Net + Log>(
        rt: &R,
        alloc: Global,
        file: &HostConfig,
        dials: Option<[u8; 4]>,
    ) -> Result<(HostSocket, Poller), StartFault>
        ensures peers { IfOk result (λ r. peers_of r.0.ports.peers.items ≡ (file.now.router ∷ []) ∷ []) }
        ensures udp_port { IfOk result (λ r.
            map (λ s. s.udp_port) r.0.ports.device.device.sockets.items ≡ file.now.udp_port ∷ []) }
        ensures at { IfOk result (λ r. map (λ s. s.socket.at) r.0.ports.device.device.sockets.items
            ≡ v4_at file.now.address file.now.udp_port ∷ []) }
        ensures access_list { IfOk result (λ r.
            map access_by r.0.ports.device.access_lists.items ≡ guarded_host file.now dials ∷ []) }
        // The socket was asked nothing yet, and is marked.
        ensures unasked { IfOk result (λ r.
            udp_events r.0.ports.device.device.sockets.items ≡ [] ∷ []) }
        ensures marks { IfOk result (λ r. r.0.ports.device.device.marks ≡ true ∷ []) }
        // The poll watches its socket, and nothing else, and has not waited.
        ensures watches { IfOk result (λ r.
            r.1.poll.trace.items ≡ map Watched (udp_fds r.0.ports.device.device.sockets.items)) }
    {
        let router = vec![in alloc; file.router]?;
        let peers = vec![in alloc; router]?;
        let access_lists = vec![in alloc; access_list_of(alloc, file, dials)?]?;
        let sockets = UdpSockets::bind_one(rt, alloc, file.address, file.udp_port)?;
        warn_small_rcvbuf(rt, &sockets, file.buffers);
        let poller = Poller::new(rt, alloc, &sockets)?;
        Ok((HostSocket::new(sockets, access_lists, peers), poller))
    }
}

/// Creates the core of a host by its file, without a link.
fn core_of(alloc: Global, file: &HostConfig) -> Result<PacedHostCore, StartFault>
    ensures network { IfOk result (λ c. c.endpoint.network ≡ file.now.network) }
    ensures node { IfOk result (λ c. c.endpoint.node ≡ node_at file.now.address) }
    ensures router { IfOk result (λ c. c.endpoint.router ≡ node_at file.now.router) }
    ensures links { IfOk result (λ c. (id : ℕ) → held_at c.endpoint id ≡ None) }
    ensures last { IfOk result (λ c. c.endpoint.links.last ≡ 0) }
    ensures count { IfOk result (λ c. count_of c.endpoint.links ≡ 0) }
    ensures no_listener { IfOk result (λ c. (socket : Socket) → buffers_at c.endpoint socket ≡ None) }
    ensures nobody { IfOk result (λ c. c.endpoint.heard ≡ None) }
    ensures accepted { IfOk result (λ c. c.came ≡ None) }
    ensures unpaced { IfOk result (λ c. c.paced ≡ None) }
    ensures from { IfOk result (λ c. named_in c.from ≡ named_in file.now.from) }
    ensures own { IfOk result (λ c. c.network ≡ file.now.network) }
{
    let node = node_of(file.address);
    let endpoint = Endpoint::new(alloc, file.network, node, node_of(file.router));
    let origins = copy_origins(alloc, &file.from)?;
    Ok(PacedHostCore::new(endpoint, file.network, origins))
}

/// Returns what a turn with this result did, and whether it filtered a datagram.
fn activity_of(ran: Result<Report, RunFault>, kept: bool) -> Activity
    ensures whole { IfOk ran (λ report. TellsOf report result) }
    ensures ended { OnErr ran ((result.heard ≡ false) × (result.active ≡ true)) }
    ensures kept { result.kept ≡ kept }
{
    match ran {
        Ok(report) => Activity {
            heard: report.heard > 0,
            kept,
            active: report.heard > 0 || report.sent > 0 || report.unmapped > 0 || kept,
        },
        Err(_) => Activity {
            heard: false,
            kept,
            active: true,
        },
    }
}

impl<'a, R: Net + Log + Clock> RunningHost<'a, R> {
    /// Opens a host that is bound as its file says. It accepts datagrams from everybody, or only
    /// from those that its file names and from the node at the IP address that it dials.
    pub fn open(
        rt: &'a R,
        alloc: Global,
        file: &HostConfig,
        dials: Option<[u8; 4]>,
    ) -> Result<RunningHost<'a, R>, StartFault>
        ensures network { IfOk result (λ s. s.core.endpoint.network ≡ file.now.network) }
        ensures node { IfOk result (λ s. s.core.endpoint.node ≡ node_at file.now.address) }
        ensures router { IfOk result (λ s. s.core.endpoint.router ≡ node_at file.now.router) }
        // The host has no link yet, no id was assigned, and no socket listens.
        ensures links { IfOk result (λ s. (id : ℕ) → held_at s.core.endpoint id ≡ None) }
        ensures last { IfOk result (λ s. s.core.endpoint.links.last ≡ 0) }
        ensures count { IfOk result (λ s. count_of s.core.endpoint.links ≡ 0) }
        ensures no_listener { IfOk result (λ s.
            (socket : Socket) → buffers_at s.core.endpoint socket ≡ None) }
        ensures nobody { IfOk result (λ s. s.core.endpoint.heard ≡ None) }
        ensures accepted { IfOk result (λ s. s.core.came ≡ None) }
        ensures unpaced { IfOk result (λ s. s.core.paced ≡ None) }
        ensures uncounted { IfOk result (λ s. s.refused ≡ 0) }
        ensures from { IfOk result (λ s. named_in s.core.from ≡ named_in file.now.from) }
        ensures own { IfOk result (λ s. s.core.network ≡ file.now.network) }
        // A broadcast goes only to its router.
        ensures peers { IfOk result (λ s.
            peers_of s.host_socket.ports.peers.items ≡ (file.now.router ∷ []) ∷ []) }
        // Its one socket has the UDP port of the file, and is bound at its address.
        ensures udp_port { IfOk result (λ s.
            map (λ s. s.udp_port) s.host_socket.ports.device.device.sockets.items ≡ file.now.udp_port ∷ []) }
        ensures at { IfOk result (λ s. map (λ s. s.socket.at) s.host_socket.ports.device.device.sockets.items
            ≡ v4_at file.now.address file.now.udp_port ∷ []) }
        // The socket was asked nothing yet, and is marked.
        ensures unasked { IfOk result (λ s.
            udp_events s.host_socket.ports.device.device.sockets.items ≡ [] ∷ []) }
        ensures marks { IfOk result (λ s. s.host_socket.ports.device.device.marks ≡ true ∷ []) }
        // Its access list is that of the file and the dialed node.
        ensures access_list { IfOk result (λ s.
            map access_by s.host_socket.ports.device.access_lists.items ≡ guarded_host file.now dials ∷ []) }
        // It watches its one socket, and nothing else, and has not waited.
        ensures watches { IfOk result (λ s.
            s.poller.poll.trace.items ≡ map Watched (udp_fds s.host_socket.ports.device.device.sockets.items)) }
    {
        check_streams(rt)?;
        let clock = SteadyClock::new(rt)?;
        let core = core_of(alloc, file)?;
        let (host_socket, poller) = HostSocket::open(rt, alloc, file, dials)?;
        Ok(RunningHost {
            core,
            host_socket,
            clock,
            poller,
            refused: 0,
            telling: Telling::new(),
        })
    }

    /// Also ends a wait when this descriptor becomes readable.
    pub fn watch(&mut self, fd: Option<RawFd>)
        ensures core { self.new.core ≡ self.old.core }
        ensures clock { self.new.clock ≡ self.old.clock }
        ensures host_socket { self.new.host_socket ≡ self.old.host_socket }
        ensures refused { self.new.refused ≡ self.old.refused }
        ensures watches { self.new.poller.poll.trace.items ≡ self.old.poller.poll.trace.items ++ watched_if fd }
    {
        if let Some(fd) = fd {
            let _ = self.poller.watch_reading(fd);
        }
    }

    /// Counts one refusal for lack of memory, if there was one.
    pub fn count_refusal(&mut self, is_refused: bool)
        ensures { self.new ≡ record self.old {
          refused = raised_if is_refused self.old.refused;
        } }
    {
        self.refused = count_if(is_refused, self.refused);
    }

    /// Returns the time of the last turn, in milliseconds from the start.
    pub fn moment(&self) -> u64
        ensures { result ≡ self.now.core.moment }
    {
        self.core.moment()
    }

    /// Takes one turn. Failures of the system and lack of memory are counted and reported, and the
    /// host continues. If a turn runs out of memory, its datagram is lost.
    pub fn turn(&mut self, rt: &R, alloc: Global) -> Activity
        // If it runs out of memory, that is counted.
        ensures core { (taken : TakesHostTurn (around self.old.clock self.old.host_socket.ports)
            (around self.new.clock self.new.host_socket.ports)
            DrivesTurn (peers_of self.old.host_socket.ports.peers.items) self.old.core self.new.core result)
            × (self.new.refused ≡ refused_after taken self.old.refused) }
        // A filtered datagram counts as activity, since more may be waiting after it.
        ensures kept { IsTrue result.kept
            ↔ drops_in self.old.host_socket.ports.device.kept < drops_in self.new.host_socket.ports.device.kept }
        ensures peers { self.new.host_socket.ports.peers ≡ self.old.host_socket.ports.peers }
        // The access list is unchanged.
        ensures access { map access_by self.new.host_socket.ports.device.access_lists.items
            ≡ map access_by self.old.host_socket.ports.device.access_lists.items }
        ensures poller { self.new.poller ≡ self.old.poller }
        // Exactly the warnings that are due after the turn are printed.
        ensures told { AreLoggedIfDue (counts_of_host (host_counts self.new.host_socket.ports.device.kept
            self.new.core.rejected self.new.host_socket.ports.device.device.faults self.new.refused))
            self.new.core.moment self.old.telling.causes self.new.telling.causes }
    {
        // (a host has one port: each turn checks it, whether or not the wait reported it)
        self.host_socket.mark_all();
        let before = self.host_socket.ports.device.filtered();
        let ran = run_once_over_ports(
            alloc,
            &mut self.core,
            &mut self.host_socket.ports,
            &mut self.clock,
        );
        let kept = self.host_socket.ports.device.filtered() > before;
        self.refused = count_if(ran.is_err(), self.refused);
        let counts = self.counts();
        self.telling.tell(rt, counts, self.core.moment());
        activity_of(ran, kept)
    }

    /// Returns how often each problem happened.
    fn counts(&self) -> Counts
        ensures { result ≡ host_counts self.now.host_socket.ports.device.kept self.now.core.rejected
            self.now.host_socket.ports.device.device.faults self.now.refused }
    {
        Counts {
            kept: self.host_socket.ports.device.kept(),
            rejected: self.core.rejected(),
            system: self.host_socket.ports.device.device().faults(),
            memory: self.refused,
        }
    }

    /// Waits until there may be something to do. A datagram was received, a watched descriptor is
    /// readable, the endpoint has something to send, or this many milliseconds have passed.
    pub fn wait(&mut self, most: u64) -> Result<(), WaitFault>
        ensures core { self.new.core ≡ self.old.core }
        ensures clock { self.new.clock ≡ self.old.clock }
        ensures host_socket { self.new.host_socket ≡ self.old.host_socket }
        ensures refused { self.new.refused ≡ self.old.refused }
        // The host asks the system once, to wait this long. No link has anything to do until then.
        ensures sleeps { (time : ℕ) × IsSleep self.old.core most time
            × WaitsOnce time self.old.poller self.new.poller }
        // It fails exactly if the system fails to wait.
        ensures failed { is_err result ≡ self.new.poller.failed }
    {
        let time = self.core.time_until_due(most);
        self.poller.wait(time)?;
        Ok(())
    }
}
