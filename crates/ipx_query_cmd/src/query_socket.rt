//! The socket of a host that asks, with its access list.

ghost use Rattle.std.specs.Prelude.{◌≡◌, ◌<◌, ◌⊎◌, ◌↔◌, ◌∷◌, [], IfErr, IfOk, IsTrue, length, map, true};
ghost use Rattle.ipx_carrier.specs.Traces.{v4_at};
ghost use Rattle.ipx_carrier.specs.Turns.{IsTurn, Turn, peers_of};
ghost use Rattle.ipx_sockets.specs.AccessLists.{access_by};
ghost use Rattle.ipx_sockets.specs.PollEvents.{Watched};
ghost use Rattle.ipx_sockets.specs.PortTurns.{DrivesPort};
ghost use Rattle.ipx_sockets.specs.Senders.{udp_events, udp_fds};

use crate::fault::AskFault;
use ipx_carrier::{Clock, Core, CountsFiltered, OwnedRfc1234Ports, Report, run_once_over_ports};
use ipx_config::HostConfig;
use ipx_sockets::{AccessList, Poller, SourceFilter, UdpSockets};
use std::alloc::Global;
use std::net::Net;

/// The socket of a host that asks, with its access list. Broadcasts are sent to nobody.
pub struct QuerySocket {
    ports: OwnedRfc1234Ports<SourceFilter<UdpSockets>>,
    ghost one_socket: { length ports.device.device.sockets.items ≡ 1 },
}

impl Drop for QuerySocket {
    fn drop(self) {
        let QuerySocket { ports: _ } = self;
    }
}

/// Whether a turn heard or sent anything, or datagrams were filtered: how many before and after it.
fn is_busy(report: Report, before: u128, after: u128) -> bool
    ensures { IsTrue result ↔ (0 < report.heard) ⊎ ((0 < report.sent) ⊎ (before < after)) }
{
    report.heard > 0 || report.sent > 0 || after > before
}

impl QuerySocket {
    ghost use Rattle.ipx_query_cmd.specs.Pausing.{IsBusy};

    /// One socket with its access list, and the list of its peers.
    fn new(
        sockets: UdpSockets,
        access_lists: Vec<AccessList>,
        peers: Vec<Vec<[u8; 4]>>,
    ) -> QuerySocket
        requires one_socket { length sockets.sockets.items ≡ 1 }
        ensures sockets { result.ports.device.device ≡ sockets }
        ensures access_lists { result.ports.device.access_lists.items ≡ access_lists.items }
        ensures peers { result.ports.peers ≡ peers }
    {
        QuerySocket {
            ports: OwnedRfc1234Ports::new(SourceFilter::new(sockets, access_lists), peers),
        }
    }

    /// The bound socket of the host of a file, with this access list, and a poller that waits for
    /// it.
    pub fn open<R: Net>(
        rt: &R,
        alloc: Global,
        file: &HostConfig,
        access_list: AccessList,
    ) -> Result<(QuerySocket, Poller), AskFault>
        ensures peers { IfOk result (λ r. peers_of r.0.ports.peers.items ≡ [] ∷ []) }
        ensures udp_port { IfOk result (λ r.
            map (λ s. s.udp_port) r.0.ports.device.device.sockets.items ≡ file.now.udp_port ∷ []) }
        ensures at { IfOk result (λ r. map (λ s. s.socket.at) r.0.ports.device.device.sockets.items
            ≡ v4_at file.now.address file.now.udp_port ∷ []) }
        // The socket was asked nothing yet, and is marked.
        ensures unasked { IfOk result (λ r.
            udp_events r.0.ports.device.device.sockets.items ≡ [] ∷ []) }
        ensures marks { IfOk result (λ r. r.0.ports.device.device.marks ≡ true ∷ []) }
        ensures access_list { IfOk result (λ r.
            map access_by r.0.ports.device.access_lists.items ≡ access_by access_list ∷ []) }
        // The poller watches its socket, and nothing else, and has not waited.
        ensures watches { IfOk result (λ r.
            r.1.poll.trace.items ≡ map Watched (udp_fds r.0.ports.device.device.sockets.items)) }
    {
        let peers = vec![in alloc; Vec::new(alloc)]?;
        let access_lists = vec![in alloc; access_list]?;
        let sockets = UdpSockets::bind_one(rt, alloc, file.address, file.udp_port)?;
        let poller = Poller::new(rt, alloc, &sockets)?;
        Ok((QuerySocket::new(sockets, access_lists, peers), poller))
    }

    /// Takes one turn of a core over it. It returns whether there may be more to do at once.
    pub fn turn<C: Core, K: Clock>(
        &mut self,
        alloc: Global,
        core: &mut C,
        clock: &mut K,
    ) -> Result<bool, AskFault>
        // The port is asked once, and the core hears what it gives. Just the packets of the core
        // are sent. There may be more to do exactly if the turn was busy.
        ensures turn { IfOk result (λ more. (turn : Turn)
            × IsTurn C.hears C.gives (C.port_count core.old) turn core.old core.new
            × K.tells clock.old turn.moment clock.new
            × DrivesPort self.old.ports turn self.new.ports
            × (IsTrue more ↔ IsBusy self.old self.new turn)) }
        ensures fault { IfErr result (λ f. f ≡ AskFault.OutOfMemory) }
    {
        // It reads its one port in each turn, whether or not the wait reported it.
        self.ports.device.mark_all();
        let before = self.ports.device.filtered();
        let Ok(report) = run_once_over_ports(alloc, core, &mut self.ports, clock) else {
            return Err(AskFault::OutOfMemory);
        };
        Ok(is_busy(report, before, self.ports.device.filtered()))
    }
}
