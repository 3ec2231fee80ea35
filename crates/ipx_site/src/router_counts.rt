//! The counters of a running router.

ghost use Rattle.std.specs.Prelude.{◌≡◌, ◌≤◌, Some};
ghost use Rattle.ipx_carrier.specs.Counting.{counted, raised};
ghost use Rattle.ipx_carrier.specs.OutcomeCounters.{outcomes_in};
ghost use Rattle.ipx_site.specs.IdleTime.{happened, happened_in, lost_in};
ghost use Rattle.ipx_site.specs.IpxnetTotals.{IsOfLastFlood};
ghost use Rattle.ipx_site.specs.RouterMetrics.{AreMetrics, no_counts, node_ip, querier_ip, with_batch, with_file, with_memory_fault, with_refusal};

use crate::ethernet_totals::{in_other_encapsulations, unframed};
use crate::ipxnet_totals::{busy, flood_from, full, full_of_address, last_limited, rate_limited};
use crate::metrics::Metrics;
use crate::route_change_log::RouteChangeLog;
use crate::router_ports::{PortIndex, UdpRouterPorts};
use crate::written_files::{FileFault, WriteFault, WrittenFile};
use ipx_carrier::{Batch, OutcomeCounters, RunFault, ip_of, saturating_increment};
use ipx_ethernet_ports::EndSockets;
use ipx_ipxnet_ports::PlaceSockets;
use ipx_metrics::MeteredRouter;
use ipx_rate_limits::{Querier, RateLimiter};
use ipx_sockets::DropCount;
use ipx_source_checks::SourceChecked;
use ipx_static::WithStatics;
use ipx_wire::Node;
use std::net::SocketAddrV4;

/// The counters that a running router keeps itself. Each saturates at the greatest u64.
#[derive(Clone, Copy)]
pub struct RouterCounts {
    pub unmapped: u64,
    pub device_faults: u64,
    pub memory_faults: u64,
    pub file_faults: u64,
    /// The last of these.
    pub last_file_fault: Option<FileFault>,
}

/// How many datagrams were processed: each has one outcome.
fn heard_in(outcomes: &OutcomeCounters) -> u64
    ensures { result ≡ counted (outcomes_in outcomes.now) }
{
    u64::try_from(outcomes.total()).unwrap_or(u64::MAX)
}

/// The IP address of a node at a port. Only at an RFC 1234 port is it in the node.
fn node_ip(port_index: Option<PortIndex>, node: Node) -> Option<[u8; 4]>
    ensures { result ≡ node_ip port_index node }
{
    match port_index {
        Some(PortIndex::Datagrams(_)) => ip_of(node).ok(),
        Some(PortIndex::Ethernet(_) | PortIndex::IpxnetServer(_)) | None => None,
    }
}

/// The IP address of who sent a query, if it came by an RFC 1234 port.
fn querier_ip(port_indices: &[PortIndex], last: Option<Querier>) -> Option<[u8; 4]>
    ensures { result ≡ querier_ip port_indices.now last }
{
    let last = last?;
    node_ip(port_indices.get(last.port).copied(), last.node)
}

/// How often the system refused a datagram or a frame.
fn faults_of(ports: &UdpRouterPorts) -> u64
    ensures { result ≡ counted (lost_in ports.now) }
{
    let ethernet = ports.ethernet().sockets();
    let servers = ports.servers().sockets();
    let device = ports.device().device();
    device
        .faults()
        .saturating_add(ethernet.failures())
        .saturating_add(ethernet.faults())
        .saturating_add(servers.failures())
        .saturating_add(servers.faults())
}

/// What came to ports for ipxnet from unknown senders.
fn ipxnet_unknown_senders(ports: &UdpRouterPorts) -> DropCount
    ensures count { result.count ≡ ports.now.servers.sockets.nowhere }
    ensures last { result.last ≡ ports.now.servers.sockets.last_unknown }
{
    let sockets = ports.servers().sockets();
    DropCount {
        count: sockets.from_nowhere(),
        last: sockets.last_unknown(),
    }
}

/// The IP address and UDP port of the player whose broadcast was dropped last because the player had
/// sent too many.
fn last_limited_from(ports: &UdpRouterPorts) -> Option<SocketAddrV4>
    ensures { IsOfLastFlood ports.now.servers.servers.items result }
{
    let flood = last_limited(ports.servers().servers());
    flood_from(flood)
}

impl RouterCounts {
    pub fn new() -> RouterCounts
        ensures { result ≡ no_counts }
    {
        RouterCounts {
            unmapped: 0,
            device_faults: 0,
            memory_faults: 0,
            file_faults: 0,
            last_file_fault: None,
        }
    }

    /// Counts what a batch did not send, and the fault that ended it.
    pub fn add(&mut self, batch: Batch)
        ensures { self.new ≡ with_batch batch self.old }
    {
        self.unmapped = self.unmapped.saturating_add(batch.unmapped);
        match batch.fault {
            Some(RunFault::Device) => saturating_increment(&mut self.device_faults),
            Some(RunFault::OutOfMemory) => self.count_out_of_memory(),
            None => {}
        }
    }

    pub fn count_out_of_memory(&mut self)
        ensures counted { self.new ≡ with_memory_fault self.old }
        ensures grows { self.old.memory_faults ≤ self.new.memory_faults }
    {
        saturating_increment(&mut self.memory_faults);
    }

    pub fn fail_file(&mut self, fault: FileFault)
        ensures counted { self.new ≡ record self.old {
          file_faults = raised self.old.file_faults;
          last_file_fault = Some fault;
        } }
        ensures grows { self.old.file_faults ≤ self.new.file_faults }
    {
        saturating_increment(&mut self.file_faults);
        self.last_file_fault = Some(fault);
    }

    /// Counts memory that was refused, if it was.
    pub fn count_refusal(&mut self, refused: bool)
        ensures { self.new ≡ with_refusal refused self.old }
    {
        if refused {
            self.count_out_of_memory();
        }
    }

    /// Counts why a file was not written, if it was not.
    pub fn count_file(&mut self, file: WrittenFile, done: Result<(), WriteFault>)
        ensures { self.new ≡ with_file file done self.old }
    {
        match done {
            Ok(()) => {}
            Err(WriteFault::OutOfMemory) => self.count_out_of_memory(),
            Err(WriteFault::File(error)) => self.fail_file(FileFault { file, error }),
        }
    }

    /// All metrics of a router, at `now`, in milliseconds since its start.
    pub fn metrics(
        &self,
        core: &SourceChecked<RateLimiter<WithStatics<MeteredRouter>>>,
        ports: &UdpRouterPorts,
        known: &RouteChangeLog,
        now: u64,
    ) -> Metrics
        ensures happened { happened_in result ≡ happened self.now core.now ports.now }
        ensures metrics { AreMetrics self.now core.now ports.now known.now now result }
    {
        let outcomes = core.core().core().core().outcomes();
        let device = ports.device();
        let switches = ports.ethernet().switches();
        let servers = ports.servers().servers();
        Metrics {
            heard: heard_in(&outcomes),
            sent: device.device().sent(),
            outcomes,
            last_table_full: core.core().core().core().last().table_full,
            queue_full: core.core().core().core().dropped(),
            unmapped: self.unmapped,
            kept: device.kept(),
            rate_limited: core.core().kept(),
            rate_limited_ip: querier_ip(ports.port_indices(), core.core().kept().last),
            directed: core.core().directed(),
            source_drops: core.drops(),
            refused: device.refused(),
            last_refused: device.last_refused(),
            frame_unknown_senders: ports.ethernet().sockets().unknown_senders(),
            frame_last_unknown: ports.ethernet().sockets().last_unknown(),
            ipxnet_unknown_senders: ipxnet_unknown_senders(ports),
            ipxnet_full: full(servers),
            ipxnet_full_of_address: full_of_address(servers),
            ipxnet_rate_limited: rate_limited(servers),
            ipxnet_last_limited: last_limited_from(ports),
            ipxnet_busy: busy(servers),
            unframed: unframed(switches),
            other_encapsulation: in_other_encapsulations(switches),
            device_faults: self.device_faults.saturating_add(faults_of(ports)),
            last_not_sent: device.device().last_not_sent(),
            memory_faults: self.memory_faults,
            file_faults: self.file_faults,
            last_file_fault: self.last_file_fault,
            queue: core.core().core().core().queued() as u64,
            routes: known.networks() as u64,
            services: known.services() as u64,
            seconds: now / 1000,
        }
    }
}
