//! Prometheus metrics of a router.

ghost use Rattle.std.specs.Prelude.{◌≡◌, ◌++◌, IfOk, OnOk, drop, string_bytes, take};
ghost use Rattle.ipx_site.specs.MetricsText.{families_text, family_lines};
ghost use Rattle.ipx_site.specs.TotalFamilies.{dropped_family, faults_family, filtered_family, outcomes_family, total_families};

use crate::family::{Family, put_each, put_one};
use crate::written_files::FileFault;
use ipx_carrier::OutcomeCounters;
use ipx_metrics::LastDrop;
use ipx_rate_limits::{DirectedDrops, QueryDrops};
use ipx_sockets::{DropCount, FilterDrops};
use ipx_source_checks::SourceDrops;
use std::alloc::{AllocError, Global};
use std::io;
use std::net::SocketAddrV4;

/// What a router counted since it started.
#[derive(Clone, Copy)]
pub struct Metrics {
    /// The datagrams that it processed, each of which has an outcome.
    pub heard: u64,
    /// The datagrams that the system took to be sent.
    pub sent: u64,
    /// The outcomes of those that it processed.
    pub outcomes: OutcomeCounters,
    /// The last response that was not learned whole, since a table was full.
    pub last_table_full: Option<LastDrop>,
    /// The packets that found no room in its queue.
    pub queue_full: u64,
    /// The packets that could not be sent to their node: it has no IP address, or no frame holds
    /// the packet, which `unframed` counts too.
    pub unmapped: u64,
    /// The datagrams that were dropped on arrival.
    pub kept: FilterDrops,
    /// The queries that came too often, and were dropped.
    pub rate_limited: QueryDrops,
    /// The IP address of the sender of the last of these, if it came by an RFC 1234 port.
    pub rate_limited_ip: Option<[u8; 4]>,
    /// The directed broadcasts over a limit, which were not forwarded.
    pub directed: DirectedDrops,
    /// The packets that failed a source check of the router.
    pub source_drops: SourceDrops,
    /// The datagrams that were to go to no peer, and were not sent.
    pub refused: u64,
    /// The IP address that the last of these was for.
    pub last_refused: Option<[u8; 4]>,
    /// The datagrams at Ethernet ports that came from none of their remotes.
    pub frame_unknown_senders: u64,
    /// The address that the last of these came from.
    pub frame_last_unknown: Option<SocketAddrV4>,
    /// The datagrams at ports for ipxnet that came from no address in their `peers`.
    pub ipxnet_unknown_senders: DropCount,
    /// The datagrams of new players that were dropped because all places of their port were taken.
    pub ipxnet_full: u64,
    /// Those that were dropped because all places of their IP address were taken.
    pub ipxnet_full_of_address: u64,
    /// The broadcasts of players that were dropped because their player had sent too many.
    pub ipxnet_rate_limited: u64,
    /// The address of the player that sent the last of these.
    pub ipxnet_last_limited: Option<SocketAddrV4>,
    /// The broadcasts that were dropped because their port for ipxnet had sent too many copies.
    pub ipxnet_busy: u64,
    /// The packets that no frame could carry.
    pub unframed: u64,
    /// The frames with a packet in an encapsulation other than their port's.
    pub other_encapsulation: u64,
    /// How often the system refused to send or to receive a datagram.
    pub device_faults: u64,
    /// Where the last datagram of an RFC 1234 port was to go that the system refused to send, and
    /// why it did.
    pub last_not_sent: Option<(SocketAddrV4, io::Error)>,
    /// How often memory was refused.
    pub memory_faults: u64,
    /// How often a file of the router could not be written.
    pub file_faults: u64,
    /// The last of these.
    pub last_file_fault: Option<FileFault>,
    /// The packets that wait to be sent.
    pub queue: u64,
    /// How many networks of others it knows.
    pub routes: u64,
    /// How many services of others it knows.
    pub services: u64,
    /// The seconds since it started.
    pub seconds: u64,
}

const HEARD: Family = Family {
    name: "ipx_receive_packets_total",
    help: "Datagrams that the router itself processed, none between two players or two remotes",
    kind: "counter",
};

const SENT: Family = Family {
    name: "ipx_transmit_packets_total",
    help: "Datagrams sent at RFC 1234 ports, one for each peer that a packet goes to",
    kind: "counter",
};

const OUTCOMES: Family = Family {
    name: "ipx_outcomes_total",
    help: "Datagrams received and not dropped, by outcome",
    kind: "counter",
};

const DROPPED: Family = Family {
    name: "ipx_dropped_total",
    help: "Packets dropped, by reason",
    kind: "counter",
};

const UNKNOWN_SENDERS: Family = Family {
    name: "ipx_unknown_senders_total",
    help: "Datagrams to RFC 1234 ports from unknown senders",
    kind: "counter",
};

const FILTERED: Family = Family {
    name: "ipx_filtered_total",
    help: "Other datagrams filtered, by reason",
    kind: "counter",
};

const REFUSED: Family = Family {
    name: "ipx_egress_filtered_total",
    help: "Datagrams not sent because the destination is not a peer",
    kind: "counter",
};

const FAULTS: Family = Family {
    name: "ipx_errors_total",
    help: "Errors of the system, by kind",
    kind: "counter",
};

const QUEUE: Family = Family {
    name: "ipx_send_queue_packets",
    help: "Packets in the send queue",
    kind: "gauge",
};

const ROUTES: Family = Family {
    name: "ipx_routes",
    help: "Known networks that are not at a port",
    kind: "gauge",
};

const SERVICES: Family = Family {
    name: "ipx_services",
    help: "Known services",
    kind: "gauge",
};

const SECONDS: Family = Family {
    name: "ipx_uptime_seconds",
    help: "Seconds since the start",
    kind: "gauge",
};

fn put_outcomes(text: &mut String, outcomes: &OutcomeCounters) -> Result<(), AllocError>
    ensures { OnOk result
        (string_bytes text.new ≡ string_bytes text.old ++ family_lines (outcomes_family outcomes.now)) }
{
    let metrics = [
        ("forwarded", outcomes.forwarded),
        ("answered", outcomes.answered),
        ("heard", outcomes.heard),
    ];
    put_each(text, &OUTCOMES, "outcome", &metrics)
}

fn put_dropped(text: &mut String, metrics: &Metrics) -> Result<(), AllocError>
    ensures { OnOk result
        (string_bytes text.new ≡ string_bytes text.old ++ family_lines (dropped_family metrics.now)) }
{
    let outcomes = metrics.outcomes;
    let metrics = [
        ("bad", outcomes.bad),
        ("propagated", outcomes.propagated),
        ("not_ours", outcomes.not_ours),
        ("no_route", outcomes.no_route),
        ("hop_limit", outcomes.hop_limit),
        ("bad_control", outcomes.bad_control),
        ("table_full", outcomes.table_full),
        ("queue_full", metrics.queue_full),
        ("unmapped", metrics.unmapped),
    ];
    put_each(text, &DROPPED, "reason", &metrics)
}

fn put_filtered(text: &mut String, metrics: &Metrics) -> Result<(), AllocError>
    ensures { OnOk result
        (string_bytes text.new ≡ string_bytes text.old ++ family_lines (filtered_family metrics.now)) }
{
    let drops = metrics.source_drops;
    let metrics = [
        ("spoofed_source", metrics.kept.spoofed.count),
        ("not_a_router", metrics.kept.not_a_router.count),
        ("rate_limited", metrics.rate_limited.count),
        ("directed_broadcast", metrics.directed.count),
        ("forwarded_control", drops.forwarded_control.count),
        ("group_source", drops.group_source.count),
        ("looped_source", drops.looped_source.count),
    ];
    put_each(text, &FILTERED, "reason", &metrics)
}

fn put_faults(text: &mut String, metrics: &Metrics) -> Result<(), AllocError>
    ensures { OnOk result
        (string_bytes text.new ≡ string_bytes text.old ++ family_lines (faults_family metrics.now)) }
{
    let metrics = [
        ("device", metrics.device_faults),
        ("memory", metrics.memory_faults),
        ("file", metrics.file_faults),
    ];
    put_each(text, &FAULTS, "kind", &metrics)
}

/// The first three families follow: what was received and sent, and what became of it.
fn put_packets(text: &mut String, metrics: &Metrics) -> Result<(), AllocError>
    ensures { OnOk result (string_bytes text.new
        ≡ string_bytes text.old ++ families_text (take 3 (total_families metrics.now))) }
{
    put_one(text, &HEARD, metrics.heard)?;
    put_one(text, &SENT, metrics.sent)?;
    put_outcomes(text, &metrics.outcomes)
}

/// The next four follow: what was dropped, filtered or not sent.
fn put_drops(text: &mut String, metrics: &Metrics) -> Result<(), AllocError>
    ensures { OnOk result (string_bytes text.new
        ≡ string_bytes text.old ++ families_text (take 4 (drop 3 (total_families metrics.now)))) }
{
    put_dropped(text, metrics)?;
    put_one(text, &UNKNOWN_SENDERS, metrics.kept.unknown_senders.count)?;
    put_filtered(text, metrics)?;
    put_one(text, &REFUSED, metrics.refused)
}

/// The last five follow: the errors of the system, what it holds now, and its age.
fn put_state(text: &mut String, metrics: &Metrics) -> Result<(), AllocError>
    ensures { OnOk result (string_bytes text.new
        ≡ string_bytes text.old ++ families_text (drop 7 (total_families metrics.now))) }
{
    put_faults(text, metrics)?;
    put_one(text, &QUEUE, metrics.queue)?;
    put_one(text, &ROUTES, metrics.routes)?;
    put_one(text, &SERVICES, metrics.services)?;
    put_one(text, &SECONDS, metrics.seconds)
}

impl Metrics {
    /// These metrics in the Prometheus text format.
    pub fn text(&self, alloc: Global) -> Result<String, AllocError>
        ensures { IfOk result (λ t. string_bytes t ≡ families_text (total_families self.now)) }
    {
        let mut text = String::new(alloc);
        put_packets(&mut text, self)?;
        put_drops(&mut text, self)?;
        put_state(&mut text, self)?;
        Ok(text)
    }
}
