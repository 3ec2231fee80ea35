//! The warnings that a router logs, each at most once a minute.

ghost use Rattle.std.specs.Prelude.{◌≡◌, ◌↔◌, ◌<◌, ◌^◌, ℕ, IsTrue, get_or, replicate};
ghost use Rattle.ipx_site.specs.IdleTime.{IsLineDue, counts_to_log, happened_in};
ghost use Rattle.ipx_sockets.specs.Moments.{counts_of, AreLoggedIfDue, IsDue, IsReached, never_logged};

use crate::metrics::Metrics;
use crate::written_files::FileFault;
use ipx_metrics::LastDrop;
use ipx_rate_limits::DirectedDrops;
use ipx_sockets::{FilterDrops, LastTime, Noun, ThrottledLog, Warning, next_of, tell_each};
use log::Log;
use std::io;
use std::net::SocketAddrV4;

/// The number of warnings of a router.
const CAUSES: usize = 19;

/// The index of the warning about other encapsulations.
const ENCAPSULATIONS: usize = 12;

/// When a router last logged its warnings, in the order of their lines.
#[derive(Clone, Copy)]
pub struct Warnings {
    causes: [ThrottledLog; CAUSES],
}

const DIRECTED: Noun = Noun {
    one: "directed broadcast",
    many: "directed broadcasts",
};

const BROADCASTS: Noun = Noun {
    one: "broadcast",
    many: "broadcasts",
};

const RESPONSES: Noun = Noun {
    one: "response",
    many: "responses",
};

const FRAMES: Noun = Noun {
    one: "frame",
    many: "frames",
};

const WRITES: Noun = Noun {
    one: "failed write",
    many: "failed writes",
};

/// The warning about directed broadcasts over a limit.
fn directed_warning(drops: DirectedDrops) -> Warning
    ensures { result.kept.count ≡ drops.count }
{
    let warning = Warning::of_nobody(drops.count, DIRECTED, "dropped");
    warning.with_last(drops.last.map(LastTime::Address))
}

/// Who sent the last query that came too often, by IP address if it has one, and by which port.
fn querier(f: &Metrics) -> Option<LastTime> {
    let last = f.rate_limited.last?;
    match f.rate_limited_ip {
        Some(ip) => Some(LastTime::IpAtPort(ip, last.port)),
        None => Some(LastTime::NodeAtPort(last.node, last.port)),
    }
}

/// The warning about queries that came too often.
fn query_warning(f: &Metrics) -> Warning
    ensures { result.kept.count ≡ f.now.rate_limited.count }
{
    let warning = Warning::of_nobody(f.rate_limited.count, Noun::QUERIES, "rate-limited");
    warning.with_last(querier(f))
}

/// Who sent a response that was not learned whole.
fn responder(last: LastDrop) -> Option<LastTime> {
    let from = last.from?;
    Some(LastTime::AddressAtPort(from, last.port))
}

/// The warning about responses that were not learned whole.
fn table_warning(f: &Metrics) -> Warning
    ensures { result.kept.count ≡ f.now.outcomes.table_full }
{
    let what = "not fully learned: table full";
    let warning = Warning::of_nobody(f.outcomes.table_full, RESPONSES, what);
    warning.with_last(f.last_table_full.and_then(responder))
}

/// The warning about what only routers may send.
fn router_warning(kept: FilterDrops) -> Warning
    ensures { result.kept ≡ kept.not_a_router }
{
    let warning = Warning::from(
        kept.not_a_router,
        Noun::DATAGRAMS,
        "routed or RIP/SAP from a host not listed in routers",
    );
    warning.with_last(kept.mismatch.map(LastTime::Mismatch))
}

/// The warning about datagrams that were to go to no peer.
fn refused_warning(f: &Metrics) -> Warning
    ensures { result.kept.count ≡ f.now.refused }
{
    let what = "not sent: destination not a peer";
    let warning = Warning::of_nobody(f.refused, Noun::DATAGRAMS, what);
    warning.with_last(f.last_refused.map(LastTime::Destination))
}

/// Where a datagram was to go that the system did not send, and why.
fn unsent(last: (SocketAddrV4, io::Error)) -> LastTime {
    let (to, error) = last;
    LastTime::NotSent(to, error)
}

/// The warning about datagrams that the system refused.
fn system_warning(f: &Metrics) -> Warning
    ensures { result.kept.count ≡ f.now.device_faults }
{
    let what = "refused by the system";
    let warning = Warning::of_nobody(f.device_faults, Noun::DATAGRAMS, what);
    warning.with_last(f.last_not_sent.map(unsent))
}

/// What the system did not write, and why.
fn unwritten(fault: FileFault) -> LastTime {
    LastTime::NotWritten(fault.file.key(), fault.error)
}

/// The warning about files that could not be written.
fn file_warning(f: &Metrics) -> Warning
    ensures { result.kept.count ≡ f.now.file_faults }
{
    let what = "of metrics_file, tables_file or secret_file";
    let warning = Warning::of_nobody(f.file_faults, WRITES, what);
    warning.with_last(f.last_file_fault.map(unwritten))
}

/// The warning about frames from none of the remotes of their port.
fn frame_warning(f: &Metrics) -> Warning
    ensures { result.kept.count ≡ f.now.frame_unknown_senders }
{
    let warning = Warning::of_nobody(
        f.frame_unknown_senders,
        Noun::DATAGRAMS,
        "to an Ethernet port from unknown senders",
    );
    warning.with_last(f.frame_last_unknown.map(LastTime::Place))
}

/// The warning about broadcasts of players over their limit.
fn flood_warning(f: &Metrics) -> Warning
    ensures { result.kept.count ≡ f.now.ipxnet_rate_limited }
{
    let warning = Warning::of_nobody(
        f.ipxnet_rate_limited,
        BROADCASTS,
        "of players dropped: more than 128 a second of one",
    );
    warning.with_last(f.ipxnet_last_limited.map(LastTime::Place))
}

/// The warnings of a router.
fn warnings_in(f: &Metrics) -> [Warning; CAUSES]
    ensures { counts_of result ≡ counts_to_log (happened_in f.now) }
{
    let datagrams = Noun::DATAGRAMS;
    let packets = Noun::PACKETS;
    [
        Warning::from(f.kept.unknown_senders, datagrams, "from unknown senders"),
        Warning::from(f.kept.spoofed, datagrams, "with a spoofed source node"),
        router_warning(f.kept),
        query_warning(f),
        refused_warning(f),
        table_warning(f),
        Warning::of_nobody(f.queue_full, packets, "dropped: send queue full"),
        system_warning(f),
        Warning::of_nobody(f.memory_faults, Noun::TIMES, "out of memory"),
        file_warning(f),
        frame_warning(f),
        Warning::of_nobody(f.unframed, packets, "too long for a frame"),
        Warning::of_nobody(f.other_encapsulation, FRAMES, "of another encapsulation"),
        directed_warning(f.directed),
        Warning::from(
            f.ipxnet_unknown_senders,
            datagrams,
            "to a port for ipxnet from unknown senders",
        ),
        Warning::of_nobody(
            f.ipxnet_full,
            datagrams,
            "of new players dropped: all places of their port are taken",
        ),
        Warning::of_nobody(
            f.ipxnet_full_of_address,
            datagrams,
            "of new players dropped: all places of their IP address are taken",
        ),
        flood_warning(f),
        Warning::of_nobody(
            f.ipxnet_busy,
            BROADCASTS,
            "dropped: more than 100000 copies a second at a port for ipxnet",
        ),
    ]
}

impl Warnings {
    /// Nothing has been logged yet.
    pub fn new() -> Warnings
        ensures { result.causes ≡ replicate 19 never_logged }
    {
        Warnings {
            causes: [ThrottledLog::new(); CAUSES],
        }
    }

    /// Logs those that are due.
    pub fn tell<R: Log>(&mut self, rt: &R, metrics: &Metrics, now: u64)
        ensures { AreLoggedIfDue (counts_to_log (happened_in metrics.now)) now self.old.causes
            self.new.causes }
    {
        tell_each(rt, &mut self.causes, &warnings_in(metrics), now);
    }

    /// Whether the warning about frames of another encapsulation is due.
    pub fn are_encapsulations_due(&self, metrics: &Metrics, now: u64) -> bool
        ensures { IsTrue result ↔ IsDue (get_or self.now.causes 12 never_logged)
            metrics.now.other_encapsulation now }
    {
        self.causes[ENCAPSULATIONS].is_due(metrics.other_encapsulation, now)
    }

    /// The earliest time at which one is due; None if none is, or if it exceeds a u64.
    pub fn next(&self, metrics: &Metrics) -> Option<u64>
        ensures { (t : ℕ) → t < 2 ^ 64
            → IsReached result t ↔ IsLineDue self.now (happened_in metrics.now) t }
    {
        next_of(&self.causes, &warnings_in(metrics))
    }
}
