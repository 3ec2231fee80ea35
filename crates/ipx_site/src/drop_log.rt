//! Log lines for dropped datagrams: one a minute for each reason, with the last datagram. With them
//! go those for mistakes on the segments of Ethernet ports.

ghost use Rattle.std.specs.Prelude.{◌≡◌};
ghost use Rattle.ipx_site.specs.DropLog.{AreDropsLogged, AreRouterDropsLogged, AreSourceDropsLogged, is_for_all_nodes, is_of_all_nodes, no_drops_logged, warns_of};
ghost use Rattle.ipx_site.specs.TunnelLog.{drop_counts};
ghost use Rattle.ipx_sockets.specs.Moments.{IsLoggedIfDue};

use crate::frame_log::FrameLog;
use crate::router_ports::UdpRouterPorts;
use crate::tunnel_log::TunnelLog;
use ipx_carrier::OutcomeCounters;
use ipx_config::is_same_node;
use ipx_metrics::{LastDrop, LastDrops};
use ipx_sockets::ThrottledLog;
use ipx_source_checks::SourceDrops;
use ipx_wire::{Address, Network, Node, Socket};
use log::{Log, info, warn};
use std::fmt;

/// Why datagrams were dropped, for the log.
#[derive(Clone, Copy, PartialEq, Eq)]
pub enum DropReason {
    Bad,
    NotOurs,
    NoRoute,
    HopLimit,
    BadControl,
    ForwardedControl,
    GroupSource,
    LoopedSource,
}

/// What a log line says of a reason and its last datagram. For a missing route it names the
/// network.
#[derive(Clone, Copy, PartialEq, Eq)]
pub struct DropSummary {
    pub reason: DropReason,
    pub last: Option<LastDrop>,
    /// The network of the port that the last datagram came by. Only a looped source names it.
    pub network: Option<Network>,
}

/// When a router last logged its drops, for each of eight reasons, and for the tunnel of each port.
/// Also when it logged each mistake on the segment of each port.
#[derive(Clone, Copy)]
pub struct DropLog {
    bad: ThrottledLog,
    not_ours: ThrottledLog,
    no_route: ThrottledLog,
    hop_limit: ThrottledLog,
    bad_control: ThrottledLog,
    forwarded_control: ThrottledLog,
    group_source: ThrottledLog,
    looped_source: ThrottledLog,
    tunnels: TunnelLog,
    frames: FrameLog,
}

/// Writes that a packet claims to come from the network that it is for. Usually its sender has
/// another number for the network of the port.
fn write_looped<W: fmt::Write>(
    f: &mut fmt::Formatter<W>,
    last: Option<LastDrop>,
    network: Option<Network>,
) -> fmt::Result {
    f.write_str("looped source")?;
    match (last.and_then(|last| last.from), network) {
        (Some(from), Some(network)) => write!(
            f,
            " (sender uses network {}, this port has {network})",
            from.network
        ),
        _ => Ok(()),
    }
}

fn write_reason<W: fmt::Write>(f: &mut fmt::Formatter<W>, summary: &DropSummary) -> fmt::Result {
    let DropSummary {
        reason,
        last,
        network,
    } = *summary;
    match reason {
        DropReason::Bad => f.write_str("bad"),
        DropReason::NotOurs => f.write_str("not ours"),
        DropReason::HopLimit => f.write_str("hop limit"),
        DropReason::BadControl => f.write_str("bad control"),
        DropReason::ForwardedControl => f.write_str("forwarded control"),
        DropReason::GroupSource => f.write_str("RIP or SAP with a group or zero source node"),
        DropReason::LoopedSource => write_looped(f, last, network),
        DropReason::NoRoute => match last.and_then(|last| last.to) {
            Some(to) => write!(f, "no route {}", to.network),
            None => f.write_str("no route"),
        },
    }
}

/// Writes the sender of the last datagram, if its header names one, and the number of the port that
/// it came by.
fn write_last<W: fmt::Write>(f: &mut fmt::Formatter<W>, last: LastDrop) -> fmt::Result {
    f.write_str(", the last")?;
    if let Some(from) = last.from {
        write!(f, " from {} {} {}", from.network, from.node, from.socket)?;
    }
    write!(f, " on port {}", last.port.saturating_add(1))
}

/// Whether an address is for all nodes of a network, with a socket other than those of RIP and SAP.
fn is_for_all_nodes(to: Option<Address>) -> bool
    ensures { result ≡ is_for_all_nodes to }
{
    match to {
        Some(to) => {
            is_same_node(to.node, Node::BROADCAST)
                && to.socket.0 != Socket::RIP.0
                && to.socket.0 != Socket::SAP.0
        }
        None => false,
    }
}

/// Whether the last datagram was for all nodes of a network, to a socket other than those of RIP
/// and SAP.
fn is_of_all_nodes(last: Option<LastDrop>) -> bool
    ensures { result ≡ is_of_all_nodes last }
{
    match last {
        Some(last) => is_for_all_nodes(last.to),
        None => false,
    }
}

impl DropSummary {
    /// Whether the line is a warning. What is sent to all nodes of a network reaches its routers
    /// too. They process RIP and SAP, and drop the rest as not for them, which is no problem.
    pub fn warns(&self) -> bool
        ensures { result ≡ warns_of self.now.reason self.now.last }
    {
        match self.reason {
            DropReason::NotOurs => !is_of_all_nodes(self.last),
            DropReason::Bad
            | DropReason::NoRoute
            | DropReason::HopLimit
            | DropReason::BadControl
            | DropReason::ForwardedControl
            | DropReason::GroupSource
            | DropReason::LoopedSource => true,
        }
    }
}

impl fmt::Display for DropSummary {
    fn fmt<W: fmt::Write>(&self, f: &mut fmt::Formatter<W>) -> fmt::Result {
        write_reason(f, self)?;
        match self.last {
            Some(last) => write_last(f, last),
            None => Ok(()),
        }
    }
}

fn tell<R: Log>(rt: &R, cause: &mut ThrottledLog, count: u64, words: DropSummary, now: u64)
    ensures { IsLoggedIfDue count now cause.old cause.new }
{
    if let Some(more) = cause.tell(count, now) {
        if words.warns() {
            warn!(rt; target: "ipx", "dropped {more} ({count} since the start): {words}");
        } else {
            info!(rt; target: "ipx", "dropped {more} ({count} since the start): {words}");
        }
    }
}

/// What a line says of a reason.
fn words(reason: DropReason, last: Option<LastDrop>) -> DropSummary {
    DropSummary {
        reason,
        last,
        network: None,
    }
}

impl DropLog {
    /// Nothing has been logged yet.
    pub fn new() -> DropLog
        ensures { result ≡ no_drops_logged }
    {
        DropLog {
            bad: ThrottledLog::new(),
            not_ours: ThrottledLog::new(),
            no_route: ThrottledLog::new(),
            hop_limit: ThrottledLog::new(),
            bad_control: ThrottledLog::new(),
            forwarded_control: ThrottledLog::new(),
            group_source: ThrottledLog::new(),
            looped_source: ThrottledLog::new(),
            tunnels: TunnelLog::new(),
            frames: FrameLog::new(),
        }
    }

    /// Logs the reasons that are due: what the router dropped, what failed a source check before
    /// it, what had no frame in the tunnel of its port, and which frames show a mistake.
    pub fn tell<R: Log>(
        &mut self,
        rt: &R,
        outcomes: &OutcomeCounters,
        last: LastDrops,
        source: SourceDrops,
        ports: &UdpRouterPorts,
        now: u64,
    )
        ensures { AreDropsLogged outcomes.now source
            (drop_counts ports.now.ethernet.sockets.ethernet.items ports.now.port_indices.items)
            ports.now.ethernet.switches.items ports.now.port_indices.items now self.old self.new }
    {
        self.tell_router_drops(rt, outcomes, last, now);
        self.tell_source_drops(rt, source, now);
        self.tunnels.tell(rt, ports, now);
        self.frames.tell(rt, ports, now);
    }

    fn tell_router_drops<R: Log>(
        &mut self,
        rt: &R,
        outcomes: &OutcomeCounters,
        last: LastDrops,
        now: u64,
    )
        ensures { AreRouterDropsLogged outcomes.now now self.old self.new }
    {
        let bad = words(DropReason::Bad, last.bad);
        let not_ours = words(DropReason::NotOurs, last.not_ours);
        let no_route = words(DropReason::NoRoute, last.no_route);
        let hop_limit = words(DropReason::HopLimit, last.hop_limit);
        let bad_control = words(DropReason::BadControl, last.bad_control);
        tell(rt, &mut self.bad, outcomes.bad, bad, now);
        tell(rt, &mut self.not_ours, outcomes.not_ours, not_ours, now);
        tell(rt, &mut self.no_route, outcomes.no_route, no_route, now);
        tell(rt, &mut self.hop_limit, outcomes.hop_limit, hop_limit, now);
        tell(
            rt,
            &mut self.bad_control,
            outcomes.bad_control,
            bad_control,
            now,
        );
    }

    fn tell_source_drops<R: Log>(&mut self, rt: &R, source: SourceDrops, now: u64)
        ensures { AreSourceDropsLogged source now self.old self.new }
    {
        let forwarded = source.forwarded_control;
        let grouped = source.group_source;
        let looped = source.looped_source;
        let control = words(DropReason::ForwardedControl, forwarded.last);
        let groups = words(DropReason::GroupSource, grouped.last);
        let loops = DropSummary {
            network: looped.network,
            ..words(DropReason::LoopedSource, looped.last)
        };
        tell(
            rt,
            &mut self.forwarded_control,
            forwarded.count,
            control,
            now,
        );
        tell(rt, &mut self.group_source, grouped.count, groups, now);
        tell(rt, &mut self.looped_source, looped.count, loops, now);
    }
}
