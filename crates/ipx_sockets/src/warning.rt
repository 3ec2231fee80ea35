//! A recurring problem, which is logged at most once a minute.

ghost use Rattle.std.specs.Prelude.{◌≡◌, ◌↔◌, ◌<◌, ◌^◌, ℕ, None, get_or};
ghost use Rattle.ipx_sockets.specs.Moments.{counts_of, AreLoggedIfDue, IsOneDue, IsReached, IsLoggedIfDue};

use crate::moments::sooner;
use crate::source_check::NetworkMismatch;
use crate::source_filter::DropCount;
use crate::throttled_log::ThrottledLog;
use ipx_wire::{Address, Node};
use log::{Log, warn};
use std::net::SocketAddrV4;
use std::{fmt, io};

/// The word for what a line counts: for one, and for several.
#[derive(Clone, Copy)]
pub struct Noun {
    pub one: &'static str,
    pub many: &'static str,
}

impl Noun {
    pub const DATAGRAMS: Noun = Noun {
        one: "datagram",
        many: "datagrams",
    };

    pub const PACKETS: Noun = Noun {
        one: "packet",
        many: "packets",
    };

    pub const QUERIES: Noun = Noun {
        one: "query",
        many: "queries",
    };

    pub const TIMES: Noun = Noun {
        one: "time",
        many: "times",
    };

    /// The word for this many.
    pub fn of(&self, count: u64) -> &'static str {
        if count == 1 { self.one } else { self.many }
    }
}

/// What the line of a problem says of the last time, besides the IP address of the sender.
#[derive(Clone, Copy)]
pub enum LastTime {
    /// Nothing more.
    Sender,
    /// The IPX address of the sender.
    Address(Address),
    /// The UDP address of the sender.
    Place(SocketAddrV4),
    /// The IPX address of the sender, and the port that it came by, starting at 0.
    AddressAtPort(Address, usize),
    /// The node of the sender, and the port that it came by, starting at 0.
    NodeAtPort(Node, usize),
    /// The IP address of the sender, and the port that it came by, starting at 0.
    IpAtPort([u8; 4], usize),
    /// The IP address that it was for.
    Destination([u8; 4]),
    /// The UDP address that the last one of an RFC 1234 port was for, and why the system did not
    /// send it.
    NotSent(SocketAddrV4, io::Error),
    /// What the system failed to write, and why.
    NotWritten(&'static str, io::Error),
    /// The sender has another number for the network of the port.
    Mismatch(NetworkMismatch),
}

/// A recurring problem: how often it occurred, who caused it last, by IP address if known, what else
/// is known of the last time, and the text of its line: what is counted, and what became of it.
#[derive(Clone, Copy)]
pub struct Warning {
    pub kept: DropCount,
    pub last: LastTime,
    pub noun: Noun,
    pub what: &'static str,
}

impl Warning {
    /// A problem whose last sender is named by IP address.
    pub fn from(kept: DropCount, noun: Noun, what: &'static str) -> Warning
        ensures { result.kept ≡ kept }
    {
        Warning {
            kept,
            last: LastTime::Sender,
            noun,
            what,
        }
    }

    /// A problem that names no sender.
    pub fn of_nobody(count: u64, noun: Noun, what: &'static str) -> Warning
        ensures count { result.kept.count ≡ count }
        ensures nobody { result.kept.last ≡ None }
    {
        let kept = DropCount { count, last: None };
        Warning {
            kept,
            last: LastTime::Sender,
            noun,
            what,
        }
    }

    /// The same, with what is known of the last time, if anything is.
    pub fn with_last(self, last: Option<LastTime>) -> Warning
        ensures { result.kept ≡ self.kept }
    {
        match last {
            Some(last) => Warning { last, ..self },
            None => self,
        }
    }
}

/// The end of the line of a problem: what is known of the last time.
#[derive(Clone, Copy)]
struct LineEnd(Warning);

fn write_ip<W: fmt::Write>(f: &mut fmt::Formatter<W>, ip: [u8; 4]) -> fmt::Result {
    let [a, b, c, d] = ip;
    write!(f, "{a}.{b}.{c}.{d}")
}

fn write_place<W: fmt::Write>(f: &mut fmt::Formatter<W>, place: SocketAddrV4) -> fmt::Result {
    write_ip(f, place.ip().octets())?;
    write!(f, ":{}", place.port())
}

/// Writes the IP address of the last sender, if known.
fn write_sender<W: fmt::Write>(f: &mut fmt::Formatter<W>, ip: Option<[u8; 4]>) -> fmt::Result {
    match ip {
        Some(ip) => {
            f.write_str(", the last from ")?;
            write_ip(f, ip)
        }
        None => Ok(()),
    }
}

fn write_address<W: fmt::Write>(f: &mut fmt::Formatter<W>, from: Address) -> fmt::Result {
    write!(
        f,
        ", the last from {} {} {}",
        from.network, from.node, from.socket
    )
}

/// Writes the number of a port. The first one is 1.
fn write_port<W: fmt::Write>(f: &mut fmt::Formatter<W>, port: usize) -> fmt::Result {
    write!(f, " on port {}", port.saturating_add(1))
}

/// Writes what is known of the last time, besides the IP address of the sender.
fn write_last<W: fmt::Write>(f: &mut fmt::Formatter<W>, last: LastTime) -> fmt::Result {
    match last {
        LastTime::Sender => Ok(()),
        LastTime::Address(from) => write_address(f, from),
        LastTime::Place(from) => {
            f.write_str(", the last from ")?;
            write_place(f, from)
        }
        LastTime::AddressAtPort(from, port) => {
            write_address(f, from)?;
            write_port(f, port)
        }
        LastTime::NodeAtPort(node, port) => {
            write!(f, ", the last from {node}")?;
            write_port(f, port)
        }
        LastTime::IpAtPort(ip, port) => {
            f.write_str(", the last from ")?;
            write_ip(f, ip)?;
            write_port(f, port)
        }
        LastTime::Destination(ip) => {
            f.write_str(", the last to ")?;
            write_ip(f, ip)
        }
        LastTime::NotSent(to, error) => {
            f.write_str(", the last of an RFC 1234 port to ")?;
            write_place(f, to)?;
            write!(f, ": {error}")
        }
        LastTime::NotWritten(what, error) => write!(f, ", the last of {what}: {error}"),
        LastTime::Mismatch(networks) => write!(
            f,
            " (sender uses network {}, this port has {})",
            networks.sender, networks.port
        ),
    }
}

impl fmt::Display for LineEnd {
    fn fmt<W: fmt::Write>(&self, f: &mut fmt::Formatter<W>) -> fmt::Result {
        write_sender(f, self.0.kept.last)?;
        write_last(f, self.0.last)
    }
}

/// Logs how often it occurred since it was last logged, if it is due, with what is known of the last
/// time.
fn tell_warning<R: Log>(rt: &R, cause: &mut ThrottledLog, warning: Warning, now: u64)
    ensures { IsLoggedIfDue warning.kept.count now cause.old cause.new }
{
    let count = warning.kept.count;
    let what = warning.what;
    if let Some(more) = cause.tell(count, now) {
        let noun = warning.noun.of(more);
        let end = LineEnd(warning);
        warn!(rt; target: "ipx", "{more} {noun} {what} ({count} since the start){end}");
    }
}

/// Logs the warnings that are due, each by the cause at its index.
pub fn tell_each<R: Log>(rt: &R, causes: &mut [ThrottledLog], warnings: &[Warning], now: u64)
    ensures { AreLoggedIfDue (counts_of warnings.now) now causes.old causes.new }
{
    for (place, cause) in causes.iter_mut().enumerate() {
        if let Some(warning) = warnings.get(place) {
            tell_warning(rt, cause, *warning, now);
        }
    }
}

/// How often the problem at an index occurred: 0 if there is none.
fn count_at(warnings: &[Warning], place: usize) -> u64
    ensures { result ≡ get_or (counts_of warnings.now) place 0 }
{
    match warnings.get(place) {
        Some(warning) => warning.kept.count,
        None => 0,
    }
}

/// The earliest time at which one of these is due; None if none is, or if it exceeds a u64.
pub fn next_of(causes: &[ThrottledLog], warnings: &[Warning]) -> Option<u64>
    ensures { (t : ℕ) → t < 2 ^ 64
        → IsReached result t ↔ IsOneDue causes.now (counts_of warnings.now) t }
{
    let mut first = None;
    for (place, cause) in causes.iter().enumerate() {
        first = sooner(first, cause.next(count_at(warnings, place)));
    }
    first
}
