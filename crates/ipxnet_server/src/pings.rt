//! Pings of silent clients.

ghost use Rattle.std.specs.Prelude.{◌≡◌};
ghost use Rattle.ipxnet_server.specs.Pings.{IsNextPing, asks_by, earlier, is_asked, is_one_asked, is_one_pinged, is_pinged, pings_by};

use crate::clients::Client;
use crate::noted::Noted;

/// A client is pinged each time that it was silent for so many more milliseconds.
pub const PING_PERIOD_MS: u64 = 25_000;

/// A turn in which silent clients are pinged.
#[derive(Clone, Copy, Debug, PartialEq, Eq)]
pub struct PingTurn {
    /// When the turn before this one was, in ms.
    pub before: u64,
    /// When this turn is, in ms.
    pub now: u64,
}

/// How many whole periods a client is silent.
fn silent_periods(now: u64, client: &Client) -> u64
    ensures { result ≡ pings_by now client.now }
{
    now.saturating_sub(client.heard) / PING_PERIOD_MS
}

/// How many pings a noted address is due.
fn asks_due(now: u64, noted: &Noted) -> u64
    ensures { result ≡ asks_by now noted.now }
{
    let time = now.saturating_sub(noted.since);
    u64::from(noted.cause.first_ask() <= time) + u64::from(noted.cause.second_ask() <= time)
}

impl PingTurn {
    /// Whether a client is pinged: since the turn before, its silence has come to 25 seconds, or to
    /// a further 25.
    pub fn pings(self, client: &Client) -> bool
        ensures { result ≡ is_pinged self client.now }
    {
        silent_periods(self.before, client) < silent_periods(self.now, client)
    }

    /// Whether a noted address is pinged: since the turn before, the time of one of its two pings
    /// has come. These are 5.5 s and 8.5 s after the registration that it is noted by, or about 1 s
    /// and 4 s after a restart.
    pub fn asks(self, noted: &Noted) -> bool
        ensures { result ≡ is_asked self noted.now }
    {
        asks_due(self.before, noted) < asks_due(self.now, noted)
    }
}

/// The earlier of two times, if there is any.
pub fn sooner(a: Option<u64>, b: Option<u64>) -> Option<u64>
    ensures { result ≡ earlier a b }
{
    match (a, b) {
        (Some(a), Some(b)) => Some(if a <= b { a } else { b }),
        (Some(a), None) => Some(a),
        (None, b) => b,
    }
}

/// When a client is pinged next if it stays silent, after a turn at `before`. None if no clock can
/// show that time.
fn next_ping_of(before: u64, client: &Client) -> Option<u64>
    ensures { IsNextPing (λ now. is_pinged (record { before = before; now = now }) client.now) result }
{
    let periods = silent_periods(before, client) + 1;
    let silence = periods.checked_mul(PING_PERIOD_MS)?;
    client.heard.checked_add(silence)
}

/// When one of these is pinged next if all stay silent, after a turn at `before`.
pub fn next_ping(before: u64, clients: &[Client]) -> Option<u64>
    ensures { IsNextPing (is_one_pinged before clients.now) result }
{
    let mut next = None;
    for client in clients {
        next = sooner(next, next_ping_of(before, client));
    }
    next
}

/// When an address that is noted is pinged next if it shows nothing, after a turn at `before`.
/// None if it is pinged no more, or if no clock can show that time.
fn next_ask_of(before: u64, noted: &Noted) -> Option<u64>
    ensures { IsNextPing (λ now. is_asked (record { before = before; now = now }) noted.now) result }
{
    let first = noted.cause.first_ask();
    let second = noted.cause.second_ask();
    match asks_due(before, noted) {
        0 => noted.since.checked_add(first),
        1 => noted.since.checked_add(second),
        _ => None,
    }
}

/// When one of these is pinged next if all show nothing, after a turn at `before`.
pub fn next_ask(before: u64, noted: &[Noted]) -> Option<u64>
    ensures { IsNextPing (is_one_asked before noted.now) result }
{
    let mut next = None;
    for one in noted {
        next = sooner(next, next_ask_of(before, one));
    }
    next
}
