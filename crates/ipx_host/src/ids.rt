//! The id of a connection that a host dials.

ghost use Rattle.std.specs.Prelude.{◌≡◌, ◌≢◌, ◌<◌, ◌+◌, ◌/◌, ◌%◌, ℕ, IfOk, OnErr, OnOk, None, Some};
ghost use Rattle.std.specs.Time.{system_time_nanos};
ghost use Rattle.spx_link.specs.Links.{count_of};
ghost use Rattle.spx_link.specs.Offer.{dialed as link_dialed};
ghost use Rattle.spx_messages.specs.Changes.{SameSelf};
ghost use Rattle.spx_messages.specs.EndpointView.{held_at};

use ipx_config::HostConfig;
use ipx_wire::{Address, Socket};
use spx_messages::{EndFault, Endpoint};
use std::alloc::Global;
use std::rt::Clock;
use std::time::SystemTime;

/// How many ids a host has for its connections.
const IDS: u128 = 65_534;

/// Returns how many ids this run skips before it dials. The number follows from the milliseconds of
/// the time of day, so two runs within a minute have different ids. A peer that still holds the
/// connection of the previous run would take a request with the same id for that connection.
pub fn passed_ids<R: Clock>(rt: &R) -> u16
    ensures { result < 65534 }
{
    match SystemTime::now(rt) {
        Ok(now) => ids_at(now),
        Err(_) => 0,
    }
}

/// Returns how many ids are skipped at a time of day.
fn ids_at(now: SystemTime) -> u16
    ensures { result ≡ system_time_nanos now / 1000000 % 65534 }
{
    let Ok(since) = now.duration_since(SystemTime::UNIX_EPOCH) else {
        return 0;
    };
    u16::try_from(since.as_millis() % IDS).unwrap_or(0)
}

/// Makes an endpoint skip this many ids. Ids grow with each connection.
fn pass_ids(
    alloc: Global,
    endpoint: &mut Endpoint,
    socket: Socket,
    to: Address,
    count: u16,
) -> Result<(), EndFault>
    ensures none_left { (q : ℕ) → held_at endpoint.new q ≡ held_at endpoint.old q }
    ensures count { count_of endpoint.new.links ≡ count_of endpoint.old.links }
    // An endpoint without a link skips exactly that many ids. The next connection has the id after
    // them.
    ensures last { count_of endpoint.old.links ≡ 0 → endpoint.old.links.last + count < 65535
        → OnOk result (endpoint.new.links.last ≡ endpoint.old.links.last + count) }
    ensures host { SameSelf endpoint.old endpoint.new }
{
    for _ in 0..count {
        let id = endpoint.dial(alloc, socket, to, 1, 0)?;
        endpoint.release(id)?;
    }
    Ok(())
}

/// Returns the id of a new connection, after this many ids are skipped.
pub fn dialed(
    alloc: Global,
    endpoint: &mut Endpoint,
    file: &HostConfig,
    to: Address,
    count: u16,
) -> Result<u16, EndFault>
    ensures held { IfOk result (λ id. held_at endpoint.new id ≡ Some (record {
      link = link_dialed id file.now.socket to file.now.buffers 0;
      rest = None;
    })) }
    // This holds if the endpoint held no link, and the ids do not wrap.
    ensures id { count_of endpoint.old.links ≡ 0 → endpoint.old.links.last + count < 65534
        → IfOk result (λ id. id ≡ endpoint.old.links.last + count + 1) }
    // The id is neither 0 nor FFFF, and is the id assigned last.
    ensures range { IfOk result (λ id. (0 < id) × (id < 65535)) }
    ensures last { IfOk result (λ id. endpoint.new.links.last ≡ id) }
    ensures count { OnOk result (count_of endpoint.new.links ≡ count_of endpoint.old.links + 1) }
    ensures others { IfOk result (λ id. (q : ℕ) → q ≢ id
        → held_at endpoint.new q ≡ held_at endpoint.old q) }
    ensures unchanged { OnErr result ((q : ℕ)
        → held_at endpoint.new q ≡ held_at endpoint.old q) }
    ensures host { SameSelf endpoint.old endpoint.new }
{
    pass_ids(alloc, endpoint, file.socket, to, count)?;
    endpoint.dial(alloc, file.socket, to, file.buffers, 0)
}
