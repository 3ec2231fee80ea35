//! Datagrams that a router receives.

ghost use Rattle.std.specs.Prelude.{◌≡◌, ◌≤◌, length};

use crate::digest::{mixed, outcome_digest};
use crate::feeding::{MOMENT, feed, router_of_three};
use ipx_router::Router;
use std::alloc::Global;

/// Hands a record to the router, and returns the digest of its outcome.
pub fn fed_digest(alloc: Global, router: &mut Router, record: &[u8], now: u64) -> u64
    requires { 3 ≤ length router.old.ports }
    ensures { length router.new.ports ≡ length router.old.ports }
{
    match feed(alloc, router, record, now) {
        Ok(Some(outcome)) => outcome_digest(&outcome),
        Ok(None) => 2,
        Err(_) => 3,
    }
}

/// Hands each record to the router, `apart` milliseconds after the one before it, and returns the
/// digest of their outcomes.
pub fn fed_digests(
    alloc: Global,
    router: &mut Router,
    records: &[u8],
    size: usize,
    first: u64,
    apart: u64,
) -> u64
    requires router { 3 ≤ length router.old.ports }
    requires size { 1 ≤ size }
    ensures { length router.new.ports ≡ length router.old.ports }
{
    let mut digest = 0;
    let mut now = first;
    for record in records.chunks_exact(size) {
        digest = mixed(digest, fed_digest(alloc, router, record, now));
        now = now.saturating_add(apart);
    }
    digest
}

/// Hands each heard record to a new router, and then each timed one, again and again. A record
/// comes `apart` milliseconds after the one before it, and a round begins `period` after the one
/// before.
///
/// Returns the digest of the outcomes of the timed ones. Both kinds of records have one size each.
#[unsafe(no_mangle)]
pub extern "C" fn ipx_bench_receive(
    alloc: Global,
    heard: &[u8],
    heard_size: usize,
    records: &[u8],
    size: usize,
    rounds: u32,
    apart: u64,
    period: u64,
) -> u64 {
    if heard_size == 0 || size == 0 {
        return 0;
    }
    let Ok(mut router) = router_of_three(alloc) else {
        return 0;
    };
    let _ = fed_digests(alloc, &mut router, heard, heard_size, MOMENT, 0);
    let mut digest = 0;
    let mut first = MOMENT;
    for _ in 0..rounds {
        let round = fed_digests(alloc, &mut router, records, size, first, apart);
        digest = mixed(digest, round);
        first = first.saturating_add(period);
    }
    digest
}
