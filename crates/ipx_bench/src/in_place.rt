//! Datagrams that a router changes in place.

ghost use Rattle.std.specs.Prelude.{◌≡◌, ◌≤◌, length};

use crate::digest::{in_place_digest, mixed};
use crate::feeding::{LEAD, MOMENT, router_of_three};
use crate::receiving::fed_digests;
use ipx_router::Router;
use ipx_wire::IPX_HEADER_SIZE;
use std::alloc::Global;

/// Hands a datagram to the router at a given time, and returns the digest of its outcome.
fn changed_digest(
    alloc: Global,
    router: &mut Router,
    port: u8,
    datagram: &mut [u8],
    now: u64,
) -> u64
    requires { length router.old.ports ≡ 3 }
    ensures { length router.new.ports ≡ 3 }
{
    if port == 0 || port > 3 {
        return 2;
    }
    match router.receive_in_place(alloc, port, datagram, now) {
        Ok(outcome) => in_place_digest(&outcome, datagram),
        Err(_) => 3,
    }
}

/// The same with the datagram of a record, whose header is restored after that.
fn record_digest(alloc: Global, router: &mut Router, record: &mut [u8], now: u64) -> u64
    requires { length router.old.ports ≡ 3 }
    ensures { length router.new.ports ≡ 3 }
{
    if record.len() < LEAD + IPX_HEADER_SIZE {
        return 2;
    }
    let mut header = [0; IPX_HEADER_SIZE];
    header.copy_from_slice(&record[LEAD..LEAD + IPX_HEADER_SIZE]);
    let port = record[0];
    let digest = changed_digest(alloc, router, port, &mut record[LEAD..], now);
    record[LEAD..LEAD + IPX_HEADER_SIZE].copy_from_slice(&header);
    digest
}

/// The same with each record.
fn in_place_digests(alloc: Global, router: &mut Router, records: &mut [u8], size: usize) -> u64
    requires router { length router.old.ports ≡ 3 }
    requires size { 1 ≤ size }
    ensures { length router.new.ports ≡ 3 }
{
    let mut digest = 0;
    for record in records.chunks_exact_mut(size) {
        digest = mixed(digest, record_digest(alloc, router, record, MOMENT));
    }
    digest
}

/// Hands each heard record to a new router, and then each timed one in place, again and again, all
/// at one time.
///
/// Returns the digest of the outcomes of the timed ones. Both kinds of records have one size each.
#[unsafe(no_mangle)]
pub extern "C" fn ipx_bench_in_place(
    alloc: Global,
    heard: &[u8],
    heard_size: usize,
    records: &mut [u8],
    size: usize,
    rounds: u32,
) -> u64 {
    if heard_size == 0 || size == 0 {
        return 0;
    }
    let Ok(mut router) = router_of_three(alloc) else {
        return 0;
    };
    let _ = fed_digests(alloc, &mut router, heard, heard_size, MOMENT, 0);
    let mut digest = 0;
    for _ in 0..rounds {
        let round = in_place_digests(alloc, &mut router, records, size);
        digest = mixed(digest, round);
    }
    digest
}
