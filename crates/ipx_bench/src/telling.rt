//! Advertising to neighbours what is known.

ghost use Rattle.std.specs.Prelude.{◌≡◌, ◌≤◌, length};

use crate::digest::{mixed, replies_digest};
use crate::feeding::{MOMENT, router_of_sixteen, router_of_three};
use crate::receiving::fed_digests;
use ipx_router::Router;
use std::alloc::Global;

/// The time between two advertisements of a router, in milliseconds.
const PERIOD: u64 = 60_000;

fn told_digest(alloc: Global, router: &mut Router, now: u64) -> u64 {
    match router.tell(alloc, now) {
        Ok(told) => replies_digest(&told),
        Err(_) => 3,
    }
}

/// Hands each heard record to the router, which then advertises again and again, each time when it
/// is due. Returns the digest of what it advertised.
fn told_digests(alloc: Global, router: &mut Router, heard: &[u8], size: usize, rounds: u32) -> u64
    requires router { 3 ≤ length router.old.ports }
    requires size { 1 ≤ size }
{
    let _ = fed_digests(alloc, router, heard, size, MOMENT, 0);
    let mut digest = 0;
    for round in 0..rounds {
        let now = u64::from(round) * PERIOD;
        digest = mixed(digest, told_digest(alloc, router, now));
    }
    digest
}

/// Hands each heard record to a new router of three ports, which then advertises again and again,
/// each time when it is due. Returns the digest of what it advertised.
#[unsafe(no_mangle)]
pub extern "C" fn ipx_bench_tell(alloc: Global, heard: &[u8], size: usize, rounds: u32) -> u64 {
    if size == 0 {
        return 0;
    }
    let Ok(mut router) = router_of_three(alloc) else {
        return 0;
    };
    told_digests(alloc, &mut router, heard, size, rounds)
}

/// The same with a router of sixteen ports. All records are received on the first three.
#[unsafe(no_mangle)]
pub extern "C" fn ipx_bench_tell_sixteen(
    alloc: Global,
    heard: &[u8],
    size: usize,
    rounds: u32,
) -> u64 {
    if size == 0 {
        return 0;
    }
    let Ok(mut router) = router_of_sixteen(alloc) else {
        return 0;
    };
    told_digests(alloc, &mut router, heard, size, rounds)
}
