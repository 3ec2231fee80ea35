//! How long a router takes for each datagram.

ghost use Rattle.std.specs.Prelude.{◌≡◌, ◌≤◌, length};

use crate::digest::mixed;
use crate::feeding::{MOMENT, router_of_three};
use crate::receiving::{fed_digest, fed_digests};
use ipx_router::Router;
use libc::types::timespec;
use libc::{CLOCK_MONOTONIC, clock_gettime};
use std::alloc::Global;

/// Nanoseconds since some time, 0 if the system does not tell.
fn nanoseconds() -> u64 {
    let mut time = timespec {
        tv_sec: 0,
        tv_nsec: 0,
    };
    if clock_gettime(CLOCK_MONOTONIC, &mut time) != 0 {
        return 0;
    }
    let seconds = time.tv_sec.unsigned_abs();
    seconds
        .saturating_mul(1_000_000_000)
        .saturating_add(time.tv_nsec.unsigned_abs())
}

/// Writes the time since a start to a position, if it exists.
fn note(times: &mut [u64], at: usize, start: u64) {
    if at < times.len() {
        times[at] = nanoseconds().saturating_sub(start);
    }
}

/// Hands each record to the router as `fed_digests` does, and writes how long each took, from a
/// position on.
fn timed_digests(
    alloc: Global,
    router: &mut Router,
    records: &[u8],
    size: usize,
    first: u64,
    apart: u64,
    times: &mut [u64],
    from: &mut usize,
) -> u64
    requires router { length router.old.ports ≡ 3 }
    requires size { 1 ≤ size }
    ensures { length router.new.ports ≡ 3 }
{
    let mut digest = 0;
    let mut now = first;
    for record in records.chunks_exact(size) {
        let start = nanoseconds();
        let fed = fed_digest(alloc, router, record, now);
        note(times, *from, start);
        *from = from.saturating_add(1);
        digest = mixed(digest, fed);
        now = now.saturating_add(apart);
    }
    digest
}

/// Does what `ipx_bench_receive` does, and writes how many nanoseconds each timed record took, in
/// order, as far as there is room.
#[unsafe(no_mangle)]
pub extern "C" fn ipx_bench_receive_each(
    alloc: Global,
    heard: &[u8],
    heard_size: usize,
    records: &[u8],
    size: usize,
    rounds: u32,
    apart: u64,
    period: u64,
    times: &mut [u64],
) -> u64 {
    if heard_size == 0 || size == 0 {
        return 0;
    }
    let Ok(mut router) = router_of_three(alloc) else {
        return 0;
    };
    let _ = fed_digests(alloc, &mut router, heard, heard_size, MOMENT, 0);
    let mut digest = 0;
    let mut first = MOMENT;
    let mut from = 0;
    for _ in 0..rounds {
        let round = timed_digests(
            alloc,
            &mut router,
            records,
            size,
            first,
            apart,
            times,
            &mut from,
        );
        digest = mixed(digest, round);
        first = first.saturating_add(period);
    }
    digest
}
