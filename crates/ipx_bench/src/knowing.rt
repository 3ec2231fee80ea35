//! Writing what a router knows.

ghost use Rattle.std.specs.Prelude.{◌≡◌, length};

use crate::digest::{bytes_digest, mixed};
use crate::feeding::{MOMENT, router_of_three};
use crate::receiving::fed_digests;
use ipx_router::Router;
use ipx_table_dump::tables_to_text;
use std::alloc::Global;

/// The time between two texts, in milliseconds.
const PERIOD: u64 = 10;

fn text_digest(alloc: Global, router: &Router, now: u64) -> u64 {
    match tables_to_text(
        alloc,
        router.ports(),
        router.routes(),
        router.services(),
        now,
    ) {
        Ok(text) => bytes_digest(text.as_bytes()),
        Err(_) => 3,
    }
}

/// Hands each heard record to a new router, which then writes what it knows as text, again and
/// again. Returns the digest of the texts.
#[unsafe(no_mangle)]
pub extern "C" fn ipx_bench_known(alloc: Global, heard: &[u8], size: usize, rounds: u32) -> u64 {
    if size == 0 {
        return 0;
    }
    let Ok(mut router) = router_of_three(alloc) else {
        return 0;
    };
    let _ = fed_digests(alloc, &mut router, heard, size, MOMENT, 0);
    let mut digest = 0;
    for round in 0..rounds {
        let now = MOMENT + u64::from(round) * PERIOD;
        digest = mixed(digest, text_digest(alloc, &router, now));
    }
    digest
}
