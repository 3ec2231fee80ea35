//! Decoding only.

use crate::digest::{mixed, packet_digest};
use ipx_wire::decode;

fn decoded_digest(bytes: &[u8]) -> u64 {
    match decode(bytes) {
        Ok(packet) => packet_digest(&packet),
        Err(fault) => u64::from(fault.number()),
    }
}

/// Decodes datagrams of one size, again and again, and returns the digest of what was read.
#[unsafe(no_mangle)]
pub extern "C" fn ipx_bench_decode(datagrams: &[u8], size: usize, rounds: u32) -> u64 {
    if size == 0 {
        return 0;
    }
    let mut digest = 0;
    for _ in 0..rounds {
        for datagram in datagrams.chunks_exact(size) {
            digest = mixed(digest, decoded_digest(datagram));
        }
    }
    digest
}
