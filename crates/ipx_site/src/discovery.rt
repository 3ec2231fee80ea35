//! When a starting router repeats its requests to its neighbours.

ghost use Rattle.std.specs.Prelude.{◌≡◌, ◌<◌, IfSome, slice_get};
ghost use Rattle.ipx_site.specs.IdleTime.{askings};

/// The times, in milliseconds since the start.
const MOMENTS: [u64; 6] = [1000, 2000, 4000, 8000, 16_000, 32_000];

/// The time at which a router asks again after it did so `times` times, in milliseconds since its
/// start. After six times it asks no more.
///
/// A router does not advertise at once what it learns. Without repeated requests, a network two
/// routers away would be learned at the next advertisement: up to a minute for each router. With
/// them, it is learned in seconds.
pub fn discovery_retry(times: usize) -> Option<u64>
    ensures moment { result ≡ slice_get askings times }
    ensures times { IfSome result (λ moment. times < 6) }
{
    MOMENTS.get(times).copied()
}
