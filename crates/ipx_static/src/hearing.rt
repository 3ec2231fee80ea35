//! How a core receives the advertisements.

ghost use Rattle.std.specs.Prelude.{◌≡◌, OnOk, OnErr};
ghost use Rattle.ipx_router.specs.Ports.{AreOnPorts};
ghost use Rattle.ipx_router.specs.RouterPackets.{sendings};
ghost use Rattle.ipx_router.specs.Advertisements.{IsNextAdvertisement, is_due};
ghost use Rattle.ipx_static.specs.WithStatics.{HearsAdvertisements, AdvertisementOutOfMemory};

use ipx_carrier::Core;
use ipx_router::Reply;
use ipx_wire::OutOfMemory;
use std::alloc::Global;

/// The period of the advertisements of static entries, in milliseconds.
const PERIOD: u64 = 60_000;

/// Whether they are due: at first, and once a minute has passed since the last time.
pub fn is_time(refreshed_at: Option<u64>, now: u64) -> bool
    ensures { result ≡ is_due refreshed_at now }
{
    match refreshed_at {
        None => true,
        Some(last) => now.saturating_sub(last) >= PERIOD,
    }
}

/// When they are due next.
pub fn next_time(refreshed_at: Option<u64>) -> Option<u64>
    ensures { IsNextAdvertisement refreshed_at result }
{
    match refreshed_at {
        None => Some(0),
        Some(last) => last.checked_add(PERIOD),
    }
}

/// The core receives the advertisements, in order. It stops at the first for which it runs out of
/// memory.
pub fn hear_advertisements<C: Core>(
    alloc: Global,
    core: &mut C,
    advertisements: &[Reply],
    now: u64,
) -> Result<(), OutOfMemory>
    requires { AreOnPorts (C.port_count core.old) (sendings advertisements.now) }
    ensures heard { OnOk result
        (HearsAdvertisements C.hears now (sendings advertisements.now) core.old core.new) }
    ensures refused { OnErr result
        (AdvertisementOutOfMemory C.hears C.hear_out_of_memory now (sendings advertisements.now) core.old core.new) }
    ensures ports { C.port_count core.new ≡ C.port_count core.old }
{
    for word in advertisements {
        core.hear(alloc, word.port as usize - 1, &word.bytes, now)?;
    }
    Ok(())
}
