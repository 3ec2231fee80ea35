//! The advertisements that table entries come from.

ghost use Rattle.std.specs.Prelude.{◌≡◌, ◌++◌, OnOk};
ghost use Rattle.ipx_table_dump.specs.Advertisers.{advertisements};

use ipx_tables::{Offer, Source};
use std::alloc::AllocError;

/// An advertisement of a network or service by a neighbour, and when it was heard.
#[derive(Clone, Copy)]
pub struct Advertisement {
    pub source: Source,
    pub heard: u64,
    pub of_network: bool,
}

/// Appends the advertisements that offers come from.
pub fn add_advertisements<K: Copy, M: Copy>(
    said: &mut Vec<Advertisement>,
    of_network: bool,
    offers: &[Offer<K, M>],
) -> Result<(), AllocError>
    ensures { OnOk result
        (said.new.items ≡ said.old.items ++ advertisements of_network offers.now) }
{
    for offer in offers {
        said.push(Advertisement {
            source: offer.source,
            heard: offer.heard,
            of_network,
        })?;
    }
    Ok(())
}
