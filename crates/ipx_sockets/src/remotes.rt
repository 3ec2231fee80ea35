//! The remotes of an Ethernet port, from its configuration.

ghost use Rattle.std.specs.Prelude.{◌≡◌, IfOk};
ghost use Rattle.ipx_ethernet_ports.specs.EthernetAddresses.{is_learned, known_places};
ghost use Rattle.ipx_config.specs.PortLists.{learns_place, listed_places};

use ipx_config::RemotesConfig;
use ipx_ethernet_ports::Remotes;
use std::alloc::{AllocError, Global};

/// The remotes that a file names, as the sockets of Ethernet ports take them. The place of one that
/// is learned is not known yet.
pub fn remotes_of(alloc: Global, remotes: &RemotesConfig) -> Result<Remotes, AllocError>
    ensures places { IfOk result (λ r. known_places r ≡ listed_places remotes.now) }
    ensures learned { IfOk result (λ r. is_learned r ≡ learns_place remotes.now) }
{
    match remotes {
        RemotesConfig::Listed(ends) => Ok(Remotes::Fixed(Vec::from_slice(alloc, ends)?)),
        RemotesConfig::Learned => Ok(Remotes::Learned(None)),
    }
}
