//! Links by the ids that a user passes.

ghost use Rattle.std.specs.Prelude.{◌≡◌, MatchResult, None, Some};
ghost use Rattle.spx_link.specs.Links.{link_at};
ghost use Rattle.spx_messages.specs.declared.fault.EndFault.TheVariants as EndFaults;

use crate::fault::EndFault;
use spx_link::{Link, Links};

/// The link of an id, or `NoSuchEnd` if there is none.
pub fn link_of(links: &Links, id: u16) -> Result<&Link, EndFault>
    ensures { MatchResult result
        (λ l. link_at links.now id ≡ Some l.now)
        (λ f. (f ≡ EndFaults.NoSuchEnd) × (link_at links.now id ≡ None)) }
{
    links.get(id).ok_or(EndFault::NoSuchEnd)
}
