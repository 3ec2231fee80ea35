//! Why a call on an end was refused.

ghost use Rattle.std.specs.Prelude.{◌≡◌};
ghost use Rattle.ipx_net_hosts.specs.declared.refusal.Refusal.TheVariants as Refusals;

use ipx_wire::OutOfMemory;
use spx_messages::EndFault;
use std::alloc::{AllocError, AllocFailed};
use thiserror::Error;

/// Why a call on an end was refused.
#[derive(Clone, Copy, Debug, PartialEq, Eq, Error)]
pub enum Refusal {
    /// The endpoint refused it, and nothing changed.
    #[error("{0}")]
    ByEnd(EndFault),
    /// Out of memory outside of the endpoint, whose own call may have been done.
    #[error("out of memory")]
    OutOfMemory,
}

impl From<EndFault> for Refusal {
    ghost from_gives = { λ f e. e ≡ Refusals.ByEnd f };

    fn from(fault: EndFault) -> Refusal {
        Refusal::ByEnd(fault)
    }
}

impl From<OutOfMemory> for Refusal {
    ghost from_gives = { λ _ e. e ≡ Refusals.OutOfMemory };

    fn from(_error: OutOfMemory) -> Refusal {
        Refusal::OutOfMemory
    }
}

impl From<AllocError> for Refusal {
    ghost from_gives = { λ _ e. e ≡ Refusals.OutOfMemory };

    fn from(_error: AllocError) -> Refusal {
        Refusal::OutOfMemory
    }
}

impl<T: Drop> From<AllocFailed<T>> for Refusal {
    ghost from_gives = { λ _ e. e ≡ Refusals.OutOfMemory };

    fn from(_error: AllocFailed<T>) -> Refusal {
        Refusal::OutOfMemory
    }
}
