//! What ends a line of a script before it is done.

ghost use Rattle.std.specs.Prelude.{◌≡◌};
ghost use Rattle.ipx_sim.specs.declared.stop.LineFault.TheVariants as Stops;

use ipx_net::NetFault;
use spx_messages::EndFault;
use std::alloc::{AllocError, AllocFailed};

/// What ends a line of a script before it is done.
#[derive(Clone, Copy)]
pub enum LineFault {
    /// The network refused an event.
    Fault(NetFault),
    /// An end refused a call.
    Refused(EndFault),
    /// Memory was refused outside the network.
    Memory,
}

impl From<NetFault> for LineFault {
    ghost from_gives = { λ f e. e ≡ Stops.Fault f };

    fn from(fault: NetFault) -> LineFault {
        LineFault::Fault(fault)
    }
}

impl From<AllocError> for LineFault {
    ghost from_gives = { λ _ e. e ≡ Stops.Memory };

    fn from(_error: AllocError) -> LineFault {
        LineFault::Memory
    }
}

impl<T: Drop> From<AllocFailed<T>> for LineFault {
    ghost from_gives = { λ _ e. e ≡ Stops.Memory };

    fn from(_error: AllocFailed<T>) -> LineFault {
        LineFault::Memory
    }
}
