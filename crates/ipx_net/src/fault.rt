//! Why a step was refused.

ghost use Rattle.std.specs.Prelude.{◌≡◌};
ghost use Rattle.ipx_net.specs.NetFaultNumbers.{net_fault_number};
ghost use Rattle.ipx_net.specs.declared.fault.NetFault.TheVariants as NetFaults;

use ipx_wire::OutOfMemory;
use std::alloc::{AllocError, AllocFailed};
use thiserror::Error;

/// Why a step of a network was refused.
#[derive(Clone, Copy, Debug, PartialEq, Eq, Error)]
pub enum NetFault {
    /// There is no parcel of this number.
    #[error("no parcel has this number")]
    NoSuchParcel,
    /// The place is not on the parcel's network, or there is no such host, router or port.
    #[error("the place is not there, or not on the network of the parcel")]
    NotOnSegment,
    /// There is no such end, or it was released.
    #[error("there is no end of this number")]
    NoSuchEnd,
    /// The log has 1,000,000 entries.
    #[error("the log is full, at most 1000000 entries")]
    Full,
    /// The log stays as it is, and no further step is taken.
    #[error("out of memory")]
    OutOfMemory,
    /// Memory was refused in an earlier step.
    #[error("memory was refused before, no step is taken")]
    Spent,
}

impl NetFault {
    /// The fault's number, 32 to 37. Programs print and compare it.
    pub fn number(&self) -> u8
        ensures { result ≡ net_fault_number self.now }
    {
        match self {
            NetFault::NoSuchParcel => 32,
            NetFault::NotOnSegment => 33,
            NetFault::NoSuchEnd => 34,
            NetFault::Full => 35,
            NetFault::OutOfMemory => 36,
            NetFault::Spent => 37,
        }
    }
}

impl From<OutOfMemory> for NetFault {
    ghost from_gives = { λ _ e. e ≡ NetFaults.OutOfMemory };

    fn from(_error: OutOfMemory) -> NetFault {
        NetFault::OutOfMemory
    }
}

impl From<AllocError> for NetFault {
    ghost from_gives = { λ _ e. e ≡ NetFaults.OutOfMemory };

    fn from(_error: AllocError) -> NetFault {
        NetFault::OutOfMemory
    }
}

impl<T: Drop> From<AllocFailed<T>> for NetFault {
    ghost from_gives = { λ _ e. e ≡ NetFaults.OutOfMemory };

    fn from(_error: AllocFailed<T>) -> NetFault {
        NetFault::OutOfMemory
    }
}
