//! Why a router's advertisements are not taken back.

use ipx_sockets::{BindFault, WaitFault};
use ipx_wire::OutOfMemory;
use std::alloc::{AllocError, AllocFailed};
use thiserror::Error;

/// Why a router's advertisements are not taken back.
#[derive(Clone, Copy, Debug, PartialEq, Eq, Error)]
pub enum FarewellFault {
    #[error("out of memory")]
    OutOfMemory,
    /// A socket could not be bound.
    #[error("{0}")]
    Bind(#[from] BindFault),
    /// The system cannot wait.
    #[error("{0}")]
    Wait(#[from] WaitFault),
    /// A line of the tables has a word of another form.
    #[error("tables_file has a line that no router writes")]
    Malformed,
}

impl From<OutOfMemory> for FarewellFault {
    fn from(_error: OutOfMemory) -> FarewellFault {
        FarewellFault::OutOfMemory
    }
}

impl From<AllocError> for FarewellFault {
    fn from(_error: AllocError) -> FarewellFault {
        FarewellFault::OutOfMemory
    }
}

impl<T: Drop> From<AllocFailed<T>> for FarewellFault {
    fn from(_error: AllocFailed<T>) -> FarewellFault {
        FarewellFault::OutOfMemory
    }
}
