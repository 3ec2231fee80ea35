//! Why a table refused a call.

ghost use Rattle.std.specs.Prelude.{◌≡◌};
ghost use Rattle.ipx_tables.specs.Room.{table_fault_number};
ghost use Rattle.ipx_tables.specs.declared.fault.TableFault.TheVariants.{OutOfMemory};

use std::alloc::{AllocError, AllocFailed};
use thiserror::Error;

/// Why a table refused a call.
#[derive(Clone, Copy, Debug, PartialEq, Eq, Error)]
pub enum TableFault {
    /// The table has as many offers as it may, and none of this key and source.
    #[error("the table is full")]
    Full,
    /// Out of memory. Only a new key and source, or a list, can give it.
    #[error("out of memory")]
    OutOfMemory,
}

impl TableFault {
    /// The fault's number, 13 or 14. Programs print and compare it.
    pub fn number(&self) -> u8
        ensures { result ≡ table_fault_number self.now }
    {
        match self {
            TableFault::Full => 13,
            TableFault::OutOfMemory => 14,
        }
    }
}

impl<T: Drop> From<AllocFailed<T>> for TableFault {
    ghost from_gives = { λ _ e. e ≡ OutOfMemory };

    fn from(_error: AllocFailed<T>) -> TableFault {
        TableFault::OutOfMemory
    }
}

impl From<AllocError> for TableFault {
    ghost from_gives = { λ _ e. e ≡ OutOfMemory };

    fn from(_error: AllocError) -> TableFault {
        Self::OutOfMemory
    }
}
