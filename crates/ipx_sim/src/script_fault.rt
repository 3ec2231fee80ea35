//! Why a script stops.

ghost use Rattle.std.specs.Prelude.{◌≡◌};
ghost use Rattle.ipx_sim.specs.declared.script_fault.ScriptFault.TheVariants as Halts;

use ipx_wire::OutOfMemory;
use std::alloc::{AllocError, AllocFailed};

/// Why a script stops.
#[derive(Clone, Copy)]
pub enum ScriptFault {
    /// The current line is of no known form, or names what does not exist.
    Bad,
    /// Memory was refused.
    Memory,
    /// The command has ended: a write failed, or it has already reported that memory ran out.
    Ended,
}

impl From<OutOfMemory> for ScriptFault {
    ghost from_gives = { λ _ e. e ≡ Halts.Memory };

    fn from(_error: OutOfMemory) -> ScriptFault {
        ScriptFault::Memory
    }
}

impl From<AllocError> for ScriptFault {
    ghost from_gives = { λ _ e. e ≡ Halts.Memory };

    fn from(_error: AllocError) -> ScriptFault {
        ScriptFault::Memory
    }
}

impl<T: Drop> From<AllocFailed<T>> for ScriptFault {
    ghost from_gives = { λ _ e. e ≡ Halts.Memory };

    fn from(_error: AllocFailed<T>) -> ScriptFault {
        ScriptFault::Memory
    }
}
