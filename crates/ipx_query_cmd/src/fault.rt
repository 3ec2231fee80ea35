//! Why a query fails, or a table file is not printed.

ghost use Rattle.std.specs.Prelude.{◌≡◌, ◌⊎◌};

use ipx_sockets::{BindError, BindFault, ClockFault, WaitFault};
use ipx_wire::OutOfMemory;
use std::alloc::{AllocError, AllocFailed};

/// Why a query fails.
#[derive(Clone, Copy)]
pub enum AskFault {
    OutOfMemory,
    /// Its socket could not be bound.
    Bind(BindError),
    /// The system cannot wait for the socket.
    Wait,
    /// The system does not tell the time.
    Clock,
    /// The writer fails.
    Unwritten,
}

impl From<OutOfMemory> for AskFault {
    ghost use Rattle.std.specs.Prelude.{◌≡◌};
    ghost use Rattle.ipx_query_cmd.specs.declared.fault.AskFault.TheVariants as Faults;

    ghost from_gives = { λ _ e. e ≡ Faults.OutOfMemory };

    fn from(_error: OutOfMemory) -> AskFault {
        AskFault::OutOfMemory
    }
}

impl From<AllocError> for AskFault {
    ghost use Rattle.std.specs.Prelude.{◌≡◌};
    ghost use Rattle.ipx_query_cmd.specs.declared.fault.AskFault.TheVariants as Faults;

    ghost from_gives = { λ _ e. e ≡ Faults.OutOfMemory };

    fn from(_error: AllocError) -> AskFault {
        AskFault::OutOfMemory
    }
}

impl<T: Drop> From<AllocFailed<T>> for AskFault {
    ghost use Rattle.std.specs.Prelude.{◌≡◌};
    ghost use Rattle.ipx_query_cmd.specs.declared.fault.AskFault.TheVariants as Faults;

    ghost from_gives = { λ _ e. e ≡ Faults.OutOfMemory };

    fn from(_error: AllocFailed<T>) -> AskFault {
        AskFault::OutOfMemory
    }
}

impl From<BindFault> for AskFault {
    fn from(fault: BindFault) -> AskFault {
        match fault {
            BindFault::OutOfMemory => AskFault::OutOfMemory,
            BindFault::Port(_, obstacle) => AskFault::Bind(obstacle),
        }
    }
}

impl From<ClockFault> for AskFault {
    fn from(_fault: ClockFault) -> AskFault {
        AskFault::Clock
    }
}

impl From<WaitFault> for AskFault {
    fn from(fault: WaitFault) -> AskFault {
        match fault {
            WaitFault::OutOfMemory => AskFault::OutOfMemory,
            WaitFault::System => AskFault::Wait,
        }
    }
}

/// Prints why the query of a file's host failed, and returns the exit status 1.
pub fn tell_fault<R: Eprint>(rt: &R, path: &str, fault: AskFault) -> u8
    ensures { result ≡ 1 }
{
    let _ = match fault {
        AskFault::OutOfMemory => eprintln!(rt; "{path}: out of memory"),
        AskFault::Bind(obstacle) => eprintln!(rt; "{path}: {obstacle}"),
        AskFault::Wait => eprintln!(rt; "{path}: cannot wait for the socket"),
        AskFault::Clock => eprintln!(rt; "{path}: cannot read the system's clock"),
        AskFault::Unwritten => eprintln!(rt; "cannot write standard output"),
    };
    1
}

/// Why the lines of a table file could not be made.
#[derive(Clone, Copy, PartialEq, Eq)]
pub enum KnownFault {
    OutOfMemory,
    /// A word of it is not UTF-8 text.
    NoText,
}

impl From<AllocError> for KnownFault {
    fn from(_error: AllocError) -> KnownFault {
        KnownFault::OutOfMemory
    }
}

/// Prints why the lines of the table file at a path could not be made, and returns the exit status:
/// 1 if out of memory, otherwise 2.
pub fn tell_known_fault<R: Eprint>(rt: &R, place: &str, fault: KnownFault) -> u8
    ensures { (result ≡ 1) ⊎ (result ≡ 2) }
{
    match fault {
        KnownFault::OutOfMemory => {
            let _ = eprintln!(rt; "{place}: out of memory");
            1
        }
        KnownFault::NoText => {
            let _ = eprintln!(rt; "{place}: the file is not UTF-8 text");
            2
        }
    }
}
