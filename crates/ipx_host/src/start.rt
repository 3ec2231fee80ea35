//! Why a host does not start.

ghost use Rattle.std.specs.Prelude.{◌≡◌};

use ipx_sockets::{BindError, BindFault, ClockFault, WaitFault};
use ipx_wire::OutOfMemory;
use mio::Poll;
use std::alloc::{AllocError, AllocFailed};
use std::net::Net;
use std::os::fd::{AsRawFd, RawFd};

/// The descriptor of standard error, the greatest of the three.
const STDERR: RawFd = 2;

/// Why a host does not start.
#[derive(Clone, Copy)]
pub enum StartFault {
    OutOfMemory,
    /// Its socket can't be opened.
    Bind(BindError),
    /// The system has no way to wait.
    Wait,
    /// The system can't report the time.
    Clock,
    /// Standard input, output or error is closed.
    Closed,
}

impl From<OutOfMemory> for StartFault {
    fn from(_error: OutOfMemory) -> StartFault {
        StartFault::OutOfMemory
    }
}

impl From<AllocError> for StartFault {
    fn from(_error: AllocError) -> StartFault {
        StartFault::OutOfMemory
    }
}

impl<T: Drop> From<AllocFailed<T>> for StartFault {
    fn from(_error: AllocFailed<T>) -> StartFault {
        StartFault::OutOfMemory
    }
}

impl From<BindFault> for StartFault {
    fn from(fault: BindFault) -> StartFault {
        match fault {
            BindFault::OutOfMemory => StartFault::OutOfMemory,
            BindFault::Port(_, obstacle) => StartFault::Bind(obstacle),
        }
    }
}

impl From<ClockFault> for StartFault {
    fn from(_fault: ClockFault) -> StartFault {
        StartFault::Clock
    }
}

impl From<WaitFault> for StartFault {
    fn from(fault: WaitFault) -> StartFault {
        match fault {
            WaitFault::OutOfMemory => StartFault::OutOfMemory,
            WaitFault::System => StartFault::Wait,
        }
    }
}

/// Refuses to start if standard input, output or error is closed. A newly opened descriptor gets
/// the lowest free number. A socket would get theirs, and be read or written instead of them.
pub fn check_streams<R: Net>(rt: &R) -> Result<(), StartFault> {
    match Poll::new(rt) {
        Ok(poll) if poll.as_raw_fd() > STDERR => Ok(()),
        Ok(_) => Err(StartFault::Closed),
        Err(_) => Err(StartFault::Wait),
    }
}

/// Prints why the host of a file does not start, and returns status 1.
pub fn tell_start<R: Eprint>(rt: &R, path: &str, fault: StartFault) -> u8
    ensures { result ≡ 1 }
{
    let _ = match fault {
        StartFault::OutOfMemory => eprintln!(rt; "{path}: out of memory"),
        StartFault::Bind(obstacle) => eprintln!(rt; "{path}: {obstacle}"),
        StartFault::Wait => eprintln!(rt; "{path}: cannot wait for the socket"),
        StartFault::Clock => eprintln!(rt; "{path}: cannot read the system's clock"),
        StartFault::Closed => eprintln!(rt; "standard input, output or error is closed"),
    };
    1
}
