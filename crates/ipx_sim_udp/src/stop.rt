//! Why a script over sockets stops at a line.

ghost use Rattle.std.specs.Prelude.{◌≡◌};
ghost use Rattle.ipx_sim_udp.specs.Stops.{halt_stop, turn_stop};
ghost use Rattle.ipx_sim_udp.specs.declared.stop.UdpScriptFault.TheVariants as Stops;

use ipx_carrier::{DeviceFault, RunFault};
use ipx_sim::ScriptFault;
use ipx_wire::OutOfMemory;
use spx_messages::EndFault;
use std::alloc::{AllocError, AllocFailed};

/// Why a line ends before it is done. After the first two the script continues.
#[derive(Clone, Copy)]
pub enum UdpScriptFault {
    /// An end refused a call.
    Refused(EndFault),
    /// No end has this number.
    NoSuchEnd,
    /// The line is of no known form, or names what does not exist.
    Bad,
    /// Memory was refused.
    Memory,
    /// A socket could not be bound, or failed to send or to receive.
    Device,
    /// A write failed.
    Write,
}

impl From<EndFault> for UdpScriptFault {
    ghost from_gives = { λ fault e. e ≡ Stops.Refused fault };

    fn from(fault: EndFault) -> UdpScriptFault {
        UdpScriptFault::Refused(fault)
    }
}

impl From<ScriptFault> for UdpScriptFault {
    ghost from_gives = { λ halt e. e ≡ halt_stop halt };

    fn from(halt: ScriptFault) -> UdpScriptFault {
        match halt {
            ScriptFault::Bad => UdpScriptFault::Bad,
            ScriptFault::Memory => UdpScriptFault::Memory,
            ScriptFault::Ended => UdpScriptFault::Write,
        }
    }
}

impl From<RunFault> for UdpScriptFault {
    ghost from_gives = { λ fault e. e ≡ turn_stop fault };

    fn from(fault: RunFault) -> UdpScriptFault {
        match fault {
            RunFault::OutOfMemory => UdpScriptFault::Memory,
            RunFault::Device => UdpScriptFault::Device,
        }
    }
}

impl From<DeviceFault> for UdpScriptFault {
    ghost from_gives = { λ _ e. e ≡ Stops.Device };

    fn from(_error: DeviceFault) -> UdpScriptFault {
        UdpScriptFault::Device
    }
}

impl From<OutOfMemory> for UdpScriptFault {
    ghost from_gives = { λ _ e. e ≡ Stops.Memory };

    fn from(_error: OutOfMemory) -> UdpScriptFault {
        UdpScriptFault::Memory
    }
}

impl From<AllocError> for UdpScriptFault {
    ghost from_gives = { λ _ e. e ≡ Stops.Memory };

    fn from(_error: AllocError) -> UdpScriptFault {
        UdpScriptFault::Memory
    }
}

impl<T: Drop> From<AllocFailed<T>> for UdpScriptFault {
    ghost from_gives = { λ _ e. e ≡ Stops.Memory };

    fn from(_error: AllocFailed<T>) -> UdpScriptFault {
        UdpScriptFault::Memory
    }
}
