//! Why bytes are no RIP or SAP packet.

ghost use Rattle.std.specs.Prelude.{◌≡◌};
ghost use Rattle.ipx_control.specs.ControlFaults.{control_fault_number};
ghost use Rattle.ipx_control.specs.declared.fault.ControlFault.TheVariants.{OutOfMemory as out_of_memory};

use ipx_wire::OutOfMemory;
use thiserror::Error;

/// The first reason why bytes are no packet, or out of memory.
#[derive(Clone, Copy, Debug, PartialEq, Eq, Error)]
pub enum ControlFault {
    /// Fewer than 2 bytes.
    #[error("no operation, a RIP or SAP packet begins with 2 bytes of it")]
    NoOperation,
    /// An operation that the protocol does not have.
    #[error("operation {0}, RIP has 1 and 2, SAP has 1 to 4")]
    UnknownOperation(u16),
    /// More entries than a packet may hold: 50 of RIP, 7 of SAP.
    #[error("{0} entries, RIP has at most 50, SAP at most 7")]
    TooManyEntries(usize),
    /// A SAP query of fewer than 4 bytes.
    #[error("{0} bytes, a SAP query needs 4")]
    QueryShort(usize),
    /// Out of memory.
    #[error("out of memory")]
    OutOfMemory,
}

impl ControlFault {
    /// The fault's number, 8 to 12. Programs print and compare it.
    pub fn number(&self) -> u8
        ensures { result ≡ control_fault_number self.now }
    {
        match self {
            ControlFault::NoOperation => 8,
            ControlFault::UnknownOperation(_) => 9,
            ControlFault::TooManyEntries(_) => 10,
            ControlFault::QueryShort(_) => 11,
            ControlFault::OutOfMemory => 12,
        }
    }
}

impl From<OutOfMemory> for ControlFault {
    ghost from_gives = { λ _ e. e ≡ out_of_memory };

    fn from(_error: OutOfMemory) -> ControlFault {
        ControlFault::OutOfMemory
    }
}
