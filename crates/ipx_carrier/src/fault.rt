//! What can go wrong between a core and the network.

ghost use Rattle.std.specs.Prelude.{◌≡◌};
ghost use Rattle.ipx_carrier.specs.RunFaultNumbers.{carrier_fault_number, run_fault_number};

use ipx_wire::OutOfMemory;
use thiserror::Error;

/// Why a node has no IP address.
#[derive(Clone, Copy, Debug, PartialEq, Eq, Error)]
pub enum CarrierFault {
    /// Its first two bytes are not both zero.
    #[error("the node has no IP address")]
    NotMapped,
}

impl CarrierFault {
    /// The fault's number, 38, which programs print and compare.
    pub fn number(&self) -> u8
        ensures { result ≡ carrier_fault_number self.now }
    {
        match self {
            CarrierFault::NotMapped => 38,
        }
    }
}

/// A device failed to send or to receive. It counts its failures.
#[derive(Clone, Copy, Debug, PartialEq, Eq, Error)]
#[error("the device failed")]
pub struct DeviceFault;

/// Why a run ended before all its turns.
#[derive(Clone, Copy, Debug, PartialEq, Eq, Error)]
pub enum RunFault {
    #[error("out of memory")]
    OutOfMemory,
    /// The device failed to send or to receive.
    #[error("the device failed")]
    Device,
}

impl RunFault {
    /// The fault's number, 14 or 39, which programs print and compare.
    pub fn number(&self) -> u8
        ensures { result ≡ run_fault_number self.now }
    {
        match self {
            RunFault::OutOfMemory => 14,
            RunFault::Device => 39,
        }
    }
}

impl From<OutOfMemory> for RunFault {
    ghost use Rattle.std.specs.Prelude.{◌≡◌};
    ghost use Rattle.ipx_carrier.specs.declared.fault.RunFault.TheVariants as faults;

    ghost from_gives = { λ _ e. e ≡ faults.OutOfMemory };

    fn from(_error: OutOfMemory) -> RunFault {
        RunFault::OutOfMemory
    }
}

impl From<DeviceFault> for RunFault {
    ghost use Rattle.std.specs.Prelude.{◌≡◌};
    ghost use Rattle.ipx_carrier.specs.declared.fault.RunFault.TheVariants as faults;

    ghost from_gives = { λ _ e. e ≡ faults.Device };

    fn from(_error: DeviceFault) -> RunFault {
        RunFault::Device
    }
}
