//! A law of the constants.

ghost use Rattle.std.specs.Prelude.{◌≡◌};
ghost use Rattle.ipx_control.specs.Rip.{rip_entry_size, rip_max_entries};
ghost use Rattle.ipx_control.specs.Sap.{sap_max_services, service_size};

use crate::rip::{RIP_ENTRY_SIZE, RIP_MAX_ENTRIES};
use crate::sap::{SAP_MAX_SERVICES, SERVICE_SIZE};

/// The constants are the sizes and limits of the two protocols.
pub fn control_constants_are_assigned()
    ensures rip { (RIP_ENTRY_SIZE ≡ rip_entry_size) × (RIP_MAX_ENTRIES ≡ rip_max_entries) }
    ensures sap { (SERVICE_SIZE ≡ service_size) × (SAP_MAX_SERVICES ≡ sap_max_services) }
{}
