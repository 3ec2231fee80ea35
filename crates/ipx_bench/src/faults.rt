//! Faults and reasons as numbers.

use ipx_router::Reason;
use ipx_wire::SpxFault;

/// The number of a reason, or of the fault that it holds.
pub fn reason_number(reason: Reason) -> u8 {
    match reason {
        Reason::Bad(fault) => fault.number(),
        Reason::BadControl(fault) => fault.number(),
        other => other.number(),
    }
}

/// The number of a fault. It comes after the numbers of a link's answers, which it is used with.
pub fn spx_number(fault: SpxFault) -> u8 {
    match fault {
        SpxFault::SpxShort(_) => 16,
        SpxFault::OverSize(_) => 17,
    }
}
