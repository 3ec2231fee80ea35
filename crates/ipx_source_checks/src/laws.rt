//! Laws on what the source checks of routers prevent. They do nothing.

ghost use Rattle.ipx_source_checks.specs.ForwardedIsNoControl.{NoForwardedPacketIsHeardAsControl};
ghost use Rattle.ipx_source_checks.specs.GroupIsNoControl.{NoGroupIsHeardAsControl};

use ipx_carrier::Core;
use ipx_wire::bytes_are_one_packet;

/// A packet that any router forwards never reaches the core below a `SourceChecked` as RIP or SAP,
/// whichever port it comes to. Either it is not RIP or SAP for that router, or it is dropped.
pub fn no_forwarded_packet_is_heard_as_control<C: Core>()
    ensures { NoForwardedPacketIsHeardAsControl C.hears }
{
    bytes_are_one_packet();
}

/// No packet from a group or from zero reaches the core below a `SourceChecked` as RIP or SAP by an
/// Ethernet port.
pub fn no_group_is_heard_as_control<C: Core>()
    ensures { NoGroupIsHeardAsControl C.hears }
{}
