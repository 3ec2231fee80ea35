//! A law on the source of the RIP and SAP that pass the access list of an RFC 1234 port. It does
//! nothing.

ghost use Rattle.ipx_site.specs.ControlSenders.{ControlIsOfItsSender};

/// If the access list of a port accepts RIP or SAP for the router, no router forwarded it. Its
/// source node is that of the IP address that sent the datagram.
pub fn control_is_of_its_sender()
    ensures { ControlIsOfItsSender }
{}
