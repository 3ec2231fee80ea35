//! Packet bodies that several ports advertise unchanged. They are written once, and each port puts
//! its own header in front.

ghost use Rattle.std.specs.Prelude.{Vec, ◌≡◌, ◌≤◌, List, [], false, length, OnOk, IfOk};
ghost use Rattle.ipx_control.specs.declared.sap.packet.ServiceEntry.{ServiceEntry};
ghost use Rattle.ipx_control.specs.Sap.{IsSap, Response as services_response};
ghost use Rattle.ipx_router.specs.RouterPackets.{IsSapPacket, sending_of};
ghost use Rattle.ipx_router.specs.Adding.{AddsBodies, AreBodiesOf};

use crate::outcome::Reply;
use crate::packets::{MAX_SERVICES_PER_PACKET, Recipient, services_body, services_packet_with};
use ipx_control::ServiceEntry;
use ipx_wire::OutOfMemory;
use std::alloc::Global;

/// The bodies of the packets of a list of services.
pub fn service_bodies(alloc: Global, services: &[ServiceEntry]) -> Result<Vec<Vec<u8>>, OutOfMemory>
    ensures { IfOk result (λ v. AreBodiesOf services.now v.items) }
{
    let mut bodies = Vec::new(alloc);
    let mut rest = services;
    while !rest.is_empty() {
        let (part, later) = rest.split_at(rest.len().min(MAX_SERVICES_PER_PACKET));
        bodies.push(services_body(alloc, part)?)?;
        rest = later;
    }
    Ok(bodies)
}

/// Adds one packet to a recipient for each body.
pub fn add_bodies(
    alloc: Global,
    replies: &mut Vec<Reply>,
    to: Recipient,
    bodies: &[Vec<u8>],
) -> Result<(), OutOfMemory>
    requires { (services : List ServiceEntry) × AreBodiesOf services bodies.now }
    ensures { OnOk result (AddsBodies to bodies.now replies.old.items replies.new.items) }
{
    for body in bodies {
        replies.push(services_packet_with(alloc, to, body)?)?;
    }
    Ok(())
}
