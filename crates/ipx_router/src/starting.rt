//! What a router asks its neighbours when it starts.

ghost use Rattle.std.specs.Prelude.{◌≡◌, ◌≤◌, length, OnOk, IfOk};
ghost use Rattle.ipx_router.specs.Starting.{AreAsked, AreStarts};
ghost use Rattle.ipx_router.specs.Ports.{AreOnPorts};
ghost use Rattle.ipx_router.specs.RouterPackets.{sendings};
ghost use Rattle.ipx_router.specs.Adding.{AddsPackets};

use crate::outcome::Reply;
use crate::packets::{everyone, rip_packet, sap_packet};
use crate::port::Port;
use ipx_control::{Rip, RipEntry, Sap};
use ipx_wire::{Network, OutOfMemory, Socket};
use std::alloc::Global;

/// Adds a request for all routes and a query for all services.
fn ask_on(alloc: Global, asked: &mut Vec<Reply>, number: u8, port: Port) -> Result<(), OutOfMemory>
    ensures { OnOk result (AddsPackets (AreAsked number port) asked.old.items asked.new.items) }
{
    let all = RipEntry {
        network: Network::ALL,
        hops: 0xffff,
        ticks: 0xffff,
    };
    let networks = vec![in alloc; all]?;
    let routes = Rip::Request(networks);
    let for_routes = rip_packet(alloc, everyone(number, port, Socket::RIP), &routes)?;
    let services = Sap::Query {
        nearest: false,
        kind: 0xffff,
    };
    let for_services = sap_packet(alloc, everyone(number, port, Socket::SAP), &services)?;
    asked.push(for_routes)?;
    asked.push(for_services)?;
    Ok(())
}

/// The packets by which a router asks on all its ports for routes and services.
pub fn ask_all(alloc: Global, ports: &[Port]) -> Result<Vec<Reply>, OutOfMemory>
    requires { length ports.now ≤ 16 }
    ensures asks { IfOk result (λ v. AreStarts 1 ports.now (sendings v.items)) }
    ensures there { IfOk result (λ v. AreOnPorts (length ports.now) (sendings v.items)) }
{
    let mut asked = Vec::new(alloc);
    for (i, port) in ports.iter().enumerate() {
        ask_on(alloc, &mut asked, i as u8 + 1, *port)?;
    }
    Ok(asked)
}
