//! Marks at a router's ports of all kinds: where datagrams may wait.

ghost use Rattle.std.specs.Prelude.{◌≡◌, slice_set, true};
ghost use Rattle.ipx_carrier.specs.ReadySet.{AreMarked, is_any_marked};
ghost use Rattle.ipx_site.specs.SiteMarks.{DifferInMarks, marks_in};
ghost use Rattle.ipx_sockets.specs.Polling.{numbers_come};

use crate::router_ports::UdpRouterPorts;
use ipx_sockets::Poller;

/// Whether datagrams may wait at any port.
pub fn is_any_marked(ports: &UdpRouterPorts) -> bool
    ensures { result ≡ is_any_marked (marks_in ports.now) }
{
    ports.datagrams.device.device().marks().is_any_marked()
        || ports.ethernet.sockets().marks().is_any_marked()
        || ports.servers.sockets().marks().is_any_marked()
}

/// Marks the port whose descriptor has this index among those of all ports. RFC 1234 ports come
/// first, then Ethernet ports, then ipxnet ports.
fn mark_port(ports: &mut UdpRouterPorts, number: usize)
    ensures marks { marks_in ports.new ≡ slice_set (marks_in ports.old) number true }
    ensures rest { DifferInMarks ports.old ports.new }
{
    let datagrams = ports.datagrams.device.device().marks().ports();
    let Some(behind) = number.checked_sub(datagrams) else {
        ports.datagrams.device.set_ready(number);
        return;
    };
    let ethernet = ports.ethernet.sockets().marks().ports();
    match behind.checked_sub(ethernet) {
        Some(last) => ports.servers.set_ready(last),
        None => ports.ethernet.set_ready(behind),
    }
}

/// Marks the ports of which the poller holds an event: where something came at the last wait.
#[tactic(auto, using(crate::proofs::MarksSeparate::same_marks, crate::proofs::MarksSeparate::marks_on))]
pub fn mark_ready(ports: &mut UdpRouterPorts, ready: &Poller)
    ensures marks { AreMarked (numbers_come ready.now) (marks_in ports.old) (marks_in ports.new) }
    ensures rest { DifferInMarks ports.old ports.new }
{
    for event in ready.events() {
        mark_port(ports, event.token().0);
    }
}
