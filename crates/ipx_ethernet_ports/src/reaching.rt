//! A frame that is sent to several remotes of a port.

ghost use Rattle.std.specs.Prelude.{◌≡◌, ◌<◌, [], length, slice_index};
ghost use Rattle.ipx_carrier.specs.DriverTurns.{SendsEach};
ghost use Rattle.ipx_carrier.specs.Readiness.{MarksStay};
ghost use Rattle.ipx_ethernet_ports.specs.OnEthernet.{ReachesEnds, frames_to};

use crate::end_sockets::EndSockets;
use ipx_ethernet::Egress;

/// Sends bytes by a port to each of its remotes that an egress names, in order. If that fails for
/// one, the others still get them.
pub fn send_to_ends<D: EndSockets>(sockets: &mut D, port: usize, way: Egress, bytes: &[u8])
    requires { port < length (D.ends_of sockets.old) }
    ensures reached { ReachesEnds way (slice_index (D.ends_of sockets.old) port) port bytes.now []
        (D.traffic sockets.old) (D.traffic sockets.new)
        (D.failed sockets.old) (D.failed sockets.new) }
    ensures sends { SendsEach D.sends
        (frames_to way (slice_index (D.ends_of sockets.old) port) port bytes.now)
        sockets.old sockets.new }
    ensures ends { D.ends_of sockets.new ≡ D.ends_of sockets.old }
    ensures filtered { D.filtered sockets.new ≡ D.filtered sockets.old }
    ensures marks { MarksStay (D.marked sockets.old) (D.marked sockets.new) }
{
    let ends = sockets.ends(port);
    for end in 0..ends {
        if way.is_to(end) {
            let _ = sockets.send(port, end, bytes);
        }
    }
}
