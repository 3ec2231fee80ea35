//! The close of a connection, by what a network says.

ghost use Rattle.std.specs.Prelude.{◌≡◌, IfSome, false};
ghost use Rattle.spx_theory.specs.Close.{HoldsAll};
ghost use Rattle.spx_theory.specs.Peers.{Premises};
ghost use Rattle.spx_theory.specs.World.{scene_of};
ghost use Rattle.ipx_readers.specs.ConfirmedEnds.{ConfirmedHavePeers, IsFoundWhereConfirmed};

use ipx_net::Net;
use spx_link::State;

/// Under the three premises each end whose summary says Confirmed has a peer. It does nothing at
/// run time: `Net::holds` says it of every network, whatever made it.
pub fn confirmed_have_peers(net: &Net)
    ensures { ConfirmedHavePeers net.now }
{
    net.holds();
}

/// The peer of an end whose close is confirmed. It has everything that was handed in at this end.
///
/// Under the three premises, every message that was handed in at the end was handed out at the
/// peer. Otherwise it is complete in the partial message and the units that the peer holds.
/// `Net::ends` alone says so.
pub fn closed_with(net: &Net, end: usize) -> Option<usize>
    ensures holds { net.now.spent ≡ false → Premises net.now.now.world.log
        → IfSome result (HoldsAll (scene_of net.now.now.world) end) }
    ensures found { IsFoundWhereConfirmed net.now end result }
{
    let info = net.ends().get(end)?;
    match info.state {
        Some(State::Confirmed) => info.peer,
        _ => None,
    }
}
