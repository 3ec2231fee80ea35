//! What an ipxnet server sends to addresses.

ghost use Rattle.std.specs.Prelude.{◌≡◌, ◌<◌, [], false};
ghost use Rattle.ipx_carrier.specs.DriverTurns.{SendsEach};
ghost use Rattle.ipx_carrier.specs.Readiness.{MarksStay};
ghost use Rattle.ipxnet_server.specs.ServerClients.{EachClientOnce};
ghost use Rattle.ipxnet_server.specs.ServerHears.{is_taker, takers_of};
ghost use Rattle.ipx_ipxnet_ports.specs.OnServers.{GivesOn, HandsOn, answer_for, clients_pinged, clients_reached, noted_asked, relayed_on, relayed_to, routers_reached, sent_to_noted};
ghost use Rattle.ipx_ipxnet_ports.specs.PlaceTraffic.{HandsOver, place_datagram};

use crate::place_sockets::PlaceSockets;
use ipx_wire::IPX_HEADER_SIZE;
use ipxnet_server::{Disposition, IpxnetServer, PingTurn, Recipients};
use std::net::SocketAddrV4;

/// Sends bytes by a port to each client of its server that the takers reach, in order. If that
/// fails for one, the others still get them.
pub fn send_to_clients<D: PlaceSockets>(
    sockets: &mut D,
    port: usize,
    server: &IpxnetServer,
    takers: Recipients,
    bytes: &[u8],
)
    requires { port < D.port_count sockets.old }
    ensures gone { HandsOver (relayed_to port bytes.now (clients_reached server.now takers)) []
        (D.traffic sockets.old) (D.traffic sockets.new)
        (D.failed sockets.old) (D.failed sockets.new) }
    ensures sends { SendsEach D.sends (relayed_to port bytes.now (clients_reached server.now takers))
        sockets.old sockets.new }
    ensures once { EachClientOnce server.now.clients }
    ensures ports { D.port_count sockets.new ≡ D.port_count sockets.old }
    ensures filtered { D.filtered sockets.new ≡ D.filtered sockets.old }
    ensures marks { MarksStay (D.marked sockets.old) (D.marked sockets.new) }
{
    let clients = server.clients();
    for client in clients {
        if server.reaches(takers, client.place) {
            let _ = sockets.send(port, client.place, bytes);
        }
    }
}

/// Sends a ping by a port to each client of its server that a turn pings, in order. If that fails
/// for one, the others still get theirs.
pub fn send_pings<D: PlaceSockets>(
    sockets: &mut D,
    port: usize,
    server: &IpxnetServer,
    turn: PingTurn,
    ping: &[u8],
)
    requires { port < D.port_count sockets.old }
    ensures gone { HandsOver (relayed_to port ping.now (clients_pinged turn server.now)) []
        (D.traffic sockets.old) (D.traffic sockets.new)
        (D.failed sockets.old) (D.failed sockets.new) }
    ensures sends { SendsEach D.sends (relayed_to port ping.now (clients_pinged turn server.now))
        sockets.old sockets.new }
    ensures once { EachClientOnce server.now.clients }
    ensures ports { D.port_count sockets.new ≡ D.port_count sockets.old }
    ensures filtered { D.filtered sockets.new ≡ D.filtered sockets.old }
    ensures marks { MarksStay (D.marked sockets.old) (D.marked sockets.new) }
{
    let known = server.clients();
    for client in known {
        if turn.pings(client) {
            let _ = sockets.send(port, client.place, ping);
        }
    }
}

/// Sends a ping by a port to each address that registered and that a turn pings, in order. If that
/// fails for one, the others still get theirs.
pub fn send_asks<D: PlaceSockets>(
    sockets: &mut D,
    port: usize,
    server: &IpxnetServer,
    turn: PingTurn,
    ping: &[u8],
)
    requires { port < D.port_count sockets.old }
    ensures gone { HandsOver (sent_to_noted port ping.now (noted_asked turn server.now)) []
        (D.traffic sockets.old) (D.traffic sockets.new)
        (D.failed sockets.old) (D.failed sockets.new) }
    ensures sends { SendsEach D.sends (sent_to_noted port ping.now (noted_asked turn server.now))
        sockets.old sockets.new }
    ensures ports { D.port_count sockets.new ≡ D.port_count sockets.old }
    ensures filtered { D.filtered sockets.new ≡ D.filtered sockets.old }
    ensures marks { MarksStay (D.marked sockets.old) (D.marked sockets.new) }
{
    let noted = server.noted();
    for one in noted {
        if turn.asks(one) {
            let _ = sockets.send(port, one.place, ping);
        }
    }
}

/// Sends bytes by a port to each joined router that the takers have, in order. If that fails for
/// one, the others still get them.
pub fn send_to_routers<D: PlaceSockets>(
    sockets: &mut D,
    port: usize,
    server: &IpxnetServer,
    takers: Recipients,
    bytes: &[u8],
)
    requires { port < D.port_count sockets.old }
    ensures gone { HandsOver (relayed_on port bytes.now (routers_reached server.now takers)) []
        (D.traffic sockets.old) (D.traffic sockets.new)
        (D.failed sockets.old) (D.failed sockets.new) }
    ensures sends { SendsEach D.sends (relayed_on port bytes.now (routers_reached server.now takers))
        sockets.old sockets.new }
    ensures ports { D.port_count sockets.new ≡ D.port_count sockets.old }
    ensures filtered { D.filtered sockets.new ≡ D.filtered sockets.old }
    ensures marks { MarksStay (D.marked sockets.old) (D.marked sockets.new) }
{
    let routers = server.routers();
    for router in routers {
        if server.joins(takers, *router) {
            let _ = sockets.send(port, *router, bytes);
        }
    }
}

/// Sends an answer by a port to an address, if there is one.
fn send_answer<D: PlaceSockets>(
    sockets: &mut D,
    port: usize,
    place: SocketAddrV4,
    answer: Option<[u8; IPX_HEADER_SIZE]>,
)
    requires { port < D.port_count sockets.old }
    ensures gone { HandsOver (answer_for port place answer) []
        (D.traffic sockets.old) (D.traffic sockets.new)
        (D.failed sockets.old) (D.failed sockets.new) }
    ensures sends { SendsEach D.sends (answer_for port place answer) sockets.old sockets.new }
    ensures ports { D.port_count sockets.new ≡ D.port_count sockets.old }
    ensures filtered { D.filtered sockets.new ≡ D.filtered sockets.old }
    ensures marks { MarksStay (D.marked sockets.old) (D.marked sockets.new) }
{
    if let Some(answer) = answer {
        let _ = sockets.send(port, place, &answer);
    }
}

/// Sends by a port what its server makes of bytes that came from an address. The answer is first,
/// because a client takes its first datagram for the answer. Then the bytes, as they arrived, go to
/// the clients that get them, and then to the joined routers that do.
///
/// None of the takers may be at that address.
pub fn give_on<D: PlaceSockets>(
    sockets: &mut D,
    port: usize,
    server: &IpxnetServer,
    heard: Disposition,
    from: SocketAddrV4,
    bytes: &[u8],
)
    requires there { port < D.port_count sockets.old }
    requires back { is_taker (takers_of heard) from ≡ false }
    ensures gone { GivesOn server.now heard (place_datagram port bytes.now from) []
        (D.traffic sockets.old) (D.traffic sockets.new)
        (D.failed sockets.old) (D.failed sockets.new) }
    ensures sends { HandsOn D.sends server.now heard (place_datagram port bytes.now from)
        sockets.old sockets.new }
    ensures ports { D.port_count sockets.new ≡ D.port_count sockets.old }
    ensures filtered { D.filtered sockets.new ≡ D.filtered sockets.old }
    ensures marks { MarksStay (D.marked sockets.old) (D.marked sockets.new) }
{
    send_answer(sockets, port, from, heard.answer());
    let takers = heard.takers();
    send_to_clients(sockets, port, server, takers, bytes);
    send_to_routers(sockets, port, server, takers, bytes);
}
