//! Ports with ipxnet servers.

ghost use Rattle.std.specs.Prelude.{◌≡◌, ◌<◌, ◌≤◌, ◌+◌, ◌^◌, [], Option, None, Some, IfOk, IfSome, OnErr, OnOk, is_some, length, min, slice_set, true};
ghost use Rattle.ipx_carrier.specs.Device.{received_in};
ghost use Rattle.ipx_carrier.specs.PortDrivers.{copies_count, count_in};
ghost use Rattle.ipx_carrier.specs.Readiness.{AsksPortWithMark, MarksStay};
ghost use Rattle.ipx_ipxnet_ports.specs.OnServers.{HandsAnswerOn, HandsPacket, HandsPings, HearsAtServer, PingsAtServer, PingsAtServers, PingsThroughSockets, ReceivesAtServer, SendsThroughServer, by_servers, is_any_pinged, servers_view, server_ports, packet_said};
ghost use Rattle.ipx_ipxnet_ports.specs.PlaceTraffic.{PlaceDatagram, place_datagram};
ghost use Rattle.ipx_ipxnet_ports.specs.ServerCalls.{ReceivesByServers, SendsByServers};
ghost use Rattle.ipxnet_server.specs.Pings.{IsNextPing};

use crate::front::put_front;
use crate::giving_on::{give_on, send_asks, send_pings, send_to_clients, send_to_routers};
use crate::place_sockets::PlaceSockets;
use crate::sockets::ServerSockets;
use ipx_carrier::{DeviceFault, PacketSent, PortDriver, PortDriverFilters, saturating_increment};
use ipx_wire::Node;
use ipxnet_server::{IpxnetServer, MAX_CLIENT_BYTES, Recipients, sooner};
use std::net::SocketAddrV4;

/// The size of the buffer that a datagram is received into: more than any that is sent on to
/// clients.
const DATAGRAM_BUFFER: usize = 1536;

/// Ports that each have an ipxnet server, which may be joined to those of other routers. What a
/// client sends is answered and sent to others, the core gets what is for it, and its packets are
/// sent to clients. There are as many ports as both the sockets and the servers are for.
///
/// A failure to send to one client is a lost datagram, and keeps no other client from its own. The
/// sockets count it, and also count failures to receive.
#[derive(Drop)]
pub struct Servers<D: PlaceSockets + Drop> {
    sockets: D,
    servers: Vec<IpxnetServer>,
    moment: u64,
    kept: u64,
}

/// What `send` returns for a packet of the core of `size` bytes. One that is not too long for
/// clients was handed to its server, whoever gets it.
fn said_of(size: usize) -> PacketSent
    ensures { result ≡ packet_said size }
{
    if size > MAX_CLIENT_BYTES {
        PacketSent::Unmapped
    } else {
        PacketSent::Transmitted(1)
    }
}

impl<D: PlaceSockets + Drop> Servers<D> {
    /// Ports over these sockets, with their servers in order, at time 0.
    pub fn new(sockets: D, servers: Vec<IpxnetServer>) -> Servers<D>
        ensures sockets { result.sockets ≡ sockets }
        ensures servers { result.servers.items ≡ servers.items }
        ensures fresh { (result.moment ≡ 0) × (result.kept ≡ 0) }
    {
        Servers {
            sockets,
            servers,
            moment: 0,
            kept: 0,
        }
    }

    /// Sets the time, in ms, of what is received and sent from now on. Call it before each turn, or
    /// before each batch.
    pub fn set_time(&mut self, moment: u64)
        ensures { self.new ≡ record self.old { moment = moment } }
    {
        self.moment = moment;
    }

    /// The sockets, to inspect between two runs.
    pub fn sockets(&self) -> &D
        ensures { result.now ≡ self.now.sockets }
    {
        &self.sockets
    }

    /// The servers of the ports, in order: their clients, and what they dropped.
    pub fn servers(&self) -> &[IpxnetServer]
        ensures { result.now ≡ self.now.servers.items }
    {
        &self.servers
    }

    /// Sends a ping to each silent client of a port that is due for one, and to each address that
    /// registered there and is.
    fn ping_port(&mut self, port: usize)
        requires server { port < length self.old.servers.items }
        requires there { port < D.port_count self.old.sockets }
        ensures pings { PingsAtServer self.old.moment port
            (servers_view self.old.servers.items self.old.kept
            (D.traffic self.old.sockets) (D.failed self.old.sockets))
            (servers_view self.new.servers.items self.new.kept
            (D.traffic self.new.sockets) (D.failed self.new.sockets)) }
        ensures sends { HandsPings D.sends self.old.moment self.old.servers.items port
            self.old.sockets self.new.sockets }
        ensures moment { self.new.moment ≡ self.old.moment }
        ensures kept { self.new.kept ≡ self.old.kept }
        ensures servers { length self.new.servers.items ≡ length self.old.servers.items }
        ensures ports { D.port_count self.new.sockets ≡ D.port_count self.old.sockets }
        ensures filtered { D.filtered self.new.sockets ≡ D.filtered self.old.sockets }
        ensures marks { MarksStay (D.marked self.old.sockets) (D.marked self.new.sockets) }
    {
        let server = &mut self.servers[port];
        let turn = server.begin_pings(self.moment);
        let ping = server.ping();
        send_pings(&mut self.sockets, port, server, turn, &ping);
        send_asks(&mut self.sockets, port, server, turn, &ping);
    }

    /// Sends the pings that are due at the time that is set: at each port to each client that was
    /// silent for 25 seconds, or for 25 more, and to each address that registered 5.5 s or 8.5 s ago
    /// and has shown nothing. A failure to send one counts as for other datagrams. Call it after
    /// `set_time`.
    pub fn send_pings(&mut self)
        ensures pings { PingsAtServers self.old.moment
            (min (length self.old.servers.items) (D.port_count self.old.sockets))
            (servers_view self.old.servers.items self.old.kept
            (D.traffic self.old.sockets) (D.failed self.old.sockets))
            (servers_view self.new.servers.items self.new.kept
            (D.traffic self.new.sockets) (D.failed self.new.sockets)) }
        // For each of these the sockets were handed just its pings.
        ensures sends { PingsThroughSockets D.sends self.old.moment
            (min (length self.old.servers.items) (D.port_count self.old.sockets))
            (servers_view self.old.servers.items self.old.kept
            (D.traffic self.old.sockets) (D.failed self.old.sockets))
            (servers_view self.new.servers.items self.new.kept
            (D.traffic self.new.sockets) (D.failed self.new.sockets))
            self.old.sockets self.new.sockets }
        ensures moment { self.new.moment ≡ self.old.moment }
        ensures kept { self.new.kept ≡ self.old.kept }
        ensures servers { length self.new.servers.items ≡ length self.old.servers.items }
        ensures ports { D.port_count self.new.sockets ≡ D.port_count self.old.sockets }
        ensures filtered { D.filtered self.new.sockets ≡ D.filtered self.old.sockets }
        ensures marks { MarksStay (D.marked self.old.sockets) (D.marked self.new.sockets) }
    {
        for port in 0..self.ports() {
            self.ping_port(port);
        }
    }

    /// When `send_pings` has a ping to send next, if no datagram comes before. None if no clock can
    /// show that time.
    pub fn next_pings(&self) -> Option<u64>
        ensures { IsNextPing (is_any_pinged self.now.servers.items) result }
    {
        let servers = self.servers();
        let mut next = None;
        for server in servers {
            next = sooner(next, server.next_pings());
        }
        next
    }

    /// Sends a packet of the core to the clients of a port that its node reaches. It is also sent
    /// to the joined routers where the node may be.
    fn send_packet(&mut self, port: usize, node: Node, packet: &[u8]) -> PacketSent
        requires server { port < length self.old.servers.items }
        requires there { port < D.port_count self.old.sockets }
        ensures sent { SendsThroughServer self.old.moment port node packet.now result
            (servers_view self.old.servers.items self.old.kept
            (D.traffic self.old.sockets) (D.failed self.old.sockets))
            (servers_view self.new.servers.items self.new.kept
            (D.traffic self.new.sockets) (D.failed self.new.sockets)) }
        ensures sends { HandsPacket D.sends self.old.moment self.old.servers.items
            (record { port = port; node = node; bytes = packet.now })
            self.old.sockets self.new.sockets }
        ensures rest { self.new.moment ≡ self.old.moment }
        ensures ports { D.port_count self.new.sockets ≡ D.port_count self.old.sockets }
        ensures filtered { D.filtered self.new.sockets ≡ D.filtered self.old.sockets }
        ensures marks { MarksStay (D.marked self.old.sockets) (D.marked self.new.sockets) }
    {
        let server = &mut self.servers[port];
        let takers = match server.give(node, packet, self.moment) {
            Ok(takers) => takers,
            Err(_) => Recipients::Nobody,
        };
        send_to_clients(&mut self.sockets, port, server, takers, packet);
        send_to_routers(&mut self.sockets, port, server, takers, packet);
        said_of(packet.len())
    }

    /// Answers what came from an address to a port, and sends it on. What is for the core goes into
    /// `room`.
    fn hear_datagram(
        &mut self,
        port: usize,
        from: SocketAddrV4,
        bytes: &[u8],
        room: &mut [u8],
    ) -> Option<usize>
        requires server { port < length self.old.servers.items }
        requires there { port < D.port_count self.old.sockets }
        ensures heard { HearsAtServer self.old.moment (length room.old)
            (place_datagram port bytes.now from) [] room.new result
            (servers_view self.old.servers.items self.old.kept
            (D.traffic self.old.sockets) (D.failed self.old.sockets))
            (servers_view self.new.servers.items self.new.kept
            (D.traffic self.new.sockets) (D.failed self.new.sockets)) }
        ensures sends { HandsAnswerOn D.sends self.old.moment self.old.servers.items
            self.new.servers.items (Some (place_datagram port bytes.now from))
            self.old.sockets self.new.sockets }
        ensures within { IfSome result (λ n. n ≤ length room.old) }
        ensures untouched { result ≡ None → room.new ≡ room.old }
        ensures rest { self.new.moment ≡ self.old.moment }
        ensures grows { self.old.kept ≤ self.new.kept }
        ensures ports { D.port_count self.new.sockets ≡ D.port_count self.old.sockets }
        ensures filtered { D.filtered self.new.sockets ≡ D.filtered self.old.sockets }
        ensures marks { MarksStay (D.marked self.old.sockets) (D.marked self.new.sockets) }
    {
        let server = &mut self.servers[port];
        let heard = server.hear(from, bytes, self.moment);
        give_on(&mut self.sockets, port, server, heard, from, bytes);
        if !heard.is_for_core() {
            saturating_increment(&mut self.kept);
            return None;
        }
        Some(put_front(bytes, room))
    }
}

impl Servers<ServerSockets> {
    /// Marks a port: something came to its socket, as for `ServerSockets::set_ready`.
    pub fn set_ready(&mut self, port: usize)
        ensures { self.new ≡ record self.old {
          sockets = record self.old.sockets {
            marks = slice_set self.old.sockets.marks port true;
          };
        } }
    {
        self.sockets.set_ready(port);
    }
}

impl<D: PlaceSockets + Drop> PortDriver for Servers<D> {
    ghost use Rattle.std.specs.Prelude.{List, ℕ};
    ghost use Rattle.ipx_carrier.specs.Turns.{Given};
    ghost use Rattle.ipxnet_server.specs.declared.port.ServerPort.{ServerPort};

    // A packet that is handed to the server of its port.
    ghost Copy = { Given };

    // The ports of the servers, with how many clients each may have, the time, and how many ports
    // the sockets have.
    ghost Kept = { List (ServerPort × ℕ) × ℕ × ℕ };

    ghost kept = { λ l. (server_ports l.servers.items, l.moment, D.port_count l.sockets) };

    ghost port_count = { λ l. min (length l.servers.items) (D.port_count l.sockets) };

    // These never fail: the sockets count what can't be sent or received.
    ghost failed = { λ l. 0 };

    ghost transmissions = { λ l. by_servers };

    // The sockets record what is sent to addresses.
    ghost traffic = { λ l. None };

    // They can't tell what waits for the core, because what is only for clients is not handed to
    // it.
    ghost waiting = { λ l. None };

    // Any address may register.
    ghost access = { λ l. [] };

    ghost filtered = { λ l. l.kept + D.filtered l.sockets };

    ghost marked = { λ l. D.marked l.sockets };

    ghost receives = { ReceivesByServers D.traffic D.failed D.asks D.sends };

    ghost sends = { SendsByServers D.traffic D.failed D.sends };

    ghost fails_to_receive = { λ l port size m. ⊥ };

    ghost fails_to_send = { λ l packet m. ⊥ };

    fn ports(&self) -> usize {
        self.servers.len().min(self.sockets.ports())
    }

    fn failures(&self) -> u64 {
        0
    }

    fn send(&mut self, port: usize, node: Node, packet: &[u8]) -> Result<PacketSent, DeviceFault>
        requires there { port < min (length self.old.servers.items)
            (D.port_count self.old.sockets) }
        // The packet is sent to the clients of its node, or to joined routers, or the server
        // refuses it.
        ensures sent { IfOk result (λ sent. SendsThroughServer self.old.moment port node packet.now sent
            (servers_view self.old.servers.items self.old.kept
            (D.traffic self.old.sockets) (D.failed self.old.sockets))
            (servers_view self.new.servers.items self.new.kept
            (D.traffic self.new.sockets) (D.failed self.new.sockets))) }
        ensures sends { OnOk result (SendsByServers D.traffic D.failed D.sends self.old
            (record { port = port; node = node; bytes = packet.now }) self.new) }
        ensures goes_on { OnErr result ⊥ }
        ensures count { IfOk result (λ sent. count_in sent ≡ copies_count by_servers
            (record { port = port; node = node; bytes = packet.now })) }
        ensures moment { self.new.moment ≡ self.old.moment }
        ensures servers { length self.new.servers.items ≡ length self.old.servers.items }
        ensures stays { server_ports self.new.servers.items ≡ server_ports self.old.servers.items }
        ensures kept { self.new.kept ≡ self.old.kept }
        ensures filtered { D.filtered self.new.sockets ≡ D.filtered self.old.sockets }
        ensures marks { MarksStay (D.marked self.old.sockets) (D.marked self.new.sockets) }
        ensures ports { D.port_count self.new.sockets ≡ D.port_count self.old.sockets }
    {
        Ok(self.send_packet(port, node, packet))
    }

    fn receive(&mut self, port: usize, room: &mut [u8]) -> Result<Option<usize>, DeviceFault>
        requires there { port < min (length self.old.servers.items)
            (D.port_count self.old.sockets) }
        // The sockets were asked at the port. What they answered is received, and the sockets are
        // handed what the server sends for it.
        ensures receives { IfOk result (λ up. ReceivesByServers D.traffic D.failed D.asks D.sends
            self.old port (length room.old) (received_in room.new up) self.new) }
        // A datagram came from an address and the server received it, or none came, or the sockets
        // failed.
        ensures received { IfOk result (λ up. (came : Option PlaceDatagram)
            × IfSome came (λ d. d.port ≡ port)
            × ReceivesAtServer self.old.moment (length room.old) came room.new up
            (servers_view self.old.servers.items self.old.kept
            (D.traffic self.old.sockets) (D.failed self.old.sockets))
            (servers_view self.new.servers.items self.new.kept
            (D.traffic self.new.sockets) (D.failed self.new.sockets))) }
        ensures within { IfOk result (λ up. IfSome up (λ n. n ≤ length room.old)) }
        // The buffer is as it was if nothing is for the core.
        ensures untouched { IfOk result (λ up. up ≡ None → room.new ≡ room.old) }
        ensures goes_on { OnErr result ⊥ }
        ensures moment { self.new.moment ≡ self.old.moment }
        ensures servers { length self.new.servers.items ≡ length self.old.servers.items }
        ensures stays { server_ports self.new.servers.items ≡ server_ports self.old.servers.items }
        ensures kept { self.old.kept ≤ self.new.kept }
        ensures filtered { D.filtered self.old.sockets ≤ D.filtered self.new.sockets }
        // If the sockets fail or nothing is for the core, the port may lose its mark only as they say.
        ensures marks { IfOk result (λ up. AsksPortWithMark port (is_some up)
            (D.marked self.old.sockets) (D.marked self.new.sockets)) }
        ensures ports { D.port_count self.new.sockets ≡ D.port_count self.old.sockets }
    {
        let mut datagram = [0; DATAGRAM_BUFFER];
        let Ok(came) = self.sockets.receive(port, &mut datagram) else {
            return Ok(None);
        };
        let Some(came) = came else {
            return Ok(None);
        };
        Ok(self.hear_datagram(port, came.from, &datagram[..came.size], room))
    }
}

impl<D: PlaceSockets + Drop> PortDriverFilters for Servers<D> {
    /// How much of what came the core did not get. This counts what the servers did not give it,
    /// including what they answered or sent on, and what the sockets did not hand over.
    fn filtered(&self) -> u128
        ensures total { result ≡ self.now.kept + D.filtered self.now.sockets }
        ensures few { result < 2 ^ 65 }
    {
        u128::from(self.kept) + u128::from(self.sockets.from_nowhere())
    }
}
