//! The ports of a running router, of all kinds.

ghost use Rattle.std.specs.Prelude.{◌≡◌, ◌<◌, ◌≤◌, ◌+◌, ◌^◌, All, IfErr, IfOk, IfSome, None, OnErr, OnOk, false, is_some, length, map, min, slice_get, true};
ghost use Rattle.ipx_carrier.specs.Device.{received_in};
ghost use Rattle.ipx_carrier.specs.Readiness.{AsksPortWithMark, MarksStay};
ghost use Rattle.ipx_carrier.specs.RunFaultNumbers.{device_failures};
ghost use Rattle.ipx_carrier.specs.PortDrivers.{SendsFrontOf, copies_count, count_in};
ghost use Rattle.ipx_carrier.specs.Turns.{copies_of, peers_of};
ghost use Rattle.ipx_ipxnet_ports.specs.OnServers.{PingsAtServers, PingsThroughSockets, servers_view, server_ports};
ghost use Rattle.ipx_site.specs.RouterMarks.{marked_by_kind};
ghost use Rattle.ipx_site.specs.RouterPorts.{by_kind, fits};

use ipx_carrier::{
    CountsFiltered, Datagrams, DeviceFault, OwnedRfc1234Ports, PacketSent, PortDriver,
    PortDriverFilters,
};
use ipx_ethernet_ports::{EndSockets, EthernetPorts, EthernetSockets};
use ipx_ipxnet_ports::{PlaceSockets, ServerSockets, Servers};
use ipx_sockets::{SourceFilter, UdpSockets};
use ipx_wire::Node;

/// The index of a port among those of its kind, starting at 0.
#[derive(Clone, Copy, PartialEq, Eq)]
pub enum PortIndex {
    /// An RFC 1234 port.
    Datagrams(usize),
    /// An Ethernet port.
    Ethernet(usize),
    /// An ipxnet port.
    IpxnetServer(usize),
}

/// The ports of a router. Those of RFC 1234 work over a device, Ethernet and ipxnet ports over
/// their sockets. It knows which of them each port of the router is.
pub struct RouterPorts<D: Datagrams + Drop, E: EndSockets + Drop, L: PlaceSockets + Drop> {
    pub(crate) datagrams: OwnedRfc1234Ports<D>,
    pub(crate) ethernet: EthernetPorts<E>,
    pub(crate) servers: Servers<L>,
    port_indices: Vec<PortIndex>,
    /// Whether pings were sent since the time was set.
    pinged: bool,
    // Each port index is valid.
    ghost fit: { All (fits (D.port_count datagrams.device)
        (min (length ethernet.switches.items) (length (E.ends_of ethernet.sockets)))
        (min (length servers.servers.items) (L.port_count servers.sockets))) port_indices.items },
}

impl<D: Datagrams + Drop, E: EndSockets + Drop, L: PlaceSockets + Drop> Drop
    for RouterPorts<D, E, L> {
    fn drop(self) {
        let RouterPorts {
            datagrams: _,
            ethernet: _,
            servers: _,
            port_indices: _,
            pinged: _,
        } = self;
    }
}

/// The ports of a site's router.
pub type UdpRouterPorts = RouterPorts<SourceFilter<UdpSockets>, EthernetSockets, ServerSockets>;

impl<D: Datagrams + Drop, E: EndSockets + Drop, L: PlaceSockets + Drop> RouterPorts<D, E, L> {
    /// The ports of a router, in the order of the port indices. Each index must be valid.
    pub fn new(
        datagrams: OwnedRfc1234Ports<D>,
        ethernet: EthernetPorts<E>,
        servers: Servers<L>,
        port_indices: Vec<PortIndex>,
    ) -> RouterPorts<D, E, L>
        requires { All (fits (D.port_count datagrams.device)
            (min (length ethernet.switches.items) (length (E.ends_of ethernet.sockets)))
            (min (length servers.servers.items) (L.port_count servers.sockets))) port_indices.items }
        ensures datagrams { result.datagrams ≡ datagrams }
        ensures ethernet { result.ethernet ≡ ethernet }
        ensures servers { result.servers ≡ servers }
        ensures port_indices { result.port_indices.items ≡ port_indices.items }
    {
        RouterPorts {
            datagrams,
            ethernet,
            servers,
            port_indices,
            pinged: false,
        }
    }

    /// The device of the RFC 1234 ports, for inspection between two runs.
    pub fn device(&self) -> &D
        ensures { result.now ≡ self.now.datagrams.device }
    {
        &self.datagrams.device
    }

    /// The Ethernet ports, for inspection between two runs.
    pub fn ethernet(&self) -> &EthernetPorts<E>
        ensures { result.now ≡ self.now.ethernet }
    {
        &self.ethernet
    }

    /// The ipxnet ports, for inspection between two runs.
    pub fn servers(&self) -> &Servers<L>
        ensures { result.now ≡ self.now.servers }
    {
        &self.servers
    }

    /// The index of each port among those of its kind, in the order of the ports.
    pub fn port_indices(&self) -> &[PortIndex]
        ensures { result.now ≡ self.now.port_indices.items }
    {
        &self.port_indices
    }

    /// Sets the time, in milliseconds, for all that Ethernet and ipxnet ports send and receive from
    /// now on.
    pub fn set_time(&mut self, moment: u64)
        ensures ethernet { self.new.ethernet ≡ record self.old.ethernet { moment = moment } }
        ensures servers { self.new.servers ≡ record self.old.servers { moment = moment } }
        ensures datagrams { self.new.datagrams ≡ self.old.datagrams }
        ensures port_indices { self.new.port_indices ≡ self.old.port_indices }
        ensures pinged { self.new.pinged ≡ false }
    {
        self.ethernet.set_time(moment);
        self.servers.set_time(moment);
        self.pinged = false;
    }

    /// Sends the pings that are due at ipxnet ports, at the time that is set.
    pub fn send_pings(&mut self)
        ensures pings { PingsAtServers self.old.servers.moment
            (min (length self.old.servers.servers.items) (L.port_count self.old.servers.sockets))
            (servers_view self.old.servers.servers.items self.old.servers.kept
            (L.traffic self.old.servers.sockets) (L.failed self.old.servers.sockets))
            (servers_view self.new.servers.servers.items self.new.servers.kept
            (L.traffic self.new.servers.sockets) (L.failed self.new.servers.sockets)) }
        // Their sockets were handed just these.
        ensures sends { PingsThroughSockets L.sends self.old.servers.moment
            (min (length self.old.servers.servers.items) (L.port_count self.old.servers.sockets))
            (servers_view self.old.servers.servers.items self.old.servers.kept
            (L.traffic self.old.servers.sockets) (L.failed self.old.servers.sockets))
            (servers_view self.new.servers.servers.items self.new.servers.kept
            (L.traffic self.new.servers.sockets) (L.failed self.new.servers.sockets))
            self.old.servers.sockets self.new.servers.sockets }
        ensures moment { self.new.servers.moment ≡ self.old.servers.moment }
        ensures kept { self.new.servers.kept ≡ self.old.servers.kept }
        ensures filtered { L.filtered self.new.servers.sockets ≡ L.filtered self.old.servers.sockets }
        ensures marks { MarksStay (L.marked self.old.servers.sockets) (L.marked self.new.servers.sockets) }
        ensures ethernet { self.new.ethernet ≡ self.old.ethernet }
        ensures datagrams { self.new.datagrams ≡ self.old.datagrams }
        ensures port_indices { self.new.port_indices ≡ self.old.port_indices }
        ensures pinged { self.new.pinged ≡ true }
    {
        self.servers.send_pings();
        self.pinged = true;
    }
}

impl<D: Datagrams + Drop, E: EndSockets + Drop, L: PlaceSockets + Drop> PortDriver
    for RouterPorts<D, E, L> {
    ghost use Rattle.std.specs.Prelude.{Bool, List, ℕ};
    ghost use Rattle.ipx_carrier.specs.Turns.{Peers};
    ghost use Rattle.ipx_site.specs.PortCalls.{FailsToReceiveAt, FailsToSendBy, ReceivesAtPort, SendsByPort};
    ghost use Rattle.ipx_site.specs.RouterPorts.{PortCopy};
    ghost use Rattle.ipx_site.specs.declared.router_ports.PortIndex.{PortIndex};

    ghost Copy = { PortCopy };

    // The peers, the port indices, the times set at the Ethernet and ipxnet ports, and whether pings
    // were sent since.
    ghost Kept = { Peers × List PortIndex × ℕ × ℕ × Bool };

    ghost kept = { λ r. (
      peers_of r.datagrams.peers.items,
      r.port_indices.items,
      r.ethernet.moment,
      r.servers.moment,
      r.pinged,
    ) };

    ghost port_count = { λ r. length r.port_indices.items };

    // Ethernet and ipxnet ports never fail.
    ghost failed = { λ r. D.failed r.datagrams.device };

    ghost transmissions = { λ r. by_kind (peers_of r.datagrams.peers.items)
        (map (λ h. h.port) r.ethernet.switches.items) r.port_indices.items };

    // The device and the sockets of Ethernet and ipxnet ports record the traffic.
    ghost traffic = { λ r. None };

    ghost waiting = { λ r. None };

    // Of the RFC 1234 ports, in their order. Any remote of an Ethernet port may send, and any
    // registered client.
    ghost access = { λ r. D.access r.datagrams.device };

    ghost filtered = { λ r. D.filtered r.datagrams.device
        + (r.ethernet.kept + E.filtered r.ethernet.sockets)
        + (r.servers.kept + L.filtered r.servers.sockets) };

    // As the ports of its kind say.
    ghost marked = { λ r. marked_by_kind (D.marked r.datagrams.device)
        (E.marked r.ethernet.sockets) (L.marked r.servers.sockets) r.port_indices.items };

    ghost receives = { ReceivesAtPort };

    ghost sends = { SendsByPort };

    ghost fails_to_receive = { FailsToReceiveAt };

    ghost fails_to_send = { FailsToSendBy };

    fn ports(&self) -> usize {
        self.port_indices.len()
    }

    fn failures(&self) -> u64 {
        self.datagrams.failures()
    }

    fn send(&mut self, port: usize, node: Node, packet: &[u8]) -> Result<PacketSent, DeviceFault>
        requires there { port < length self.old.port_indices.items }
        requires countable { D.failed self.old.datagrams.device + 1 < 2 ^ 64 }
        // It is sent by the port's kind, at its index there. The ports of other kinds are
        // unchanged.
        ensures sends { OnOk result (SendsByPort self.old
            (record { port = port; node = node; bytes = packet.now }) self.new) }
        ensures fails_to_send { OnErr result (FailsToSendBy self.old
            (record { port = port; node = node; bytes = packet.now }) self.new) }
        ensures count { IfOk result (λ sent. count_in sent
            ≡ copies_count (by_kind (peers_of self.old.datagrams.peers.items)
            (map (λ h. h.port) self.old.ethernet.switches.items) self.old.port_indices.items)
            (record { port = port; node = node; bytes = packet.now })) }
        ensures refused { OnErr result (SendsFrontOf (copies_of
            (by_kind (peers_of self.old.datagrams.peers.items)
            (map (λ h. h.port) self.old.ethernet.switches.items) self.old.port_indices.items)
            (record { port = port; node = node; bytes = packet.now })) None None) }
        ensures failures { D.failed self.new.datagrams.device
            ≡ device_failures result (D.failed self.old.datagrams.device) }
        ensures peers { peers_of self.new.datagrams.peers.items
            ≡ peers_of self.old.datagrams.peers.items }
        ensures access { D.access self.new.datagrams.device ≡ D.access self.old.datagrams.device }
        ensures transmissions { map (λ h. h.port) self.new.ethernet.switches.items
            ≡ map (λ h. h.port) self.old.ethernet.switches.items }
        // The port of each ipxnet server is unchanged, and so is its maximum number of clients.
        ensures servers { server_ports self.new.servers.servers.items
            ≡ server_ports self.old.servers.servers.items }
        ensures port_indices { self.new.port_indices ≡ self.old.port_indices }
        ensures moment { self.new.ethernet.moment ≡ self.old.ethernet.moment }
        ensures moments { self.new.servers.moment ≡ self.old.servers.moment }
        ensures pinged { self.new.pinged ≡ self.old.pinged }
        ensures filtered { D.filtered self.old.datagrams.device
            + (self.old.ethernet.kept + E.filtered self.old.ethernet.sockets)
            + (self.old.servers.kept + L.filtered self.old.servers.sockets)
            ≤ D.filtered self.new.datagrams.device
            + (self.new.ethernet.kept + E.filtered self.new.ethernet.sockets)
            + (self.new.servers.kept + L.filtered self.new.servers.sockets) }
        ensures marks { MarksStay (marked_by_kind (D.marked self.old.datagrams.device)
            (E.marked self.old.ethernet.sockets) (L.marked self.old.servers.sockets)
            self.old.port_indices.items) (marked_by_kind (D.marked self.new.datagrams.device)
            (E.marked self.new.ethernet.sockets) (L.marked self.new.servers.sockets)
            self.new.port_indices.items) }
    {
        match self.port_indices[port] {
            PortIndex::Datagrams(place) => self.datagrams.send(place, node, packet),
            PortIndex::Ethernet(place) => self.ethernet.send(place, node, packet),
            PortIndex::IpxnetServer(place) => self.servers.send(place, node, packet),
        }
    }

    fn receive(&mut self, port: usize, room: &mut [u8]) -> Result<Option<usize>, DeviceFault>
        requires there { port < length self.old.port_indices.items }
        requires countable { D.failed self.old.datagrams.device + 1 < 2 ^ 64 }
        // It is received by the port's kind, at its index there. The sockets of an Ethernet or
        // ipxnet port were asked. The ports of other kinds are unchanged.
        ensures receives { IfOk result (λ count. ReceivesAtPort self.old port (length room.old)
            (received_in room.new count) self.new) }
        ensures fails_to_receive { OnErr result
            (FailsToReceiveAt self.old port (length room.old) self.new) }
        ensures within { IfOk result (λ count. IfSome count (λ n. n ≤ length room.old)) }
        ensures failures { D.failed self.new.datagrams.device
            ≡ device_failures result (D.failed self.old.datagrams.device) }
        ensures peers { peers_of self.new.datagrams.peers.items
            ≡ peers_of self.old.datagrams.peers.items }
        ensures access { D.access self.new.datagrams.device ≡ D.access self.old.datagrams.device }
        ensures transmissions { map (λ h. h.port) self.new.ethernet.switches.items
            ≡ map (λ h. h.port) self.old.ethernet.switches.items }
        // The port of each ipxnet server is unchanged, and so is its maximum number of clients.
        ensures servers { server_ports self.new.servers.servers.items
            ≡ server_ports self.old.servers.servers.items }
        ensures port_indices { self.new.port_indices ≡ self.old.port_indices }
        ensures moment { self.new.ethernet.moment ≡ self.old.ethernet.moment }
        ensures moments { self.new.servers.moment ≡ self.old.servers.moment }
        ensures pinged { self.new.pinged ≡ self.old.pinged }
        ensures filtered { D.filtered self.old.datagrams.device
            + (self.old.ethernet.kept + E.filtered self.old.ethernet.sockets)
            + (self.old.servers.kept + L.filtered self.old.servers.sockets)
            ≤ D.filtered self.new.datagrams.device
            + (self.new.ethernet.kept + E.filtered self.new.ethernet.sockets)
            + (self.new.servers.kept + L.filtered self.new.servers.sockets) }
        ensures marks { IfOk result (λ count. AsksPortWithMark port (is_some count)
            (marked_by_kind (D.marked self.old.datagrams.device)
            (E.marked self.old.ethernet.sockets) (L.marked self.old.servers.sockets)
            self.old.port_indices.items) (marked_by_kind (D.marked self.new.datagrams.device)
            (E.marked self.new.ethernet.sockets) (L.marked self.new.servers.sockets)
            self.new.port_indices.items)) }
        ensures marks_stay { OnErr result (MarksStay (marked_by_kind (D.marked self.old.datagrams.device)
            (E.marked self.old.ethernet.sockets) (L.marked self.old.servers.sockets)
            self.old.port_indices.items) (marked_by_kind (D.marked self.new.datagrams.device)
            (E.marked self.new.ethernet.sockets) (L.marked self.new.servers.sockets)
            self.new.port_indices.items)) }
    {
        match self.port_indices[port] {
            PortIndex::Datagrams(place) => self.datagrams.receive(place, room),
            PortIndex::Ethernet(place) => self.ethernet.receive(place, room),
            PortIndex::IpxnetServer(place) => self.servers.receive(place, room),
        }
    }
}

impl PortDriverFilters for RouterPorts<SourceFilter<UdpSockets>, EthernetSockets, ServerSockets> {
    fn filtered(&self) -> u128 {
        self.datagrams.device.filtered() + self.ethernet.filtered() + self.servers.filtered()
    }
}
