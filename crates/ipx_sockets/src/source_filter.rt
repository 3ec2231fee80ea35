//! A device that receives from its peers only, and sends to them only.

ghost use Rattle.std.specs.Prelude.{◌≡◌, ◌<◌, ◌≤◌, ◌+◌, ◌^◌, [], ◌∷◌, ℕ, true, false, Ok, Option, Some, OnErr, OnOk, IfOk, IfSome, is_err, is_some, length, map, replicate, slice_get, if◌then◌else◌, slice_set};
ghost use Rattle.ipx_wire.specs.Ipx.{packet_view};
ghost use Rattle.ipx_carrier.specs.Device.{Passes, received_in};
ghost use Rattle.ipx_carrier.specs.Counting.{raised};
ghost use Rattle.ipx_carrier.specs.Readiness.{AsksPortWithMark, MarksStay};
ghost use Rattle.ipx_carrier.specs.RunFaultNumbers.{device_failures};
ghost use Rattle.ipx_carrier.specs.Waits.{LeavesPort};
ghost use Rattle.ipx_sockets.specs.PortFilterDrops.{CountsUnknownSenderAt, drops_changed_at, nothing_at_port, one_refused};
ghost use Rattle.ipx_sockets.specs.SourceFilter.{IsVerdictOn, TakesIn, is_listed, drops_in, may_go, may_originate, zero_drops, no_filter_drops, one_more};
ghost use Rattle.ipx_sockets.specs.SocketCalls.{FailsThroughFilter, ReceivesThroughFilter, SendsThroughFilter};
ghost use Rattle.ipx_config.specs.Values.{is_peer};
ghost use Rattle.ipx_sockets.specs.AccessLists.{access_by};

use crate::last_sender::Senders;
use crate::port_filter_drops::{PortFilterDrops, count_refused, count_unknown_sender};
use crate::sockets::UdpSockets;
use crate::source_check::{
    NetworkMismatch, is_response, is_unrouted, network_mismatch, source_matches_sender,
};
use ipx_carrier::{CountsFiltered, Datagrams, DeviceFault, saturating_increment};
use ipx_config::is_same_ip;
use ipx_wire::{Network, Packet, decode};

/// The ports whose drops are counted by port: as many as a router has at most.
const COUNTED: usize = 16;

/// The IP addresses that a port sends to, those it accepts, and those of routers. In each list,
/// None means everybody.
#[derive(Drop)]
pub struct AccessList {
    /// The network of the port.
    pub network: Network,
    /// The IP addresses that it sends to.
    pub sends: Option<Vec<[u8; 4]>>,
    /// The IP addresses that it accepts.
    pub hears: Option<Vec<[u8; 4]>>,
    /// Those of routers, which may forward packets of others, and advertise routes and services.
    pub routers: Option<Vec<[u8; 4]>>,
}

/// The verdict of an access list on a datagram that came.
#[derive(Clone, Copy)]
pub enum Verdict {
    Heard,
    /// Its sender is not accepted.
    UnknownSender,
    /// Its source is another node than the one that sent it.
    SpoofedSource,
    /// Only a router may send it, and its sender is none. Both networks, if their numbers differ.
    NotARouter(Option<NetworkMismatch>),
}

/// The datagrams dropped for one reason: how many, and who sent the last of them.
#[derive(Clone, Copy, Debug, PartialEq, Eq)]
pub struct DropCount {
    /// Saturates at the greatest u64.
    pub count: u64,
    /// None if nothing was dropped yet, or if the last came from no IPv4 address.
    pub last: Option<[u8; 4]>,
}

/// The datagrams that were dropped on arrival, by reason.
#[derive(Clone, Copy, PartialEq, Eq)]
pub struct FilterDrops {
    /// Those from senders that are not accepted.
    pub unknown_senders: DropCount,
    /// Those whose source is another node than the one that sent them.
    pub spoofed: DropCount,
    /// Those that were forwarded, or advertise, but were not sent by a router.
    pub not_a_router: DropCount,
    /// If the sender of the last of these has another number for the network of the port, both.
    pub mismatch: Option<NetworkMismatch>,
}

impl DropCount {
    pub fn none() -> DropCount
        ensures { result ≡ zero_drops }
    {
        DropCount {
            count: 0,
            last: None,
        }
    }

    pub fn saturating_increment(&mut self, from: Option<[u8; 4]>)
        ensures counted { self.new ≡ one_more self.old from }
        ensures grows { self.old.count ≤ self.new.count }
    {
        saturating_increment(&mut self.count);
        self.last = from;
    }
}

impl FilterDrops {
    /// How many were dropped for all reasons.
    pub fn total(&self) -> u128
        ensures total { result ≡ drops_in self.now }
        ensures few { result < 2 ^ 66 }
    {
        let unknown_senders = u128::from(self.unknown_senders.count);
        let spoofed = u128::from(self.spoofed.count);
        let not_a_router = u128::from(self.not_a_router.count);
        unknown_senders + spoofed + not_a_router
    }
}

/// Whether an IP address is one of the peers.
fn is_peer(peers: &[[u8; 4]], ip: [u8; 4]) -> bool
    ensures { result ≡ is_peer peers.now ip }
{
    peers.iter().any(|peer| is_same_ip(*peer, ip))
}

/// Whether an IP address is in the list. Without a list, every address is.
fn is_listed(ips: &Option<Vec<[u8; 4]>>, ip: Option<[u8; 4]>) -> bool
    ensures { result ≡ is_listed ips.now ip }
{
    match (ips, ip) {
        (None, _) => true,
        (Some(ips), Some(ip)) => is_peer(ips, ip),
        (Some(_), None) => false,
    }
}

/// Whether a sender may send this packet: only a router forwards and advertises.
fn may_originate(access_list: &AccessList, from: Option<[u8; 4]>, packet: &Packet<'_>) -> bool
    ensures { result ≡ may_originate access_list.now.network access_list.now.routers from (packet_view packet.now) }
{
    is_listed(&access_list.routers, from)
        || (is_unrouted(access_list.network, &packet.header) && !is_response(packet))
}

/// The verdict of an access list on these bytes from this IP address.
fn verdict_on(access_list: &AccessList, from: Option<[u8; 4]>, bytes: &[u8]) -> Verdict
    ensures { IsVerdictOn (Some access_list.now) from bytes.now result }
{
    if !is_listed(&access_list.hears, from) {
        return Verdict::UnknownSender;
    }
    let Ok(packet) = decode(bytes) else {
        return Verdict::Heard;
    };
    if !source_matches_sender(access_list.network, from, &packet.header) {
        return Verdict::SpoofedSource;
    }
    if may_originate(access_list, from, &packet) {
        Verdict::Heard
    } else {
        Verdict::NotARouter(network_mismatch(access_list.network, from, &packet.header))
    }
}

/// A device over another one. It asks the access list of a port about all that is received and sent
/// there, and counts what it drops. For the first 16 ports it also counts by port. A port without
/// an access list receives and sends nothing.
pub struct SourceFilter<D: Senders + Drop> {
    device: D,
    access_lists: Vec<AccessList>,
    kept: FilterDrops,
    refused: u64,
    last_refused: Option<[u8; 4]>,
    port_counters: [PortFilterDrops; COUNTED],
}

impl<D: Senders + Drop> Drop for SourceFilter<D> {
    fn drop(self) {
        let SourceFilter {
            device: _,
            access_lists: _,
            kept: _,
            refused: _,
            last_refused: _,
            port_counters: _,
        } = self;
    }
}

impl<D: Senders + Drop> SourceFilter<D> {
    /// A device over this one, with the access lists of its ports in their order.
    pub fn new(device: D, access_lists: Vec<AccessList>) -> SourceFilter<D>
        ensures device { result.device ≡ device }
        ensures access_lists { result.access_lists.items ≡ access_lists.items }
        ensures none { (result.kept ≡ no_filter_drops) × (result.refused ≡ 0)
            × (result.last_refused ≡ None) }
        ensures none_by_port { result.port_counters ≡ replicate 16 nothing_at_port }
    {
        SourceFilter {
            device,
            access_lists,
            kept: FilterDrops {
                unknown_senders: DropCount::none(),
                spoofed: DropCount::none(),
                not_a_router: DropCount::none(),
                mismatch: None,
            },
            refused: 0,
            last_refused: None,
            port_counters: [PortFilterDrops::nothing(); COUNTED],
        }
    }

    /// The device below, for inspection between two runs.
    pub fn device(&self) -> &D
        ensures { result.now ≡ self.now.device }
    {
        &self.device
    }

    /// The datagrams that were dropped on arrival.
    pub fn kept(&self) -> FilterDrops
        ensures { result ≡ self.now.kept }
    {
        self.kept
    }

    /// The datagrams that were not sent, because their port does not send there.
    pub fn refused(&self) -> u64
        ensures { result ≡ self.now.refused }
    {
        self.refused
    }

    /// The IP address that the last of these was for.
    pub fn last_refused(&self) -> Option<[u8; 4]>
        ensures { result ≡ self.now.last_refused }
    {
        self.last_refused
    }

    /// The datagrams from unknown senders, and those not sent, for each of the first 16 ports.
    pub fn port_counters(&self) -> &[PortFilterDrops]
        ensures { result.now ≡ self.now.port_counters }
    {
        &self.port_counters
    }

    /// The verdict on these bytes, which came to a port last.
    fn word(&self, port: usize, bytes: &[u8]) -> Verdict
        ensures { IsVerdictOn (slice_get self.now.access_lists.items port)
            (D.last_sender self.now.device) bytes.now result }
    {
        match self.access_lists.get(port) {
            Some(access_list) => verdict_on(access_list, self.device.sender(), bytes),
            None => Verdict::UnknownSender,
        }
    }

    /// Whether a datagram may be sent there by a port.
    fn may_go(&self, port: usize, to: [u8; 4]) -> bool
        ensures { result ≡ may_go (slice_get self.now.access_lists.items port) to }
    {
        match self.access_lists.get(port) {
            Some(access_list) => is_listed(&access_list.sends, Some(to)),
            None => false,
        }
    }
}

impl SourceFilter<UdpSockets> {
    /// Marks all ports, as `UdpSockets::mark_all` does.
    pub fn mark_all(&mut self)
        ensures { self.new ≡ record self.old {
          device = record self.old.device {
            marks = replicate (length self.old.device.marks) true;
          };
        } }
    {
        self.device.mark_all();
    }

    /// Marks a port where something came, as `UdpSockets::set_ready` does.
    pub fn set_ready(&mut self, port: usize)
        ensures { self.new ≡ record self.old {
          device = record self.old.device { marks = slice_set self.old.device.marks port true };
        } }
    {
        self.device.set_ready(port);
    }
}

impl<D: Senders + Drop> Datagrams for SourceFilter<D> {
    ghost use Rattle.std.specs.Prelude.{None};

    ghost port_count = { λ p. D.port_count p.device };

    ghost failed = { λ p. D.failed p.device };

    // The device below records what passes it.
    ghost traffic = { λ p. None };

    // A dropped datagram leaves its port below and is not delivered, so this tells nothing.
    ghost waiting = { λ p. None };

    // A datagram that is not sent is no call of the device below.
    ghost fails = { λ p failed q. Unit {0} };

    // Its access lists say which senders are accepted; others are unknown senders.
    ghost access = { λ p. map access_by p.access_lists.items };

    ghost filtered = { λ p. drops_in p.kept };

    ghost marked = { λ p. D.marked p.device };

    // What the device below received is delivered if the access list accepts it.
    ghost receives = { ReceivesThroughFilter D.receives D.last_sender };

    ghost sends = { SendsThroughFilter D.sends };

    // It fails if the device below does, and never if that never fails.
    ghost fails_to_receive = { λ p port size q. FailsThroughFilter
        (λ d e. D.fails_to_receive d port size e) p q };

    ghost fails_to_send = { λ p datagram q. FailsThroughFilter
        (λ d e. D.fails_to_send d datagram e) p q };

    fn ports(&self) -> usize {
        self.device.ports()
    }

    fn failures(&self) -> u64 {
        self.device.failures()
    }

    fn send(&mut self, port: usize, to: [u8; 4], bytes: &[u8]) -> Result<(), DeviceFault>
        requires there { port < D.port_count self.old.device }
        requires countable { D.failed self.old.device + 1 < 2 ^ 64 }
        // A datagram that may be sent there is sent by the device below, as that says.
        ensures sends { OnOk result (SendsThroughFilter D.sends self.old
            (record { port = port; to = to; bytes = bytes.now }) self.new) }
        ensures sent { may_go (slice_get self.old.access_lists.items port) to ≡ true → OnOk result
            (Passes (D.traffic self.old.device) (D.traffic self.new.device)
            [] (record { port = port; to = to; bytes = bytes.now } ∷ [])) }
        ensures faulty { OnErr result
            (D.traffic self.new.device ≡ D.traffic self.old.device) }
        // If the device below fails, nothing else changes.
        ensures fails_to_send { OnErr result (FailsThroughFilter (λ d e. D.fails_to_send d
            (record { port = port; to = to; bytes = bytes.now }) e) self.old self.new) }
        ensures counted { may_go (slice_get self.old.access_lists.items port) to ≡ true
            → (self.new.refused ≡ self.old.refused)
            × (self.new.last_refused ≡ self.old.last_refused) }
        // One that may not is counted, also at its port, and the device below is unchanged.
        ensures refused { may_go (slice_get self.old.access_lists.items port) to ≡ false →
            (result ≡ Ok tt) × (self.new.device ≡ self.old.device)
            × (self.new.refused ≡ raised self.old.refused) × (self.new.last_refused ≡ Some to) }
        ensures port_counters { self.new.port_counters ≡ (if may_go (slice_get self.old.access_lists.items port) to
            then self.old.port_counters else drops_changed_at self.old.port_counters port one_refused) }
        ensures kept { self.new.kept ≡ self.old.kept }
        ensures waiting { D.waiting self.new.device ≡ D.waiting self.old.device }
        ensures fails { may_go (slice_get self.old.access_lists.items port) to ≡ true
            → D.fails self.old.device (is_err result) self.new.device }
        ensures access_lists { self.new.access_lists ≡ self.old.access_lists }
        ensures failures { D.failed self.new.device
            ≡ device_failures result (D.failed self.old.device) }
        ensures ports { D.port_count self.new.device ≡ D.port_count self.old.device }
        ensures marks { MarksStay (D.marked self.old.device) (D.marked self.new.device) }
    {
        if !self.may_go(port, to) {
            saturating_increment(&mut self.refused);
            self.last_refused = Some(to);
            count_refused(&mut self.port_counters, port);
            return Ok(());
        }
        self.device.send(port, to, bytes)
    }

    fn receive(&mut self, port: usize, room: &mut [u8]) -> Result<Option<usize>, DeviceFault>
        requires there { port < D.port_count self.old.device }
        requires countable { D.failed self.old.device + 1 < 2 ^ 64 }
        // What the device below received is delivered if the access list accepts it.
        ensures receives { IfOk result (λ up. ReceivesThroughFilter D.receives D.last_sender
            self.old port (length room.old) (received_in room.new up) self.new) }
        ensures received { IfOk result (λ up. (came : Option ℕ)
            × Passes (D.traffic self.old.device) (D.traffic self.new.device)
            (record { port = port; bytes = received_in room.new came } ∷ []) []
            × LeavesPort (length room.old) port (D.waiting self.old.device)
            (received_in room.new came) (D.waiting self.new.device)
            × TakesIn (slice_get self.old.access_lists.items port) (D.last_sender self.new.device)
            room.new came up self.old.kept self.new.kept) }
        ensures within { IfOk result (λ up. IfSome up (λ n. n ≤ length room.old)) }
        ensures faulty { OnErr result ((D.traffic self.new.device ≡ D.traffic self.old.device)
            × (D.waiting self.new.device ≡ D.waiting self.old.device)
            × (self.new.kept ≡ self.old.kept)) }
        // If the device below fails, nothing else changes.
        ensures fails_to_receive { OnErr result (FailsThroughFilter (λ d e.
            D.fails_to_receive d port (length room.old) e) self.old self.new) }
        ensures fails { D.fails self.old.device (is_err result) self.new.device }
        // A datagram from an unknown sender is counted at its port too.
        ensures port_counters { CountsUnknownSenderAt port self.old.kept.unknown_senders.count
            self.new.kept.unknown_senders.count self.old.port_counters self.new.port_counters }
        ensures filtered { drops_in self.old.kept ≤ drops_in self.new.kept }
        ensures refused { (self.new.refused ≡ self.old.refused)
            × (self.new.last_refused ≡ self.old.last_refused) }
        ensures access_lists { self.new.access_lists ≡ self.old.access_lists }
        ensures failures { D.failed self.new.device
            ≡ device_failures result (D.failed self.old.device) }
        ensures ports { D.port_count self.new.device ≡ D.port_count self.old.device }
        ensures marks { IfOk result (λ up. AsksPortWithMark port (is_some up)
            (D.marked self.old.device) (D.marked self.new.device)) }
        ensures marks_stay { OnErr result
            (MarksStay (D.marked self.old.device) (D.marked self.new.device)) }
    {
        let Some(count) = self.device.receive(port, room)? else {
            return Ok(None);
        };
        let from = self.device.sender();
        match self.word(port, &room[..count]) {
            Verdict::Heard => return Ok(Some(count)),
            Verdict::UnknownSender => {
                DropCount::saturating_increment(&mut self.kept.unknown_senders, from);
                count_unknown_sender(&mut self.port_counters, port);
            }
            Verdict::SpoofedSource => self.kept.spoofed.saturating_increment(from),
            Verdict::NotARouter(mismatch) => {
                let kept = &mut self.kept;
                kept.not_a_router.saturating_increment(from);
                kept.mismatch = mismatch;
            }
        }
        Ok(None)
    }
}

impl<D: Senders + Drop> CountsFiltered for SourceFilter<D> {
    fn filtered(&self) -> u128
        ensures total { result ≡ drops_in self.now.kept }
        ensures few { result < 2 ^ 66 }
    {
        let kept = self.kept();
        kept.total()
    }
}
