//! What a port counts of the datagrams of its remotes that have no frame.

ghost use Rattle.std.specs.Prelude.{◌≡◌};
ghost use Rattle.ipx_ethernet_ports.specs.TunnelDrops.{drop_counted, drops_total, no_drops, reason_counted};

use ipx_carrier::saturating_increment;
use ipx_tunnels::TunnelFault;
use std::net::SocketAddr;

/// A datagram of a remote that has no frame in the tunnel: who sent it, and why it has none.
#[derive(Clone, Copy, Debug, PartialEq, Eq)]
pub struct TunnelDrop {
    pub from: SocketAddr,
    pub fault: TunnelFault,
}

/// How many datagrams of remotes had no frame in the tunnel of a port, by reason. Each count stays
/// at the greatest u64.
#[derive(Clone, Copy, Debug, PartialEq, Eq)]
pub struct TunnelDrops {
    /// Shorter than the header.
    pub short: u64,
    /// Not VXLAN.
    pub not_vxlan: u64,
    /// Of another VXLAN network.
    pub other_vni: u64,
    /// Control messages of L2TP.
    pub control: u64,
    /// Of another version of L2TP.
    pub other_version: u64,
    /// Of another L2TPv3 session.
    pub other_session: u64,
    /// With another cookie.
    pub other_cookie: u64,
    /// The last of them.
    pub last: Option<TunnelDrop>,
}

impl TunnelDrops {
    /// Counts of no datagram.
    pub fn new() -> TunnelDrops
        ensures { result ≡ no_drops }
    {
        TunnelDrops {
            short: 0,
            not_vxlan: 0,
            other_vni: 0,
            control: 0,
            other_version: 0,
            other_session: 0,
            other_cookie: 0,
            last: None,
        }
    }

    /// How many there were, of all reasons. It stays at the greatest u64.
    pub fn total(&self) -> u64
        ensures { result ≡ drops_total self.now }
    {
        self.short
            .saturating_add(self.not_vxlan)
            .saturating_add(self.other_vni)
            .saturating_add(self.control)
            .saturating_add(self.other_version)
            .saturating_add(self.other_session)
            .saturating_add(self.other_cookie)
    }

    fn count_reason(&mut self, fault: TunnelFault)
        ensures { self.new ≡ reason_counted fault self.old }
    {
        match fault {
            TunnelFault::Short(_) => saturating_increment(&mut self.short),
            TunnelFault::NotVxlan(_) => saturating_increment(&mut self.not_vxlan),
            TunnelFault::OtherVni(_) => saturating_increment(&mut self.other_vni),
            TunnelFault::Control => saturating_increment(&mut self.control),
            TunnelFault::OtherVersion(_) => saturating_increment(&mut self.other_version),
            TunnelFault::OtherSession(_) => saturating_increment(&mut self.other_session),
            TunnelFault::OtherCookie => saturating_increment(&mut self.other_cookie),
        }
    }

    /// Counts a datagram without a frame: the count of its reason rises, and it is the last one.
    pub fn count(&mut self, from: SocketAddr, fault: TunnelFault)
        ensures { self.new ≡ drop_counted from fault self.old }
    {
        self.count_reason(fault);
        self.last = Some(TunnelDrop { from, fault });
    }
}
