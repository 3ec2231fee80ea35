//! The remotes of an Ethernet port, and where they are.

ghost use Rattle.std.specs.Prelude.{◌≡◌, ◌<◌, IfSome, length};
ghost use Rattle.ipx_ethernet_ports.specs.EthernetAddresses.{end_at_place, end_from, is_any_port, is_place, learned_from, place_of_end, remote_count};

use ipx_tunnels::Tunnel;
use std::net::{SocketAddr, SocketAddrV4};

/// The remotes of a port.
#[derive(Drop)]
pub enum Remotes {
    /// Those at these places.
    Fixed(Vec<SocketAddrV4>),
    /// One remote, whose place is where its last frame came from. Before the first frame it is
    /// unknown.
    ///
    /// Whoever can send a frame of the tunnel becomes this remote. So use it only with a tunnel
    /// whose header is hard to guess: L2TPv3 with a cookie of eight bytes.
    Learned(Option<SocketAddrV4>),
}

/// Whether a remote may send from any UDP port.
fn is_any_port(tunnel: Tunnel) -> bool
    ensures { result ≡ is_any_port tunnel }
{
    matches!(tunnel, Tunnel::Vxlan(_))
}

/// Whether what a remote at this address sends by the tunnel comes from this address. In VXLAN the
/// UDP port may be any.
fn is_at(tunnel: Tunnel, place: &SocketAddrV4, from: SocketAddr) -> bool
    ensures { result ≡ is_place tunnel from place.now }
{
    match from {
        SocketAddr::V4(from) => {
            place.ip() == from.ip() && (is_any_port(tunnel) || place.port() == from.port())
        }
        SocketAddr::V6(_) => false,
    }
}

/// The place in the list of the remote from which a datagram came.
fn end_at(tunnel: Tunnel, places: &[SocketAddrV4], from: SocketAddr) -> Option<usize>
    ensures first { result ≡ end_at_place tunnel from places.now }
    ensures there { IfSome result (λ end. end < length places.now) }
{
    places.iter().position(|place| is_at(tunnel, place, from))
}

impl Remotes {
    /// How many there are.
    pub(crate) fn count(&self) -> usize
        ensures { result ≡ remote_count self.now }
    {
        match self {
            Remotes::Fixed(places) => places.len(),
            Remotes::Learned(_) => 1,
        }
    }

    /// The place of a remote. None if it is not known yet.
    pub(crate) fn place(&self, end: usize) -> Option<SocketAddrV4>
        ensures { result ≡ place_of_end self.now end }
    {
        match self {
            Remotes::Fixed(places) => places.get(end).copied(),
            Remotes::Learned(place) => *place,
        }
    }

    /// The remote from which a datagram came by the tunnel. A remote that is learned may send from
    /// any address of IPv4.
    pub(crate) fn end_from(&self, tunnel: Tunnel, from: SocketAddr) -> Option<usize>
        ensures first { result ≡ end_from tunnel from self.now }
        ensures there { IfSome result (λ end. end < remote_count self.now) }
    {
        match self {
            Remotes::Fixed(places) => end_at(tunnel, places, from),
            Remotes::Learned(_) => match from {
                SocketAddr::V4(_) => Some(0),
                SocketAddr::V6(_) => None,
            },
        }
    }

    /// A frame came from here: a remote that is learned is at this place from now on.
    pub(crate) fn learn(&mut self, from: SocketAddr)
        ensures learned { self.new ≡ learned_from from self.old }
    {
        if let (Remotes::Learned(place), SocketAddr::V4(from)) = (self, from) {
            *place = Some(from);
        }
    }
}
