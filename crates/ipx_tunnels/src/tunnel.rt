//! How an Ethernet frame is carried in a datagram.

ghost use Rattle.std.specs.Prelude.{◌≡◌, ◌≤◌, ◌^◌, ◌↔◌, IfSome, None, length};
ghost use Rattle.byteorder.specs.Endian.{big_bytes};
ghost use Rattle.ipx_wire.specs.Ipx.{number};
ghost use Rattle.ipx_tunnels.specs.Tunnels.{cookie_bytes};

use byteorder::{BigEndian, ByteOrder};
use std::fmt;

/// The number of a VXLAN network (VNI), in the three bytes of the header.
#[derive(Clone, Copy, Debug, PartialEq, Eq)]
pub struct Vni(pub [u8; 3]);

impl Vni {
    /// The network of this number. None if it has more than 24 bits.
    pub fn new(number: u32) -> Option<Vni>
        ensures bytes { IfSome result (λ vni. vni.0 ≡ big_bytes 3 number) }
        ensures none { result ≡ None ↔ 2 ^ 24 ≤ number }
    {
        if number >= 1 << 24 {
            return None;
        }
        let mut bytes = [0; 3];
        BigEndian::write_u24(&mut bytes, number);
        Some(Vni(bytes))
    }

    /// Its number.
    pub fn number(self) -> u32
        ensures { result ≡ number 3 0 self.0 }
    {
        BigEndian::read_u24(&self.0)
    }
}

/// As a person writes it.
impl fmt::Display for Vni {
    fn fmt<W: fmt::Write>(&self, f: &mut fmt::Formatter<W>) -> fmt::Result {
        write!(f, "{}", self.number())
    }
}

/// The cookie of an L2TPv3 session.
#[derive(Clone, Copy, Debug, PartialEq, Eq)]
pub enum Cookie {
    /// The session has none.
    Absent,
    /// Four bytes.
    Short([u8; 4]),
    /// Eight bytes.
    Long([u8; 8]),
}

impl Cookie {
    /// Its bytes, as they are in the header.
    pub(crate) fn bytes(&self) -> &[u8]
        ensures bytes { result.now ≡ cookie_bytes self.now }
        ensures few { length result.now ≤ 8 }
    {
        match self {
            Cookie::Absent => &[],
            Cookie::Short(bytes) => bytes,
            Cookie::Long(bytes) => bytes,
        }
    }
}

/// A static L2TPv3 session over UDP, as one side of it has it.
#[derive(Clone, Copy, Debug, PartialEq, Eq)]
pub struct Session {
    /// The session that is received.
    pub id: u32,
    /// The session that is sent: that which the other side receives.
    pub peer_id: u32,
    /// The cookie that is received.
    pub cookie: Cookie,
    /// The cookie that is sent.
    pub peer_cookie: Cookie,
    /// Whether four bytes of the default sublayer are between the cookie and the frame.
    pub sublayer: bool,
}

/// What precedes an Ethernet frame in a datagram.
#[derive(Clone, Copy, Debug, PartialEq, Eq)]
pub enum Tunnel {
    /// Nothing: a datagram is a frame.
    Plain,
    /// The header of VXLAN.
    Vxlan(Vni),
    /// The header of L2TPv3 over UDP.
    L2tpv3(Session),
}

/// Names the network or the session, and no cookie.
impl fmt::Display for Tunnel {
    fn fmt<W: fmt::Write>(&self, f: &mut fmt::Formatter<W>) -> fmt::Result {
        match self {
            Tunnel::Plain => f.write_str("no tunnel"),
            Tunnel::Vxlan(vni) => write!(f, "vxlan of vni {vni}"),
            Tunnel::L2tpv3(session) => write!(f, "l2tpv3 of session {}", session.id),
        }
    }
}
