//! The encapsulations of IPX on Ethernet.

ghost use Rattle.std.specs.Prelude.{◌≡◌};
ghost use Rattle.ipx_ethernet.specs.Frame.{link_bytes, most_of};

use std::fmt;

/// How an Ethernet frame contains an IPX packet. All stations of a network use the same one.
#[derive(Clone, Copy, Debug, PartialEq, Eq)]
pub enum Encapsulation {
    /// Novell's ETHERNET_802.3: the packet follows the length.
    Raw,
    /// ETHERNET_802.2: NetWare's service access points follow the length, and then the packet.
    Llc,
    /// ETHERNET_SNAP: the type follows the header of IEEE 802.2.
    Snap,
    /// ETHERNET_II: the type is in place of the length.
    EthernetII,
}

/// NetWare's service access point as destination and source, and UI (IEEE 802.2).
pub(crate) const LLC: [u8; 3] = [0xe0, 0xe0, 3];

/// The SNAP header, with the type of IPX (RFC 1042).
pub(crate) const SNAP: [u8; 8] = [0xaa, 0xaa, 3, 0, 0, 0, 0x81, 0x37];

impl Encapsulation {
    /// The longest packet that it takes, in bytes.
    pub fn packet_limit(self) -> usize
        ensures { result ≡ most_of self }
    {
        match self {
            Encapsulation::Raw | Encapsulation::EthernetII => 1500,
            Encapsulation::Llc => 1497,
            Encapsulation::Snap => 1492,
        }
    }

    pub(crate) fn link(&self) -> &'static [u8]
        ensures { result.now ≡ link_bytes self.now }
    {
        match self {
            Encapsulation::Raw | Encapsulation::EthernetII => &[],
            Encapsulation::Llc => &LLC,
            Encapsulation::Snap => &SNAP,
        }
    }
}

/// As a person writes it.
impl fmt::Display for Encapsulation {
    fn fmt<W: fmt::Write>(&self, f: &mut fmt::Formatter<W>) -> fmt::Result {
        match self {
            Encapsulation::Raw => write!(f, "802.3"),
            Encapsulation::Llc => write!(f, "802.2"),
            Encapsulation::Snap => write!(f, "snap"),
            Encapsulation::EthernetII => write!(f, "ethernet-ii"),
        }
    }
}
