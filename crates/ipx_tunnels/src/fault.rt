//! Why a datagram has no frame for a tunnel.

use crate::tunnel::Vni;
use thiserror::Error;

/// The first reason why a datagram has no frame for a tunnel.
#[derive(Clone, Copy, Debug, PartialEq, Eq, Error)]
pub enum TunnelFault {
    /// It is shorter than the header. The value is how many bytes it has.
    #[error("{0} bytes, fewer than the header has")]
    Short(usize),
    /// Its first byte is not that of VXLAN. The value is that byte.
    #[error("no vxlan: its first byte is {0:02x}, and not 08")]
    NotVxlan(u8),
    /// It is of another VXLAN network. The value is that network.
    #[error("vxlan of vni {0}")]
    OtherVni(Vni),
    /// It is a control message of L2TP.
    #[error("a control message of l2tp")]
    Control,
    /// It is of another version of L2TP. The value is that version.
    #[error("l2tp of version {0}, and not 3")]
    OtherVersion(u8),
    /// It is of another L2TPv3 session. The value is that session.
    #[error("l2tpv3 of session {0}")]
    OtherSession(u32),
    /// It has another cookie.
    #[error("l2tpv3 with another cookie")]
    OtherCookie,
}
