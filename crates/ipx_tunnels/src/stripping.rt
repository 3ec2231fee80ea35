//! Reading the frame of a datagram.

ghost use Rattle.std.specs.Prelude.{◌≡◌, ◌≤◌, List, ℕ, IfErr, IfOk, IsOkAnd, None, Some, length};
ghost use Rattle.ipx_wire.specs.Ipx.{IsPartOf};
ghost use Rattle.ipx_tunnels.specs.Tunnels.{IsInTunnel, IsL2tpv3, IsVxlan, session_size, stripped_size};
ghost use Rattle.ipx_tunnels.specs.TunnelFaults.{is_cookie_there, l2tpv3_fault, tunnel_fault, vxlan_fault};

use crate::fault::TunnelFault;
use crate::header::VXLAN_FLAGS;
use crate::tunnel::{Session, Tunnel, Vni};
use byteorder::{BigEndian, ByteOrder};

/// The size of the header of VXLAN.
const VXLAN_SIZE: usize = 8;

/// Where the cookie is in the header of L2TPv3.
const COOKIE: usize = 8;

/// The bit of the first byte that a control message of L2TP has.
const CONTROL: u8 = 0x80;

/// The version of L2TPv3.
const VERSION: u8 = 3;

/// The frame after the header of VXLAN.
fn strip_vxlan(vni: Vni, bytes: &[u8]) -> Result<&[u8], TunnelFault>
    ensures found { IfOk result (λ frame. IsVxlan vni bytes.now frame.now) }
    ensures lent { IfOk result (λ frame. IsPartOf bytes.entry 8 frame) }
    ensures fault { IfErr result (λ f. vxlan_fault vni bytes.now ≡ Some f) }
    ensures whole { IfOk result (λ _. vxlan_fault vni bytes.now ≡ None) }
{
    if bytes.len() < VXLAN_SIZE {
        return Err(TunnelFault::Short(bytes.len()));
    }
    if bytes[0] != VXLAN_FLAGS {
        return Err(TunnelFault::NotVxlan(bytes[0]));
    }
    let came = Vni([bytes[4], bytes[5], bytes[6]]);
    if came != vni {
        return Err(TunnelFault::OtherVni(came));
    }
    Ok(&bytes[VXLAN_SIZE..])
}

impl Session {
    /// The size of the header that is received, in bytes.
    fn stripped_size(&self) -> usize
        ensures { result ≡ session_size self.now }
    {
        COOKIE + self.cookie.bytes().len() + self.sublayer_bytes().len()
    }

    /// Whether the cookie is in the header.
    fn has_cookie(&self, bytes: &[u8]) -> bool
        requires { 8 ≤ length bytes.now }
        ensures { result ≡ is_cookie_there self.now bytes.now }
    {
        bytes[COOKIE..].starts_with(self.cookie.bytes())
    }

    /// The frame after the header of L2TPv3.
    fn strip<'a>(&self, bytes: &'a [u8]) -> Result<&'a [u8], TunnelFault>
        ensures found { IfOk result (λ frame. IsL2tpv3 self.now bytes.now frame.now) }
        ensures lent { IfOk result (λ frame. IsPartOf bytes.entry (session_size self.now) frame) }
        ensures fault { IfErr result (λ f. l2tpv3_fault self.now bytes.now ≡ Some f) }
        ensures whole { IfOk result (λ _. l2tpv3_fault self.now bytes.now ≡ None) }
    {
        let size = self.stripped_size();
        if bytes.len() < size {
            return Err(TunnelFault::Short(bytes.len()));
        }
        if bytes[0] >= CONTROL {
            return Err(TunnelFault::Control);
        }
        if bytes[1] % 16 != VERSION {
            return Err(TunnelFault::OtherVersion(bytes[1] % 16));
        }
        let id = BigEndian::read_u32(&bytes[4..]);
        if id != self.id {
            return Err(TunnelFault::OtherSession(id));
        }
        if !self.has_cookie(bytes) {
            return Err(TunnelFault::OtherCookie);
        }
        Ok(&bytes[size..])
    }
}

impl Tunnel {
    /// The frame of a datagram, lent. The error is the first `TunnelFault` that holds.
    ///
    /// Call it with any bytes. The frame may be empty, and is not looked at.
    pub fn strip<'a>(&self, bytes: &'a [u8]) -> Result<&'a [u8], TunnelFault>
        // What is returned is the frame: the datagram's own bytes.
        ensures found { IfOk result (λ frame. IsInTunnel self.now bytes.now frame.now) }
        ensures lent { IfOk result (λ frame. IsPartOf bytes.entry (stripped_size self.now) frame) }
        // Each datagram of the tunnel is read.
        ensures only { (frame : List ℕ) → IsInTunnel self.now bytes.now frame
            → IsOkAnd result (λ r. r.now ≡ frame) }
        // Which fault it is; if there is none, the frame is returned.
        ensures fault { IfErr result (λ f. tunnel_fault self.now bytes.now ≡ Some f) }
        ensures whole { IfOk result (λ _. tunnel_fault self.now bytes.now ≡ None) }
    {
        match self {
            Tunnel::Plain => Ok(bytes),
            Tunnel::Vxlan(vni) => strip_vxlan(*vni, bytes),
            Tunnel::L2tpv3(session) => session.strip(bytes),
        }
    }
}
