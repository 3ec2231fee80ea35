//! Writing the header and the frame.

ghost use Rattle.std.specs.Prelude.{◌≡◌, ◌≤◌, ◌<◌, ◌+◌, ◌++◌, ◌↔◌, List, ℕ, IfSome, None, length, drop};
ghost use Rattle.ipx_wire.specs.Ipx.{IsWritten};
ghost use Rattle.ipx_tunnels.specs.Tunnels.{datagram_of, header_of, sublayer_bytes};
ghost use Rattle.ipx_tunnels.specs.declared.tunnel.Tunnel.TheVariants.{L2tpv3, Vxlan};

use crate::tunnel::{Session, Tunnel, Vni};

/// The longest header, in bytes.
pub const MAX_HEADER_SIZE: usize = 20;

/// The first byte of VXLAN: only the flag that the network's number is there.
pub(crate) const VXLAN_FLAGS: u8 = 8;

/// What is before the network's number in the header of VXLAN.
const VXLAN_BEGIN: [u8; 4] = [VXLAN_FLAGS, 0, 0, 0];

/// What is after it.
const VXLAN_END: [u8; 1] = [0];

/// What data of L2TPv3 over UDP begins with: no flags, version 3, and two bytes that are 0.
const L2TPV3_BEGIN: [u8; 4] = [0, 3, 0, 0];

/// The default sublayer without a sequence number.
const SUBLAYER: [u8; 4] = [0; 4];

/// Writes one more field, and returns where the next one begins.
fn put_field(field: &[u8], out: &mut [u8], at: usize) -> usize
    requires { at + length field.now ≤ length out.old }
    ensures end { result ≡ at + length field.now }
    ensures written { (old written : List ℕ) → IsWritten old written out.old at
        → IsWritten old (written ++ field.now) out.new result }
    ensures size { length out.new ≡ length out.old }
{
    let end = at + field.len();
    out[at..end].copy_from_slice(field);
    end
}

/// The size of the header of VXLAN, in bytes.
fn vxlan_size(vni: Vni) -> usize
    ensures value { result ≡ length (header_of (Vxlan vni)) }
    ensures few { result ≤ 20 }
{
    VXLAN_BEGIN.len() + vni.0.len() + VXLAN_END.len()
}

fn put_vxlan(vni: Vni, out: &mut [u8]) -> usize
    requires { length (header_of (Vxlan vni)) ≤ length out.old }
    ensures end { result ≡ length (header_of (Vxlan vni)) }
    ensures written { IsWritten out.old (header_of (Vxlan vni)) out.new result }
    ensures size { length out.new ≡ length out.old }
{
    let begin = put_field(&VXLAN_BEGIN, out, 0);
    let network = put_field(&vni.0, out, begin);
    put_field(&VXLAN_END, out, network)
}

fn put_l2tpv3(session: &Session, out: &mut [u8]) -> usize
    requires { length (header_of (L2tpv3 session.now)) ≤ length out.old }
    ensures end { result ≡ length (header_of (L2tpv3 session.now)) }
    ensures written { IsWritten out.old (header_of (L2tpv3 session.now)) out.new result }
    ensures size { length out.new ≡ length out.old }
{
    let begin = put_field(&L2TPV3_BEGIN, out, 0);
    let id = put_field(&session.peer_id.to_be_bytes(), out, begin);
    let cookie = put_field(session.peer_cookie.bytes(), out, id);
    put_field(session.sublayer_bytes(), out, cookie)
}

impl Session {
    /// What is sent between the cookie and the frame.
    pub(crate) fn sublayer_bytes(&self) -> &'static [u8]
        ensures { result.now ≡ sublayer_bytes self.now.sublayer }
    {
        if self.sublayer { &SUBLAYER } else { &[] }
    }
}

impl Tunnel {
    /// The size of the header that is sent, in bytes.
    fn header_size(&self) -> usize
        ensures value { result ≡ length (header_of self.now) }
        ensures few { result ≤ 20 }
    {
        match self {
            Tunnel::Plain => 0,
            Tunnel::Vxlan(vni) => vxlan_size(*vni),
            Tunnel::L2tpv3(session) => {
                L2TPV3_BEGIN.len()
                    + 4
                    + session.peer_cookie.bytes().len()
                    + session.sublayer_bytes().len()
            }
        }
    }

    /// Writes the header that is sent. There must be room.
    fn put_header(&self, out: &mut [u8]) -> usize
        requires { length (header_of self.now) ≤ length out.old }
        ensures end { result ≡ length (header_of self.now) }
        ensures written { IsWritten out.old (header_of self.now) out.new result }
        ensures size { length out.new ≡ length out.old }
    {
        match self {
            Tunnel::Plain => 0,
            Tunnel::Vxlan(vni) => put_vxlan(*vni, out),
            Tunnel::L2tpv3(session) => put_l2tpv3(session, out),
        }
    }

    /// Writes the datagram that carries a frame to the front of a buffer, and returns its size. The
    /// rest of the buffer stays. None if it does not fit, and the buffer is then as it was.
    ///
    /// The header has at most [`MAX_HEADER_SIZE`] bytes.
    pub fn put(&self, frame: &[u8], out: &mut [u8]) -> Option<usize>
        ensures count { IfSome result (λ n. n ≡ length (datagram_of self.now frame.now)) }
        ensures written { IfSome result (λ n.
            out.new ≡ datagram_of self.now frame.now ++ drop n out.old) }
        ensures none { result ≡ None ↔ length out.old < length (datagram_of self.now frame.now) }
        ensures unchanged { result ≡ None → out.new ≡ out.old }
    {
        if out.len() < frame.len() || out.len() - frame.len() < self.header_size() {
            return None;
        }
        let header = self.put_header(out);
        Some(put_field(frame, out, header))
    }
}
