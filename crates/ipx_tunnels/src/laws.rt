//! Laws of tunnels, which follow from their definition.

ghost use Rattle.std.specs.Prelude.{◌≡◌, List, ℕ, length};
ghost use Rattle.ipx_tunnels.specs.declared.tunnel.Session.{Session};
ghost use Rattle.ipx_tunnels.specs.declared.tunnel.Tunnel.{Tunnel};
ghost use Rattle.ipx_tunnels.specs.declared.tunnel.Tunnel.TheVariants.{L2tpv3, Vxlan};
ghost use Rattle.ipx_tunnels.specs.declared.tunnel.Vni.{Vni};
ghost use Rattle.ipx_tunnels.specs.Tunnels.{FitsHeader, IsInTunnel, cookie_bytes, datagram_of, peer_of};

/// What one side of a tunnel sends, the other side receives as the same frame.
pub fn peer_strips_what_was_put()
    ensures { (t : Tunnel) (frame : List ℕ) → FitsHeader t
        → IsInTunnel (peer_of t) (datagram_of t frame) frame }
{}

/// No datagram is of two VXLAN networks, nor of two L2TPv3 sessions, nor has it two cookies of one
/// length.
pub fn tunnels_are_apart()
    ensures vxlan { (v w : Vni) (bytes f g : List ℕ) → IsInTunnel (Vxlan v) bytes f
        → IsInTunnel (Vxlan w) bytes g → v ≡ w }
    ensures session { (s t : Session) (bytes f g : List ℕ) → IsInTunnel (L2tpv3 s) bytes f
        → IsInTunnel (L2tpv3 t) bytes g → s.id ≡ t.id }
    ensures cookie { (s t : Session) (bytes f g : List ℕ) → IsInTunnel (L2tpv3 s) bytes f
        → IsInTunnel (L2tpv3 t) bytes g
        → length (cookie_bytes s.cookie) ≡ length (cookie_bytes t.cookie)
        → cookie_bytes s.cookie ≡ cookie_bytes t.cookie }
{}
