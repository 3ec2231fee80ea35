//! What a router logs of the tunnel of a port when it starts. A cookie is not printed.

ghost use Rattle.std.specs.Prelude.{◌≡◌, IfOk, string_bytes};
ghost use Rattle.ipx_config.specs.Checked.{cookie_text, session_text, sublayer_text, tunnel_text, vni_text};

use ipx_tunnels::{Cookie, Session, Tunnel, Vni};
use std::alloc::{AllocError, Global};

fn vni_to_text(alloc: Global, vni: Vni) -> Result<String, AllocError>
    ensures { IfOk result (λ t. string_bytes t ≡ vni_text vni) }
{
    let number = vni.number();
    format!(in alloc; " vxlan vni {number}")
}

/// How long a cookie is, after the words that say which one it is; empty if it is absent.
fn cookie_to_text(alloc: Global, which: &str, cookie: Cookie) -> Result<String, AllocError>
    ensures { IfOk result (λ t. string_bytes t ≡ cookie_text which.now cookie) }
{
    match cookie {
        Cookie::Absent => Ok(String::new(alloc)),
        Cookie::Short(_) => format!(in alloc; "{which} of 4 bytes"),
        Cookie::Long(_) => format!(in alloc; "{which} of 8 bytes"),
    }
}

/// The words for a session with the default sublayer.
fn sublayer_text(sublayer: bool) -> &'static str
    ensures { result.now ≡ sublayer_text sublayer }
{
    if sublayer { " sublayer true" } else { "" }
}

fn session_to_text(alloc: Global, session: &Session) -> Result<String, AllocError>
    ensures { IfOk result (λ t. string_bytes t ≡ session_text session.now) }
{
    let (id, peer) = (session.id, session.peer_id);
    let cookie = cookie_to_text(alloc, " cookie", session.cookie)?;
    let peer_cookie = cookie_to_text(alloc, " peer_cookie", session.peer_cookie)?;
    let sublayer = sublayer_text(session.sublayer);
    format!(in alloc; " l2tpv3 session {id} peer_session {peer}{cookie}{peer_cookie}{sublayer}")
}

/// How a port carries its frames, after a space; empty if each datagram is a frame.
pub fn tunnel_to_text(alloc: Global, tunnel: &Tunnel) -> Result<String, AllocError>
    ensures { IfOk result (λ t. string_bytes t ≡ tunnel_text tunnel.now) }
{
    match tunnel {
        Tunnel::Plain => Ok(String::new(alloc)),
        Tunnel::Vxlan(vni) => vni_to_text(alloc, *vni),
        Tunnel::L2tpv3(session) => session_to_text(alloc, session),
    }
}
