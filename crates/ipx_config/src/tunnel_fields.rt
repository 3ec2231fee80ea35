//! The keys for the tunnel of an Ethernet port, with their values.

ghost use Rattle.std.specs.Prelude.{◌≡◌, ◌⊎◌, IfErr, IfOk, OnOk, None, false, is_some, option_copied};
ghost use Rattle.toml.specs.Data.{get_member};
ghost use Rattle.toml.specs.View.{table_view};
ghost use Rattle.ipx_tunnels.specs.declared.tunnel.Cookie.TheVariants.{Absent};
ghost use Rattle.ipx_config.specs.Fields.{Gives, GivesIf, GivesOr, first_present};
ghost use Rattle.ipx_config.specs.Keys.{key_text, keys_of_other_tunnels};
ghost use Rattle.ipx_config.specs.TunnelTable.{HasNoOtherTunnel, IsOtherTunnel, IsSessionFault, IsSessionTable, IsTunnelFault, IsTunnelTable, IsUdpPort, IsUdpPortFault, AreTunnelKeys, IsTunnelKeyFault};
ghost use Rattle.ipx_config.specs.TunnelValues.{IsCookie, IsSession, IsTunnelKind, IsVni, kind_of_tunnel};

use crate::ethernet_fields::{flag_in, required_count_in};
use crate::fault::ConfigError;
use crate::fields::{count_in, held, required};
use crate::key::{Key, keys_of_other_tunnels};
use crate::tunnel_kind::TunnelKind;
use crate::tunnel_values::{cookie_of, session_of, tunnel_kind_of, vni_of};
use ipx_tunnels::{Cookie, Session, Tunnel, Vni};
use toml::Table;

/// The kind of tunnel, if the key is present.
fn tunnel_kind_in(table: &Table, number: usize) -> Result<Option<TunnelKind>, ConfigError>
    ensures { GivesIf IsTunnelKind Key.Tunnel (table_view table.now) number result }
{
    let Some(value) = held(table, Key::Tunnel) else {
        return Ok(None);
    };
    match tunnel_kind_of(value) {
        Some(kind) => Ok(Some(kind)),
        None => Err(ConfigError::Wrong(number, Key::Tunnel)),
    }
}

/// Whether a table has a key.
fn is_present(table: &Table, key: Key) -> bool
    ensures { result ≡ is_some (get_member (key_text key) (table_view table.now)) }
{
    held(table, key).is_some()
}

/// The first of these keys that a table has.
fn present_in<'a>(table: &Table, keys: &'a [Key]) -> Option<&'a Key>
    ensures { option_copied result ≡ first_present keys.now (table_view table.now) }
{
    keys.iter().find(|key| is_present(table, **key))
}

/// Refuses a table with a key of another tunnel than one of this kind.
fn refuse_other_tunnel(
    table: &Table,
    number: usize,
    kind: Option<TunnelKind>,
) -> Result<(), ConfigError>
    ensures alone { OnOk result (HasNoOtherTunnel kind (table_view table.now)) }
    ensures other { IfErr result (IsOtherTunnel kind (table_view table.now) number) }
{
    match present_in(table, keys_of_other_tunnels(kind)) {
        Some(key) => Err(ConfigError::OtherTunnel(number, *key)),
        None => Ok(()),
    }
}

/// The VXLAN network.
fn vni_in(table: &Table, number: usize) -> Result<Vni, ConfigError>
    ensures { Gives IsVni Key.Vni (table_view table.now) number result }
{
    match vni_of(required(table, number, Key::Vni)?) {
        Some(vni) => Ok(vni),
        None => Err(ConfigError::Wrong(number, Key::Vni)),
    }
}

/// The L2TPv3 session that is received.
fn session_id_in(table: &Table, number: usize) -> Result<u32, ConfigError>
    ensures { Gives IsSession Key.Session (table_view table.now) number result }
{
    match session_of(required(table, number, Key::Session)?) {
        Some(id) => Ok(id),
        None => Err(ConfigError::Wrong(number, Key::Session)),
    }
}

/// The L2TPv3 session that is sent. The default is the one that is received.
fn peer_session_in(table: &Table, number: usize, own: u32) -> Result<u32, ConfigError>
    ensures { GivesOr IsSession Key.PeerSession (table_view table.now) number own result }
{
    let Some(value) = held(table, Key::PeerSession) else {
        return Ok(own);
    };
    match session_of(value) {
        Some(id) => Ok(id),
        None => Err(ConfigError::Wrong(number, Key::PeerSession)),
    }
}

/// A cookie, or the default.
fn cookie_in(table: &Table, number: usize, key: Key, default: Cookie) -> Result<Cookie, ConfigError>
    ensures { GivesOr IsCookie key (table_view table.now) number default result }
{
    let Some(value) = held(table, key) else {
        return Ok(default);
    };
    match cookie_of(value) {
        Some(cookie) => Ok(cookie),
        None => Err(ConfigError::Wrong(number, key)),
    }
}

/// The L2TPv3 session.
fn session_in(table: &Table, number: usize) -> Result<Session, ConfigError>
    ensures session { IfOk result (IsSessionTable (table_view table.now)) }
    ensures fault { IfErr result (λ f.
        (f ≡ ConfigError.OutOfMemory) ⊎ IsSessionFault (table_view table.now) number f) }
{
    let id = session_id_in(table, number)?;
    let peer_id = peer_session_in(table, number, id)?;
    let cookie = cookie_in(table, number, Key::Cookie, Cookie::Absent)?;
    let peer_cookie = cookie_in(table, number, Key::PeerCookie, cookie)?;
    let sublayer = flag_in(table, number, Key::Sublayer, false)?;
    Ok(Session {
        id,
        peer_id,
        cookie,
        peer_cookie,
        sublayer,
    })
}

/// The tunnel of this kind.
fn tunnel_of_kind(
    table: &Table,
    number: usize,
    kind: Option<TunnelKind>,
) -> Result<Tunnel, ConfigError>
    ensures tunnel { IfOk result (λ t. (kind_of_tunnel t ≡ kind) × AreTunnelKeys (table_view table.now) t) }
    ensures fault { IfErr result (λ f.
        (f ≡ ConfigError.OutOfMemory) ⊎ IsTunnelKeyFault kind (table_view table.now) number f) }
{
    match kind {
        None => Ok(Tunnel::Plain),
        Some(TunnelKind::Vxlan) => Ok(Tunnel::Vxlan(vni_in(table, number)?)),
        Some(TunnelKind::L2tpv3) => Ok(Tunnel::L2tpv3(session_in(table, number)?)),
    }
}

/// The tunnel of an Ethernet port.
pub fn tunnel_in(table: &Table, number: usize) -> Result<Tunnel, ConfigError>
    ensures tunnel { IfOk result (IsTunnelTable (table_view table.now)) }
    ensures fault { IfErr result (λ f.
        (f ≡ ConfigError.OutOfMemory) ⊎ IsTunnelFault (table_view table.now) number f) }
{
    let kind = tunnel_kind_in(table, number)?;
    refuse_other_tunnel(table, number, kind)?;
    tunnel_of_kind(table, number, kind)
}

/// The UDP port. Without a usual one it is required.
pub fn udp_port_in(table: &Table, number: usize, usual: Option<u16>) -> Result<u16, ConfigError>
    ensures port { IfOk result (IsUdpPort usual (table_view table.now)) }
    ensures fault { IfErr result (λ f.
        (f ≡ ConfigError.OutOfMemory) ⊎ IsUdpPortFault usual (table_view table.now) number f) }
{
    match usual {
        Some(usual) => count_in(table, number, Key::UdpPort, 65535, usual),
        None => required_count_in(table, number, Key::UdpPort, 65535),
    }
}
