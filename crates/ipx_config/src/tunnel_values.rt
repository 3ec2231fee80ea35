//! The values of the keys for the tunnel of an Ethernet port.

ghost use Rattle.std.specs.Prelude.{◌≡◌};
ghost use Rattle.toml.specs.View.{view};
ghost use Rattle.ipx_wire.specs.AddressText.{spelled_bytes};
ghost use Rattle.ipx_config.specs.Fields.{Reads};
ghost use Rattle.ipx_config.specs.TunnelValues.{IsCookie, IsSession, IsTunnelKind, IsVni, ReadsCookie};
ghost use Rattle.ipx_config.specs.Values.{IsCount};

use crate::tunnel_kind::TunnelKind;
use hex::FromHex;
use ipx_tunnels::{Cookie, Vni};
use toml::Value;

/// The greatest number of a VXLAN network.
const MAX_VNI: u32 = 16_777_215;

/// The kind of tunnel that a value names.
pub fn tunnel_kind_of(value: &Value) -> Option<TunnelKind>
    ensures { Reads IsTunnelKind (view value.now) result }
{
    match value.as_str()? {
        "vxlan" => Some(TunnelKind::Vxlan),
        "l2tpv3" => Some(TunnelKind::L2tpv3),
        _ => None,
    }
}

/// A number from 1 to `most`.
fn long_count_of(value: &Value, most: u32) -> Option<u32>
    ensures { Reads (IsCount most) (view value.now) result }
{
    let count = u32::try_from(value.as_integer()?).ok()?;
    if count == 0 || count > most {
        return None;
    }
    Some(count)
}

/// The VXLAN network that a value gives.
pub fn vni_of(value: &Value) -> Option<Vni>
    ensures { Reads IsVni (view value.now) result }
{
    Vni::new(long_count_of(value, MAX_VNI)?)
}

/// The number of an L2TPv3 session that a value gives.
pub fn session_of(value: &Value) -> Option<u32>
    ensures { Reads IsSession (view value.now) result }
{
    long_count_of(value, u32::MAX)
}

/// The four bytes of eight hex digits.
fn four_bytes(text: &[u8]) -> Option<[u8; 4]>
    ensures { result ≡ spelled_bytes 4 text.now }
{
    <[u8; 4] as FromHex>::from_hex(text).ok()
}

/// The eight bytes of sixteen hex digits.
fn eight_bytes(text: &[u8]) -> Option<[u8; 8]>
    ensures { result ≡ spelled_bytes 8 text.now }
{
    <[u8; 8] as FromHex>::from_hex(text).ok()
}

/// Parses a cookie of four or eight bytes in hex digits. An empty text is no cookie.
fn cookie_written(text: &[u8]) -> Option<Cookie>
    ensures { ReadsCookie text.now result }
{
    if text.is_empty() {
        return Some(Cookie::Absent);
    }
    match four_bytes(text) {
        Some(bytes) => Some(Cookie::Short(bytes)),
        None => Some(Cookie::Long(eight_bytes(text)?)),
    }
}

/// The cookie that a value gives.
pub fn cookie_of(value: &Value) -> Option<Cookie>
    ensures { Reads IsCookie (view value.now) result }
{
    cookie_written(value.as_str()?.as_bytes())
}
