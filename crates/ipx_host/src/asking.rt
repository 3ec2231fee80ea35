//! Which datagrams request a connection, and from which address.

ghost use Rattle.std.specs.Prelude.{◌≡◌, ◌↔◌, IfSome, IsTrue, Some};
ghost use Rattle.spx_messages.specs.WrittenPackets.{IsRequestFor};
ghost use Rattle.ipx_wire.specs.declared.address.Address.{Address as AnAddress};
ghost use Rattle.std.specs.List.{list_any};
ghost use Rattle.ipx_config.specs.AllowedPeers.{is_of};
ghost use Rattle.ipx_host.specs.Barring.{IsAskedBy};

use ipx_config::AllowedPeer;
use ipx_wire::{Address, Network, SpxHeader, decode, decode_spx, packet_type};

/// The connection id that means "no connection".
const NO_ID: u16 = 0xffff;

/// The datastream type of the end of a connection.
const END_STREAM: u8 = 0xfe;

/// Returns whether an SPX packet requests a connection.
fn is_request(header: &SpxHeader) -> bool
    ensures { IsTrue result ↔ IsRequestFor header.now }
{
    let names_one = 0 < header.from_id && header.from_id < NO_ID;
    header.system && header.to_id == NO_ID && header.stream < END_STREAM && names_one
}

/// Returns the source address of a connection request, or None if the bytes are not a request.
pub fn asker_of(bytes: &[u8]) -> Option<Address>
    ensures asks { IfSome result (IsAskedBy bytes.now) }
    ensures only { (a : AnAddress) → IsAskedBy bytes.now a → result ≡ Some a }
{
    let packet = decode(bytes).ok()?;
    if packet.header.kind != packet_type::SPX {
        return None;
    }
    let (header, _) = decode_spx(packet.body).ok()?;
    if !is_request(&header) {
        return None;
    }
    Some(packet.header.from)
}

/// Returns whether an address is in this list, as a host on that network sees it.
pub fn is_among(origins: &[AllowedPeer], own: Network, address: &Address) -> bool
    ensures { result ≡ list_any (is_of own address.now) origins.now }
{
    origins.iter().any(|origin| origin.has(own, address))
}
