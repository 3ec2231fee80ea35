//! A law of pings.

ghost use Rattle.std.specs.Prelude.{◌≡◌, ◌<◌, ℕ, List, []};
ghost use Rattle.ipx_wire.specs.declared.spx.packet.SpxHeader.{SpxHeader};
ghost use Rattle.ipx_wire.specs.Connection.{IsConnectionPacket};
ghost use Rattle.ipx_wire.specs.Ipx.{PacketView};
ghost use Rattle.spx_link.specs.Limits.{no_id};
ghost use Rattle.spx_messages.specs.WrittenPackets.{IsRequestFor};
ghost use Rattle.ipx_query.specs.PingRequests.{IsPing};

use ipx_wire::Address;

/// Each ping is a packet that asks a listener for a connection, from the host's own address to the
/// listener's.
pub fn pings_ask_for_a_connection()
    ensures { (own to : Address) (id : ℕ) (bytes : List ℕ) → 0 < id → id < no_id
        → IsPing own to id bytes → (p : PacketView) × (h : SpxHeader)
        × IsConnectionPacket p h [] bytes × IsRequestFor h
        × (p.header.from ≡ own) × (p.header.to ≡ to) }
{}
