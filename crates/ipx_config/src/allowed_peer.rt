//! Which peers may ask a host for a connection.

ghost use Rattle.std.specs.Prelude.{◌≡◌, IfOk};
ghost use Rattle.toml.specs.View.{items_view, view};
ghost use Rattle.ipx_config.specs.Fields.{Reads};
ghost use Rattle.ipx_config.specs.AllowedPeers.{AreOrigins, IsOrigin, ReadsOrigin, ReadsOrigins, is_of};

use crate::values::network_written;
use ipx_wire::{Address, Network, Node, OutOfMemory};
use std::alloc::Global;
use toml::Value;

/// The number of hex digits of a network.
const NETWORK_DIGITS: usize = 8;

/// The maximum number of entries in a list.
pub const MAX_ENTRIES: usize = 256;

/// One node of a network, or every node of it.
#[derive(Clone, Copy, PartialEq, Eq)]
pub struct AllowedPeer {
    pub network: Network,
    /// None means every node.
    pub node: Option<Node>,
}

impl AllowedPeer {
    /// Whether an address is allowed, as seen by a host on network `own`. Network 0 means `own`.
    pub fn has(&self, own: Network, address: &Address) -> bool
        ensures { result ≡ is_of own address.now self.now }
    {
        let network = if address.network == Network::LOCAL {
            own
        } else {
            address.network
        };
        let named = match self.node {
            Some(node) => address.node == node,
            None => true,
        };
        network == self.network && named
    }
}

/// Parses a network, or a network and a node of it.
fn origin_in(text: &[u8]) -> Option<AllowedPeer>
    ensures { ReadsOrigin text.now result }
{
    if text.len() == NETWORK_DIGITS {
        let network = network_written(text)?;
        return Some(AllowedPeer {
            network,
            node: None,
        });
    }
    if text.len() < NETWORK_DIGITS || text[NETWORK_DIGITS] != b' ' {
        return None;
    }
    let network = network_written(&text[..NETWORK_DIGITS])?;
    let node = Node::from_hex(&text[NETWORK_DIGITS + 1..])?;
    Some(AllowedPeer {
        network,
        node: Some(node),
    })
}

/// The entry that a value gives.
pub(crate) fn origin_of(value: &Value) -> Option<AllowedPeer>
    ensures { Reads IsOrigin (view value.now) result }
{
    origin_in(value.as_str()?.as_bytes())
}

/// The entries that values give, or None if one of them gives no entry.
fn origins_in(alloc: Global, values: &[Value]) -> Result<Option<Vec<AllowedPeer>>, OutOfMemory>
    ensures { IfOk result (ReadsOrigins (items_view values.now)) }
{
    let mut origins = Vec::new(alloc);
    for value in values {
        let Some(origin) = origin_of(value) else {
            return Ok(None);
        };
        origins.push(origin)?;
    }
    Ok(Some(origins))
}

/// The entries that a value lists, at most 256.
pub fn origins_of(alloc: Global, value: &Value) -> Result<Option<Vec<AllowedPeer>>, OutOfMemory>
    ensures { IfOk result (Reads AreOrigins (view value.now)) }
{
    let Some(values) = value.as_array() else {
        return Ok(None);
    };
    if values.len() > MAX_ENTRIES {
        return Ok(None);
    }
    origins_in(alloc, values)
}
