//! The nodes of its own network that a host's file names.

ghost use Rattle.std.specs.Prelude.{IfOk};
ghost use Rattle.toml.specs.View.{view};
ghost use Rattle.ipx_config.specs.Neighbours.{AreAmong, AreNeighbours, ReadsList};

use crate::allowed_peer::MAX_ENTRIES;
use crate::values::{addresses_of, are_among};
use ipx_wire::OutOfMemory;
use std::alloc::Global;
use toml::Value;

/// The IP addresses that a value lists, at most 256.
pub fn neighbours_of(alloc: Global, value: &Value) -> Result<Option<Vec<[u8; 4]>>, OutOfMemory>
    ensures { IfOk result (ReadsList AreNeighbours (view value.now)) }
{
    let Some(values) = value.as_array() else {
        return Ok(None);
    };
    if values.len() > MAX_ENTRIES {
        return Ok(None);
    }
    addresses_of(alloc, values)
}

/// The IP addresses that a value lists, if each of them is one of these peers.
pub fn among(
    alloc: Global,
    value: &Value,
    peers: &[[u8; 4]],
) -> Result<Option<Vec<[u8; 4]>>, OutOfMemory>
    ensures { IfOk result (ReadsList (AreAmong peers.now) (view value.now)) }
{
    let Some(ips) = neighbours_of(alloc, value)? else {
        return Ok(None);
    };
    if are_among(&ips, peers) {
        Ok(Some(ips))
    } else {
        Ok(None)
    }
}
