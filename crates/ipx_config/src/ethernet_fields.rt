//! The keys of an Ethernet port's table, with their values.

ghost use Rattle.toml.specs.View.{table_view};
ghost use Rattle.ipx_config.specs.Fields.{Gives, GivesOr};
ghost use Rattle.ipx_config.specs.Values.{IsCount};
ghost use Rattle.ipx_config.specs.EthernetValues.{AreRemotesOf, IsEncapsulation, IsFlag, IsStation};

use crate::ethernet_values::{encapsulation_of, flag_of, remotes_of, station_of};
use crate::fault::ConfigError;
use crate::fields::{held, required};
use crate::key::Key;
use crate::site::RemotesConfig;
use crate::values::count_of;
use ipx_ethernet::Encapsulation;
use ipx_tunnels::Tunnel;
use ipx_wire::Node;
use std::alloc::Global;
use std::net::SocketAddrV4;
use toml::Table;

/// The encapsulation of an Ethernet port.
pub fn encapsulation_in(table: &Table, number: usize) -> Result<Encapsulation, ConfigError>
    ensures { Gives IsEncapsulation Key.Encapsulation (table_view table.now) number result }
{
    match encapsulation_of(required(table, number, Key::Encapsulation)?) {
        Some(encapsulation) => Ok(encapsulation),
        None => Err(ConfigError::Wrong(number, Key::Encapsulation)),
    }
}

/// A required number from 1 to `most`.
pub fn required_count_in(
    table: &Table,
    number: usize,
    key: Key,
    most: u16,
) -> Result<u16, ConfigError>
    ensures { Gives (IsCount most) key (table_view table.now) number result }
{
    match count_of(required(table, number, key)?, most) {
        Some(count) => Ok(count),
        None => Err(ConfigError::Wrong(number, key)),
    }
}

/// The remotes of an Ethernet port with a tunnel, at its own place.
pub fn remotes_in(
    alloc: Global,
    table: &Table,
    number: usize,
    tunnel: Tunnel,
    own: SocketAddrV4,
) -> Result<RemotesConfig, ConfigError>
    ensures { Gives (AreRemotesOf tunnel own) Key.Remotes (table_view table.now) number result }
{
    match remotes_of(alloc, tunnel, own, required(table, number, Key::Remotes)?)? {
        Some(remotes) => Ok(remotes),
        None => Err(ConfigError::Wrong(number, Key::Remotes)),
    }
}

/// The node of the port, or `made` if the file gives none.
pub fn station_in(table: &Table, number: usize, made: Node) -> Result<Node, ConfigError>
    ensures { GivesOr IsStation Key.Node (table_view table.now) number made result }
{
    let Some(value) = held(table, Key::Node) else {
        return Ok(made);
    };
    match station_of(value) {
        Some(node) => Ok(node),
        None => Err(ConfigError::Wrong(number, Key::Node)),
    }
}

/// True or false, or the default.
pub fn flag_in(table: &Table, number: usize, key: Key, default: bool) -> Result<bool, ConfigError>
    ensures { GivesOr IsFlag key (table_view table.now) number default result }
{
    let Some(value) = held(table, key) else {
        return Ok(default);
    };
    match flag_of(value) {
        Some(flag) => Ok(flag),
        None => Err(ConfigError::Wrong(number, key)),
    }
}
