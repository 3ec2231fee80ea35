//! Faults of a configuration file.

use crate::key::Key;
use crate::site::Kind;
use ipx_wire::{Network, OutOfMemory};
use std::alloc::AllocFailed;

/// Why a file is not that of a router or of a host. The first fault is returned. Ports, routes and
/// services are checked in the order of the file. The keys of each table are checked in the order
/// in which the documents list them.
///
/// Except in `NotToml`, the first field is the number of a table, or 0 for the file itself. The
/// first `[[port]]` is 1, the first `[[route]]` 17, and the first `[[service]]` 273.
#[derive(Drop)]
pub enum ConfigError {
    OutOfMemory,
    /// The text is not TOML: the line from which on it is not, starting at 1, and the error.
    NotToml(usize, toml::de::Error),
    /// A name that is no key of this table.
    Unknown(usize, String),
    /// A key of another kind of port: the key, and the kind that this port has.
    OtherKind(usize, Key, Kind),
    /// A key of a tunnel that this port does not have.
    OtherTunnel(usize, Key),
    /// A required key is missing.
    Missing(usize, Key),
    /// The value of a key is invalid.
    Wrong(usize, Key),
    /// The network of a port or route is already that of a port, whose number comes last.
    Twin(usize, Network, usize),
    /// A port has the UDP port of an earlier one, whose number comes last, at the same address or at
    /// every address.
    SamePlace(usize, usize),
    /// A route or a service repeats an earlier one, whose number comes last.
    Again(usize, usize),
}

impl From<OutOfMemory> for ConfigError {
    ghost use Rattle.std.specs.Prelude.{◌≡◌};
    ghost use Rattle.ipx_config.specs.declared.fault.ConfigError.TheVariants as faults;

    ghost from_gives = { λ _ f. f ≡ faults.OutOfMemory };

    fn from(_error: OutOfMemory) -> ConfigError {
        ConfigError::OutOfMemory
    }
}

impl<T: Drop> From<AllocFailed<T>> for ConfigError {
    ghost use Rattle.std.specs.Prelude.{◌≡◌};
    ghost use Rattle.ipx_config.specs.declared.fault.ConfigError.TheVariants as faults;

    ghost from_gives = { λ _ f. f ≡ faults.OutOfMemory };

    fn from(_error: AllocFailed<T>) -> ConfigError {
        ConfigError::OutOfMemory
    }
}
