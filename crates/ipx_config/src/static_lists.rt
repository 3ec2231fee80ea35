//! The static routes and services of a router's file.

ghost use Rattle.std.specs.Prelude.{◌≡◌, ◌⊎◌, ◌<◌, ◌^◌, [], All, None, IfErr, IfOk, IfSome, OnOk, length, nat_le, option_map};
ghost use Rattle.toml.specs.View.{items_view, table_view, view};
ghost use Rattle.ipx_router.specs.Ports.{IsPortNumber};
ghost use Rattle.ipx_config.specs.Fields.{Reads};
ghost use Rattle.ipx_config.specs.StaticLists.{AreStatics, AreEntriesOf, AreStaticEntries, IsAgain, IsStaticFault, IsEntriesFault, IsEntryItem, IsEntryItemFault, IsEntryList, IsFirstEntryFault, again_place};
ghost use Rattle.ipx_config.specs.Values.{item_count};

use crate::allowed_peer::MAX_ENTRIES;
use crate::fault::ConfigError;
use crate::fields::held;
use crate::site::PortConfig;
use crate::static_tables::entry_in;
use crate::statics::{StaticEntry, StaticKind};
use std::alloc::Global;
use toml::{Table, Value};

/// The entry that a value describes.
fn entry_of(
    alloc: Global,
    kind: StaticKind,
    value: &Value,
    number: usize,
    ports: &[PortConfig],
) -> Result<StaticEntry, ConfigError>
    ensures entry { IfOk result (IsEntryItem kind ports.now (view value.now)) }
    ensures fault { IfErr result (λ f. (f ≡ ConfigError.OutOfMemory)
        ⊎ IsEntryItemFault kind ports.now number (view value.now) f) }
{
    match value.as_table() {
        Some(table) => entry_in(alloc, kind, table, number, ports),
        None => Err(ConfigError::Wrong(number, kind.key())),
    }
}

/// The index of the first of these entries that this one repeats.
fn again_place(earlier: &[StaticEntry], entry: &StaticEntry) -> Option<usize>
    ensures place { result ≡ again_place earlier.now entry.now }
    ensures within { IfSome result (λ k. k < length earlier.now) }
{
    earlier.iter().position(|other| other.is_repeat_of(entry))
}

/// Refuses an entry that repeats an earlier one.
fn refuse_again(
    kind: StaticKind,
    earlier: &[StaticEntry],
    entry: &StaticEntry,
) -> Result<(), ConfigError>
    requires { length earlier.now < 2 ^ 63 }
    ensures alone { OnOk result (again_place earlier.now entry.now ≡ None) }
    ensures again { IfErr result (IsAgain kind earlier.now entry.now) }
{
    let first = kind.first_table();
    match again_place(earlier, entry) {
        Some(place) => Err(ConfigError::Again(first + earlier.len(), first + place)),
        None => Ok(()),
    }
}

/// The entries that values describe, in order.
fn entries_of(
    alloc: Global,
    kind: StaticKind,
    values: &[Value],
    ports: &[PortConfig],
) -> Result<Vec<StaticEntry>, ConfigError>
    ensures entries { IfOk result
        (λ v. AreStaticEntries kind ports.now [] (items_view values.now) v.items) }
    ensures fault { IfErr result (λ f. (f ≡ ConfigError.OutOfMemory)
        ⊎ IsFirstEntryFault kind ports.now [] (items_view values.now) f) }
{
    let mut entries = Vec::new(alloc);
    for value in values {
        let number = kind.first_table() + entries.len();
        let entry = entry_of(alloc, kind, value, number, ports)?;
        refuse_again(kind, &entries, &entry)?;
        entries.push(entry)?;
    }
    Ok(entries)
}

/// Whether there are at most 256 values.
#[tactic(auto, using(crate::proofs::Faults::count_is))]
fn are_entries(values: &[Value]) -> bool
    ensures { result ≡ nat_le (item_count (items_view values.now)) 256 }
{
    values.len() <= MAX_ENTRIES
}

/// The items of an array of at most 256.
fn entry_values(value: &Value) -> Option<&[Value]>
    ensures { Reads IsEntryList (view value.now) (option_map (λ vs. items_view vs.now) result) }
{
    let values = value.as_array()?.as_slice();
    if !are_entries(values) {
        return None;
    }
    Some(values)
}

/// The entries of a kind; none if the file has no such table.
fn entries_in(
    alloc: Global,
    kind: StaticKind,
    table: &Table,
    ports: &[PortConfig],
) -> Result<Vec<StaticEntry>, ConfigError>
    ensures entries { IfOk result
        (λ v. AreEntriesOf kind ports.now (table_view table.now) v.items) }
    ensures fault { IfErr result (λ f. (f ≡ ConfigError.OutOfMemory)
        ⊎ IsEntriesFault kind ports.now (table_view table.now) f) }
{
    let Some(value) = held(table, kind.key()) else {
        return Ok(Vec::new(alloc));
    };
    let Some(values) = entry_values(value) else {
        return Err(ConfigError::Wrong(0, kind.key()));
    };
    let entries = entries_of(alloc, kind, values, ports)?;
    Ok(entries)
}

/// The static entries of a router with these ports: its routes, followed by its services.
pub fn statics_in(
    alloc: Global,
    table: &Table,
    ports: &[PortConfig],
) -> Result<Vec<StaticEntry>, ConfigError>
    ensures entries { IfOk result (λ v. AreStatics ports.now (table_view table.now) v.items) }
    // The port of each entry exists.
    ensures there { IfOk result (λ v.
        All (λ e. IsPortNumber (length ports.now) e.by.port) v.items) }
    ensures fault { IfErr result (λ f. (f ≡ ConfigError.OutOfMemory)
        ⊎ IsStaticFault ports.now (table_view table.now) f) }
{
    let mut entries = entries_in(alloc, StaticKind::Route, table, ports)?;
    let services = entries_in(alloc, StaticKind::Service, table, ports)?;
    match entries.extend_from_slice(&services) {
        Ok(()) => Ok(entries),
        Err(_) => Err(ConfigError::OutOfMemory),
    }
}
