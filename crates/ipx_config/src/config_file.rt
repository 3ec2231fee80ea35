//! The configuration files of a router and of a host, and the table file of a router.

ghost use Rattle.std.specs.Prelude.{◌≡◌, ◌⊎◌, ℕ, List, IfErr, IfOk, OnOk, false, true};
ghost use Rattle.ipx_table_dump.specs.TableParts.{has_all_titles};
ghost use Rattle.toml.specs.Parse.{parse_document};
ghost use Rattle.ipx_config.specs.Loading.{IsFileText, IsStatus};
ghost use Rattle.ipx_config.specs.ConfigFile.{IsStationText, IsStationTextFault, has_port_key};

use crate::fault::ConfigError;
use crate::fields::held;
use crate::files::{MAX, host_in, read_bytes, site_in, tell, tell_no_memory};
use crate::host::HostConfig;
use crate::key::Key;
use crate::site::RouterConfig;
use crate::toml_text::table_of;
use ipx_table_dump::has_all_titles;
use ipx_wire::OutOfMemory;
use std::alloc::Global;
use std::rt::Files;
use std::str;

/// The longest table file, in bytes. Full tables need less than half of it.
const MAX_TABLES: usize = 4_194_304;

/// The configuration of a router or a host.
#[derive(Drop)]
pub enum ConfigFile {
    Router(RouterConfig),
    Host(HostConfig),
}

/// Whether a text is a router's: a router's file has ports, and a host's has none.
fn has_ports(alloc: Global, text: &str) -> Result<bool, OutOfMemory>
    ensures { IfOk result (λ has. has ≡ has_port_key (parse_document text.now)) }
{
    match table_of(alloc, text) {
        Ok(table) => Ok(held(&table, Key::Port).is_some()),
        Err(ConfigError::OutOfMemory) => Err(OutOfMemory),
        Err(_) => Ok(false),
    }
}

/// Whether the bytes of a file are read as a router's. It reports if out of memory.
fn is_router<R: Eprint>(rt: &R, alloc: Global, path: &str, bytes: &[u8]) -> Result<bool, u8>
    ensures kind { IfOk result (λ router. IsFileText bytes.now
        → router ≡ has_port_key (parse_document bytes.now)) }
    ensures few { IfErr result (λ status. status ≡ 1) }
{
    if bytes.len() > MAX {
        return Ok(false);
    }
    let Ok(text) = str::from_utf8(bytes) else {
        return Ok(false);
    };
    match has_ports(alloc, text) {
        Ok(router) => Ok(router),
        Err(_) => Err(tell_no_memory(rt, path)),
    }
}

/// The configuration that the bytes of a file describe.
#[tactic(auto, using(crate::proofs::StationFaults::status_of_kind))]
fn station_in<R: Eprint>(rt: &R, alloc: Global, path: &str, bytes: &[u8]) -> Result<ConfigFile, u8>
    ensures station { IfOk result (λ s. IsFileText bytes.now × IsStationText bytes.now s) }
    ensures fault { IfErr result (IsStatus (IsStationTextFault bytes.now) bytes.now) }
{
    if is_router(rt, alloc, path, bytes)? {
        let site = site_in(rt, alloc, path, bytes)?;
        return Ok(ConfigFile::Router(site));
    }
    let host = host_in(rt, alloc, path, bytes)?;
    Ok(ConfigFile::Host(host))
}

/// Reads the file of a router or of a host, as `load_site` and `load_host` do.
pub fn load_config<R: Files + Eprint>(rt: &R, alloc: Global, path: &str) -> Result<ConfigFile, u8>
    ensures station { IfOk result (λ s. (text : List ℕ) × IsFileText text × IsStationText text s) }
    ensures fault { IfErr result (λ status. (status ≡ 1) ⊎ (status ≡ 2)) }
{
    let bytes = read_bytes(rt, alloc, path, MAX + 1)?;
    station_in(rt, alloc, path, &bytes)
}

/// Refuses bytes that are not a complete text of tables.
fn refuse_half<R: Eprint>(rt: &R, alloc: Global, path: &str, bytes: &[u8]) -> Result<(), u8>
    ensures whole { OnOk result (has_all_titles bytes.now ≡ true) }
    ensures fault { IfErr result (λ status. (status ≡ 1)
        ⊎ ((status ≡ 2) × (has_all_titles bytes.now ≡ false))) }
{
    match has_all_titles(alloc, bytes) {
        Ok(true) => Ok(()),
        Ok(false) => Err(tell(rt, path, "not a complete tables file of a router")),
        Err(_) => Err(tell_no_memory(rt, path)),
    }
}

/// Reads a table file that a router wrote. A fault is reported in one line on standard error that
/// begins with the path. The error is the exit status: 2, or 1 if out of memory.
pub fn load_tables<R: Files + Eprint>(rt: &R, alloc: Global, path: &str) -> Result<Vec<u8>, u8>
    ensures whole { IfOk result (λ v. has_all_titles v.items ≡ true) }
    ensures fault { IfErr result (λ status. (status ≡ 1) ⊎ (status ≡ 2)) }
{
    let bytes = read_bytes(rt, alloc, path, MAX_TABLES)?;
    refuse_half(rt, alloc, path, &bytes)?;
    Ok(bytes)
}
