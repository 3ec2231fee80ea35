//! Prints the table file of the router that a file describes.

ghost use Rattle.std.specs.Prelude.{◌≡◌, ◌≤◌, ℕ, List, IsOkAnd, string_bytes};
ghost use Rattle.std.specs.Io.KnownBytes.{Appends};
ghost use Rattle.ipx_query_cmd.specs.KnownListed.{ListsKnownNetworks, ListsKnownServices};

use crate::age::tell_old;
use crate::fault::{KnownFault, tell_known_fault};
use crate::known_lines::known_networks_to_text;
use crate::known_service_lines::known_services_to_text;
use ipx_config::{RouterConfig, load_tables, write_checked};
use std::alloc::Global;
use std::io::Write;
use std::rt::{Clock, Files};

/// Reports that a router's file names no table file, and returns the exit status.
fn tell_no_tables<R: Eprint>(rt: &R, path: &str, command: &str) -> u8
    ensures { result ≡ 2 }
{
    let _ = eprintln!(rt;
        "{path}: tables_file is missing: {command} reads what the router writes there"
    );
    2
}

/// Writes the lines of the table file at a path, or reports why there are none, and returns the
/// exit status.
fn write_known<R: Eprint, W: Write>(
    rt: &R,
    place: &str,
    lines: Result<String, KnownFault>,
    writer: &mut W,
) -> u8
    ensures written { result ≡ 0 → IsOkAnd lines (λ l.
        Appends (W.contents writer.old) (W.contents writer.new) (string_bytes l)) }
    ensures few { result ≤ 2 }
    ensures untouched { result ≡ 2 → writer.new ≡ writer.old }
{
    match lines {
        Ok(lines) => write_checked(rt, place, Ok(lines), writer),
        Err(fault) => tell_known_fault(rt, place, fault),
    }
}

/// Prints the networks in the table file of a router, and reports if that file is old.
pub fn networks_by_router<R: Files + Clock + Eprint, W: Write>(
    rt: &R,
    alloc: Global,
    path: &str,
    site: &RouterConfig,
    json: bool,
    writer: &mut W,
) -> u8
    ensures listed { result ≡ 0 → (lines : List ℕ) × ListsKnownNetworks json site.now lines
        × Appends (W.contents writer.old) (W.contents writer.new) lines }
    ensures few { result ≤ 2 }
    ensures untouched { result ≡ 2 → writer.new ≡ writer.old }
{
    let Some(place) = &site.tables_file else {
        return tell_no_tables(rt, path, "networks");
    };
    match load_tables(rt, alloc, place.as_str()) {
        Ok(tables) => {
            let lines = known_networks_to_text(alloc, json, place.as_str(), &tables);
            tell_old(rt, place.as_str());
            write_known(rt, place.as_str(), lines, writer)
        }
        Err(status) => status,
    }
}

/// Prints the services of a type in the table file of a router, and reports if that file is old.
pub fn services_by_router<R: Files + Clock + Eprint, W: Write>(
    rt: &R,
    alloc: Global,
    path: &str,
    site: &RouterConfig,
    kind: u16,
    json: bool,
    writer: &mut W,
) -> u8
    ensures listed { result ≡ 0 → (lines : List ℕ) × ListsKnownServices json kind site.now lines
        × Appends (W.contents writer.old) (W.contents writer.new) lines }
    ensures few { result ≤ 2 }
    ensures untouched { result ≡ 2 → writer.new ≡ writer.old }
{
    let Some(place) = &site.tables_file else {
        return tell_no_tables(rt, path, "services");
    };
    match load_tables(rt, alloc, place.as_str()) {
        Ok(tables) => {
            let lines = known_services_to_text(alloc, json, place.as_str(), kind, &tables);
            tell_old(rt, place.as_str());
            write_known(rt, place.as_str(), lines, writer)
        }
        Err(status) => status,
    }
}
