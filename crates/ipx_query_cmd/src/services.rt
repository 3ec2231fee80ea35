//! The command `services`: which services the routers of a host know.

ghost use Rattle.std.specs.Prelude.{◌≡◌, ◌≤◌, ◌⊎◌, ℕ, List, IfOk, IfSome, None, string_bytes};
ghost use Rattle.std.specs.Option.{option_map};
ghost use Rattle.std.specs.Io.KnownBytes.{Appends};
ghost use Rattle.ipx_query.specs.QueryEnds.{ask_status};
ghost use Rattle.ipx_query.specs.QueryView.{AskView};
ghost use Rattle.ipx_query.specs.declared.question.TableQuery.TheVariants.{Services};
ghost use Rattle.ipx_query_cmd.specs.QueryRuns.{HasAsked};
ghost use Rattle.ipx_query_cmd.specs.KnownListed.{ListsAsked, ListsKnownServices, ListsWritten};
ghost use Rattle.ipx_query_cmd.specs.Listed.{IsTypeWord, ListsServices};
ghost use Rattle.ipx_config.specs.Loading.{IsFileText};

use crate::known::services_by_router;
use crate::query_options::{Asked, ask, status_of};
use crate::service_lines::services_to_text;
use ipx_config::{ConfigFile, HostConfig, load_config, write_checked};
use ipx_query::TableQuery;
use ipx_wire::Socket;
use std::alloc::{AllocError, Global};
use std::io::Write;
use std::net::Net;
use std::rt::{Clock, Files};

/// The type that a query has for services of all types.
const ALL_TYPES: u16 = 0xffff;

/// Parses a type in four hex digits; all types if there is no word.
fn type_of(word: Option<&str>) -> Option<u16>
    ensures known { IfSome result (λ kind. IsTypeWord (option_map (λ w. w.now) word.entry) kind) }
    ensures unknown { result ≡ None → (kind : ℕ) → IsTypeWord (option_map (λ w. w.now) word.entry) kind → ⊥ }
{
    match word {
        None => Some(ALL_TYPES),
        Some(word) => {
            let digits = Socket::from_hex(word.as_bytes())?;
            Some(digits.0)
        }
    }
}

/// All that is printed of the answers to a host.
fn asked_to_text<R: Net + Clock>(
    alloc: Global,
    json: bool,
    asked: &Asked<'_, R>,
) -> Result<String, AllocError>
    ensures { IfOk result (λ t. ListsServices json asked.now.host.core asked.now.over (string_bytes t)) }
{
    let Ok(listed) = asked.host.core.services(alloc, asked.over) else {
        return Err(AllocError);
    };
    let answers = asked.host.answers(alloc)?;
    services_to_text(alloc, json, &listed, &answers)
}

/// Prints the answers to a host, reports the routers that did not answer, and returns the exit
/// status.
fn print_asked<R: Net + Clock + Eprint, W: Write>(
    rt: &R,
    alloc: Global,
    path: &str,
    json: bool,
    asked: &Asked<'_, R>,
    writer: &mut W,
) -> u8
    ensures listed { result ≡ 0 → (text : List ℕ)
        × ListsServices json asked.now.host.core asked.now.over text
        × Appends (W.contents writer.old) (W.contents writer.new) text }
    ensures status { (result ≡ 1) ⊎ (result ≡ ask_status asked.now.host.core) }
    ensures few { result ≤ 1 }
{
    let lines = asked_to_text(alloc, json, asked);
    let written = write_checked(rt, path, lines, writer);
    asked.host.tell(rt, "no such service");
    status_of(written, &asked.host.core)
}

/// Asks for the services of a type by the host of a file, and prints the answers.
fn services_by_host<R: Net + Clock + Eprint, W: Write>(
    rt: &R,
    alloc: Global,
    path: &str,
    file: &HostConfig,
    kind: u16,
    json: bool,
    writer: &mut W,
) -> u8
    ensures few { result ≤ 1 }
    ensures listed { result ≡ 0 → (ask : AskView) × (over : ℕ) × (lines : List ℕ)
        × HasAsked file.now (Services kind) ask over × (ask_status ask ≡ 0)
        × ListsServices json ask over lines
        × Appends (W.contents writer.old) (W.contents writer.new) lines }
{
    match ask(rt, alloc, path, file, TableQuery::Services(kind)) {
        Ok(asked) => print_asked(rt, alloc, path, json, &asked, writer),
        Err(status) => status,
    }
}

/// Prints the services of a type by the file of a host or a router at a path.
fn list_services<R: Net + Files + Clock + Eprint, W: Write>(
    rt: &R,
    alloc: Global,
    path: &str,
    kind: u16,
    json: bool,
    writer: &mut W,
) -> u8
    ensures few { result ≤ 2 }
    ensures listed { result ≡ 0 → (text : List ℕ) × (lines : List ℕ) × IsFileText text
        × (ListsAsked (Services kind) (ListsServices json) text lines
        ⊎ ListsWritten (ListsKnownServices json kind) text lines)
        × Appends (W.contents writer.old) (W.contents writer.new) lines }
    ensures untouched { result ≡ 2 → writer.new ≡ writer.old }
{
    match load_config(rt, alloc, path) {
        Ok(ConfigFile::Host(file)) => {
            services_by_host(rt, alloc, path, &file, kind, json, writer)
        }
        Ok(ConfigFile::Router(site)) => {
            services_by_router(rt, alloc, path, &site, kind, json, writer)
        }
        Err(status) => status,
    }
}

/// The command `services`: asks the router of a host's file, and the routers that it names, which
/// services they know. The type is a word of four hex digits; without it, all types are asked for.
/// It writes each service with the best of the answers: a table, or with `json` a line of JSON for
/// each. The host's address and socket are in use meanwhile. It takes up to four seconds. With the
/// file of a router it prints the router's table file, and asks nobody.
///
/// Returns the exit status. It is 0 if each router that was asked answered, and all is written. It
/// is 1 if one did not answer, the answers exceed the space for them, the writer fails, the socket
/// cannot be bound, or memory runs out. It is 2 for a fault of the word or of a file. A line on
/// standard error says what is wrong.
pub fn do_services<R: Net + Files + Clock + Eprint, W: Write>(
    rt: &R,
    alloc: Global,
    path: &str,
    word: Option<&str>,
    json: bool,
    writer: &mut W,
) -> u8
    // A word that is no type is reported, and nothing is read or bound.
    ensures words { ((kind : ℕ) → IsTypeWord (option_map (λ w. w.now) word.entry) kind → ⊥)
        → (result ≡ 2) × (writer.new ≡ writer.old) }
    ensures few { result ≤ 2 }
    // On status 0, some file text describes a host or a router. If a host, it has asked for the
    // services of the type, each router answered, and the listing of the answers is written. If a
    // router, the listing of its table file is written.
    ensures listed { result ≡ 0 → (text : List ℕ) × (lines : List ℕ) × (kind : ℕ)
        × IsFileText text × IsTypeWord (option_map (λ w. w.now) word.entry) kind
        × (ListsAsked (Services kind) (ListsServices json) text lines
        ⊎ ListsWritten (ListsKnownServices json kind) text lines)
        × Appends (W.contents writer.old) (W.contents writer.new) lines }
    // On a fault of the word or of a file, nothing is written.
    ensures untouched { result ≡ 2 → writer.new ≡ writer.old }
{
    match type_of(word) {
        Some(kind) => list_services(rt, alloc, path, kind, json, writer),
        None => {
            let _ = eprintln!(rt; "TYPE must be four hex digits, such as 0004");
            2
        }
    }
}
