//! The command `networks`: which networks the routers of a host know.

ghost use Rattle.std.specs.Prelude.{◌≡◌, ◌≤◌, ◌⊎◌, ℕ, List, Bool, IfOk, map, string_bytes};
ghost use Rattle.std.specs.Io.KnownBytes.{Appends};
ghost use Rattle.ipx_query.specs.QueryEnds.{ask_status};
ghost use Rattle.ipx_query.specs.QueryView.{AskView};
ghost use Rattle.ipx_query.specs.declared.question.TableQuery.TheVariants.{Networks};
ghost use Rattle.ipx_query_cmd.specs.QueryRuns.{HasAsked};
ghost use Rattle.ipx_query_cmd.specs.KnownListed.{ListsAsked, ListsKnownNetworks, ListsWritten};
ghost use Rattle.ipx_query_cmd.specs.Listed.{ListsNetworks};
ghost use Rattle.ipx_config.specs.Loading.{IsFileText};

use crate::known::networks_by_router;
use crate::network_lines::networks_to_text;
use crate::query_options::{Asked, ask, status_of};
use ipx_config::{ConfigFile, HostConfig, load_config, write_checked};
use ipx_query::TableQuery;
use std::alloc::{AllocError, Global};
use std::io::Write;
use std::net::Net;
use std::rt::{Clock, Files};

/// All that is printed of the answers to a host.
fn asked_to_text<R: Net + Clock>(
    alloc: Global,
    json: bool,
    asked: &Asked<'_, R>,
) -> Result<String, AllocError>
    ensures { IfOk result (λ t. ListsNetworks json asked.now.host.core asked.now.over (string_bytes t)) }
{
    let Ok(listed) = asked.host.core.networks(alloc, asked.over) else {
        return Err(AllocError);
    };
    let answers = asked.host.answers(alloc)?;
    networks_to_text(alloc, json, &listed, &answers)
}

/// Prints the answers to a host, reports the routers that did not answer, and returns the exit
/// status.
fn print_asked<R: Net + Clock + Eprint, W: Write>(
    rt: &R,
    alloc: Global,
    path: &str,
    json: bool,
    asked: &Asked<'_, R>,
    writer: &mut W,
) -> u8
    ensures listed { result ≡ 0 → (text : List ℕ)
        × ListsNetworks json asked.now.host.core asked.now.over text
        × Appends (W.contents writer.old) (W.contents writer.new) text }
    ensures status { (result ≡ 1) ⊎ (result ≡ ask_status asked.now.host.core) }
    ensures few { result ≤ 1 }
{
    let lines = asked_to_text(alloc, json, asked);
    let written = write_checked(rt, path, lines, writer);
    asked.host.tell(rt, "nothing besides this network");
    status_of(written, &asked.host.core)
}

/// Asks by the host of a file, and prints the answers.
fn networks_by_host<R: Net + Clock + Eprint, W: Write>(
    rt: &R,
    alloc: Global,
    path: &str,
    file: &HostConfig,
    json: bool,
    writer: &mut W,
) -> u8
    ensures few { result ≤ 1 }
    ensures listed { result ≡ 0 → (ask : AskView) × (over : ℕ) × (lines : List ℕ)
        × HasAsked file.now Networks ask over × (ask_status ask ≡ 0)
        × ListsNetworks json ask over lines
        × Appends (W.contents writer.old) (W.contents writer.new) lines }
{
    match ask(rt, alloc, path, file, TableQuery::Networks) {
        Ok(asked) => print_asked(rt, alloc, path, json, &asked, writer),
        Err(status) => status,
    }
}

/// The command `networks`: asks the router of a host's file, and the routers that it names, which
/// networks they know. It writes each network with the best of the answers: a table, or with `json`
/// a line of JSON for each. The host's address and socket are in use meanwhile. It takes up to four
/// seconds. With the file of a router it prints the router's table file, and asks nobody.
///
/// Returns the exit status. It is 0 if each router that was asked answered, and all is written. It
/// is 1 if one did not answer, the answers exceed the space for them, the writer fails, the socket
/// cannot be bound, or memory runs out. It is 2 for a fault of a file. A line on standard error
/// says what is wrong.
pub fn do_networks<R: Net + Files + Clock + Eprint, W: Write>(
    rt: &R,
    alloc: Global,
    path: &str,
    json: bool,
    writer: &mut W,
) -> u8
    ensures few { result ≤ 2 }
    // On status 0, some file text describes a host or a router. If a host, it has asked, each
    // router answered, and the listing of the answers is written. If a router, the listing of its
    // table file is written.
    ensures listed { result ≡ 0 → (text : List ℕ) × (lines : List ℕ) × IsFileText text
        × (ListsAsked Networks (ListsNetworks json) text lines
        ⊎ ListsWritten (ListsKnownNetworks json) text lines)
        × Appends (W.contents writer.old) (W.contents writer.new) lines }
    // On a fault of a file, nothing is written.
    ensures untouched { result ≡ 2 → writer.new ≡ writer.old }
{
    match load_config(rt, alloc, path) {
        Ok(ConfigFile::Host(file)) => networks_by_host(rt, alloc, path, &file, json, writer),
        Ok(ConfigFile::Router(site)) => networks_by_router(rt, alloc, path, &site, json, writer),
        Err(status) => status,
    }
}
