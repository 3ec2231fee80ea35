//! A query by the host of a file, until it is over.

ghost use Rattle.std.specs.Prelude.{◌≡◌, IfErr, IfOk};
ghost use Rattle.ipx_query_cmd.specs.QueryRuns.{HasAsked};
ghost use Rattle.ipx_query_cmd.specs.Listed.{printed_status};

use crate::fault::{AskFault, tell_fault};
use crate::query_host::QueryHost;
use ipx_config::HostConfig;
use ipx_query::{QueryCore, TableQuery};
use std::alloc::Global;
use std::net::Net;
use std::rt::Clock;

/// A host that asked, and the time at which that was over, in milliseconds.
#[derive(Drop)]
pub struct Asked<'a, R: Clock> {
    pub host: QueryHost<'a, R>,
    pub over: u64,
}

/// Sends a query by the host of a file.
fn ask_by<'a, R: Net + Clock>(
    rt: &'a R,
    alloc: Global,
    file: &HostConfig,
    question: TableQuery,
) -> Result<Asked<'a, R>, AskFault>
    ensures { IfOk result (λ a. HasAsked file.now question a.host.core a.over) }
{
    let mut host = QueryHost::open(rt, alloc, file, question)?;
    let over = host.ask(alloc)?;
    Ok(Asked { host, over })
}

/// Sends a query by the host of the file at a path, which was read. On a fault it reports what is
/// wrong and returns the exit status.
pub fn ask<'a, R: Net + Clock + Eprint>(
    rt: &'a R,
    alloc: Global,
    path: &str,
    file: &HostConfig,
    question: TableQuery,
) -> Result<Asked<'a, R>, u8>
    ensures asked { IfOk result (λ a. HasAsked file.now question a.host.core a.over) }
    ensures fault { IfErr result (λ status. status ≡ 1) }
{
    match ask_by(rt, alloc, file, question) {
        Ok(asked) => Ok(asked),
        Err(fault) => Err(tell_fault(rt, path, fault)),
    }
}

/// The exit status of a host that asked, given the status of writing the answers.
pub fn status_of(written: u8, core: &QueryCore) -> u8
    ensures { result ≡ printed_status written core.now }
{
    if written == 0 { core.status() } else { 1 }
}
