//! The programs themselves, by the calls of their cores.

ghost use Rattle.std.specs.Prelude.{◌≡◌, ℕ, List};
ghost use Rattle.std.specs.Io.KnownBytes.{IsAtEnd};
ghost use Rattle.ipx_wire.specs.declared.address.Address.{Address};
ghost use Rattle.ipx_config.specs.Destinations.{peer_address_of};
ghost use Rattle.ipx_config.specs.Host.{IsHostText};
ghost use Rattle.ipx_config.specs.Loading.{IsFileText};
ghost use Rattle.ipx_config.specs.Target.{NamesAddress};
ghost use Rattle.ipx_config.specs.declared.host.HostConfig.{HostConfig};
ghost use Rattle.theory_processes.specs.ListeningCalls.{ListensWellByCalls};
ghost use Rattle.theory_processes.specs.Rounds.{RoundsAreCalls, RoutesByCalls, RunsAreCalls, StartedCoresAreNew};
ghost use Rattle.theory_processes.specs.SendingCalls.{SendsByCalls};
ghost use Rattle.theory_processes.specs.SiteCalls.{SiteCallsLead};

use ipx_config::Target;
use ipx_host::{do_listen, do_send};
use ipx_site::{RunningRouter, do_route, run_router};
use log::Log;
use spx_theory::calls_keep_names;
use std::alloc::Global;
use std::io::{Read, Write};
use std::net::Net;
use std::rt::{Clock, Files};

/// `ipx send`. If it ends well, a new host at the address of its file dialled the address of the
/// arguments, handed in all that the reader had, and saw all of it acknowledged, and the end too.
/// Its calls read what a port passed on that was opened as the file says, and what they gave was
/// handed to that port. The reader has nothing left.
pub fn send<R: Net + Log + Files + Clock + Eprint, I: Read>(
    rt: &R,
    alloc: Global,
    path: &str,
    target: Target<'_>,
    reader: &mut I,
    shows: bool,
) -> u8
    ensures { result ≡ 0 → (text : List ℕ) × (file : HostConfig) × (to : Address)
        × IsFileText text × IsHostText text file × NamesAddress target.entry to
        × SendsByCalls file (peer_address_of file to) (I.remaining reader.old)
        × IsAtEnd (I.remaining reader.new) }
{
    calls_keep_names();
    do_send(rt, alloc, path, target, reader, shows)
}

/// `ipx listen`. If it ends well, a new host at the address of its file took from one connection
/// alone, its end last, and the writer took the bodies of the messages that it took. One of its calls
/// accepted a connection of that id. They read what a port passed on that was opened as the file
/// says, and what they gave was handed to that port.
pub fn listen<R: Net + Log + Files + Clock + Eprint, W: Write>(
    rt: &R,
    alloc: Global,
    path: &str,
    once: bool,
    writer: &mut W,
) -> u8
    ensures { result ≡ 0 → (text : List ℕ) × (file : HostConfig)
        × IsFileText text × IsHostText text file
        × ListensWellByCalls file (W.contents writer.old) (W.contents writer.new) }
{
    do_listen(rt, alloc, path, once, writer)
}

/// Whatever a round does to the core of `ipx route` is calls, which received what its ports gave, and
/// gave what was sent. At a fault the last datagram may be left out, if memory ran out, and what was
/// given last not be sent. Whatever a run does is calls too.
pub fn rounds_are_calls<R: Clock>()
    ensures round { RoundsAreCalls R }
    ensures run { RunsAreCalls R }
{}

/// A core that has started as a file says has nothing to send.
pub fn started_cores_are_new<R: Clock>()
    ensures { StartedCoresAreNew R }
{}

/// Runs a started router until a wait fails. What it does to its core is calls, whatever the status.
pub fn run<R: Log + Files + Clock + Eprint>(
    rt: &R,
    alloc: Global,
    path: &str,
    router: &mut RunningRouter<'_, R>,
) -> u8
    ensures { SiteCallsLead router.old.core router.new.core }
{
    rounds_are_calls::<R>();
    run_router(rt, alloc, path, router)
}

/// `ipx route`. If it ends well, calls led its core from how it started to where it ended.
pub fn route<R: Net + Log + Files + Clock + Eprint>(rt: &R, alloc: Global, path: &str) -> u8
    ensures { result ≡ 0 → RoutesByCalls R }
{
    rounds_are_calls::<R>();
    do_route(rt, alloc, path)
}
