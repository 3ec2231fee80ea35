//! The command `listen`: a host that accepts connections, and writes the messages that it receives.

ghost use Rattle.std.specs.Prelude.{◌≡◌, ◌⊎◌, ◌<◌, ◌≤◌, ℕ, List, IfErr, IfOk, IsTrue, OnErr, OnOk, Err, None, Ok};
ghost use Rattle.ipx_carrier.specs.Turns.{peers_of};
ghost use Rattle.ipx_config.specs.Host.{IsHostText};
ghost use Rattle.ipx_config.specs.Loading.{IsFileText};
ghost use Rattle.ipx_host.specs.Turning.{Around, DrivesTurn};
ghost use Rattle.ipx_config.specs.declared.host.HostConfig.{HostConfig as AHostFile};
ghost use Rattle.ipx_host.specs.HostPorts.{IsOpened};
ghost use Rattle.ipx_host.specs.Hosting.{ListensUntil, ListensWell, ServesUntil, ServesWell, StepView};
ghost use Rattle.ipx_host.specs.ListenOutcomes.{stop_status};
ghost use Rattle.ipx_host.specs.declared.listening.ListenOutcome.{ListenOutcome as AStop};
ghost use Rattle.ipx_host.specs.Midway.{listening_at};

use crate::checking::listener_to_text;
use crate::listening::ListeningHost;
use crate::start::{StartFault, tell_start};
use ipx_config::{HostConfig, load_host};
use log::{Log, info};
use std::alloc::Global;
use std::io::Write;
use std::net::Net;
use std::rt::{Clock, Files};

/// Logs where a host listens.
fn tell_place<R: Log>(rt: &R, alloc: Global, file: &HostConfig) -> Result<(), StartFault> {
    let place = listener_to_text(alloc, file)?;
    info!(rt; target: "ipx", "{place}");
    Ok(())
}

/// Runs a started host, and returns its status. If the host did not start, prints the reason and
/// returns 1.
fn run_listening<R: Net + Log + Clock + Eprint, W: Write>(
    rt: &R,
    alloc: Global,
    path: &str,
    file: &HostConfig,
    started: Result<ListeningHost<'_, R>, StartFault>,
    writer: &mut W,
) -> u8
    ensures unstarted { OnErr started.entry ((result ≡ 1) × (writer.new ≡ writer.old)) }
    // If it ends well, the writer took the bodies of the received messages, one after another.
    ensures well { result ≡ 0 → IfOk started.entry (λ l. (steps : List StepView) × ServesWell
        (listening_at l (W.contents writer.old))
        l.sessions.once (W.contents writer.new)
        DrivesTurn (peers_of l.station.host_socket.ports.peers.items) steps) }
    ensures few { result ≤ 1 }
    // A started host runs until it stops, and the status tells why; or it does not run, and nothing
    // is written.
    ensures runs { IfOk started.entry (λ l. ((result ≡ 1) × (writer.new ≡ writer.old))
        ⊎ ((stop : AStop) × (steps : List StepView) × (result ≡ stop_status stop) × ServesUntil
        (listening_at l (W.contents writer.old))
        l.sessions.once stop (W.contents writer.new)
        DrivesTurn (peers_of l.station.host_socket.ports.peers.items) steps)) }
    ensures once { result ≡ 0 → IfOk started.entry (λ l. IsTrue l.sessions.once) }
{
    let mut listening = match started {
        Ok(listening) => listening,
        Err(fault) => return tell_start(rt, path, fault),
    };
    match tell_place(rt, alloc, file) {
        Ok(()) => listening.finish(rt, alloc, writer),
        Err(fault) => tell_start(rt, path, fault),
    }
}

/// Runs the host of a file that was loaded. If loading failed, returns the status of the failure.
fn listen_by<R: Net + Log + Clock + Eprint, W: Write>(
    rt: &R,
    alloc: Global,
    path: &str,
    loaded: Result<HostConfig, u8>,
    once: bool,
    writer: &mut W,
) -> u8
    ensures unloaded { IfErr loaded (λ status. (result ≡ status) × (writer.new ≡ writer.old)) }
    ensures few { OnOk loaded (result ≤ 1) }
    // Without `once` a loaded host never ends well.
    ensures once { OnOk loaded (result ≡ 0 → IsTrue once) }
    // If it ends well, the host of the file has run. Its writer took the bodies of the messages of
    // one connection, one after another. It began with its port as it was opened.
    ensures well { IfOk loaded (λ file. result ≡ 0 → (well : ListensWell {K = Around R} file once
        (W.contents writer.old) (W.contents writer.new) DrivesTurn)
        × IsOpened file None well.start.around.port) }
    // With status 1 the host of the file never ran, and nothing is written. Or it has run until it
    // stopped for another reason, and its writer took the first of what it took.
    ensures stops { IfOk loaded (λ file. result ≡ 1 → (writer.new ≡ writer.old)
        ⊎ ((stop : AStop) × (stop_status stop ≡ 1)
        × (until : ListensUntil {K = Around R} file once stop (W.contents writer.old)
        (W.contents writer.new) DrivesTurn)
        × IsOpened file None until.start.around.port)) }
{
    let file = match loaded {
        Ok(file) => file,
        Err(status) => return status,
    };
    let started = ListeningHost::open(rt, alloc, &file, once);
    run_listening(rt, alloc, path, &file, started, writer)
}

/// Runs the command `listen`. The host of the file accepts connections at its socket, and writes
/// the bytes of each message when the message is complete. Nothing is written between messages. It
/// runs until the process is stopped. With `once` it ends three seconds after the last packet of
/// the first connection that was heard from, if that has ended. Once that connection is heard from,
/// all others are released, no more are accepted, and nothing of them is written.
///
/// Returns the status. It is 0 if the end of that connection was received. It is 1 if that
/// connection was lost, the writer failed, the socket can't be opened, or the start ran out of
/// memory. It is 2 for a fault of the file. Each fault is printed as a line on standard error.
pub fn do_listen<R: Net + Log + Files + Clock + Eprint, W: Write>(
    rt: &R,
    alloc: Global,
    path: &str,
    once: bool,
    writer: &mut W,
) -> u8
    ensures few { result ≤ 2 }
    // Without `once` the command never ends well.
    ensures once { result ≡ 0 → IsTrue once }
    // If it ends well, some text of a file describes the host that has run. The host began with no
    // connection and nothing to write. It heard from one connection only, and took the end of that
    // connection last. Its writer took the bodies of the messages of that connection, one after
    // another, and nothing else. The host began with its port as it was opened: one marked socket
    // at the address and the UDP port of the file.
    ensures well { result ≡ 0 → (text : List ℕ) × (file : AHostFile)
        × IsFileText text × IsHostText text file
        × (well : ListensWell {K = Around R} file once (W.contents writer.old)
        (W.contents writer.new) DrivesTurn)
        × IsOpened file None well.start.around.port }
    // With status 1 no host ran, and nothing is written. Or such a host has run until it stopped for
    // another reason: the connection was lost, the writer failed, or the system could not wait. Its
    // writer took the first of the bodies of the messages that it took, one after another, and the
    // rest was left to write.
    ensures stops { result ≡ 1 → (writer.new ≡ writer.old)
        ⊎ ((text : List ℕ) × (file : AHostFile) × IsFileText text × IsHostText text file
        × (stop : AStop) × (stop_status stop ≡ 1)
        × (until : ListensUntil {K = Around R} file once stop (W.contents writer.old)
        (W.contents writer.new) DrivesTurn)
        × IsOpened file None until.start.around.port) }
    // If the file has a fault, nothing is written.
    ensures untouched { result ≡ 2 → writer.new ≡ writer.old }
{
    let loaded = load_host(rt, alloc, path);
    listen_by(rt, alloc, path, loaded, once, writer)
}
