//! The command `send`: a host that requests a connection, and sends what it reads.

ghost use Rattle.std.specs.Prelude.{◌≡◌, ◌<◌, ◌≤◌, ◌+◌, ℕ, List, false, true, IfErr, IfOk, OnErr, Err, Ok};
ghost use Rattle.std.specs.Io.KnownBytes.{IsAtEnd};
ghost use Rattle.ipx_carrier.specs.Turns.{peers_of};
ghost use Rattle.ipx_config.specs.Host.{IsHostText};
ghost use Rattle.ipx_config.specs.Loading.{IsFileText};
ghost use Rattle.ipx_host.specs.Turning.{Around, DrivesTurn};
ghost use Rattle.ipx_wire.specs.declared.address.Address.{Address};
ghost use Rattle.ipx_config.specs.Destinations.{dialed_ip, peer_address_of, is_nowhere};
ghost use Rattle.ipx_host.specs.HostPorts.{IsOpened};
ghost use Rattle.ipx_host.specs.Midway.{sending_at};
ghost use Rattle.ipx_host.specs.SendRounds.{SendState, Transfers};
ghost use Rattle.ipx_host.specs.Sent.{SendsInput, SendsWholeInput};
ghost use Rattle.ipx_config.specs.Target.{NamesAddress};

use crate::sending::SendingHost;
use crate::start::{StartFault, tell_start};
use ipx_config::{HostConfig, Target, is_nowhere, load_host, peer_address_of, tell_nowhere};
use ipx_wire::Address;
use log::Log;
use std::alloc::Global;
use std::io::Read;
use std::net::Net;
use std::rt::{Clock, Files};

/// Runs the opened host. If it could not be opened, prints why.
fn send_opened<R: Net + Log + Clock + Eprint, I: Read>(
    rt: &R,
    alloc: Global,
    path: &str,
    opened: Result<SendingHost<'_, R>, StartFault>,
    to: Address,
    reader: &mut I,
) -> u8
    ensures status { result < 2 }
    ensures unopened { OnErr opened.entry ((result ≡ 1) × (reader.new ≡ reader.old)) }
    // If it ends well, it was a transfer that began with the opened host.
    ensures sent { IfOk opened.entry (λ s. result ≡ 0 → (last : SendState (Around R))
        × Transfers (sending_at s (I.remaining reader.old))
        last DrivesTurn
        (peers_of s.station.host_socket.ports.peers.items) s.id
        × (last.known ≡ I.remaining reader.new)) }
    // If the opened host had read nothing before, all of the input is read.
    ensures all { IfOk opened.entry (λ s. (s.input.read ≡ false) × (s.input.closed ≡ false)) → result ≡ 0
        → IsAtEnd (I.remaining reader.new) }
{
    match opened {
        Ok(mut sending) => sending.finish(rt, alloc, to, reader),
        Err(fault) => tell_start(rt, path, fault),
    }
}

/// Runs the host of a file that was loaded. If loading failed, returns the status of the fault,
/// which is already printed.
fn send_loaded<R: Net + Log + Clock + Eprint, I: Read>(
    rt: &R,
    alloc: Global,
    path: &str,
    loaded: Result<HostConfig, u8>,
    to: Address,
    reader: &mut I,
    shows: bool,
) -> u8
    // If the host can't reach the address, that is printed, and nothing is read.
    ensures nowhere { IfOk loaded (λ file. is_nowhere file (peer_address_of file to) ≡ true
        → (result ≡ 2) × (reader.new ≡ reader.old)) }
    ensures status { IfOk loaded (λ file. is_nowhere file (peer_address_of file to) ≡ false
        → result < 2) }
    // If it ends well, the host of the file sent to the address all that the reader had.
    // It began with its port as it was opened.
    ensures sent { IfOk loaded (λ file. result ≡ 0
        → (sent : SendsInput {K = Around R} file (peer_address_of file to)
        (I.remaining reader.old) (I.remaining reader.new) DrivesTurn)
        × IsOpened file (dialed_ip file (peer_address_of file to)) sent.start.around.port) }
    ensures unloaded { IfErr loaded (λ status. (result ≡ status) × (reader.new ≡ reader.old)) }
{
    let file = match loaded {
        Ok(file) => file,
        Err(status) => return status,
    };
    let to = peer_address_of(&file, to);
    if is_nowhere(&file, to) {
        return tell_nowhere(rt, path, to.node);
    }
    let opened = SendingHost::open(rt, alloc, &file, to, shows);
    send_opened(rt, alloc, path, opened, to, reader)
}

/// Runs the command `send`. The host of the file requests a connection to an address, sends what it
/// reads, and then ends the connection. The bytes of one read, at most 65,535, are one message.
/// While the input pauses, the connection stays open. Network 0 is the host's own.
///
/// Returns the status. It is 0 if the peer has acknowledged everything that was read, and the end
/// after it. It is 1 if nobody answers, the connection is lost or ended by the peer, the input
/// fails, the socket can't be opened, or out of memory. It is 2 for a fault of the arguments or the
/// file, or if the address can't be reached. Each fault is printed as a line on standard error.
/// With `shows` the progress is printed there too.
pub fn do_send<R: Net + Log + Files + Clock + Eprint, I: Read>(
    rt: &R,
    alloc: Global,
    path: &str,
    target: Target<'_>,
    reader: &mut I,
    shows: bool,
) -> u8
    // If the arguments name no address, that is reported, and nothing is read or bound.
    ensures words { ((a : Address) → NamesAddress target.entry a → ⊥)
        → (result ≡ 2) × (reader.new ≡ reader.old) }
    ensures few { result ≤ 2 }
    // For a fault of the arguments or the file, or if the address can't be reached, nothing is
    // read.
    ensures untouched { result ≡ 2 → reader.new ≡ reader.old }
    // If it ends well, the reader has nothing left.
    ensures all { result ≡ 0 → IsAtEnd (I.remaining reader.new) }
    // Some text of a file describes a host that has sent all that the reader had to the address of
    // the arguments. It did so in rounds. In the last one the peer had acknowledged all of it, and
    // the end too. The first round began with the port of the host as it was opened: one marked
    // socket at the address and the UDP port of the file.
    ensures sent { result ≡ 0 → (text : List ℕ) × (file : HostConfig) × (to : Address)
        × IsFileText text × IsHostText text file × NamesAddress target.entry to
        × (sent : SendsWholeInput {K = Around R} file (peer_address_of file to)
        (I.remaining reader.old) (I.remaining reader.new) DrivesTurn)
        × IsOpened file (dialed_ip file (peer_address_of file to))
        sent.sends.start.around.port }
{
    let to = match target.address() {
        Ok(to) => to,
        Err(fault) => {
            let _ = eprintln!(rt; "{fault}");
            return 2;
        }
    };
    let loaded = load_host(rt, alloc, path);
    send_loaded(rt, alloc, path, loaded, to, reader, shows)
}
