//! The command `ping`: whether an SPX listener is there, and how far away.

ghost use Rattle.std.specs.Prelude.{◌≡◌, ◌≤◌, ℕ, List, IfOk, false};
ghost use Rattle.std.specs.Io.KnownBytes.{Appends};
ghost use Rattle.ipx_query.specs.PingEnds.{ping_status};
ghost use Rattle.ipx_query.specs.declared.ping_core.PingCore.{PingCore as APingCore};
ghost use Rattle.ipx_query_cmd.specs.PingRuns.{HasPinged, PingTurn, pinged_lines};
ghost use Rattle.ipx_config.specs.Host.{IsHostText};
ghost use Rattle.ipx_config.specs.Loading.{IsFileText};
ghost use Rattle.ipx_config.specs.declared.host.HostConfig.{HostConfig as AHostFile};
ghost use Rattle.ipx_config.specs.Destinations.{peer_address_of, is_nowhere};
ghost use Rattle.ipx_config.specs.Target.{NamesAddress};
ghost use Rattle.ipx_wire.specs.declared.address.Address.{Address as AnAddress};

use crate::fault::{AskFault, tell_fault};
use crate::pinging_host::PingingHost;
use ipx_config::{HostConfig, Target, is_nowhere, load_host, peer_address_of, tell_nowhere};
use ipx_wire::Address;
use std::alloc::Global;
use std::io::Write;
use std::net::Net;
use std::rt::{Clock, Files};

/// Pings an address by the host of a file, and returns the exit status.
fn ping_by<R: Net + Clock, W: Write>(
    rt: &R,
    alloc: Global,
    file: &HostConfig,
    to: Address,
    count: u16,
    writer: &mut W,
) -> Result<u8, AskFault>
    ensures pinged { IfOk result (λ status. (turns : List PingTurn) × (ping : APingCore)
        × (now : ℕ) × HasPinged file.now to count turns ping now
        × (status ≡ ping_status ping)
        × Appends (W.contents writer.old) (W.contents writer.new) (pinged_lines to turns ping)) }
    ensures few { IfOk result (λ status. status ≤ 1) }
{
    let mut host = PingingHost::open(rt, alloc, file, to, count)?;
    host.ping(alloc, writer)?;
    host.conclude(alloc, writer)?;
    Ok(host.core.status())
}

/// Pings an address by the host of the file at a path. It reports what is wrong.
fn ping_at<R: Net + Files + Clock + Eprint, W: Write>(
    rt: &R,
    alloc: Global,
    path: &str,
    to: Address,
    count: u16,
    writer: &mut W,
) -> u8
    ensures few { result ≤ 2 }
    ensures pinged { result ≡ 0 → (text : List ℕ) × (file : AHostFile)
        × (turns : List PingTurn) × (ping : APingCore) × (now : ℕ)
        × IsFileText text × IsHostText text file
        × (is_nowhere file (peer_address_of file to) ≡ false)
        × HasPinged file (peer_address_of file to) count turns ping now × (ping_status ping ≡ 0)
        × Appends (W.contents writer.old) (W.contents writer.new)
        (pinged_lines (peer_address_of file to) turns ping) }
    ensures untouched { result ≡ 2 → writer.new ≡ writer.old }
{
    let file = match load_host(rt, alloc, path) {
        Ok(file) => file,
        Err(status) => return status,
    };
    let to = peer_address_of(&file, to);
    if is_nowhere(&file, to) {
        return tell_nowhere(rt, path, to.node);
    }
    match ping_by(rt, alloc, &file, to, count, writer) {
        Ok(status) => status,
        Err(fault) => tell_fault(rt, path, fault),
    }
}

/// The command `ping`: asks a listener for a connection, `count` times, once a second, by the host
/// of a file. It writes a line for each request that is answered, and for each that is not, as it
/// happens, and a line at the end. The host's address and socket are in use meanwhile.
///
/// Returns the exit status. It is 0 if one request was answered, and all is written. It is 1 if
/// none was, the writer fails, the socket cannot be bound, or memory runs out. It is 2 for a fault
/// of the words or the file. It is also 2 if the address is on the host's own network and its node
/// has no IP address. A line on standard error says what is wrong.
pub fn do_ping<R: Net + Files + Clock + Eprint, W: Write>(
    rt: &R,
    alloc: Global,
    path: &str,
    target: Target<'_>,
    count: u16,
    writer: &mut W,
) -> u8
    // Words that name no address are reported, and nothing is read or bound.
    ensures words { ((a : AnAddress) → NamesAddress target.entry a → ⊥)
        → (result ≡ 2) × (writer.new ≡ writer.old) }
    ensures few { result ≤ 2 }
    // On status 0, some file text describes a host that pinged the address of the words, to which
    // packets can be sent. One request was answered, and the result of each request is written,
    // line by line.
    ensures pinged { result ≡ 0 → (text : List ℕ) × (file : AHostFile) × (to : AnAddress)
        × (turns : List PingTurn) × (ping : APingCore) × (now : ℕ)
        × IsFileText text × IsHostText text file × NamesAddress target.entry to
        × (is_nowhere file (peer_address_of file to) ≡ false)
        × HasPinged file (peer_address_of file to) count turns ping now × (ping_status ping ≡ 0)
        × Appends (W.contents writer.old) (W.contents writer.new)
        (pinged_lines (peer_address_of file to) turns ping) }
    // On a fault of the words or of the file, nothing is written.
    ensures untouched { result ≡ 2 → writer.new ≡ writer.old }
{
    match target.address() {
        Ok(to) => ping_at(rt, alloc, path, to, count, writer),
        Err(fault) => {
            let _ = eprintln!(rt; "{fault}");
            2
        }
    }
}
