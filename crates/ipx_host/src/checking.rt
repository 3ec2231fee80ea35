//! What a host prints about its file, without a socket: `ipx listen --check`.

ghost use Rattle.std.specs.Prelude.{◌≡◌, ◌≤◌, ℕ, List, IfOk, string_bytes};
ghost use Rattle.std.specs.Io.KnownBytes.{Appends};
ghost use Rattle.ipx_config.specs.Host.{IsHostText};
ghost use Rattle.ipx_config.specs.Loading.{IsFileText};
ghost use Rattle.ipx_config.specs.declared.host.HostConfig.{HostConfig as AHostFile};
ghost use Rattle.ipx_host.specs.HostCheckLines.{allow_text, host_line, host_lines, list_count_text, listener_text, listen_address_text, nobody_remark, peers_remarks, router_remark};

use ipx_carrier::node_of;
use ipx_config::{
    HostConfig, dotted, load_host, others, peers_to_remarks, reached_to_text, write_checked,
};
use std::alloc::{AllocError, Global};
use std::io::Write;
use std::rt::Files;

fn listen_address_to_text(alloc: Global, file: &HostConfig) -> Result<String, AllocError>
    ensures { IfOk result (λ t. string_bytes t ≡ listen_address_text file.now) }
{
    let socket = hex::encode(alloc, file.socket.0.to_be_bytes())?;
    let network = hex::encode(alloc, file.network.0.to_be_bytes())?;
    let node = hex::encode(alloc, node_of(file.address).0)?;
    format!(in alloc; "socket {socket} network {network} node {node}")
}

/// Returns where a host listens: `socket .. network .. node .. udp ..`, and ` accept any` if it
/// accepts everybody.
pub fn listener_to_text(alloc: Global, file: &HostConfig) -> Result<String, AllocError>
    ensures { IfOk result (λ t. string_bytes t ≡ listener_text file.now) }
{
    let place = listen_address_to_text(alloc, file)?;
    let reached = reached_to_text(alloc, file.address, file.udp_port)?;
    let others = others(file.accept);
    format!(in alloc; "{place} udp {reached}{others}")
}

/// Returns the remark on the router of a host.
fn remark_on_router(file: &HostConfig) -> &'static str
    ensures { result.now ≡ router_remark file.now }
{
    if file.router == file.address {
        "the router is the local address\n"
    } else {
        ""
    }
}

/// Returns the remarks on the peers of a host.
fn remarks_on_peers(alloc: Global, file: &HostConfig) -> Result<String, AllocError>
    ensures { IfOk result (λ t. string_bytes t ≡ peers_remarks file.now) }
{
    peers_to_remarks(alloc, "", file.address, &file.peers)
}

/// Returns how many IP addresses a list has, after the words that say which list it is. The text is
/// empty for an empty list.
fn list_count_to_text(alloc: Global, which: &str, ips: &[[u8; 4]]) -> Result<String, AllocError>
    ensures { IfOk result (λ t. string_bytes t ≡ list_count_text which.now ips.now) }
{
    if ips.is_empty() {
        return Ok(String::new(alloc));
    }
    let count = ips.len();
    format!(in alloc; "{which}{count}")
}

/// Returns how many entries `allow` has; the text is empty if the file has no such list.
fn allow_to_text(alloc: Global, file: &HostConfig) -> Result<String, AllocError>
    ensures { IfOk result (λ t. string_bytes t ≡ allow_text file.now.from) }
{
    match &file.from {
        Some(allowed) => {
            let count = allowed.len();
            format!(in alloc; ", allow {count}")
        }
        None => Ok(String::new(alloc)),
    }
}

/// Returns the remark on an `allow` without an entry.
fn remark_on_nobody(file: &HostConfig) -> &'static str
    ensures { result.now ≡ nobody_remark file.now.from }
{
    match &file.from {
        Some(allowed) if allowed.is_empty() => "allow is empty: nobody can connect\n",
        _ => "",
    }
}

/// Returns the line about the file itself.
fn file_to_line(alloc: Global, path: &str, file: &HostConfig) -> Result<String, AllocError>
    ensures { IfOk result (λ t. string_bytes t ≡ host_line path.now file.now) }
{
    let router = dotted(alloc, file.router)?;
    let buffers = file.buffers;
    let peers = list_count_to_text(alloc, ", peers ", &file.peers)?;
    let routers = list_count_to_text(alloc, ", routers ", &file.routers)?;
    let allow = allow_to_text(alloc, file)?;
    format!(in alloc; "{path}: router {router}, buffers {buffers}{peers}{routers}{allow}\n")
}

fn host_to_lines(alloc: Global, path: &str, file: &HostConfig) -> Result<String, AllocError>
    ensures { IfOk result (λ t. string_bytes t ≡ host_lines path.now file.now) }
{
    let listener = listener_to_text(alloc, file)?;
    let remark = remark_on_router(file);
    let peers = remarks_on_peers(alloc, file)?;
    let nobody = remark_on_nobody(file);
    let line = file_to_line(alloc, path, file)?;
    format!(in alloc; "{listener}\n{remark}{peers}{nobody}{line}")
}

/// Runs the command `listen --check`. It reads the file of a host, and writes what the host would
/// print when it starts to listen. It also writes remarks, and a line about the file. It opens no
/// socket, because it has no `Net`.
///
/// Returns the status. It is 0 if everything is written, and 1 if out of memory or if the writer
/// fails. It is 2 for a fault of the file: the fault is printed as `listen` prints it, and nothing
/// is written.
pub fn check_host<R: Files + Eprint, W: Write>(
    rt: &R,
    alloc: Global,
    path: &str,
    writer: &mut W,
) -> u8
    ensures few { result ≤ 2 }
    // The written lines describe a host that some text of a file describes.
    ensures lines { result ≡ 0 → (text : List ℕ) × (file : AHostFile)
        × IsFileText text × IsHostText text file
        × Appends (W.contents writer.old) (W.contents writer.new) (host_lines path.now file) }
    ensures untouched { result ≡ 2 → writer.new ≡ writer.old }
{
    match load_host(rt, alloc, path) {
        Ok(file) => write_checked(rt, path, host_to_lines(alloc, path, &file), writer),
        Err(status) => status,
    }
}
