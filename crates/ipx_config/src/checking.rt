//! Checks a router's file without opening a socket: `ipx route --check`.

ghost use Rattle.std.specs.Prelude.{◌≡◌, ◌<◌, ◌≤◌, ◌++◌, ℕ, List, [], IfErr, IfOk, IsOkAnd, OnOk, length, string_bytes};
ghost use Rattle.std.specs.Io.KnownBytes.{Appends};
ghost use Rattle.std.specs.List.{flat_map};
ghost use Rattle.ipx_config.specs.Checked.{count_text, each_after, file_line, file_name_text, ignored_remark, joined_remark, node_remark, peer_line, peer_remark, port_lines, reached_remarks, site_lines, status_text};
ghost use Rattle.ipx_config.specs.Loading.{IsFileText};
ghost use Rattle.ipx_config.specs.Site.{IsSiteText};
ghost use Rattle.ipx_config.specs.declared.site.RouterConfig.{RouterConfig as ASiteFile};

use crate::destination::is_of_no_machine;
use crate::equality::{is_same_ip, is_same_node};
use crate::escaped::Escaped;
use crate::ethernet_values::station_at;
use crate::files::{load_site, tell_no_memory};
use crate::ipxnet_port::IpxnetPortConfig;
use crate::peer_lines::peers_to_lines;
use crate::site::{Accept, PortConfig, RouterConfig};
use crate::start_lines::{dotted, end_to_text, port_to_text};
use crate::static_lines::entries_to_lines;
use std::alloc::{AllocError, Global};
use std::io::Write;
use std::net::SocketAddrV4;
use std::rt::Files;

/// The remark about a peer that follows the `earlier` peers; empty if there is none.
fn peer_to_remark(
    alloc: Global,
    whose: &str,
    address: [u8; 4],
    earlier: &[[u8; 4]],
    peer: [u8; 4],
) -> Result<String, AllocError>
    ensures { IfOk result (λ t. string_bytes t ≡ peer_remark whose.now address earlier.now peer) }
{
    let ip = dotted(alloc, peer)?;
    if peer == address {
        return format!(in alloc; "{whose}peer {ip} is the local address\n");
    }
    if earlier.contains(&peer) {
        return format!(in alloc; "{whose}peer {ip} is listed twice\n");
    }
    if is_of_no_machine(peer) {
        return format!(in alloc; "{whose}peer {ip} is not a usable unicast address\n");
    }
    Ok(String::new(alloc))
}

/// The remarks about the peers of an address. There is one line for each peer that is the address
/// itself, repeats an earlier peer, or can belong to no machine. Each line begins with `whose`.
pub fn peers_to_remarks(
    alloc: Global,
    whose: &str,
    address: [u8; 4],
    peers: &[[u8; 4]],
) -> Result<String, AllocError>
    ensures { IfOk result (λ t. string_bytes t
        ≡ each_after (peer_remark whose.now address) [] peers.now) }
{
    let mut remarks = String::new(alloc);
    for (place, peer) in peers.iter().enumerate() {
        let line = peer_to_remark(alloc, whose, address, &peers[..place], *peer)?;
        remarks.push_str(&line)?;
    }
    Ok(remarks)
}

/// The remark about a joined router; empty if there is none. A file lists each joined router once.
fn joined_to_remark(
    alloc: Global,
    whose: &str,
    own: SocketAddrV4,
    router: SocketAddrV4,
) -> Result<String, AllocError>
    ensures { IfOk result (λ t. string_bytes t ≡ joined_remark whose.now own router) }
{
    let reached = end_to_text(alloc, router)?;
    if router == own {
        return format!(in alloc; "{whose}joined{reached} is the port's own address\n");
    }
    Ok(String::new(alloc))
}

/// The remark about an ipxnet port that lists peers and accepts any client; empty for any other.
fn ignored_to_remark(
    alloc: Global,
    whose: &str,
    port: &IpxnetPortConfig,
) -> Result<String, AllocError>
    ensures { IfOk result (λ t. string_bytes t
        ≡ ignored_remark whose.now port.now.accept (length port.now.peers.items)) }
{
    if port.accept == Accept::Any && port.peers.len() != 0 {
        return format!(in alloc; "{whose}peers is ignored, since accept is \"any\"\n");
    }
    Ok(String::new(alloc))
}

/// The remark about an ipxnet port that is joined, binds each address, and has the node made from
/// that; empty for any other.
fn node_to_remark(alloc: Global, whose: &str, port: &IpxnetPortConfig) -> Result<String, AllocError>
    ensures { IfOk result (λ t. string_bytes t ≡ node_remark whose.now port.now) }
{
    let made = station_at(port.address, port.udp_port);
    if port.join.len() != 0 && is_same_ip(port.address, [0; 4]) && is_same_node(port.node, made) {
        return format!(in alloc;
            "{whose}join with address \"any\" needs node: it must differ at each router\n"
        );
    }
    Ok(String::new(alloc))
}

/// The lines of the prefixes and names among the peers of an ipxnet port, and the remarks about its
/// list of peers, its node, and the routers it is joined to.
fn ipxnet_to_remarks(
    alloc: Global,
    whose: &str,
    own: SocketAddrV4,
    port: &IpxnetPortConfig,
) -> Result<String, AllocError>
    ensures { IfOk result (λ t. string_bytes t
        ≡ flat_map (peer_line whose.now) port.now.peers.items
        ++ (ignored_remark whose.now port.now.accept (length port.now.peers.items)
        ++ (node_remark whose.now port.now
        ++ flat_map (joined_remark whose.now own) port.now.join.items))) }
{
    let peers = peers_to_lines(alloc, whose, &port.peers)?;
    let ignored = ignored_to_remark(alloc, whose, port)?;
    let node = node_to_remark(alloc, whose, port)?;
    let joined = join_to_remarks(alloc, whose, own, &port.join)?;
    format!(in alloc; "{peers}{ignored}{node}{joined}")
}

/// The remarks about joined routers: one line for each that is the port's own place.
fn join_to_remarks(
    alloc: Global,
    whose: &str,
    own: SocketAddrV4,
    routers: &[SocketAddrV4],
) -> Result<String, AllocError>
    ensures { IfOk result (λ t. string_bytes t
        ≡ flat_map (joined_remark whose.now own) routers.now) }
{
    let mut remarks = String::new(alloc);
    for router in routers {
        let line = joined_to_remark(alloc, whose, own, *router)?;
        remarks.push_str(&line)?;
    }
    Ok(remarks)
}

/// The remarks about the addresses that a port sends to.
fn reached_to_remarks(alloc: Global, whose: &str, port: &PortConfig) -> Result<String, AllocError>
    ensures { IfOk result (λ t. string_bytes t ≡ reached_remarks whose.now port.now) }
{
    let own = port.place();
    match port {
        PortConfig::Rfc1234(port) => peers_to_remarks(alloc, whose, port.address, &port.peers),
        PortConfig::Ethernet(_) => Ok(String::new(alloc)),
        PortConfig::Ipxnet(port) => ipxnet_to_remarks(alloc, whose, own, port),
    }
}

/// The line of a port that follows the `earlier` ports, and the remarks about it.
fn port_to_lines(
    alloc: Global,
    earlier: &[PortConfig],
    port: &PortConfig,
) -> Result<String, AllocError>
    ensures { IfOk result (λ t. string_bytes t ≡ port_lines earlier.now port.now) }
{
    let number = earlier.len() + 1;
    let line = port_to_text(alloc, number, port)?;
    let whose = format!(in alloc; "port {number}: ")?;
    let reached = reached_to_remarks(alloc, &whose, port)?;
    format!(in alloc; "{line}\n{reached}")
}

fn ports_to_lines(alloc: Global, ports: &[PortConfig]) -> Result<String, AllocError>
    ensures { IfOk result (λ t. string_bytes t ≡ each_after port_lines [] ports.now) }
{
    let mut lines = String::new(alloc);
    for (place, port) in ports.iter().enumerate() {
        let of_port = port_to_lines(alloc, &ports[..place], port)?;
        lines.push_str(&of_port)?;
    }
    Ok(lines)
}

fn count_to_text(alloc: Global, count: usize) -> Result<String, AllocError>
    ensures { IfOk result (λ t. string_bytes t ≡ count_text count) }
{
    if count == 1 {
        return String::from_str(alloc, "1 port");
    }
    format!(in alloc; "{count} ports")
}

fn status_to_text(alloc: Global, status: &Option<String>) -> Result<String, AllocError>
    ensures { IfOk result (λ t. string_bytes t ≡ status_text status.now) }
{
    match status {
        Some(path) => {
            let path = Escaped(path.as_bytes());
            format!(in alloc; "metrics_file {path}")
        }
        None => String::from_str(alloc, "no metrics_file"),
    }
}

/// The name of another file, after the words that say which one it is; empty if there is none.
fn file_name_to_text(
    alloc: Global,
    which: &str,
    name: &Option<String>,
) -> Result<String, AllocError>
    ensures { IfOk result (λ t. string_bytes t ≡ file_name_text which.now name.now) }
{
    match name {
        Some(name) => {
            let name = Escaped(name.as_bytes());
            format!(in alloc; "{which}{name}")
        }
        None => Ok(String::new(alloc)),
    }
}

/// The line of the file itself.
fn file_to_line(alloc: Global, path: &str, site: &RouterConfig) -> Result<String, AllocError>
    ensures { IfOk result (λ t. string_bytes t ≡ file_line path.now site.now) }
{
    let count = count_to_text(alloc, site.ports.len())?;
    let status = status_to_text(alloc, &site.metrics_file)?;
    let tables = file_name_to_text(alloc, ", tables_file ", &site.tables_file)?;
    let secret = file_name_to_text(alloc, ", secret_file ", &site.secret_file)?;
    format!(in alloc; "{path}: {count}, {status}{tables}{secret}\n")
}

fn site_to_lines(alloc: Global, path: &str, site: &RouterConfig) -> Result<String, AllocError>
    ensures { IfOk result (λ t. string_bytes t ≡ site_lines path.now site.now) }
{
    let ports = ports_to_lines(alloc, &site.ports)?;
    let statics = entries_to_lines(alloc, site, &site.statics)?;
    let file = file_to_line(alloc, path, site)?;
    format!(in alloc; "{ports}{statics}{file}")
}

/// Writes a text. If the writer fails, a line on standard error says so, and the error is the exit
/// status.
pub fn write_text<R: Eprint, W: Write>(rt: &R, text: &str, writer: &mut W) -> Result<(), u8>
    ensures written { OnOk result
        (Appends (W.contents writer.old) (W.contents writer.new) text.now) }
    ensures fault { IfErr result (λ status. status ≡ 1) }
{
    match writer.write_all(text.as_bytes()) {
        Ok(()) => Ok(()),
        Err(_) => {
            let _ = eprintln!(rt; "cannot write standard output");
            Err(1)
        }
    }
}

/// Writes the result of a check, and returns the exit status. It is 0 if everything is written.
/// Otherwise it is 1, and a line on standard error says why.
pub fn write_checked<R: Eprint, W: Write>(
    rt: &R,
    path: &str,
    lines: Result<String, AllocError>,
    writer: &mut W,
) -> u8
    ensures written { result ≡ 0 → IsOkAnd lines (λ l.
        Appends (W.contents writer.old) (W.contents writer.new) (string_bytes l)) }
    ensures few { result ≤ 1 }
{
    let Ok(lines) = lines else {
        return tell_no_memory(rt, path);
    };
    match write_text(rt, &lines, writer) {
        Ok(()) => 0,
        Err(unwritten) => unwritten,
    }
}

/// The command `route --check`: reads a router's file, and writes a line for each port, as a
/// starting router does, with the remarks about it. A line for each static route and service
/// follows, and one for the file. It opens no socket: it takes no `Net`.
///
/// Returns the exit status. It is 0 if all is written, and 1 if out of memory or if the writer
/// fails. It is 2 for a fault of the file, which is reported as by `route`; then nothing is
/// written.
pub fn check_site<R: Files + Eprint, W: Write>(
    rt: &R,
    alloc: Global,
    path: &str,
    writer: &mut W,
) -> u8
    ensures few { result ≤ 2 }
    // The lines are those of a configuration that some file text describes.
    ensures lines { result ≡ 0 → (text : List ℕ) × (site : ASiteFile)
        × IsFileText text × IsSiteText text site
        × Appends (W.contents writer.old) (W.contents writer.new) (site_lines path.now site) }
    ensures untouched { result ≡ 2 → writer.new ≡ writer.old }
{
    match load_site(rt, alloc, path) {
        Ok(site) => write_checked(rt, path, site_to_lines(alloc, path, &site), writer),
        Err(status) => status,
    }
}
