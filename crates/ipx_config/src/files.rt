//! Reading configuration files.

ghost use Rattle.std.specs.Prelude.{◌≡◌, ◌↔◌, ◌⊎◌, ℕ, List, All, Err, IfErr, IfOk, IsTrue, None, OnOk};
ghost use Rattle.ipx_router.specs.NewRouter.{IsOwnNetwork};
ghost use Rattle.ipx_config.specs.StaticLists.{HearsAtPorts};
ghost use Rattle.ipx_config.specs.Host.{IsHostText, IsHostTextFault};
ghost use Rattle.ipx_config.specs.Loading.{IsFileText, IsStatus, WritesOtherFiles, fault_status};
ghost use Rattle.ipx_config.specs.SitePorts.{router_ports};
ghost use Rattle.ipx_config.specs.Site.{IsSiteText, IsSiteTextFault};
ghost use Rattle.ipx_config.specs.Values.{Spares};

use crate::fault::ConfigError;
use crate::fault_line::FaultLine;
use crate::host::{HostConfig, read_host};
use crate::key::Key;
use crate::reading::read_site;
use crate::site::RouterConfig;
use crate::values::are_distinct;
use ipx_inspect::{InputFault, read_up_to};
use std::alloc::Global;
use std::fs::File;
use std::rt::Files;
use std::{io, str};

/// The longest file, in bytes.
pub(crate) const MAX: usize = 65_536;

/// Reports what is wrong with a file, and returns the exit status for it.
pub(crate) fn tell<R: Eprint>(rt: &R, path: &str, what: &str) -> u8
    ensures { result ≡ 2 }
{
    let _ = eprintln!(rt; "{path}: {what}");
    2
}

pub fn tell_no_memory<R: Eprint>(rt: &R, path: &str) -> u8
    ensures { result ≡ 1 }
{
    let _ = eprintln!(rt; "{path}: out of memory");
    1
}

/// Reports a fault of a file's text, and returns the exit status.
fn tell_fault<R: Eprint>(rt: &R, alloc: Global, path: &str, text: &str, fault: &ConfigError) -> u8
    ensures { result ≡ fault_status fault.now }
{
    if let ConfigError::OutOfMemory = fault {
        return tell_no_memory(rt, path);
    }
    let line = FaultLine::new(alloc, text, fault);
    let _ = eprintln!(rt; "{path}: {line}");
    2
}

/// Reports why a file could not be read, and returns the exit status.
fn tell_unread<R: Eprint>(rt: &R, path: &str, error: &io::Error) -> u8
    ensures { (result ≡ 1) ⊎ (result ≡ 2) }
{
    match error.kind() {
        io::ErrorKind::OutOfMemory => tell_no_memory(rt, path),
        _ => {
            let _ = eprintln!(rt; "{path}: {error}");
            2
        }
    }
}

/// The bytes of a file, at most `most` of them.
pub(crate) fn read_bytes<R: Files + Eprint>(
    rt: &R,
    alloc: Global,
    path: &str,
    most: usize,
) -> Result<Vec<u8>, u8>
    ensures { IfErr result (λ status. (status ≡ 1) ⊎ (status ≡ 2)) }
{
    let mut file = match File::open(rt, path) {
        Ok(file) => file,
        Err(error) => return Err(tell_unread(rt, path, &error)),
    };
    match read_up_to(alloc, &mut file, most) {
        Ok(bytes) => Ok(bytes),
        Err(InputFault::Memory) => Err(tell_no_memory(rt, path)),
        Err(InputFault::Read) => Err(tell(rt, path, "the file cannot be read")),
    }
}

/// The text of a file's bytes, if they are UTF-8 and not too many.
fn text_of<'a, R: Eprint>(rt: &R, path: &str, bytes: &'a [u8]) -> Result<&'a str, u8>
    ensures text { IfOk result (λ s. (s.now ≡ bytes.now) × IsFileText bytes.now) }
    ensures fault { IfErr result (λ status. (status ≡ 2) × (IsFileText bytes.now → ⊥)) }
{
    if bytes.len() > MAX {
        return Err(tell(rt, path, "the file has more than 65536 bytes"));
    }
    match str::from_utf8(bytes) {
        Ok(text) => Ok(text),
        Err(_) => Err(tell(rt, path, "the file is not UTF-8 text")),
    }
}

/// The configuration that the bytes of a router's file describe. A fault is reported in one line on
/// standard error that begins with the path. The error is the exit status: 2, or 1 if out of
/// memory.
pub fn site_in<R: Eprint>(
    rt: &R,
    alloc: Global,
    path: &str,
    bytes: &[u8],
) -> Result<RouterConfig, u8>
    ensures site { IfOk result (λ s. IsFileText bytes.now × IsSiteText bytes.now s) }
    ensures own { IfOk result (λ s. All IsOwnNetwork (router_ports s.ports.items)) }
    ensures there { IfOk result HearsAtPorts }
    ensures no_text { (IsFileText bytes.now → ⊥) → result ≡ Err 2 }
    ensures fault { IfErr result (IsStatus (IsSiteTextFault bytes.now) bytes.now) }
{
    let text = text_of(rt, path, bytes)?;
    match read_site(alloc, text) {
        Ok(site) => Ok(site),
        Err(fault) => Err(tell_fault(rt, alloc, path, text, &fault)),
    }
}

/// The configuration that the bytes of a host's file describe.
pub(crate) fn host_in<R: Eprint>(
    rt: &R,
    alloc: Global,
    path: &str,
    bytes: &[u8],
) -> Result<HostConfig, u8>
    ensures host { IfOk result (λ h. IsFileText bytes.now × IsHostText bytes.now h) }
    ensures no_text { (IsFileText bytes.now → ⊥) → result ≡ Err 2 }
    ensures fault { IfErr result (IsStatus (IsHostTextFault bytes.now) bytes.now) }
{
    let text = text_of(rt, path, bytes)?;
    match read_host(alloc, text) {
        Ok(host) => Ok(host),
        Err(fault) => Err(tell_fault(rt, alloc, path, text, &fault)),
    }
}

/// Whether writing a file, if it has a name, leaves the file of another name as it is.
fn spares(name: &Option<String>, other: &str) -> bool
    ensures { IsTrue result ↔ Spares name.now other.now }
{
    match name {
        Some(name) => are_distinct(name, other),
        None => true,
    }
}

/// The first key of a router's file by which the router would overwrite that file.
fn overwriting_key(path: &str, site: &RouterConfig) -> Option<Key>
    ensures { result ≡ None ↔ WritesOtherFiles path.now site.now }
{
    if !spares(&site.metrics_file, path) {
        return Some(Key::MetricsFile);
    }
    if !spares(&site.tables_file, path) {
        return Some(Key::TablesFile);
    }
    if !spares(&site.secret_file, path) {
        return Some(Key::SecretFile);
    }
    None
}

/// Refuses a router's file by which the router would overwrite that file.
fn refuse_overwriting<R: Eprint>(rt: &R, path: &str, site: &RouterConfig) -> Result<(), u8>
    ensures spares { OnOk result (WritesOtherFiles path.now site.now) }
    ensures fault { IfErr result (λ status. (status ≡ 2) × (WritesOtherFiles path.now site.now → ⊥)) }
{
    let Some(key) = overwriting_key(path, site) else {
        return Ok(());
    };
    let key = key.text();
    let _ = eprintln!(rt; "{path}: {key} would overwrite this file: name another file");
    Err(2)
}

/// Reads the file of a router. A fault is reported in one line on standard error that begins with
/// the path. The error is the exit status: 2, or 1 if out of memory.
pub fn load_site<R: Files + Eprint>(rt: &R, alloc: Global, path: &str) -> Result<RouterConfig, u8>
    // The result is a configuration that some file text describes.
    ensures site { IfOk result (λ s. (text : List ℕ) × IsFileText text × IsSiteText text s) }
    ensures own { IfOk result (λ s. All IsOwnNetwork (router_ports s.ports.items)) }
    ensures there { IfOk result HearsAtPorts }
    // The router does not overwrite this file.
    ensures spares { IfOk result (WritesOtherFiles path.now) }
    ensures fault { IfErr result (λ status. (status ≡ 1) ⊎ (status ≡ 2)) }
{
    let bytes = read_bytes(rt, alloc, path, MAX + 1)?;
    let site = site_in(rt, alloc, path, &bytes)?;
    refuse_overwriting(rt, path, &site)?;
    Ok(site)
}

/// Reads the file of a host, as `load_site` does that of a router.
pub fn load_host<R: Files + Eprint>(rt: &R, alloc: Global, path: &str) -> Result<HostConfig, u8>
    ensures host { IfOk result (λ h. (text : List ℕ) × IsFileText text × IsHostText text h) }
    ensures fault { IfErr result (λ status. (status ≡ 1) ⊎ (status ≡ 2)) }
{
    let bytes = read_bytes(rt, alloc, path, MAX + 1)?;
    host_in(rt, alloc, path, &bytes)
}
