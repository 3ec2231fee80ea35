//! The secret of a router, from which its ipxnet ports make the nodes of their clients, and the
//! clients that it had before it was started again.

ghost use Rattle.std.specs.Prelude.{◌≡◌, ◌⊎◌, [], IfErr, IfOk, Ok, false, replicate};
ghost use Rattle.std.specs.List.{list_any};
ghost use Rattle.ipx_site.specs.Secrets.{IsKeptOf, IsSecretFaultOf, is_ipxnet};
ghost use Rattle.ipx_site.specs.declared.secret_file.SavedClients.{SavedClients};

use crate::secret_file::{KeptText, SavedClients, kept_in, write_private};
use ipx_config::{PortConfig, RouterConfig, tell_no_memory};
use ipxnet_server::Secret;
use log::{Log, warn};
use std::alloc::Global;
use std::fs::File;
use std::io;
use std::io::{ErrorKind, Read};
use std::rt::Files;

/// Where the system gives random bytes.
const RANDOM: &str = "/dev/urandom";

/// The most bytes of the file of a secret that are read: more than it has.
const MAX_FILE: u64 = 65_537;

/// Why a router has no secret.
enum SecretFault {
    OutOfMemory,
    /// The system does not give random bytes.
    Random(io::Error),
    /// The file cannot be opened, or cannot be made.
    File(io::Error),
    /// The file is there, and cannot be read.
    Read(io::Error),
    /// The file holds something else.
    Text,
}

/// A secret of random bytes.
fn random_secret<R: Files>(rt: &R) -> io::Result<Secret> {
    let mut bytes = [0; 32];
    let mut file = File::open(rt, RANDOM)?;
    file.read_exact(&mut bytes)?;
    Ok(Secret(bytes))
}

/// Makes a secret and its file.
fn make_secret<R: Files>(rt: &R, alloc: Global, path: &str) -> Result<SavedClients, SecretFault> {
    let kept = SavedClients::new(alloc, random_secret(rt).map_err(SecretFault::Random)?);
    let Ok(text) = kept.to_text(alloc) else {
        return Err(SecretFault::OutOfMemory);
    };
    match write_private(rt, alloc, path, text.as_str()) {
        Ok(Ok(())) => Ok(kept),
        Ok(Err(error)) => Err(SecretFault::File(error)),
        Err(_) => Err(SecretFault::OutOfMemory),
    }
}

/// Says that a file holds a secret, and something else after it than a list of clients.
fn tell_cut<R: Log>(rt: &R, path: &str, name: &str) {
    warn!(rt; target: "ipx",
        "{path}: secret_file {name}: its list of players was cut, or is something else: \
         the secret is used, and players who only listen are not asked");
}

/// What the text of a file says. Of a list that was cut only the secret counts.
fn kept_of_text<R: Log>(
    rt: &R,
    alloc: Global,
    path: &str,
    name: &str,
    text: &[u8],
) -> Result<SavedClients, SecretFault>
    ensures kept { IfOk result (IsKeptOf text.now) }
    ensures fault { IfErr result (IsSecretFaultOf text.now) }
{
    match kept_in(alloc, text) {
        Ok(KeptText::Whole(kept)) => Ok(kept),
        Ok(KeptText::Cut(secret)) => {
            tell_cut(rt, path, name);
            Ok(SavedClients::new(alloc, secret))
        }
        Ok(KeptText::None) => Err(SecretFault::Text),
        Err(_) => Err(SecretFault::OutOfMemory),
    }
}

/// The first bytes of a file.
fn bytes_of<F: Read + Drop>(alloc: Global, file: F) -> io::Result<Vec<u8>> {
    let mut bytes = Vec::new(alloc);
    file.take(MAX_FILE).read_to_end(&mut bytes)?;
    Ok(bytes)
}

/// The secret of a file, and the clients that it lists. If there is no such file it is made.
fn kept_of_file<R: Files + Log>(
    rt: &R,
    alloc: Global,
    path: &str,
    name: &str,
) -> Result<SavedClients, SecretFault> {
    let file = match File::open(rt, name) {
        Ok(file) => file,
        Err(error) if error.kind() == ErrorKind::NotFound => return make_secret(rt, alloc, name),
        Err(error) => return Err(SecretFault::File(error)),
    };
    match bytes_of(alloc, file) {
        Ok(text) => kept_of_text(rt, alloc, path, name, &text),
        Err(error) if error.kind() == ErrorKind::OutOfMemory => Err(SecretFault::OutOfMemory),
        Err(error) => Err(SecretFault::Read(error)),
    }
}

/// Reports why a router has no secret, and returns the exit status for it.
fn tell_secret_fault<R: Eprint>(rt: &R, path: &str, name: &str, fault: SecretFault) -> u8
    ensures { result ≡ 1 }
{
    match fault {
        SecretFault::OutOfMemory => return tell_no_memory(rt, path),
        SecretFault::Random(error) => {
            let _ = eprintln!(rt; "{path}: {RANDOM}: {error}");
        }
        SecretFault::File(error) => {
            let _ = eprintln!(rt; "{path}: secret_file {name}: {error}");
        }
        SecretFault::Read(error) => {
            let _ = eprintln!(rt; "{path}: secret_file {name}: cannot be read: {error}");
        }
        SecretFault::Text => {
            let _ = eprintln!(rt;
                "{path}: secret_file {name}: not a secret file: its first line is not 64 hex digits; \
                name a file that does not exist, and ipx creates it"
            );
        }
    }
    1
}

/// Whether a router has an ipxnet port.
fn has_ipxnet_port(ports: &[PortConfig]) -> bool
    ensures { result ≡ list_any is_ipxnet ports.now }
{
    ports
        .iter()
        .any(|port| matches!(port, PortConfig::Ipxnet(_)))
}

/// The secret of a router with an ipxnet port, and the clients that it had before it was started
/// again: those of its file, which is made if there is none, or random bytes and no client if no file
/// is named.
fn kept_for_players<R: Files + Log + Eprint>(
    rt: &R,
    alloc: Global,
    path: &str,
    site: &RouterConfig,
) -> Result<SavedClients, u8>
    ensures { IfErr result (λ status. status ≡ 1) }
{
    let Some(name) = &site.secret_file else {
        return match random_secret(rt) {
            Ok(secret) => Ok(SavedClients::new(alloc, secret)),
            Err(error) => Err(tell_secret_fault(rt, path, RANDOM, SecretFault::Random(error))),
        };
    };
    match kept_of_file(rt, alloc, path, name) {
        Ok(kept) => Ok(kept),
        Err(fault) => Err(tell_secret_fault(rt, path, name, fault)),
    }
}

/// The secret of a router, and the clients that it had before it was started again. A router without
/// an ipxnet port has none, and no file is opened. The path is that of the router's own file. The
/// error is the exit status, after one line on standard error.
pub(crate) fn kept_of<R: Files + Log + Eprint>(
    rt: &R,
    alloc: Global,
    path: &str,
    site: &RouterConfig,
) -> Result<SavedClients, u8>
    ensures fault { IfErr result (λ status. status ≡ 1) }
    // Without an ipxnet port the secret is 32 zero bytes, and there is no client.
    ensures none { list_any is_ipxnet site.now.ports.items ≡ false → (kept : SavedClients)
        × (result ≡ Ok kept) × (kept.secret.0 ≡ replicate 32 0) × (kept.clients.items ≡ []) }
{
    if !has_ipxnet_port(&site.ports) {
        return Ok(SavedClients::new(alloc, Secret([0; 32])));
    }
    kept_for_players(rt, alloc, path, site)
}
