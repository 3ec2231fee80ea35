//! The file of a router's secret and of its ipxnet clients.

ghost use Rattle.std.specs.Prelude.{◌≡◌, IfOk, IfSome, None, [], string_bytes};
ghost use Rattle.ipx_site.specs.Secrets.{IsSecretText, SaysClients, SaysKept, kept_text};
ghost use Rattle.ipxnet_server.specs.declared.port.Secret.{Secret};

use ipx_config::TEMPORARY;
use ipx_table_dump::{ClientPlace, clients_of_text, clients_to_text};
use ipxnet_server::Secret;
use std::alloc::{AllocError, Global};
use std::fs::{OpenFile, OpenOptions};
use std::io::{ErrorKind, Write};
use std::os::unix::fs::OpenOptionsExt;
use std::rt::Files;
use std::{fs, io};

/// How many bytes the line of a secret has: 64 hex digits, and the end of the line.
const LINE_SIZE: usize = 65;

/// Only the owner may read the file, and write it.
const MODE: u32 = 0o600;

/// A secret, and the clients that a router had before it was started again.
#[derive(Drop)]
pub struct SavedClients {
    pub secret: Secret,
    pub clients: Vec<ClientPlace>,
}

impl SavedClients {
    /// A secret, and no clients.
    pub fn new(alloc: Global, secret: Secret) -> SavedClients
        ensures secret { result.secret ≡ secret }
        ensures clients { result.clients.items ≡ [] }
    {
        SavedClients {
            secret,
            clients: Vec::new(alloc),
        }
    }

    /// The text of the file that holds them.
    pub fn to_text(&self, alloc: Global) -> Result<String, AllocError>
        ensures { IfOk result
            (λ t. string_bytes t ≡ kept_text self.now.secret self.now.clients.items) }
    {
        secret_to_text(alloc, self.secret, &self.clients)
    }
}

/// What the text of a file says.
#[derive(Drop)]
pub enum KeptText {
    /// A secret, and a whole list of clients, or none after it.
    Whole(SavedClients),
    /// A secret, and after it something else.
    Cut(Secret),
    /// No secret.
    None,
}

/// The secret that a line is.
fn secret_in(line: &[u8]) -> Option<Secret>
    ensures secret { IfSome result (IsSecretText line.now) }
    ensures none { result ≡ None → (s : Secret) → IsSecretText line.now s → ⊥ }
{
    let (end, digits) = line.split_last()?;
    if *end != b'\n' {
        return None;
    }
    let mut bytes = [0; 32];
    match hex::decode_to_slice(digits, &mut bytes) {
        Ok(()) => Some(Secret(bytes)),
        Err(_) => None,
    }
}

/// The clients that are listed after the line of a secret. In files of before nothing is.
fn clients_after(alloc: Global, rest: &[u8]) -> Result<Option<Vec<ClientPlace>>, AllocError>
    ensures { IfOk result (SaysClients rest.now) }
{
    if rest.is_empty() {
        return Ok(Some(Vec::new(alloc)));
    }
    clients_of_text(alloc, rest)
}

/// What the text of a file says.
pub fn kept_in(alloc: Global, text: &[u8]) -> Result<KeptText, AllocError>
    ensures { IfOk result (SaysKept text.now) }
{
    let (line, rest) = text.split_at(text.len().min(LINE_SIZE));
    let Some(secret) = secret_in(line) else {
        return Ok(KeptText::None);
    };
    match clients_after(alloc, rest)? {
        Some(clients) => Ok(KeptText::Whole(SavedClients { secret, clients })),
        None => Ok(KeptText::Cut(secret)),
    }
}

/// The text of a secret and of clients.
pub fn secret_to_text(
    alloc: Global,
    secret: Secret,
    clients: &[ClientPlace],
) -> Result<String, AllocError>
    ensures { IfOk result (λ t. string_bytes t ≡ kept_text secret clients.now) }
{
    let digits = hex::encode(alloc, secret.0)?;
    let list = clients_to_text(alloc, clients)?;
    format!(in alloc; "{digits}\n{list}")
}

/// Removes a file, if it is there.
fn remove_old<R: Files>(rt: &R, path: &str) -> io::Result<()> {
    match fs::remove_file(rt, path) {
        Err(error) if error.kind() != ErrorKind::NotFound => Err(error),
        _ => Ok(()),
    }
}

/// Writes a file that only its owner may read, and that no other program has open.
fn write_new<R: Files>(rt: &R, path: &str, text: &str) -> io::Result<()> {
    remove_old(rt, path)?;
    let mut options = OpenOptions::new();
    options.write(true).create_new(true).mode(MODE);
    let mut file = options.open(rt, path)?;
    file.write_all(text.as_bytes())?;
    file.sync_all()
}

/// Writes a text to a temporary file that only its owner may read, and renames it, so that the file
/// is whole or as it was, whenever the machine stops.
pub fn write_private<R: Files>(
    rt: &R,
    alloc: Global,
    path: &str,
    text: &str,
) -> Result<io::Result<()>, AllocError> {
    let beside = format!(in alloc; "{path}{TEMPORARY}")?;
    if let Err(error) = write_new(rt, &beside, text) {
        return Ok(Err(error));
    }
    Ok(fs::rename(rt, beside.as_str(), path))
}
