//! Files that a running router writes, and the last one that it could not write.

ghost use Rattle.std.specs.Prelude.{◌≡◌, Err, IfErr, Ok, OnOk};

use ipx_config::TEMPORARY;
use std::alloc::Global;
use std::io::ErrorKind;
use std::rt::Files;
use std::{fs, io};

/// A file that a running router writes.
#[derive(Clone, Copy, PartialEq, Eq)]
pub enum WrittenFile {
    Metrics,
    Tables,
    Secret,
}

/// A file that could not be written, and the system's error.
#[derive(Clone, Copy)]
pub struct FileFault {
    pub file: WrittenFile,
    pub error: io::Error,
}

/// Why a file was not written.
#[derive(Clone, Copy)]
pub enum WriteFault {
    OutOfMemory,
    /// The system refused it, or memory ran out as it was written.
    File(io::Error),
}

impl WrittenFile {
    /// The key that names the file in the router's own file.
    pub fn key(&self) -> &'static str {
        match self {
            WrittenFile::Metrics => "metrics_file",
            WrittenFile::Tables => "tables_file",
            WrittenFile::Secret => "secret_file",
        }
    }
}

/// The result of writing a file, with its error as a fault.
pub fn written(done: io::Result<()>) -> Result<(), WriteFault>
    ensures well { OnOk done (result ≡ Ok tt) }
    ensures refused { IfErr done (λ e. result ≡ Err (WriteFault.File e)) }
{
    match done {
        Ok(()) => Ok(()),
        Err(error) => Err(WriteFault::File(error)),
    }
}

/// Writes a text to a temporary file and renames it, so that no reader ever sees half of the file.
/// The error is the system's, or that memory ran out.
pub fn write_whole<R: Files>(rt: &R, alloc: Global, path: &str, text: &str) -> io::Result<()> {
    let Ok(beside) = format!(in alloc; "{path}{TEMPORARY}") else {
        return Err(io::Error::from(ErrorKind::OutOfMemory));
    };
    fs::write(rt, beside.as_str(), text)?;
    fs::rename(rt, beside.as_str(), path)
}
