//! Messages that are being written.

ghost use Rattle.std.specs.Prelude.{◌≡◌, ◌≢◌, ◌≤◌, ◌<◌, ◌↔◌, IfOk, IsTrue, OnErr, [], length};

use crate::readiness_gate::Gate;
use std::alloc::Global;
use std::io::{ErrorKind, Write};

/// The most bytes of one write: a writable pipe takes this many without blocking.
const PIECE: usize = 4096;

/// The most pieces that are written before the next turn of the network.
const MAX_PIECES: u32 = 64;

/// A write failed.
#[derive(Clone, Copy)]
pub struct WriteFault;

/// The bytes of a message, of which the first may be written already. What a slow reader has not
/// taken yet is kept here, and blocks nothing else.
#[derive(Drop)]
pub struct Outlet {
    gate: Gate,
    bytes: Vec<u8>,
    written: usize,
    ghost within: { written ≤ length bytes.items },
}

impl Outlet {
    ghost use Rattle.ipx_host.specs.HostOutput.{Writes, left_of};

    /// Creates an empty outlet, for a writer with this gate.
    pub fn new(alloc: Global, gate: Gate) -> Outlet
        ensures { left_of result ≡ [] }
    {
        Outlet {
            gate,
            bytes: Vec::new(alloc),
            written: 0,
        }
    }

    /// Returns whether everything that was put in is written.
    pub fn is_empty(&self) -> bool
        ensures { IsTrue result ↔ (left_of self.now ≡ []) }
    {
        self.written == self.bytes.len()
    }

    /// Sets the bytes of the next message. The previous ones must be written already, or what
    /// remains of them is lost.
    pub fn put(&mut self, bytes: Vec<u8>)
        ensures { left_of self.new ≡ bytes.items }
    {
        self.written = 0;
        self.bytes = bytes;
    }

    /// Writes what the writer takes without blocking. Returns whether it wrote anything.
    pub fn write<W: Write>(&mut self, writer: &mut W) -> Result<bool, WriteFault>
        // This also holds if the writer fails. The first bytes of what was left are written then.
        ensures writes { Writes (left_of self.old) (left_of self.new)
            (W.contents writer.old) (W.contents writer.new) }
        ensures wrote { IfOk result (λ wrote. IsTrue wrote
            ↔ (length (left_of self.new) < length (left_of self.old))) }
        // What the writer did not take is left.
        ensures failed { OnErr result (left_of self.new ≢ []) }
    {
        let mut wrote = false;
        for _ in 0..MAX_PIECES {
            if self.is_empty() || !self.gate.is_open() {
                break;
            }
            wrote |= self.write_piece(writer)?;
        }
        Ok(wrote)
    }

    /// Writes one piece. Returns whether anything was written.
    fn write_piece<W: Write>(&mut self, writer: &mut W) -> Result<bool, WriteFault>
        ensures writes { Writes (left_of self.old) (left_of self.new)
            (W.contents writer.old) (W.contents writer.new) }
        ensures wrote { IfOk result (λ wrote. IsTrue wrote
            ↔ (length (left_of self.new) < length (left_of self.old))) }
        ensures failed { OnErr result (left_of self.new ≡ left_of self.old) }
    {
        let rest = &self.bytes[self.written..];
        let piece = &rest[..rest.len().min(PIECE)];
        match writer.write(piece) {
            Ok(0) => Err(WriteFault),
            Ok(count) => {
                self.written += count;
                self.gate.pass();
                Ok(true)
            }
            Err(error) if error.kind() == ErrorKind::Interrupted => Ok(false),
            Err(error) if error.kind() == ErrorKind::WouldBlock => {
                self.gate.pass();
                Ok(false)
            }
            Err(_) => Err(WriteFault),
        }
    }
}
