//! What a sending host reads, and queues on its link.

ghost use Rattle.std.specs.Prelude.{◌≡◌, ◌≢◌, ◌<◌, ◌≤◌, ◌+◌, ◌⊎◌, ℕ, List, false, true, length, take, IfErr, IfOk, OnErr, OnOk, Err, Ok};
ghost use Rattle.std.specs.Io.KnownBytes.{Keeps};
ghost use Rattle.std.specs.IoError.{error_kind};
ghost use Rattle.std.specs.declared.io.ErrorKind.TheVariants.{Interrupted, WouldBlock};
ghost use Rattle.ipx_host.specs.Books.{EntersRead, IsUnused};
ghost use Rattle.ipx_host.specs.Feeding.{Feeds, HandsOn, ReadsOn};
ghost use Rattle.ipx_host.specs.SendSteps.{IsReadFault};
ghost use Rattle.ipx_host.specs.declared.send_outcome.SendOutcome.TheVariants as Verdicts;

use crate::acked_bytes::Ledger;
use crate::handing::hand_in;
use crate::readiness_gate::Gate;
use crate::send_outcome::SendOutcome;
use mio::Interest;
use spx_messages::{Endpoint, MAX_BYTES};
use std::alloc::{AllocError, Global};
use std::io::{self, ErrorKind, Read};
use std::net::Net;
use std::os::fd::RawFd;

/// The host reads no more while this many units are queued and not acknowledged.
const MAX_AHEAD: u64 = 16_384;

/// The descriptor of standard input.
const STDIN: RawFd = 0;

/// The state of the input: what is read and queued on a link, and how much of it is acknowledged.
pub struct Intake {
    pub gate: Gate,
    pub room: Vec<u8>,
    pub acked_bytes: Ledger,
    /// Whether all of the input was read.
    pub read: bool,
    /// Whether the end is queued.
    pub closed: bool,
    /// The end is queued only after all is read.
    ghost order: { closed ≡ true → read ≡ true },
    /// A read always has room.
    ghost roomy: { 0 < length room.items },
}

impl Drop for Intake {
    fn drop(self) {
        let Intake {
            gate: _,
            room: _,
            acked_bytes: _,
            read: _,
            closed: _,
        } = self;
    }
}

impl Intake {
    ghost use Rattle.ipx_host.specs.Midway.{feeding_at};

    /// Creates an intake that has read nothing yet.
    pub fn new<R: Net>(rt: &R, alloc: Global) -> Result<Intake, AllocError>
        ensures unread { IfOk result (λ i. i.read ≡ false) }
        ensures unended { IfOk result (λ i. i.closed ≡ false) }
        ensures unused { IfOk result (λ i. IsUnused i.acked_bytes) }
    {
        Ok(Intake {
            gate: Gate::new(rt, alloc, STDIN, Interest::READABLE),
            room: vec![in alloc; 0; MAX_BYTES]?,
            acked_bytes: Ledger::new(alloc),
            read: false,
            closed: false,
        })
    }

    /// Handles the result of one read. Bytes are queued as one message, and a read of no bytes is
    /// the end of the input. Returns whether there may be more to read at once.
    fn take_read(
        &mut self,
        alloc: Global,
        endpoint: &mut Endpoint,
        id: u16,
        read: io::Result<usize>,
    ) -> Result<bool, SendOutcome>
        requires { IfOk read (λ n. n ≤ length self.old.room.items) }
        ensures closed { self.new.closed ≡ self.old.closed }
        // The bytes of a read are queued whole, and counted. This fails only if out of memory.
        ensures came { IfOk read (λ n. OnOk result (
            HandsOn endpoint.old endpoint.new id (take n self.old.room.items)
            × EntersRead self.old.acked_bytes self.new.acked_bytes (take n self.old.room.items))) }
        ensures memory { IfOk read (λ n. IfErr result (λ v. v ≡ Verdicts.OutOfMemory)) }
        // A read of no bytes means the end, and nothing else does.
        ensures over { IfOk read (λ n. n ≡ 0
            → (result ≡ Ok true) × (self.new.read ≡ true)) }
        ensures more { IfOk read (λ n. n ≢ 0 → self.new.read ≡ self.old.read) }
        // Neither an interruption nor a read that would block is the end.
        ensures again { IfErr read (λ e. error_kind e ≡ Interrupted
            → result ≡ Ok true) }
        ensures later { IfErr read (λ e. error_kind e ≡ WouldBlock
            → result ≡ Ok false) }
        ensures unread { IfErr read (λ e. error_kind e ≢ Interrupted
            → error_kind e ≢ WouldBlock → result ≡ Err Verdicts.Unread) }
        ensures still { OnErr read ((endpoint.new ≡ endpoint.old)
            × (self.new.read ≡ self.old.read) × (self.new.acked_bytes ≡ self.old.acked_bytes)) }
        ensures fault { IfErr result IsReadFault }
    {
        let count = match read {
            Ok(count) => count,
            Err(error) if error.kind() == ErrorKind::Interrupted => return Ok(true),
            Err(error) if error.kind() == ErrorKind::WouldBlock => {
                self.gate.pass();
                return Ok(false);
            }
            Err(_) => return Err(SendOutcome::Unread),
        };
        self.gate.pass();
        if count == 0 {
            self.read = true;
            return Ok(true);
        }
        let handed = hand_in(alloc, endpoint, id, &self.room[..count]);
        if handed.is_err() || self.acked_bytes.add(count as u64).is_err() {
            return Err(SendOutcome::OutOfMemory);
        }
        Ok(true)
    }

    /// Reads once, and queues the bytes as one message. Returns whether there were any bytes, or
    /// the end.
    fn read_some<I: Read>(
        &mut self,
        alloc: Global,
        endpoint: &mut Endpoint,
        id: u16,
        reader: &mut I,
    ) -> Result<bool, SendOutcome>
        // The bytes of a read are queued whole, and counted.
        ensures reads { self.old.read ≡ false → OnOk result ((bytes : List ℕ) × ReadsOn
            (feeding_at self.old endpoint.old (I.remaining reader.old))
            (feeding_at self.new endpoint.new (I.remaining reader.new))
            id bytes) }
        ensures unread { result ≡ Err Verdicts.Unread
            → Keeps (I.remaining reader.old) (I.remaining reader.new)
            × (endpoint.new ≡ endpoint.old) }
        ensures fault { IfErr result IsReadFault }
    {
        let read = reader.read(&mut self.room);
        self.take_read(alloc, endpoint, id, read)
    }

    /// Reads if there is something to read and not too much is unacknowledged. After the last read
    /// it queues the end on the link of an id. Returns whether anything was queued.
    pub fn feed<I: Read>(
        &mut self,
        alloc: Global,
        endpoint: &mut Endpoint,
        id: u16,
        reader: &mut I,
    ) -> Result<bool, SendOutcome>
        ensures feeds { OnOk result ((bytes : List ℕ) × Feeds
            (feeding_at self.old endpoint.old (I.remaining reader.old))
            (feeding_at self.new endpoint.new (I.remaining reader.new))
            id bytes) }
        // If all is read, the end is queued at once.
        ensures ends { self.old.read ≡ true → self.old.closed ≡ false
            → OnOk result (self.new.closed ≡ true) }
        // Nothing is read if all is read, or if too much is unacknowledged.
        ensures idle { (self.old.read ≡ true) ⊎ (16384 ≤ self.old.acked_bytes.ahead)
            → reader.new ≡ reader.old }
        ensures fault { IfErr result IsReadFault }
    {
        if self.read && !self.closed {
            if endpoint.close(alloc, id).is_err() {
                return Err(SendOutcome::OutOfMemory);
            }
            self.closed = true;
            return Ok(true);
        }
        if self.read || self.acked_bytes.ahead() >= MAX_AHEAD || !self.gate.is_open() {
            return Ok(false);
        }
        self.read_some(alloc, endpoint, id, reader)
    }
}
