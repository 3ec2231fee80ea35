//! Datagrams in memory, for tests and for runs without a network.

ghost use Rattle.std.specs.Prelude.{◌≡◌, ◌<◌, ◌≤◌, [], ◌∷◌, ◌++◌, OnOk, OnErr, IfOk, IfSome, Some, None, drop, length, map, option_map, replicate, slice_get, take};
ghost use Rattle.ipx_carrier.specs.Device.{received_in};
ghost use Rattle.ipx_carrier.specs.Memory.{KeepsAllButWaiting, WaitsLast, datagram_bytes, fails_next, memory_received, memory_sent, named_after, traffic_of, waiting_of};

use crate::counting::saturating_increment;
use crate::datagrams::{CountsFiltered, Datagrams};
use crate::fault::DeviceFault;
use ipx_wire::OutOfMemory;
use std::alloc::Global;
use std::collections::VecDeque;

/// A datagram that was sent.
#[derive(Drop)]
pub struct SentDatagram {
    /// The port of the device.
    pub port: usize,
    /// The IP address that it went to.
    pub to: [u8; 4],
    pub bytes: Vec<u8>,
}

/// What a port gave when it was asked for a datagram.
#[derive(Drop)]
pub struct KeptAnswer {
    port: usize,
    bytes: Option<Vec<u8>>,
}

/// A device that receives the datagrams that are put into it, and keeps those that it sends.
///
/// Datagrams of a port are received in the order in which they were put. `send` and `receive` fail
/// if out of memory, and at the call that [`MemoryDatagrams::fail_at`] names. They never fail
/// otherwise.
#[derive(Drop)]
pub struct MemoryDatagrams {
    alloc: Global,
    waiting: Vec<VecDeque<Vec<u8>>>,
    answers: Vec<KeptAnswer>,
    sent: Vec<SentDatagram>,
    failures: u64,
    fails_after: Option<u64>,
    refusals: u64,
}

impl MemoryDatagrams {
    /// A device with this many ports, and no datagrams.
    pub fn new(alloc: Global, ports: usize) -> Result<MemoryDatagrams, OutOfMemory>
        ensures ports { IfOk result (λ m. length m.waiting.items ≡ ports) }
        ensures waiting { IfOk result (λ m. waiting_of m ≡ replicate ports []) }
        ensures traffic { IfOk result (λ m. traffic_of m ≡ record { received = []; sent = [] }) }
        ensures failures { IfOk result (λ m. m.failures ≡ 0) }
        ensures named { IfOk result (λ m. m.fails_after ≡ None) }
        ensures refusals { IfOk result (λ m. m.refusals ≡ 0) }
    {
        let mut waiting = Vec::new(alloc);
        for _port in 0..ports {
            waiting.push(VecDeque::new(alloc))?;
        }
        Ok(MemoryDatagrams {
            alloc,
            waiting,
            answers: Vec::new(alloc),
            sent: Vec::new(alloc),
            failures: 0,
            fails_after: None,
            refusals: 0,
        })
    }

    /// Puts a datagram after those that wait at a port. The port must exist.
    pub fn put(&mut self, alloc: Global, port: usize, bytes: &[u8]) -> Result<(), OutOfMemory>
        requires { port < length self.old.waiting.items }
        ensures put { OnOk result
            (WaitsLast (waiting_of self.old) port bytes.now (waiting_of self.new)) }
        ensures refused { OnErr result (waiting_of self.new ≡ waiting_of self.old) }
        ensures rest { KeepsAllButWaiting self.old self.new }
    {
        let datagram = bytes.to_vec(alloc)?;
        self.waiting[port].push_back(datagram)?;
        Ok(())
    }

    /// What was sent so far, the first one first.
    pub fn sent(&self) -> &[SentDatagram]
        ensures { map memory_sent result.now ≡ (traffic_of self.now).sent }
    {
        &self.sent
    }

    /// How many times `receive` returned Ok.
    pub fn received(&self) -> usize
        ensures { result ≡ length (traffic_of self.now).received }
    {
        self.answers.len()
    }

    /// How many times `send` or `receive` failed because memory was refused. It stays at the
    /// greatest u64.
    pub fn refusals(&self) -> u64
        ensures { result ≡ self.now.refusals }
    {
        self.refusals
    }

    /// The k-th `send` or `receive` from now on, counted from 1, fails. Later calls work again.
    pub fn fail_at(&mut self, k: u64)
        ensures named { self.new.fails_after ≡ Some k }
        ensures waiting { waiting_of self.new ≡ waiting_of self.old }
        ensures traffic { traffic_of self.new ≡ traffic_of self.old }
        ensures failures { self.new.failures ≡ self.old.failures }
        ensures refusals { self.new.refusals ≡ self.old.refusals }
    {
        self.fails_after = Some(k);
    }
}

/// Counts one call, and returns whether it is the one that is to fail.
fn fails_now(fails_after: &mut Option<u64>) -> bool
    ensures named { result ≡ fails_next fails_after.old }
    ensures after { fails_after.new ≡ named_after fails_after.old }
{
    match *fails_after {
        Some(1) => {
            *fails_after = None;
            true
        }
        Some(left) => {
            *fails_after = Some(left.saturating_sub(1));
            false
        }
        None => false,
    }
}

/// Keeps a datagram that is sent.
fn keep_sent(
    alloc: Global,
    sent: &mut Vec<SentDatagram>,
    port: usize,
    to: [u8; 4],
    bytes: &[u8],
) -> Result<(), OutOfMemory>
    ensures kept { OnOk result (map memory_sent sent.new.items ≡ map memory_sent sent.old.items
        ++ record { port = port; to = to; bytes = bytes.now } ∷ []) }
    ensures refused { OnErr result (sent.new.items ≡ sent.old.items) }
{
    let bytes = bytes.to_vec(alloc)?;
    sent.push(SentDatagram { port, to, bytes })?;
    Ok(())
}

/// Takes the first datagram that waits, if there is one, into the front of `room`, and records the
/// result.
fn take_waiting(
    alloc: Global,
    waiting: &mut VecDeque<Vec<u8>>,
    answers: &mut Vec<KeptAnswer>,
    port: usize,
    room: &mut [u8],
) -> Result<Option<usize>, OutOfMemory>
    ensures received { IfOk result (λ count.
        map memory_received answers.new.items ≡ map memory_received answers.old.items
        ++ record { port = port; bytes = received_in room.new count } ∷ []) }
    ensures within { IfOk result (λ count. IfSome count (λ n. n ≤ length room.old)) }
    ensures first { IfOk result (λ count. received_in room.new count ≡ option_map
        (take (length room.old)) (slice_get (map datagram_bytes waiting.old.items) 0)) }
    ensures left { IfOk result (λ count. map datagram_bytes waiting.new.items
        ≡ drop 1 (map datagram_bytes waiting.old.items)) }
    ensures refused { OnErr result
        ((answers.new.items ≡ answers.old.items) × (waiting.new.items ≡ waiting.old.items)) }
{
    let Some(datagram) = waiting.front() else {
        answers.push(KeptAnswer { port, bytes: None })?;
        return Ok(None);
    };
    let count = datagram.len().min(room.len());
    let kept = datagram[..count].to_vec(alloc)?;
    answers.push(KeptAnswer {
        port,
        bytes: Some(kept),
    })?;
    room[..count].copy_from_slice(&datagram[..count]);
    waiting.pop_front();
    Ok(Some(count))
}

impl Datagrams for MemoryDatagrams {
    ghost use Rattle.std.specs.Prelude.{Some, length};
    ghost use Rattle.ipx_carrier.specs.Memory.{FailsAsNamed, MemoryFails, MemoryReceives, MemorySends, traffic_of, waiting_of};

    ghost port_count = { λ m. length m.waiting.items };

    ghost failed = { λ m. m.failures };

    ghost traffic = { λ m. Some (traffic_of m) };

    ghost waiting = { λ m. Some (waiting_of m) };

    ghost fails = { FailsAsNamed };

    ghost access = { λ d. [] };

    ghost filtered = { λ d. 0 };

    ghost receives = { MemoryReceives };

    ghost sends = { MemorySends };

    ghost fails_to_receive = { λ m port size n. MemoryFails m n };

    ghost fails_to_send = { λ m datagram n. MemoryFails m n };

    fn ports(&self) -> usize {
        self.waiting.len()
    }

    fn failures(&self) -> u64 {
        self.failures
    }

    fn send(&mut self, port: usize, to: [u8; 4], bytes: &[u8]) -> Result<(), DeviceFault> {
        if fails_now(&mut self.fails_after) {
            self.failures += 1;
            return Err(DeviceFault);
        }
        if keep_sent(self.alloc, &mut self.sent, port, to, bytes).is_err() {
            saturating_increment(&mut self.refusals);
            self.failures += 1;
            return Err(DeviceFault);
        }
        Ok(())
    }

    fn receive(&mut self, port: usize, room: &mut [u8]) -> Result<Option<usize>, DeviceFault> {
        if fails_now(&mut self.fails_after) {
            self.failures += 1;
            return Err(DeviceFault);
        }
        let waiting = &mut self.waiting[port];
        let Ok(count) = take_waiting(self.alloc, waiting, &mut self.answers, port, room) else {
            saturating_increment(&mut self.refusals);
            self.failures += 1;
            return Err(DeviceFault);
        };
        Ok(count)
    }
}

impl CountsFiltered for MemoryDatagrams {
    fn filtered(&self) -> u128 {
        // Nothing is filtered.
        0
    }
}
