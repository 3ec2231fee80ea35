//! Sockets in memory, for tests and for runs without a network.

ghost use Rattle.std.specs.Prelude.{◌≡◌, ◌≤◌, ◌++◌, ◌∷◌, [], None, Some, OnErr, OnOk};
ghost use Rattle.ipx_ethernet_ports.specs.EndTraffic.{frame_at};
ghost use Rattle.ipx_ethernet_ports.specs.MemoryTraffic.{ends_traffic, frames_waiting, memory_frames};

use crate::end_sockets::{EndSockets, FrameCame};
use crate::taking::put_front;
use ipx_carrier::{DeviceFault, saturating_increment};
use ipx_wire::OutOfMemory;
use std::alloc::Global;

/// A frame that came from a remote, or that was sent to one.
#[derive(Drop)]
pub struct MemoryFrame {
    pub port: usize,
    pub end: usize,
    pub bytes: Vec<u8>,
}

/// Sockets that receive the frames that are put into them, and record what was received and sent.
///
/// Frames of a port are received in the order in which they were put. Sending fails to the remote
/// that [`MemoryEnds::break_end`] named. Otherwise calls fail only if out of memory.
#[derive(Drop)]
pub struct MemoryEnds {
    alloc: Global,
    ends: Vec<usize>,
    waiting: Vec<MemoryFrame>,
    came: Vec<MemoryFrame>,
    went: Vec<MemoryFrame>,
    broken: Option<(usize, usize)>,
    failures: u64,
    unknown_senders: u64,
}

/// Records a frame after others.
fn keep_frame(
    alloc: Global,
    frames: &mut Vec<MemoryFrame>,
    port: usize,
    end: usize,
    bytes: &[u8],
) -> Result<(), OutOfMemory>
    ensures kept { OnOk result (memory_frames frames.new.items
        ≡ memory_frames frames.old.items ++ frame_at port bytes.now end ∷ []) }
    ensures refused { OnErr result (frames.new.items ≡ frames.old.items) }
{
    let bytes = bytes.to_vec(alloc)?;
    frames.push(MemoryFrame { port, end, bytes })?;
    Ok(())
}

/// Takes the first frame of a port, if one waits.
fn take_first(waiting: &mut Vec<MemoryFrame>, port: usize) -> Option<MemoryFrame> {
    let place = waiting.iter().position(|frame| frame.port == port)?;
    Some(waiting.remove(place))
}

impl MemoryEnds {
    /// Sockets with a port for each of these numbers of remotes, to which nothing came yet.
    pub fn new(alloc: Global, ends: Vec<usize>) -> MemoryEnds
        ensures ends { result.ends.items ≡ ends.items }
        ensures traffic { ends_traffic result ≡ record { came = []; went = [] } }
        ensures waiting { frames_waiting result ≡ [] }
        ensures fresh { (result.broken ≡ None) × (result.failures ≡ 0) × (result.unknown_senders ≡ 0) }
    {
        MemoryEnds {
            alloc,
            ends,
            waiting: Vec::new(alloc),
            came: Vec::new(alloc),
            went: Vec::new(alloc),
            broken: None,
            failures: 0,
            unknown_senders: 0,
        }
    }

    /// Puts a frame after those that wait at a port. If its remote does not exist, it is received
    /// as from an unknown sender.
    pub fn put(&mut self, port: usize, end: usize, bytes: &[u8]) -> Result<(), OutOfMemory>
        ensures put { OnOk result (frames_waiting self.new
            ≡ frames_waiting self.old ++ frame_at port bytes.now end ∷ []) }
        ensures refused { OnErr result (frames_waiting self.new ≡ frames_waiting self.old) }
        ensures ends { self.new.ends.items ≡ self.old.ends.items }
        ensures traffic { ends_traffic self.new ≡ ends_traffic self.old }
        ensures counts { (self.new.failures ≡ self.old.failures)
            × (self.new.unknown_senders ≡ self.old.unknown_senders) × (self.new.broken ≡ self.old.broken) }
    {
        keep_frame(self.alloc, &mut self.waiting, port, end, bytes)
    }

    /// Sending to this remote of a port fails from now on. A remote that was named before works
    /// again.
    pub fn break_end(&mut self, port: usize, end: usize)
        ensures { self.new ≡ record self.old { broken = Some (record { 0 = port; 1 = end }) } }
    {
        self.broken = Some((port, end));
    }

    /// What was sent so far, in order.
    pub fn went(&self) -> &[MemoryFrame]
        ensures { memory_frames result.now ≡ (ends_traffic self.now).went }
    {
        &self.went
    }
}

impl EndSockets for MemoryEnds {
    ghost ends_of = { λ m. m.ends.items };

    ghost failed = { λ m. m.failures };

    ghost traffic = { λ m. Some (ends_traffic m) };

    ghost filtered = { λ m. m.unknown_senders };

    // What they were asked is tested.
    ghost asks = { λ port answer room m n. Unit {0} };

    // Their traffic says what was sent.
    ghost sends = { λ m frame n. Unit {0} };

    fn ports(&self) -> usize {
        self.ends.len()
    }

    fn ends(&self, port: usize) -> usize {
        self.ends[port]
    }

    fn failures(&self) -> u64 {
        self.failures
    }

    fn filtered(&self) -> u64 {
        self.unknown_senders
    }

    fn send(&mut self, port: usize, end: usize, bytes: &[u8]) -> Result<(), DeviceFault> {
        if self.broken == Some((port, end)) {
            saturating_increment(&mut self.failures);
            return Err(DeviceFault);
        }
        if keep_frame(self.alloc, &mut self.went, port, end, bytes).is_err() {
            saturating_increment(&mut self.failures);
            return Err(DeviceFault);
        }
        Ok(())
    }

    fn receive(&mut self, port: usize, room: &mut [u8]) -> Result<Option<FrameCame>, DeviceFault> {
        let Some(frame) = take_first(&mut self.waiting, port) else {
            return Ok(None);
        };
        if frame.end >= self.ends[port] {
            saturating_increment(&mut self.unknown_senders);
            return Ok(None);
        }
        let size = put_front(&frame.bytes, room);
        let end = frame.end;
        if keep_frame(self.alloc, &mut self.came, port, end, &room[..size]).is_err() {
            saturating_increment(&mut self.failures);
            return Err(DeviceFault);
        }
        Ok(Some(FrameCame { end, size }))
    }
}
