//! The sockets of Ethernet ports.

ghost use Rattle.std.specs.Prelude.{◌≡◌, ◌<◌, ◌≤◌, ℕ, Bool, List, [], ◌∷◌, Option, Result, IfOk, IfSome, OnErr, OnOk, is_some, length, slice_index, true};
ghost use Rattle.ipx_carrier.specs.declared.fault.DeviceFault.{DeviceFault};
ghost use Rattle.ipx_carrier.specs.Readiness.{AsksPortWithMark, MarksStay};
ghost use Rattle.ipx_ethernet_ports.specs.declared.end_sockets.FrameCame.{FrameCame};
ghost use Rattle.ipx_ethernet_ports.specs.EndTraffic.{EndFrame, EndTraffic, EndsPass, came_in, failures_counted, frame_at, frames_in};

use ipx_carrier::DeviceFault;

/// A frame that came to a port: from which remote, and how many bytes it has.
#[derive(Clone, Copy, PartialEq, Eq)]
pub struct FrameCame {
    pub end: usize,
    pub size: usize,
}

/// Sockets with ports, which each have remotes that send and receive frames. Ports, and the remotes
/// of each, are numbered from 0.
///
/// They count their own failures, and nothing else can raise that count. What was received and sent
/// is stated only for sockets that record it. What comes from an unknown sender, or has no frame, is
/// not handed over, but counted.
pub trait EndSockets {
    /// How many remotes each port has. No call changes it.
    ghost ends_of: { Self → List ℕ };

    /// How often they failed. It stays at the greatest u64.
    ghost failed: { Self → ℕ };

    /// What was received and sent so far, if the sockets record that.
    ghost traffic: { Self → Option EndTraffic };

    /// How many datagrams came that were not handed over. That never falls.
    ghost filtered: { Self → ℕ };

    /// Whether something may wait at each port. Sockets that keep no marks say so of each.
    ghost marked: { Self → ℕ → Bool } = { λ s port. true };

    /// What `receive` does: at this port it gives this answer, with this buffer then, and the
    /// sockets before become those after.
    ghost asks: { ℕ → Result (Option FrameCame) DeviceFault → List ℕ → Self → Self → Type 0 };

    /// How `send` of this frame may leave the sockets, failed or not.
    ghost sends: { Self → EndFrame → Self → Type 0 };

    /// How many ports there are.
    fn ports(&self) -> usize
        ensures { result ≡ length (ends_of self.now) };

    /// How many remotes a port has. The port must exist.
    fn ends(&self, port: usize) -> usize
        requires { port < length (ends_of self.now) }
        ensures { result ≡ slice_index (ends_of self.now) port };

    /// How often they failed to send or to receive.
    fn failures(&self) -> u64
        ensures { result ≡ failed self.now };

    /// How many datagrams came that were not handed over.
    fn filtered(&self) -> u64
        ensures { result ≡ filtered self.now };

    /// Sends a frame by a port to one of its remotes. If that fails nothing is sent.
    ///
    /// The port and the remote must exist.
    fn send(&mut self, port: usize, end: usize, bytes: &[u8]) -> Result<(), DeviceFault>
        requires there { port < length (ends_of self.old) }
        requires end { end < slice_index (ends_of self.old) port }
        ensures sent { OnOk result (EndsPass (traffic self.old) (traffic self.new)
            [] (frame_at port bytes.now end ∷ [])) }
        ensures sends { sends self.old (frame_at port bytes.now end) self.new }
        ensures refused { OnErr result (traffic self.new ≡ traffic self.old) }
        ensures failures { failed self.new ≡ failures_counted result (failed self.old) }
        ensures ends { ends_of self.new ≡ ends_of self.old }
        ensures marks { MarksStay (marked self.old) (marked self.new) }
        ensures filtered { filtered self.new ≡ filtered self.old };

    /// Takes the first frame that waits at a port, if there is one. Its bytes go to the front of
    /// `room`. What doesn't fit of a longer one is lost.
    ///
    /// The port must exist.
    fn receive(&mut self, port: usize, room: &mut [u8]) -> Result<Option<FrameCame>, DeviceFault>
        requires { port < length (ends_of self.old) }
        ensures asked { asks port result room.new self.old self.new }
        ensures received { IfOk result (λ came. EndsPass (traffic self.old) (traffic self.new)
            (frames_in (came_in port room.new came)) []) }
        ensures end { IfOk result (λ came. IfSome came (λ c.
            c.end < slice_index (ends_of self.old) port)) }
        ensures within { IfOk result (λ came. IfSome came (λ c. c.size ≤ length room.old)) }
        ensures refused { OnErr result (traffic self.new ≡ traffic self.old) }
        ensures failures { failed self.new ≡ failures_counted result (failed self.old) }
        ensures ends { ends_of self.new ≡ ends_of self.old }
        ensures marks { IfOk result (λ came. AsksPortWithMark port (is_some came)
            (marked self.old) (marked self.new)) }
        ensures marks_stay { OnErr result (MarksStay (marked self.old) (marked self.new)) }
        ensures filtered { filtered self.old ≤ filtered self.new };
}
