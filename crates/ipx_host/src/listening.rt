//! A host that listens: its steps, and why it stops.

ghost use Rattle.std.specs.Prelude.{◌≡◌, ◌≢◌, ◌↔◌, ◌⊎◌, ◌<◌, ◌≤◌, ◌∷◌, ◌++◌, [], ℕ, ℤ, List, Option, IfOk, IsTrue, None, Some, Err, Ok, map};
ghost use Rattle.ipx_carrier.specs.Mapping.{node_at};
ghost use Rattle.ipx_carrier.specs.Turns.{peers_of};
ghost use Rattle.ipx_config.specs.AllowedPeers.{named_in};
ghost use Rattle.ipx_sockets.specs.PollEvents.{Watched};
ghost use Rattle.ipx_sockets.specs.Senders.{udp_fds};
ghost use Rattle.ipx_sockets.specs.SourceFilter.{drops_in};
ghost use Rattle.ipx_sockets.specs.AccessLists.{access_by};
ghost use Rattle.ipx_host.specs.Turning.{DrivesTurn};
ghost use Rattle.ipx_wire.specs.declared.address.Socket.{Socket};
ghost use Rattle.spx_messages.specs.EndpointView.{buffers_at, held_at};
ghost use Rattle.ipx_host.specs.Access.{guarded_host};
ghost use Rattle.ipx_host.specs.Hosting.{HearsAndNotesAll, Serves, StepView, StepsTo, bytes_of};
ghost use Rattle.ipx_host.specs.HostOutput.{Writes, left_of};
ghost use Rattle.ipx_host.specs.HostPorts.{IsOpened};
ghost use Rattle.ipx_sockets.specs.Polling.{FailedToWait, FailsToWait, WaitsWell, watched_if};
ghost use Rattle.ipx_host.specs.Midway.{counts_at};
ghost use Rattle.ipx_host.specs.SessionLogs.{LogsCounts, nothing_counted};
ghost use Rattle.ipx_host.specs.Sleeping.{MayRest};
ghost use Rattle.ipx_host.specs.ListenOutcomes.{stop_in, stop_status};
ghost use Rattle.ipx_host.specs.Turning.{refused_after};
ghost use Rattle.ipx_host.specs.declared.listening.ListenOutcome.{ListenOutcome as AStop};
ghost use Rattle.ipx_host.specs.declared.listening.ListenOutcome.TheVariants as Stops;

use crate::idle::rest_of;
use crate::output::WriteFault;
use crate::readiness_gate::Gate;
use crate::running_host::{Activity, RunningHost};
use crate::serving::Sessions;
use crate::start::StartFault;
use ipx_config::HostConfig;
use ipx_sockets::WaitFault;
use log::Log;
use mio::Interest;
use std::alloc::Global;
use std::io::Write;
use std::net::Net;
use std::os::fd::RawFd;
use std::rt::Clock;

/// The descriptor of standard output.
const STDOUT: RawFd = 1;

/// Why a listening host stops.
#[derive(Clone, Copy)]
pub enum ListenOutcome {
    /// The end of the first connection that was heard from was received.
    Ended,
    /// That connection was lost.
    Lost,
    /// Standard output can't be written.
    Unwritten,
    /// The system can't wait for the socket.
    Unwaited,
}

impl From<WriteFault> for ListenOutcome {
    ghost use Rattle.std.specs.Prelude.{◌≡◌};
    ghost use Rattle.ipx_host.specs.declared.listening.ListenOutcome.TheVariants.{Unwritten};

    ghost from_gives = { λ _ e. e ≡ Unwritten };

    fn from(_fault: WriteFault) -> ListenOutcome {
        ListenOutcome::Unwritten
    }
}

impl From<WaitFault> for ListenOutcome {
    ghost use Rattle.std.specs.Prelude.{◌≡◌};
    ghost use Rattle.ipx_host.specs.declared.listening.ListenOutcome.TheVariants.{Unwaited};

    ghost from_gives = { λ _ e. e ≡ Unwaited };

    fn from(_fault: WaitFault) -> ListenOutcome {
        ListenOutcome::Unwaited
    }
}

/// A host that listens.
pub struct ListeningHost<'a, R: Clock> {
    pub station: RunningHost<'a, R>,
    pub sessions: Sessions,
}

impl<'a, R: Clock> Drop for ListeningHost<'a, R> {
    fn drop(self) {
        let ListeningHost {
            station: _,
            sessions: _,
        } = self;
    }
}

impl<'a, R: Net + Log + Clock> ListeningHost<'a, R> {
    ghost use Rattle.ipx_host.specs.Midway.{around_of, listening_at};

    /// Opens a host that listens at the socket of its file. It holds no connection yet.
    pub fn open(
        rt: &'a R,
        alloc: Global,
        file: &HostConfig,
        once: bool,
    ) -> Result<ListeningHost<'a, R>, StartFault>
        ensures nobody { IfOk result (λ l. l.sessions.held.items ≡ []) }
        ensures nothing { IfOk result (λ l. left_of l.sessions.output ≡ []) }
        ensures once { IfOk result (λ l. l.sessions.once ≡ once) }
        // It listens at the socket of its file, with the buffers that the file says, and nowhere
        // else.
        ensures listens { IfOk result (λ l.
            buffers_at l.station.core.endpoint file.now.socket ≡ Some file.now.buffers) }
        ensures alone { IfOk result (λ l. (socket : Socket) → socket.0 ≢ file.now.socket.0
            → buffers_at l.station.core.endpoint socket ≡ None) }
        ensures network { IfOk result (λ l.
            l.station.core.endpoint.network ≡ file.now.network) }
        ensures node { IfOk result (λ l.
            l.station.core.endpoint.node ≡ node_at file.now.address) }
        ensures router { IfOk result (λ l.
            l.station.core.endpoint.router ≡ node_at file.now.router) }
        ensures links { IfOk result (λ l. (id : ℕ) → held_at l.station.core.endpoint id ≡ None) }
        ensures accepted { IfOk result (λ l. l.station.core.came ≡ None) }
        ensures unpaced { IfOk result (λ l. l.station.core.paced ≡ None) }
        ensures uncounted { IfOk result (λ l.
            counts_at l.station.refused l.sessions ≡ nothing_counted) }
        // The file says who may request a connection.
        ensures from { IfOk result (λ l.
            named_in l.station.core.from ≡ named_in file.now.from) }
        ensures own { IfOk result (λ l. l.station.core.network ≡ file.now.network) }
        ensures peers { IfOk result (λ l.
            peers_of l.station.host_socket.ports.peers.items ≡ (file.now.router ∷ []) ∷ []) }
        // The file says which hosts it receives from and sends to.
        ensures access_list { IfOk result (λ l.
            map access_by l.station.host_socket.ports.device.access_lists.items ≡ guarded_host file.now None ∷ []) }
        // Its port is as it was opened: asked nothing yet, and marked.
        ensures opened { IfOk result (λ l.
            IsOpened file.now None l.station.host_socket.ports) }
        // It watches its one socket, and standard output if it can be polled, and has not waited.
        ensures watches { IfOk result (λ l. (gate : Option ℤ) × (l.station.poller.poll.trace.items
            ≡ map Watched (udp_fds l.station.host_socket.ports.device.device.sockets.items)
            ++ watched_if gate)) }
    {
        let mut station = RunningHost::open(rt, alloc, file, None)?;
        station
            .core
            .endpoint
            .listen(alloc, file.socket, file.buffers)?;
        let gate = Gate::new(rt, alloc, STDOUT, Interest::WRITABLE);
        station.watch(gate.fd());
        Ok(ListeningHost {
            station,
            sessions: Sessions::new(alloc, gate, once)?,
        })
    }

    /// Takes a turn, and notes the datagram that was received.
    fn hear(&mut self, rt: &R, alloc: Global) -> Activity
        // More may be waiting after a filtered datagram.
        ensures kept { drops_in self.old.station.host_socket.ports.device.kept
            < drops_in self.new.station.host_socket.ports.device.kept → IsTrue result.active }
        // What is evicted and turned away for the datagram is counted, and that the turn ran out of
        // memory.
        ensures hears { (hears : HearsAndNotesAll (around_of self.old.station) (around_of self.new.station)
            self.old.station.core self.new.station.core
            self.old.sessions.held.items self.new.sessions.held.items
            (counts_at self.old.station.refused self.old.sessions)
            (counts_at self.new.station.refused self.new.sessions) self.old.sessions.once
            DrivesTurn (peers_of self.old.station.host_socket.ports.peers.items))
            × (hears.turn ≡ result)
            × (self.new.station.refused ≡ refused_after hears.turned self.old.station.refused) }
        ensures peers { self.new.station.host_socket.ports.peers ≡ self.old.station.host_socket.ports.peers }
        ensures access { map access_by self.new.station.host_socket.ports.device.access_lists.items
            ≡ map access_by self.old.station.host_socket.ports.device.access_lists.items }
        // The counts of connections that are due after the turn are logged, before the datagram is
        // noted.
        ensures told { LogsCounts (counts_at self.old.station.refused self.old.sessions)
            (counts_at self.new.station.refused self.new.sessions)
            self.new.station.core.moment }
        ensures poller { self.new.station.poller ≡ self.old.station.poller }
        ensures output { self.new.sessions.output ≡ self.old.sessions.output }
        ensures once { self.new.sessions.once ≡ self.old.sessions.once }
    {
        let turn = self.station.turn(rt, alloc);
        self.sessions.tell(rt, self.station.moment());
        if turn.heard {
            self.sessions.note(rt, &mut self.station.core);
        }
        turn
    }

    /// Takes a turn, and handles what was received. Returns whether there may be more to do at
    /// once.
    fn step<W: Write>(
        &mut self,
        rt: &R,
        alloc: Global,
        writer: &mut W,
    ) -> Result<bool, ListenOutcome>
        // More may be waiting after a filtered datagram.
        ensures kept { drops_in self.old.station.host_socket.ports.device.kept
            < drops_in self.new.station.host_socket.ports.device.kept → IfOk result IsTrue }
        // After a turn that did something there may be more to do.
        ensures steps { (step : StepView) × StepsTo (listening_at self.old (W.contents writer.old))
            (listening_at self.new (W.contents writer.new))
            self.old.sessions.once (stop_in result)
            DrivesTurn (peers_of self.old.station.host_socket.ports.peers.items) step
            × IfOk result (λ more. IsTrue step.active → IsTrue more) }
        ensures peers { self.new.station.host_socket.ports.peers ≡ self.old.station.host_socket.ports.peers }
        ensures access { map access_by self.new.station.host_socket.ports.device.access_lists.items
            ≡ map access_by self.old.station.host_socket.ports.device.access_lists.items }
        ensures poller { self.new.station.poller ≡ self.old.station.poller }
        ensures unwaited { result ≢ Err Stops.Unwaited }
        ensures written { result ≡ Err Stops.Ended
            → IsTrue self.new.sessions.once × (left_of self.new.sessions.output ≡ []) }
        ensures once { self.new.sessions.once ≡ self.old.sessions.once }
    {
        let turn = self.hear(rt, alloc);
        let moved = self.sessions.pass(alloc, &mut self.station.core, writer)?;
        self.sessions.reap(rt, alloc, &mut self.station)?;
        Ok(turn.active | moved)
    }

    /// Takes a turn, and waits if there is nothing to do.
    fn step_or_wait<W: Write>(
        &mut self,
        rt: &R,
        alloc: Global,
        writer: &mut W,
    ) -> Result<(), ListenOutcome>
        // More may be waiting after a filtered datagram, so the host does not wait.
        ensures kept { drops_in self.old.station.host_socket.ports.device.kept
            < drops_in self.new.station.host_socket.ports.device.kept →
            self.new.station.poller ≡ self.old.station.poller }
        // After a turn that did something it does not wait.
        ensures steps { (step : StepView) × StepsTo (listening_at self.old (W.contents writer.old))
            (listening_at self.new (W.contents writer.new))
            self.old.sessions.once (stop_in result)
            DrivesTurn (peers_of self.old.station.host_socket.ports.peers.items) step
            × (IsTrue step.active → self.new.station.poller ≡ self.old.station.poller) }
        ensures peers { self.new.station.host_socket.ports.peers ≡ self.old.station.host_socket.ports.peers }
        ensures access { map access_by self.new.station.host_socket.ports.device.access_lists.items
            ≡ map access_by self.old.station.host_socket.ports.device.access_lists.items }
        // The host waits only while no link has anything to do and no connection needs an action,
        // and at most ten seconds. So what is due to be logged does not wait for longer.
        ensures rests { MayRest self.new.station.core self.new.sessions.held.items
            self.old.station.poller self.new.station.poller }
        // It stops because it can't wait exactly if it waits in this step, and that fails.
        ensures unwaited { (result ≡ Err Stops.Unwaited)
            ↔ FailsToWait self.old.station.poller self.new.station.poller }
        ensures written { result ≡ Err Stops.Ended
            → IsTrue self.new.sessions.once × (left_of self.new.sessions.output ≡ []) }
        ensures once { self.new.sessions.once ≡ self.old.sessions.once }
    {
        if !self.step(rt, alloc, writer)? {
            let rest = rest_of(&self.station.core, &self.sessions.held);
            self.station.wait(rest)?;
        }
        Ok(())
    }

    /// Runs until the host stops.
    fn serve<W: Write>(&mut self, rt: &R, alloc: Global, writer: &mut W) -> ListenOutcome
        // The bytes that were left to write are written first, and then the bodies of the received
        // messages. The writer took the first of these bytes, and the rest is left to write. This
        // also holds from one step to the next.
        ensures serves { (steps : List StepView) × Serves (listening_at self.old (W.contents writer.old))
            (listening_at self.new (W.contents writer.new))
            self.old.sessions.once result
            DrivesTurn (peers_of self.old.station.host_socket.ports.peers.items) steps
            × Writes (left_of self.old.sessions.output ++ bytes_of steps)
            (left_of self.new.sessions.output)
            (W.contents writer.old) (W.contents writer.new) }
        // It stops because it can't wait exactly if its last wait failed. No other wait fails, and
        // it watches nothing more.
        ensures unwaited { (result ≡ Stops.Unwaited)
            ↔ FailedToWait self.old.station.poller self.new.station.poller }
        ensures waits { result ≢ Stops.Unwaited → (count : ℕ)
            × WaitsWell count self.old.station.poller self.new.station.poller }
        ensures written { result ≡ Stops.Ended
            → IsTrue self.new.sessions.once × (left_of self.new.sessions.output ≡ []) }
        ensures once { self.new.sessions.once ≡ self.old.sessions.once }
    {
        for _step in 0..u64::MAX {
            if let Err(stop) = self.step_or_wait(rt, alloc, writer) {
                return stop;
            }
        }
        ListenOutcome::Lost
    }
}

impl<'a, R: Net + Log + Clock + Eprint> ListeningHost<'a, R> {
    ghost use Rattle.ipx_host.specs.Midway.{listening_at};

    /// Runs until the host stops, prints why, and returns the status. The status is 0 only with
    /// `once`, and only if everything that was taken is written.
    pub fn finish<W: Write>(&mut self, rt: &R, alloc: Global, writer: &mut W) -> u8
        ensures serves { (stop : AStop) × (result ≡ stop_status stop)
            × (steps : List StepView) × Serves
            (listening_at self.old (W.contents writer.old))
            (listening_at self.new (W.contents writer.new))
            self.old.sessions.once stop
            DrivesTurn (peers_of self.old.station.host_socket.ports.peers.items) steps
            × Writes (left_of self.old.sessions.output ++ bytes_of steps)
            (left_of self.new.sessions.output)
            (W.contents writer.old) (W.contents writer.new)
            × ((stop ≡ Stops.Unwaited)
            ↔ FailedToWait self.old.station.poller self.new.station.poller) }
        // Its last wait failed and no other, or no wait failed. It watches nothing more.
        ensures waits { FailedToWait self.old.station.poller self.new.station.poller
            ⊎ ((count : ℕ) × WaitsWell count self.old.station.poller self.new.station.poller) }
        ensures written { result ≡ 0
            → IsTrue self.new.sessions.once × (left_of self.new.sessions.output ≡ []) }
        ensures few { result ≤ 1 }
        ensures once { self.new.sessions.once ≡ self.old.sessions.once }
    {
        let stopped = self.serve(rt, alloc, writer);
        tell_stop(rt, stopped)
    }
}

/// Prints why a host stopped, if that needs a message, and returns its status.
fn tell_stop<R: Eprint>(rt: &R, stopped: ListenOutcome) -> u8
    ensures { result ≡ stop_status stopped }
{
    let _ = match stopped {
        ListenOutcome::Ended => return 0,
        ListenOutcome::Lost => return 1,
        ListenOutcome::Unwritten => eprintln!(rt; "cannot write standard output"),
        ListenOutcome::Unwaited => eprintln!(rt; "cannot wait for the socket"),
    };
    1
}
