//! A sending host: what it notes of its link after each turn, and how its transfer ends.

ghost use Rattle.std.specs.Prelude.{◌≡◌, ◌≢◌, ◌<◌, ◌+◌, ◌↔◌, ◌⊎◌, ◌∷◌, ◌++◌, [], ℕ, ℤ, List, false, true, length, map, IfOk, IsTrue, Err, Ok, None, Option, Some};
ghost use Rattle.std.specs.Io.KnownBytes.{IsAtEnd};
ghost use Rattle.ipx_carrier.specs.Turns.{peers_of};
ghost use Rattle.ipx_sockets.specs.PollEvents.{Watched};
ghost use Rattle.ipx_sockets.specs.Senders.{udp_fds};
ghost use Rattle.ipx_sockets.specs.SourceFilter.{drops_in};
ghost use Rattle.ipx_sockets.specs.AccessLists.{access_by};
ghost use Rattle.ipx_host.specs.Turning.{DrivesTurn};
ghost use Rattle.ipx_wire.specs.declared.address.Address.{Address};
ghost use Rattle.spx_messages.specs.EndpointView.{held_at};
ghost use Rattle.ipx_host.specs.Books.{EntersAcknowledged};
ghost use Rattle.ipx_host.specs.Access.{guarded_host};
ghost use Rattle.ipx_host.specs.HostPorts.{IsOpened};
ghost use Rattle.ipx_config.specs.Destinations.{dialed_ip as ip_dialed};
ghost use Rattle.ipx_sockets.specs.Polling.{FailedToWait, FailsToWait, WaitsWell, watched_if};
ghost use Rattle.ipx_host.specs.SendRounds.{EndsWith, IsSendStep, LastsOn, Transfers};
ghost use Rattle.ipx_host.specs.Sent.{IsDialing};
ghost use Rattle.ipx_host.specs.Sleeping.{MayWait, longest_wait};
ghost use Rattle.ipx_host.specs.SendSteps.{IsFeedFault, IsStepFault};
ghost use Rattle.ipx_host.specs.Transfer.{IsWaiting, IsWholeAt, joined_at, left_at, state_at};
ghost use Rattle.ipx_host.specs.declared.send_outcome.SendOutcome.TheVariants as Verdicts;

use crate::handing::drop_what_came;
use crate::ids::{dialed, passed_ids};
use crate::input::Intake;
use crate::running_host::RunningHost;
use crate::send_outcome::{SendOutcome, ended_by, verdict_of};
use crate::start::StartFault;
use ipx_config::{HostConfig, dialed_ip};
use ipx_sockets::LONGEST;
use ipx_wire::Address;
use log::Log;
use spx_link::State;
use std::alloc::Global;
use std::io::Read;
use std::net::Net;
use std::rt::Clock;

/// How long to wait for the remaining acknowledgements after the peer has ended the connection too,
/// in milliseconds.
const CLOSE_TIMEOUT: u64 = 6000;

/// The time between two lines of progress, and the longest wait meanwhile, in milliseconds.
const SECOND: u64 = 1000;

/// A host that sends.
pub struct SendingHost<'a, R: Clock> {
    pub station: RunningHost<'a, R>,
    pub id: u16,
    pub input: Intake,
    /// Whether the connection was ever open.
    pub joined: bool,
    /// When the peer's end was seen.
    pub left: Option<u64>,
    pub shows: bool,
    pub next_shown: u64,
}

impl<'a, R: Clock> Drop for SendingHost<'a, R> {
    fn drop(self) {
        let SendingHost {
            station: _,
            id: _,
            input: _,
            joined: _,
            left: _,
            shows: _,
            next_shown: _,
        } = self;
    }
}

impl<'a, R: Net + Log + Clock + Eprint> SendingHost<'a, R> {
    ghost use Rattle.ipx_host.specs.Midway.{sending_at};

    /// Opens a host that requests a connection. It has read nothing yet, and noted nothing.
    pub fn open(
        rt: &'a R,
        alloc: Global,
        file: &HostConfig,
        to: Address,
        shows: bool,
    ) -> Result<SendingHost<'a, R>, StartFault>
        ensures dialing { IfOk result (λ s. (known : Option (List ℕ)) → IsDialing file.now to
            (sending_at s known) (peers_of s.station.host_socket.ports.peers.items) s.id) }
        // Its access list is that of its file and the node that it dials.
        ensures access_list { IfOk result (λ s. map access_by s.station.host_socket.ports.device.access_lists.items
            ≡ guarded_host file.now (ip_dialed file.now to) ∷ []) }
        // Its port is as it was opened: asked nothing yet, and marked.
        ensures opened { IfOk result (λ s.
            IsOpened file.now (ip_dialed file.now to) s.station.host_socket.ports) }
        // It watches its one socket, and standard input if it can be polled, and has not waited.
        ensures watches { IfOk result (λ s. (gate : Option ℤ) × (s.station.poller.poll.trace.items
            ≡ map Watched (udp_fds s.station.host_socket.ports.device.device.sockets.items)
            ++ watched_if gate)) }
    {
        let mut station = RunningHost::open(rt, alloc, file, dialed_ip(file, to))?;
        let input = Intake::new(rt, alloc)?;
        station.watch(input.gate.fd());
        let count = passed_ids(rt);
        let Ok(id) = dialed(alloc, &mut station.core.endpoint, file, to, count) else {
            return Err(StartFault::OutOfMemory);
        };
        station.core.pace(alloc, id)?;
        Ok(SendingHost {
            station,
            id,
            input,
            joined: false,
            left: None,
            shows,
            next_shown: 0,
        })
    }

    /// Notes the state of the connection, and returns it.
    fn look(&mut self) -> Option<State>
        ensures state { result ≡ state_at self.old.station.core.endpoint self.old.id }
        ensures station { self.new.station ≡ self.old.station }
        ensures id { self.new.id ≡ self.old.id }
        ensures read { self.new.input.read ≡ self.old.input.read }
        ensures closed { self.new.input.closed ≡ self.old.input.closed }
        // The units that the peer acknowledged are counted.
        ensures acked_bytes { EntersAcknowledged (held_at self.old.station.core.endpoint self.old.id)
            self.old.input.acked_bytes self.new.input.acked_bytes }
        ensures joined { self.new.joined ≡ joined_at self.old.joined result }
        ensures left { self.new.left
            ≡ left_at self.old.left result self.old.station.core.moment }
    {
        let endpoint = &self.station.core.endpoint;
        if let Ok(numbers) = endpoint.numbers(self.id) {
            self.input.acked_bytes.acknowledge(numbers);
        }
        let state = endpoint.state(self.id).ok();
        match state {
            Some(State::Opening | State::Lost) | None => {}
            Some(_) => self.joined = true,
        }
        if state == Some(State::PeerEnded) && self.left.is_none() {
            self.left = Some(self.station.moment());
        }
        state
    }

    /// Returns whether the peer has acknowledged everything, and the end too.
    fn is_all_acked(&self) -> bool
        ensures { IsTrue result ↔ IsWholeAt self.now.station.core.endpoint self.now.id }
    {
        let endpoint = &self.station.core.endpoint;
        endpoint.is_all_acked(self.id).unwrap_or(false)
    }

    /// Returns whether the rest may still be acknowledged after the peer ended the connection.
    fn waits(&self) -> bool
        ensures { IsTrue result
            ↔ IsWaiting self.now.input.closed self.now.left self.now.station.core.moment }
    {
        match self.left {
            Some(left) => {
                self.input.closed && self.station.moment().saturating_sub(left) < CLOSE_TIMEOUT
            }
            None => true,
        }
    }

    /// Prints the progress, once a second.
    fn show(&mut self, rt: &R)
        ensures station { self.new.station ≡ self.old.station }
        ensures id { self.new.id ≡ self.old.id }
        ensures input { self.new.input ≡ self.old.input }
        ensures joined { self.new.joined ≡ self.old.joined }
        ensures left { self.new.left ≡ self.old.left }
    {
        let moment = self.station.moment();
        if !self.shows || moment < self.next_shown {
            return;
        }
        self.next_shown = moment.saturating_add(SECOND);
        let acknowledged = self.input.acked_bytes.acknowledged();
        let given = self.input.acked_bytes.given();
        let _ = eprint!(rt; "\r{acknowledged} of {given} bytes acknowledged");
    }

    /// Takes a turn, and reads. Returns whether there may be more to do at once.
    fn step<I: Read>(&mut self, rt: &R, alloc: Global, reader: &mut I) -> Result<bool, SendOutcome>
        // More may be waiting after a filtered datagram.
        ensures kept { drops_in self.old.station.host_socket.ports.device.kept
            < drops_in self.new.station.host_socket.ports.device.kept → IfOk result IsTrue }
        ensures id { self.new.id ≡ self.old.id }
        // The host notes, judges and feeds by the state after the turn.
        // After a turn that did something there may be more to do.
        ensures steps { IsSendStep IsFeedFault
            (λ turn. IfOk result (λ more. IsTrue turn.active → IsTrue more))
            (sending_at self.old (I.remaining reader.old))
            (sending_at self.new (I.remaining reader.new))
            result DrivesTurn (peers_of self.old.station.host_socket.ports.peers.items) self.old.id }
        ensures peers { self.new.station.host_socket.ports.peers ≡ self.old.station.host_socket.ports.peers }
        ensures access { map access_by self.new.station.host_socket.ports.device.access_lists.items
            ≡ map access_by self.old.station.host_socket.ports.device.access_lists.items }
        ensures poller { self.new.station.poller ≡ self.old.station.poller }
        ensures done { result ≡ Err Verdicts.Done
            → IsWholeAt self.new.station.core.endpoint self.new.id }
        // If the transfer is done, all of the input is read, and the end is queued.
        ensures ended { result ≡ Err Verdicts.Done
            → (self.new.input.closed ≡ true) × (self.new.input.read ≡ true) }
        ensures unanswered { result ≡ Err Verdicts.Unanswered → self.new.joined ≡ false }
    {
        let turn = self.station.turn(rt, alloc);
        let state = self.look();
        let whole = self.is_all_acked();
        if let Some(verdict) = verdict_of(state, whole, self.joined, self.waits()) {
            return Err(ended_by(verdict, self.input.closed));
        }
        let endpoint = &mut self.station.core.endpoint;
        drop_what_came(alloc, endpoint, self.id);
        let fed = state == Some(State::Live) && self.input.feed(alloc, endpoint, self.id, reader)?;
        self.show(rt);
        Ok(turn.active | fed)
    }

    /// Returns the longest wait, in milliseconds. It is at most ten seconds, after which the host
    /// looks again whether a count is to be logged.
    fn longest(&self) -> u64
        ensures { result ≡ longest_wait self.now.shows self.now.left }
    {
        if self.shows || self.left.is_some() {
            SECOND
        } else {
            LONGEST
        }
    }

    /// Takes a turn, and waits if there is nothing to do.
    fn step_or_wait<I: Read>(
        &mut self,
        rt: &R,
        alloc: Global,
        reader: &mut I,
    ) -> Result<(), SendOutcome>
        // More may be waiting after a filtered datagram, so the host does not wait.
        ensures kept { drops_in self.old.station.host_socket.ports.device.kept
            < drops_in self.new.station.host_socket.ports.device.kept →
            self.new.station.poller ≡ self.old.station.poller }
        ensures id { self.new.id ≡ self.old.id }
        // The host notes, judges and feeds by the state after the turn.
        // After a turn that did something it does not wait.
        ensures steps { IsSendStep IsStepFault
            (λ turn. IsTrue turn.active → self.new.station.poller ≡ self.old.station.poller)
            (sending_at self.old (I.remaining reader.old))
            (sending_at self.new (I.remaining reader.new))
            result DrivesTurn (peers_of self.old.station.host_socket.ports.peers.items) self.old.id }
        ensures peers { self.new.station.host_socket.ports.peers ≡ self.old.station.host_socket.ports.peers }
        ensures access { map access_by self.new.station.host_socket.ports.device.access_lists.items
            ≡ map access_by self.old.station.host_socket.ports.device.access_lists.items }
        // The host waits only while no link has anything to do. It waits at most a second if it
        // prints the progress, or if the peer's end was seen.
        ensures waits { MayWait self.new.shows self.new.left self.new.station.core
            self.old.station.poller self.new.station.poller }
        // It stops because it can't wait exactly if it waits in this step, and that fails.
        ensures unwaited { (result ≡ Err Verdicts.Unwaited)
            ↔ FailsToWait self.old.station.poller self.new.station.poller }
        ensures done { result ≡ Err Verdicts.Done
            → IsWholeAt self.new.station.core.endpoint self.new.id }
        // If the transfer is done, all of the input is read, and the end is queued.
        ensures ended { result ≡ Err Verdicts.Done
            → (self.new.input.closed ≡ true) × (self.new.input.read ≡ true) }
        ensures unanswered { result ≡ Err Verdicts.Unanswered → self.new.joined ≡ false }
    {
        if self.step(rt, alloc, reader)? {
            return Ok(());
        }
        let longest = self.longest();
        match self.station.wait(longest) {
            Ok(()) => Ok(()),
            Err(_) => Err(SendOutcome::Unwaited),
        }
    }

    /// Runs until the transfer is over.
    fn serve<I: Read>(&mut self, rt: &R, alloc: Global, reader: &mut I) -> SendOutcome
        ensures id { self.new.id ≡ self.old.id }
        // If the transfer is done, each round queued the bytes that left the reader, in order, one
        // body after another.
        ensures fed { result ≡ Verdicts.Done → Transfers
            (sending_at self.old (I.remaining reader.old))
            (sending_at self.new (I.remaining reader.new))
            DrivesTurn (peers_of self.old.station.host_socket.ports.peers.items) self.old.id }
        // If the transfer is done, the reader has nothing left.
        ensures all { result ≡ Verdicts.Done → (self.old.input.read ≡ true → IsAtEnd (I.remaining reader.old))
            → IsAtEnd (I.remaining reader.new) }
        ensures done { result ≡ Verdicts.Done
            → IsWholeAt self.new.station.core.endpoint self.new.id }
        ensures unanswered { result ≡ Verdicts.Unanswered → self.new.joined ≡ false }
        // It stops because it can't wait exactly if its last wait failed. No other wait fails, and
        // it watches nothing more.
        ensures unwaited { (result ≡ Verdicts.Unwaited)
            ↔ FailedToWait self.old.station.poller self.new.station.poller }
        ensures waits { result ≢ Verdicts.Unwaited → (count : ℕ)
            × WaitsWell count self.old.station.poller self.new.station.poller }
        // Any outcome comes from a step after some rounds, or the rounds never end.
        ensures ends { EndsWith (sending_at self.old (I.remaining reader.old))
            (sending_at self.new (I.remaining reader.new))
            result DrivesTurn (peers_of self.old.station.host_socket.ports.peers.items) self.old.id
            ⊎ LastsOn (sending_at self.old (I.remaining reader.old))
            (sending_at self.new (I.remaining reader.new))
            result DrivesTurn (peers_of self.old.station.host_socket.ports.peers.items) self.old.id }
    {
        for _ in 0..u64::MAX {
            if let Err(verdict) = self.step_or_wait(rt, alloc, reader) {
                return verdict;
            }
        }
        SendOutcome::GivenUp
    }

    /// Prints how a transfer ended. If it ended well, prints only with `shows`.
    fn tell(&self, rt: &R, to: Address, verdict: SendOutcome) {
        let given = self.input.acked_bytes.given();
        let acknowledged = self.input.acked_bytes.acknowledged();
        if self.shows {
            let _ = eprintln!(rt; "\r{acknowledged} of {given} bytes acknowledged");
        }
        let what = match verdict {
            SendOutcome::Done => return,
            SendOutcome::Unanswered => return tell_nobody(rt, to),
            SendOutcome::GivenUp => "connection lost",
            SendOutcome::PeerLeft => "the remote end closed the connection",
            SendOutcome::Unread => "cannot read standard input",
            SendOutcome::OutOfMemory => "out of memory",
            SendOutcome::Unwaited => "cannot wait for the socket",
        };
        let _ = eprintln!(rt; "{what}: {acknowledged} of {given} bytes acknowledged");
    }

    /// Runs until the transfer is over, prints how it ended, and returns the status. The status is
    /// 0 only if the peer has acknowledged everything, and the end too.
    pub fn finish<I: Read>(&mut self, rt: &R, alloc: Global, to: Address, reader: &mut I) -> u8
        ensures id { self.new.id ≡ self.old.id }
        ensures status { result < 2 }
        ensures done { result ≡ 0 → IsWholeAt self.new.station.core.endpoint self.new.id }
        // If the transfer is done, each round queued the bytes that left the reader, in order, one
        // body after another.
        ensures fed { result ≡ 0 → Transfers (sending_at self.old (I.remaining reader.old))
            (sending_at self.new (I.remaining reader.new))
            DrivesTurn (peers_of self.old.station.host_socket.ports.peers.items) self.old.id }
        // If the transfer is done, no wait failed.
        ensures waits { result ≡ 0 → (count : ℕ)
            × WaitsWell count self.old.station.poller self.new.station.poller }
        // If the transfer is done, the reader has nothing left.
        ensures all { result ≡ 0 → (self.old.input.read ≡ true → IsAtEnd (I.remaining reader.old))
            → IsAtEnd (I.remaining reader.new) }
    {
        let verdict = self.serve(rt, alloc, reader);
        self.tell(rt, to, verdict);
        verdict.status()
    }
}

/// Prints that no answer came from an address.
fn tell_nobody<R: Eprint>(rt: &R, to: Address) {
    let network = to.network;
    let node = to.node;
    let socket = to.socket;
    let _ = eprintln!(rt;
        "no answer from {network} {node} {socket}; try ipx networks, then ipx ping"
    );
}
