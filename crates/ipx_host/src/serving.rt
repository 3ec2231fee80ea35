//! The connections of a host that listens: how they are accepted, read, probed and released.

ghost use Rattle.std.specs.Prelude.{◌≡◌, ◌<◌, ◌≤◌, [], ℕ, Bool, List, false, length, map, remove, slice_get, slice_set, vec_capacity, IfOk, IfSome, IsTrue, OnErr, OnOk, Err, Ok};
ghost use Rattle.ipx_carrier.specs.Counting.{raised};
ghost use Rattle.ipx_sockets.specs.Moments.{IsLoggedIfDue};
ghost use Rattle.spx_messages.specs.EndpointView.{held_at};
ghost use Rattle.ipx_host.specs.Sessions.{AdmitsRequest, Asks, AsksOrCounts, CountsRequest, CountsTurnedAway, CountsUnheard, IsAskedUnless, OnlyEnded, KeepsHeard, KeepsOne, LetsLinkGo, MakesSpace, NotesHeard, SparesOthers, asker_of, session_of, heard_by, evicted_for, is_heard_one, is_unheard_one, keeps_one_prop, place_of_own, place_to_free, raised_if, session_at, without};
ghost use Rattle.ipx_host.specs.SessionActions.{is_unheard};
ghost use Rattle.ipx_host.specs.SessionLogs.{listener_counts, nothing_counted};
ghost use Rattle.ipx_host.specs.Hosting.{MovesSome, MovesUntilFull};
ghost use Rattle.ipx_host.specs.ListenOutcomes.{parted, stop_in};
ghost use Rattle.ipx_host.specs.HostOutput.{left_of};
ghost use Rattle.ipx_host.specs.Passing.{PassesSome, PassesUntilFull, Take};
ghost use Rattle.ipx_host.specs.Tending.{IsActionFor, Tends, Tidies};
ghost use Rattle.ipx_host.specs.declared.sessions.Session.{Session};
ghost use Rattle.ipx_host.specs.declared.sessions.SessionAction.TheVariants as ActionsOfSessions;
ghost use Rattle.ipx_host.specs.declared.sessions.Phase.TheVariants as Standings;
ghost use Rattle.ipx_host.specs.declared.listening.ListenOutcome.TheVariants as Stops;

use crate::eviction::{
    MAX_SESSIONS, ask, count_if, hear_session, hold, let_link_go, make_space, make_space_of_own,
};
use crate::idle::{action_in, first_to_tend};
use crate::listening::ListenOutcome;
use crate::output::{Outlet, WriteFault};
use crate::paced_host_core::{Accepted, Arrival, PacedHostCore};
use crate::readiness_gate::Gate;
use crate::running_host::RunningHost;
use crate::sessions::{Phase, Session, SessionAction};
use crate::taking::take_each;
use ipx_sockets::{Noun, ThrottledLog};
use ipx_wire::Address;
use log::{Log, warn};
use spx_messages::Endpoint;
use std::alloc::{AllocError, Global};
use std::io::Write;
use std::net::Net;
use std::rt::Clock;

const REQUESTS_WERE: Noun = Noun {
    one: "request was",
    many: "requests were",
};

const CONNECTIONS_WERE: Noun = Noun {
    one: "connection was",
    many: "connections were",
};

const CONNECTIONS: Noun = Noun {
    one: "connection",
    many: "connections",
};

/// Logs that a connection was lost, if data was received on it and its end was not.
fn tell_parted<R: Log>(rt: &R, session: &Session, fate: SessionAction) {
    let ended = fate == SessionAction::Over && session.phase == Phase::Ended;
    if session.is_heard() && !ended {
        let Address {
            network,
            node,
            socket,
        } = session.from;
        warn!(rt; target: "ipx", "{network} {node} {socket}: connection lost");
    }
}

/// Whether a host stops after a connection in this phase ends by this action.
fn stop_of(once: bool, fate: SessionAction, phase: Phase) -> Result<(), ListenOutcome>
    ensures stops { stop_in result ≡ parted once fate phase }
    ensures only { OnErr result (IsTrue once) }
    ensures ended { result ≡ Err Stops.Ended → phase ≡ Standings.Ended }
{
    if !once || phase.is_unheard() {
        return Ok(());
    }
    match (fate, phase) {
        (SessionAction::Over, Phase::Ended) => Err(ListenOutcome::Ended),
        _ => Err(ListenOutcome::Lost),
    }
}

/// The connections of a host that listens, and the output that is not written yet.
pub struct Sessions {
    pub held: Vec<Session>,
    pub output: Outlet,
    /// Whether the first connection on which data is received is the only one, and the host stops when
    /// it ends.
    pub once: bool,
    /// The number of connections that ended without sending data.
    never_heard: u64,
    of_never_heard: ThrottledLog,
    /// The number of silent connections that were evicted for a new request.
    evicted: u64,
    of_evicted: ThrottledLog,
    /// The number of requests that found no free slot and got no answer.
    turned_away: u64,
    of_turned_away: ThrottledLog,
    ghost room: { 16 ≤ vec_capacity held },
    ghost one: { KeepsOne once held.items (left_of output) } by { keeps_one_prop once held.items (left_of output) },
}

impl Drop for Sessions {
    fn drop(self) {
        let Sessions {
            held: _,
            output: _,
            once: _,
            never_heard: _,
            of_never_heard: _,
            evicted: _,
            of_evicted: _,
            turned_away: _,
            of_turned_away: _,
        } = self;
    }
}

impl Sessions {
    /// No connections and no pending output, for the writer that this gate checks.
    pub fn new(alloc: Global, gate: Gate, once: bool) -> Result<Sessions, AllocError>
        ensures nobody { IfOk result (λ c. c.held.items ≡ []) }
        ensures nothing { IfOk result (λ c. left_of c.output ≡ []) }
        ensures once { IfOk result (λ c. c.once ≡ once) }
        ensures uncounted { IfOk result (λ c. listener_counts 0 c.never_heard c.evicted
            c.turned_away c.of_never_heard c.of_evicted c.of_turned_away ≡ nothing_counted) }
    {
        Ok(Sessions {
            held: Vec::with_capacity(alloc, MAX_SESSIONS)?,
            output: Outlet::new(alloc, gate),
            once,
            never_heard: 0,
            of_never_heard: ThrottledLog::new(),
            evicted: 0,
            of_evicted: ThrottledLog::new(),
            turned_away: 0,
            of_turned_away: ThrottledLog::new(),
        })
    }

    /// Takes from each connection. Returns whether it took anything.
    fn take_all<W: Write>(
        &mut self,
        alloc: Global,
        endpoint: &mut Endpoint,
        writer: &mut W,
    ) -> Result<bool, WriteFault>
        ensures all { OnOk result (PassesUntilFull endpoint.old endpoint.new
            (left_of self.old.output) (left_of self.new.output)
            (W.contents writer.old) (W.contents writer.new)
            self.old.held.items self.new.held.items) }
        ensures some { OnErr result (PassesSome endpoint.old endpoint.new
            (left_of self.old.output) (left_of self.new.output)
            (W.contents writer.old) (W.contents writer.new)
            self.old.held.items self.new.held.items) }
        ensures still { result ≡ Ok false
            → (id : ℕ) → held_at endpoint.new id ≡ held_at endpoint.old id }
        ensures never_heard { self.new.never_heard ≡ self.old.never_heard }
        ensures evicted { self.new.evicted ≡ self.old.evicted }
        ensures turned_away { self.new.turned_away ≡ self.old.turned_away }
        ensures logs { (self.new.of_never_heard ≡ self.old.of_never_heard)
            × (self.new.of_evicted ≡ self.old.of_evicted)
            × (self.new.of_turned_away ≡ self.old.of_turned_away) }
        ensures once { self.new.once ≡ self.old.once }
    {
        take_each(alloc, endpoint, &mut self.output, &mut self.held, writer)
    }

    /// Writes what is left to write, and then takes from each connection. Returns whether it wrote or
    /// took anything.
    pub fn pass<W: Write>(
        &mut self,
        alloc: Global,
        core: &mut PacedHostCore,
        writer: &mut W,
    ) -> Result<bool, WriteFault>
        ensures all { OnOk result ((takes : List Take) × MovesUntilFull core.old core.new
            self.old.held.items self.new.held.items
            (left_of self.old.output) (left_of self.new.output)
            (W.contents writer.old) (W.contents writer.new) takes) }
        // Where the writer fails, so it is of the first ones, and the others are as they were.
        ensures some { OnErr result ((takes : List Take) × MovesSome core.old core.new
            self.old.held.items self.new.held.items
            (left_of self.old.output) (left_of self.new.output)
            (W.contents writer.old) (W.contents writer.new) takes) }
        ensures never_heard { self.new.never_heard ≡ self.old.never_heard }
        ensures evicted { self.new.evicted ≡ self.old.evicted }
        ensures turned_away { self.new.turned_away ≡ self.old.turned_away }
        ensures logs { (self.new.of_never_heard ≡ self.old.of_never_heard)
            × (self.new.of_evicted ≡ self.old.of_evicted)
            × (self.new.of_turned_away ≡ self.old.of_turned_away) }
        ensures once { self.new.once ≡ self.old.once }
    {
        let wrote = self.output.write(writer)?;
        let took = self.take_all(alloc, &mut core.endpoint, writer)?;
        Ok(wrote | took)
    }

    /// Counts a connection that was evicted, if there is one: as never heard from, if nothing came on
    /// it. If something did, it is logged that it was lost.
    fn count_evicted<R: Log>(&mut self, rt: &R, evicted: Option<Session>)
        ensures never_heard { self.new.never_heard
            ≡ raised_if (is_unheard_one evicted) self.old.never_heard }
        ensures evicted { self.new.evicted ≡ raised_if (is_heard_one evicted) self.old.evicted }
        ensures turned_away { self.new.turned_away ≡ self.old.turned_away }
        ensures logs { (self.new.of_never_heard ≡ self.old.of_never_heard)
            × (self.new.of_evicted ≡ self.old.of_evicted)
            × (self.new.of_turned_away ≡ self.old.of_turned_away) }
        ensures held { self.new.held ≡ self.old.held }
        ensures output { self.new.output ≡ self.old.output }
        ensures once { self.new.once ≡ self.old.once }
    {
        let Some(session) = evicted else {
            return;
        };
        let is_unheard = session.phase.is_unheard();
        self.never_heard = count_if(is_unheard, self.never_heard);
        self.evicted = count_if(!is_unheard, self.evicted);
        tell_parted(rt, &session, SessionAction::GivenUp);
    }

    /// Holds a connection that was accepted at a moment if there is a free slot. Otherwise it is turned
    /// away before it is answered. If its node holds as many as it may, an unanswered or silent
    /// one of these is evicted first.
    fn admit<R: Log>(&mut self, rt: &R, endpoint: &mut Endpoint, accepted: Accepted, moment: u64)
        ensures admits { AdmitsRequest self.old.once moment accepted
            endpoint.old endpoint.new self.old.held.items self.new.held.items }
        ensures spares { SparesOthers endpoint.old.network accepted.from
            self.old.held.items self.new.held.items }
        // It is counted exactly if there is no slot for it.
        ensures counts { CountsTurnedAway self.old.once endpoint.old.network accepted.from
            (without (place_of_own self.old.once endpoint.old.network endpoint.old moment accepted.from
            self.old.held.items) self.old.held.items) self.old.turned_away self.new.turned_away }
        // So is the connection that is evicted for it: as never heard from, if nothing came on it.
        ensures never_heard { self.new.never_heard ≡ raised_if (is_unheard_one (session_at
            (place_of_own self.old.once endpoint.old.network endpoint.old moment accepted.from
            self.old.held.items) self.old.held.items)) self.old.never_heard }
        ensures evicted { self.new.evicted ≡ raised_if (is_heard_one (session_at
            (place_of_own self.old.once endpoint.old.network endpoint.old moment accepted.from
            self.old.held.items) self.old.held.items)) self.old.evicted }
        ensures logs { (self.new.of_never_heard ≡ self.old.of_never_heard)
            × (self.new.of_evicted ≡ self.old.of_evicted)
            × (self.new.of_turned_away ≡ self.old.of_turned_away) }
        ensures output { self.new.output ≡ self.old.output }
        ensures once { self.new.once ≡ self.old.once }
    {
        let from = accepted.from;
        let evicted = make_space_of_own(self.once, endpoint, &mut self.held, moment, &from);
        let session = Session {
            id: accepted.id,
            from,
            heard: moment,
            phase: Phase::New,
        };
        let is_turned_away = hold(self.once, endpoint, &mut self.held, session);
        self.turned_away = count_if(is_turned_away, self.turned_away);
        self.count_evicted(rt, evicted);
    }

    /// Records that a connection received something. With `once`, all other connections are
    /// released.
    fn hear_session(&mut self, endpoint: &mut Endpoint, id: u16, moment: u64)
        ensures heard { KeepsHeard self.old.once endpoint.old endpoint.new
            (map (heard_by id moment) self.old.held.items) self.new.held.items }
        ensures never_heard { self.new.never_heard ≡ self.old.never_heard }
        ensures evicted { self.new.evicted ≡ self.old.evicted }
        ensures turned_away { self.new.turned_away ≡ self.old.turned_away }
        ensures logs { (self.new.of_never_heard ≡ self.old.of_never_heard)
            × (self.new.of_evicted ≡ self.old.of_evicted)
            × (self.new.of_turned_away ≡ self.old.of_turned_away) }
        ensures output { self.new.output ≡ self.old.output }
        ensures once { self.new.once ≡ self.old.once }
    {
        hear_session(self.once, endpoint, &mut self.held, id, moment);
    }

    /// Evicts a connection, if there is one to evict, because no link was free for a request from an
    /// address. A node that is at its limit evicts only its own. That request is turned away.
    fn make_space<R: Log>(&mut self, rt: &R, endpoint: &mut Endpoint, moment: u64, asker: &Address)
        ensures room { MakesSpace self.old.once moment asker.now endpoint.old endpoint.new
            self.old.held.items self.new.held.items }
        ensures spares { SparesOthers endpoint.old.network asker.now
            self.old.held.items self.new.held.items }
        ensures counts { self.new.never_heard ≡ raised_if (is_unheard_one (session_at
            (place_to_free self.old.once endpoint.old.network endpoint.old moment asker.now
            self.old.held.items) self.old.held.items)) self.old.never_heard }
        ensures evicted { self.new.evicted ≡ raised_if (is_heard_one (session_at
            (place_to_free self.old.once endpoint.old.network endpoint.old moment asker.now
            self.old.held.items) self.old.held.items)) self.old.evicted }
        ensures turned_away { self.new.turned_away ≡ raised self.old.turned_away }
        ensures logs { (self.new.of_never_heard ≡ self.old.of_never_heard)
            × (self.new.of_evicted ≡ self.old.of_evicted)
            × (self.new.of_turned_away ≡ self.old.of_turned_away) }
        ensures output { self.new.output ≡ self.old.output }
        ensures once { self.new.once ≡ self.old.once }
    {
        let evicted = make_space(self.once, endpoint, &mut self.held, moment, asker);
        self.count_evicted(rt, evicted);
        self.turned_away = count_if(true, self.turned_away);
    }

    /// Records which connection the last datagram belonged to, opened, or could not open.
    pub fn note<R: Log>(&mut self, rt: &R, core: &mut PacedHostCore)
        ensures notes { NotesHeard self.old.once core.old core.new
            self.old.held.items self.new.held.items }
        // A node that is at its limit evicts only its own connections.
        ensures spares { IfSome (asker_of core.old.came) (λ asker. SparesOthers
            core.old.endpoint.network asker self.old.held.items self.new.held.items) }
        ensures evicted { self.new.evicted ≡ raised_if (is_heard_one (evicted_for self.old.once
            core.old.came core.old.endpoint.network core.old.endpoint core.old.moment
            self.old.held.items)) self.old.evicted }
        // So is one that was never heard from, and it is counted as such.
        ensures never_heard { self.new.never_heard ≡ raised_if (is_unheard_one (evicted_for
            self.old.once core.old.came core.old.endpoint.network core.old.endpoint core.old.moment
            self.old.held.items)) self.old.never_heard }
        ensures turned_away { CountsRequest self.old.once core.old.came core.old.endpoint.network
            core.old.endpoint core.old.moment self.old.held.items
            self.old.turned_away self.new.turned_away }
        ensures logs { (self.new.of_never_heard ≡ self.old.of_never_heard)
            × (self.new.of_evicted ≡ self.old.of_evicted)
            × (self.new.of_turned_away ≡ self.old.of_turned_away) }
        ensures output { self.new.output ≡ self.old.output }
        ensures once { self.new.once ≡ self.old.once }
    {
        let moment = core.moment();
        match core.take_came() {
            Some(Arrival::Heard(id)) => self.hear_session(&mut core.endpoint, id, moment),
            Some(Arrival::Accepted(accepted)) => {
                self.admit(rt, &mut core.endpoint, accepted, moment);
            }
            Some(Arrival::NoRoom(asker)) => {
                self.make_space(rt, &mut core.endpoint, moment, &asker);
            }
            None => {}
        }
    }

    /// Probes the connection at a place. If memory runs out, that is counted.
    fn ask<R: Net + Log + Clock>(
        &mut self,
        alloc: Global,
        station: &mut RunningHost<'_, R>,
        place: usize,
    )
        requires { place < length self.old.held.items }
        ensures asks { IfSome (slice_get self.old.held.items place) (λ c. (c' : Session)
            × Asks station.old.core.moment station.old.core.endpoint station.new.core.endpoint c c'
            × (self.new.held.items ≡ slice_set self.old.held.items place c')
            × (refused : Bool)
            × IsAskedUnless refused station.old.core.endpoint station.new.core.endpoint c c'
            × (station.new.refused ≡ raised_if refused station.old.refused)) }
        ensures asked { IfSome (slice_get self.old.held.items place) (λ c. AsksOrCounts
            station.old.core.endpoint station.new.core.endpoint c place
            self.old.held.items self.new.held.items station.old.refused station.new.refused) }
        ensures core { station.new.core ≡ record station.old.core {
          endpoint = station.new.core.endpoint;
        } }
        ensures clock { station.new.clock ≡ station.old.clock }
        ensures host_socket { station.new.host_socket ≡ station.old.host_socket }
        ensures poller { station.new.poller ≡ station.old.poller }
        ensures never_heard { self.new.never_heard ≡ self.old.never_heard }
        ensures evicted { self.new.evicted ≡ self.old.evicted }
        ensures turned_away { self.new.turned_away ≡ self.old.turned_away }
        ensures logs { (self.new.of_never_heard ≡ self.old.of_never_heard)
            × (self.new.of_evicted ≡ self.old.of_evicted)
            × (self.new.of_turned_away ≡ self.old.of_turned_away) }
        ensures output { self.new.output ≡ self.old.output }
        ensures once { self.new.once ≡ self.old.once }
    {
        let moment = station.moment();
        let session = &mut self.held[place];
        let is_refused = ask(alloc, &mut station.core.endpoint, session, moment);
        station.count_refusal(is_refused);
    }

    /// Logs how many requests were turned away, at most once a minute.
    fn tell_turned_away<R: Log>(&mut self, rt: &R, moment: u64)
        ensures told { IsLoggedIfDue self.old.turned_away moment
            self.old.of_turned_away self.new.of_turned_away }
        ensures count { self.new.turned_away ≡ self.old.turned_away }
        ensures never_heard { self.new.never_heard ≡ self.old.never_heard }
        ensures of_never_heard { self.new.of_never_heard ≡ self.old.of_never_heard }
        ensures evicted { self.new.evicted ≡ self.old.evicted }
        ensures of_evicted { self.new.of_evicted ≡ self.old.of_evicted }
        ensures held { self.new.held ≡ self.old.held }
        ensures output { self.new.output ≡ self.old.output }
        ensures once { self.new.once ≡ self.old.once }
    {
        let count = self.turned_away;
        if let Some(more) = self.of_turned_away.tell(count, moment) {
            let requests = REQUESTS_WERE.of(more);
            warn!(rt; target: "ipx",
                "{more} {requests} turned away: no free slot ({count} since the start)");
        }
    }

    /// Logs how many silent connections were evicted, at most once a minute.
    fn tell_evicted<R: Log>(&mut self, rt: &R, moment: u64)
        ensures told { IsLoggedIfDue self.old.evicted moment
            self.old.of_evicted self.new.of_evicted }
        ensures count { self.new.evicted ≡ self.old.evicted }
        ensures never_heard { self.new.never_heard ≡ self.old.never_heard }
        ensures of_never_heard { self.new.of_never_heard ≡ self.old.of_never_heard }
        ensures turned_away { self.new.turned_away ≡ self.old.turned_away }
        ensures of_turned_away { self.new.of_turned_away ≡ self.old.of_turned_away }
        ensures held { self.new.held ≡ self.old.held }
        ensures output { self.new.output ≡ self.old.output }
        ensures once { self.new.once ≡ self.old.once }
    {
        let count = self.evicted;
        if let Some(more) = self.of_evicted.tell(count, moment) {
            let connections = CONNECTIONS_WERE.of(more);
            warn!(rt; target: "ipx",
                "{more} {connections} evicted after 10 s of silence, for new requests ({count} since the start)");
        }
    }

    /// Logs how many connections ended without sending data, how many were evicted, and how many
    /// requests were turned away. Each is logged at most once a minute.
    pub fn tell<R: Log>(&mut self, rt: &R, moment: u64)
        ensures silent { IsLoggedIfDue self.old.never_heard moment
            self.old.of_never_heard self.new.of_never_heard }
        ensures evicted { IsLoggedIfDue self.old.evicted moment
            self.old.of_evicted self.new.of_evicted }
        ensures turned_away { IsLoggedIfDue self.old.turned_away moment
            self.old.of_turned_away self.new.of_turned_away }
        ensures counts { (self.new.never_heard ≡ self.old.never_heard)
            × (self.new.evicted ≡ self.old.evicted)
            × (self.new.turned_away ≡ self.old.turned_away) }
        ensures held { self.new.held ≡ self.old.held }
        ensures output { self.new.output ≡ self.old.output }
        ensures once { self.new.once ≡ self.old.once }
    {
        self.tell_silent(rt, moment);
        self.tell_evicted(rt, moment);
        self.tell_turned_away(rt, moment);
    }

    /// Logs how many connections ended without sending data, at most once a minute.
    fn tell_silent<R: Log>(&mut self, rt: &R, moment: u64)
        ensures told { IsLoggedIfDue self.old.never_heard moment
            self.old.of_never_heard self.new.of_never_heard }
        ensures count { self.new.never_heard ≡ self.old.never_heard }
        ensures evicted { self.new.evicted ≡ self.old.evicted }
        ensures of_evicted { self.new.of_evicted ≡ self.old.of_evicted }
        ensures turned_away { self.new.turned_away ≡ self.old.turned_away }
        ensures of_turned_away { self.new.of_turned_away ≡ self.old.of_turned_away }
        ensures held { self.new.held ≡ self.old.held }
        ensures output { self.new.output ≡ self.old.output }
        ensures once { self.new.once ≡ self.old.once }
    {
        let count = self.never_heard;
        if let Some(more) = self.of_never_heard.tell(count, moment) {
            let connections = CONNECTIONS.of(more);
            warn!(rt; target: "ipx", "{more} {connections} never sent data ({count} since the start)");
        }
    }

    /// Releases a connection. With `once`, the host stops if data was received on it.
    fn let_go<R: Log>(
        &mut self,
        rt: &R,
        endpoint: &mut Endpoint,
        place: usize,
        fate: SessionAction,
    ) -> Result<(), ListenOutcome>
        requires { place < length self.old.held.items }
        ensures goes { self.new.held.items ≡ remove self.old.held.items place }
        ensures released { IfSome (slice_get self.old.held.items place) (λ c.
            LetsLinkGo endpoint.old endpoint.new c.id) }
        ensures stops { IfSome (slice_get self.old.held.items place) (λ c.
            stop_in result ≡ parted self.old.once fate c.phase) }
        ensures counts { IfSome (slice_get self.old.held.items place) (λ c.
            self.new.never_heard ≡ raised_if (is_unheard c.phase) self.old.never_heard) }
        ensures evicted { self.new.evicted ≡ self.old.evicted }
        ensures turned_away { self.new.turned_away ≡ self.old.turned_away }
        ensures logs { (self.new.of_never_heard ≡ self.old.of_never_heard)
            × (self.new.of_evicted ≡ self.old.of_evicted)
            × (self.new.of_turned_away ≡ self.old.of_turned_away) }
        ensures only { OnErr result (IsTrue self.old.once) }
        // With `once` the only connection that was heard goes, and what was taken of it is written.
        ensures written { result ≡ Err Stops.Ended → left_of self.new.output ≡ [] }
        ensures output { self.new.output ≡ self.old.output }
        ensures once { self.new.once ≡ self.old.once }
    {
        let session = self.held.remove(place);
        let_link_go(endpoint, session.id);
        self.never_heard = count_if(session.phase.is_unheard(), self.never_heard);
        tell_parted(rt, &session, fate);
        stop_of(self.once, fate, session.phase)
    }

    /// Releases or probes the connection at a place, by its action.
    fn tend<R: Net + Log + Clock>(
        &mut self,
        rt: &R,
        alloc: Global,
        station: &mut RunningHost<'_, R>,
        place: usize,
    ) -> Result<(), ListenOutcome>
        requires { place < length self.old.held.items }
        ensures tends { IfSome (slice_get self.old.held.items place) (λ c. Tends
            self.old.once station.old.core c place station.new.core.endpoint
            self.old.held.items self.new.held.items
            (listener_counts station.old.refused self.old.never_heard self.old.evicted
            self.old.turned_away self.old.of_never_heard self.old.of_evicted
            self.old.of_turned_away)
            (listener_counts station.new.refused self.new.never_heard self.new.evicted
            self.new.turned_away self.new.of_never_heard self.new.of_evicted
            self.new.of_turned_away) (stop_in result)) }
        // One that is to be asked is asked, where its link is open; or memory was refused, which is
        // counted.
        ensures asked { IfSome (slice_get self.old.held.items place) (λ c.
            IsActionFor station.old.core c ActionsOfSessions.Asks → AsksOrCounts
            station.old.core.endpoint station.new.core.endpoint c place
            self.old.held.items self.new.held.items station.old.refused station.new.refused) }
        ensures only { OnErr result (IsTrue self.old.once) }
        ensures written { result ≡ Err Stops.Ended → left_of self.new.output ≡ [] }
        ensures core { station.new.core ≡ record station.old.core {
          endpoint = station.new.core.endpoint;
        } }
        ensures clock { station.new.clock ≡ station.old.clock }
        ensures host_socket { station.new.host_socket ≡ station.old.host_socket }
        ensures poller { station.new.poller ≡ station.old.poller }
        // A connection that goes and was never heard from is counted.
        ensures counts { CountsUnheard self.old.held.items self.new.held.items
            self.old.never_heard self.new.never_heard }
        ensures evicted { self.new.evicted ≡ self.old.evicted }
        ensures turned_away { self.new.turned_away ≡ self.old.turned_away }
        ensures output { self.new.output ≡ self.old.output }
        ensures once { self.new.once ≡ self.old.once }
    {
        match action_in(&station.core, &self.held[place]) {
            SessionAction::Stays => Ok(()),
            SessionAction::Asks => {
                self.ask(alloc, station, place);
                Ok(())
            }
            fate => self.let_go(rt, &mut station.core.endpoint, place, fate),
        }
    }

    /// Releases the connections that have ended or are lost, and probes those that are silent.
    pub fn reap<R: Net + Log + Clock>(
        &mut self,
        rt: &R,
        alloc: Global,
        station: &mut RunningHost<'_, R>,
    ) -> Result<(), ListenOutcome>
        // One that is silent is asked, unless memory is refused, which is counted.
        ensures tidies { Tidies self.old.once station.old.core station.new.core
            self.old.held.items self.new.held.items
            (listener_counts station.old.refused self.old.never_heard self.old.evicted
            self.old.turned_away self.old.of_never_heard self.old.of_evicted
            self.old.of_turned_away)
            (listener_counts station.new.refused self.new.never_heard self.new.evicted
            self.new.turned_away self.new.of_never_heard self.new.of_evicted
            self.new.of_turned_away) (stop_in result) }
        ensures ended { result ≡ Err Stops.Ended → OnlyEnded self.old.held.items }
        ensures written { result ≡ Err Stops.Ended → left_of self.new.output ≡ [] }
        ensures only { OnErr result (IsTrue self.old.once) }
        ensures core { station.new.core ≡ record station.old.core {
          endpoint = station.new.core.endpoint;
        } }
        ensures clock { station.new.clock ≡ station.old.clock }
        ensures host_socket { station.new.host_socket ≡ station.old.host_socket }
        ensures poller { station.new.poller ≡ station.old.poller }
        // The connections that go and were never heard from are counted.
        ensures counts { CountsUnheard self.old.held.items self.new.held.items
            self.old.never_heard self.new.never_heard }
        ensures evicted { self.new.evicted ≡ self.old.evicted }
        ensures turned_away { self.new.turned_away ≡ self.old.turned_away }
        ensures output { self.new.output ≡ self.old.output }
        ensures once { self.new.once ≡ self.old.once }
    {
        for _tended in 0..MAX_SESSIONS {
            let Some(place) = first_to_tend(&station.core, &self.held) else {
                break;
            };
            self.tend(rt, alloc, station, place)?;
        }
        Ok(())
    }
}
