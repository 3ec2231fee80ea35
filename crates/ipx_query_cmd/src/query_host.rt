//! The host of a file that asks its routers over its socket.

ghost use Rattle.std.specs.Prelude.{◌≡◌, ◌≢◌, ◌↔◌, ◌∷◌, [], ℕ, Err, IfErr, IfOk, IfSome, IsTrue, List, OnOk, map, true};
ghost use Rattle.ipx_carrier.specs.Traces.{v4_at};
ghost use Rattle.ipx_carrier.specs.Turns.{Turn, peers_of};
ghost use Rattle.ipx_sockets.specs.AccessLists.{access_by};
ghost use Rattle.ipx_sockets.specs.PollEvents.{Watched};
ghost use Rattle.ipx_sockets.specs.Polling.{FailedToWait, FailsToWait, WaitsWell};
ghost use Rattle.ipx_sockets.specs.Senders.{udp_events, udp_fds};
ghost use Rattle.ipx_query.specs.QueryEnds.{is_ask_over};
ghost use Rattle.ipx_query.specs.QueryView.{IsNewAsk};
ghost use Rattle.ipx_query_cmd.specs.QueryRuns.{AsksOn};
ghost use Rattle.ipx_query_cmd.specs.OperatorLines.{answering_nodes};
ghost use Rattle.ipx_query_cmd.specs.Pausing.{IsBusy, MayPause, PausesAfter};
ghost use Rattle.ipx_query_cmd.specs.QueryTargets.{asked_ips, asked_nodes, querier_address, guarded_querier};

use crate::answer_times::{AnswerTime, AnswerTimes};
use crate::fault::AskFault;
use crate::query_socket::QuerySocket;
use crate::query_target::{access_list_of, asked_ips, nodes_of, querier_address};
use ipx_carrier::{Clock as Moments, ip_of};
use ipx_config::HostConfig;
use ipx_query::{QueryCore, TableQuery};
use ipx_sockets::{Poller, SteadyClock};
use ipx_wire::Node;
use std::alloc::{AllocError, Global};
use std::net::Net;
use std::rt::Clock;

/// The longest wait in milliseconds before it checks again whether it is over.
pub const POLL_INTERVAL: u64 = 20;

/// Reports on standard error that a router did not answer, or knows nothing that was asked for. It is
/// named by its IP address, if its node has one.
fn tell_no_answer<P: Eprint>(rt: &P, node: Node, knows_nothing: &str) {
    let Ok(ip) = ip_of(node) else {
        let _ = eprintln!(rt; "no answer from {node}, or it knows {knows_nothing}");
        return;
    };
    let [a, b, c, d] = ip;
    let _ = eprintln!(rt; "no answer from {a}.{b}.{c}.{d}, or it knows {knows_nothing}");
}

/// A host that asks.
pub struct QueryHost<'a, R: Clock> {
    pub core: QueryCore,
    own_socket: QuerySocket,
    clock: SteadyClock<'a, R>,
    poller: Poller,
    times: AnswerTimes<'a, R>,
}

impl<'a, R: Clock> Drop for QueryHost<'a, R> {
    fn drop(self) {
        let QueryHost {
            core: _,
            own_socket: _,
            clock: _,
            poller: _,
            times: _,
        } = self;
    }
}

/// The core of the host of a file that asks these IP addresses.
fn core_of(
    alloc: Global,
    file: &HostConfig,
    question: TableQuery,
    ips: &[[u8; 4]],
) -> Result<QueryCore, AskFault>
    ensures { IfOk result (λ c. ips.now ≡ asked_ips file.now
        → IsNewAsk (querier_address file.now) question (asked_nodes file.now) c) }
{
    let nodes = nodes_of(alloc, ips)?;
    Ok(QueryCore::new(alloc, querier_address(file), question, &nodes)?)
}

impl<'a, R: Net + Clock> QueryHost<'a, R> {
    /// A host that is bound as its file says, and asks its routers a question.
    pub fn open(
        rt: &'a R,
        alloc: Global,
        file: &HostConfig,
        question: TableQuery,
    ) -> Result<QueryHost<'a, R>, AskFault>
        ensures fresh { IfOk result (λ h.
            IsNewAsk (querier_address file.now) question (asked_nodes file.now) h.core) }
        ensures udp_port { IfOk result (λ h.
            map (λ s. s.udp_port) h.own_socket.ports.device.device.sockets.items ≡ file.now.udp_port ∷ []) }
        ensures at { IfOk result (λ h. map (λ s. s.socket.at) h.own_socket.ports.device.device.sockets.items
            ≡ v4_at file.now.address file.now.udp_port ∷ []) }
        // The socket was asked nothing yet, and is marked.
        ensures unasked { IfOk result (λ h.
            udp_events h.own_socket.ports.device.device.sockets.items ≡ [] ∷ []) }
        ensures marks { IfOk result (λ h. h.own_socket.ports.device.device.marks ≡ true ∷ []) }
        ensures clock { IfOk result (λ h. h.clock.last ≡ 0) }
        // A broadcast goes to nobody.
        ensures peers { IfOk result (λ h. peers_of h.own_socket.ports.peers.items ≡ [] ∷ []) }
        // It sends only to those that it asks, and accepts only those.
        ensures access_list { IfOk result (λ h.
            map access_by h.own_socket.ports.device.access_lists.items ≡ guarded_querier file.now ∷ []) }
        // It watches its one socket, and nothing else, and has not waited.
        ensures watches { IfOk result (λ h. h.poller.poll.trace.items
            ≡ map Watched (udp_fds h.own_socket.ports.device.device.sockets.items)) }
    {
        let clock = SteadyClock::new(rt)?;
        let ips = asked_ips(alloc, file)?;
        let access_list = access_list_of(alloc, file, &ips)?;
        let (own_socket, poller) = QuerySocket::open(rt, alloc, file, access_list)?;
        let times = AnswerTimes::new(rt, alloc, ips.len())?;
        // This is last, because it owns most of what is freed if one of these fails.
        let core = core_of(alloc, file, question, &ips)?;
        Ok(QueryHost {
            core,
            own_socket,
            clock,
            poller,
            times,
        })
    }

    /// Takes one turn. It returns whether there may be more to do at once.
    fn turn(&mut self, alloc: Global) -> Result<bool, AskFault>
        ensures asks { IfOk result (λ more. (turn : Turn)
            × AsksOn (turn ∷ []) self.old.clock.last self.new.clock.last
            self.old.own_socket.ports self.new.own_socket.ports self.old.core self.new.core
            × (IsTrue more ↔ IsBusy self.old.own_socket self.new.own_socket turn)) }
        ensures poller { self.new.poller ≡ self.old.poller }
        ensures fault { IfErr result (λ f. f ≡ AskFault.OutOfMemory) }
    {
        let active = self
            .own_socket
            .turn(alloc, &mut self.core, &mut self.clock)?;
        self.times.note(self.core.routers());
        Ok(active)
    }

    /// Takes one turn, and waits if there is nothing to do. Once the query is over, it returns the
    /// time in milliseconds.
    fn step(&mut self, alloc: Global) -> Result<Option<u64>, AskFault>
        // After a busy turn it does not wait, and after another only if the query is not over.
        ensures asks { IfOk result (λ moment. (turn : Turn)
            × AsksOn (turn ∷ []) self.old.clock.last self.new.clock.last
            self.old.own_socket.ports self.new.own_socket.ports self.old.core self.new.core
            × PausesAfter (IsBusy self.old.own_socket self.new.own_socket turn) moment
            self.old.poller self.new.poller) }
        ensures over { IfOk result (λ moment.
            IfSome moment (λ now.
            (now ≡ self.new.clock.last) × (is_ask_over self.new.core now ≡ true))) }
        // It waits at most once, whatever the result.
        ensures waits { MayPause self.old.poller self.new.poller }
        // It fails because it can't wait exactly if it waits, and that fails.
        ensures unwaited { (result ≡ Err AskFault.Wait)
            ↔ FailsToWait self.old.poller self.new.poller }
    {
        let active = self.turn(alloc)?;
        let now = self.clock.now();
        if self.core.is_done(now) {
            return Ok(Some(now));
        }
        if active {
            return Ok(None);
        }
        match self.poller.wait(POLL_INTERVAL) {
            Ok(_) => Ok(None),
            Err(_) => Err(AskFault::Wait),
        }
    }

    /// Asks, turn by turn, until it is over. It returns that time in milliseconds. It fails if the
    /// clock does not move.
    pub fn ask(&mut self, alloc: Global) -> Result<u64, AskFault>
        ensures asks { OnOk result ((turns : List Turn)
            × AsksOn turns self.old.clock.last self.new.clock.last
            self.old.own_socket.ports self.new.own_socket.ports self.old.core self.new.core) }
        ensures over { IfOk result (λ now.
            (now ≡ self.new.clock.last) × (is_ask_over self.new.core now ≡ true)) }
        // It fails because it can't wait exactly if its last wait failed. No other wait fails, and
        // it watches nothing more.
        ensures unwaited { (result ≡ Err AskFault.Wait)
            ↔ FailedToWait self.old.poller self.new.poller }
        ensures waits { result ≢ Err AskFault.Wait → (count : ℕ)
            × WaitsWell count self.old.poller self.new.poller }
    {
        for _ in 0..u64::MAX {
            if let Some(now) = self.step(alloc)? {
                return Ok(now);
            }
        }
        Err(AskFault::Clock)
    }

    /// The routers that answered, and the time until then.
    pub fn answers(&self, alloc: Global) -> Result<Vec<AnswerTime>, AllocError>
        ensures { IfOk result (λ v.
            map (λ a. a.node) v.items ≡ answering_nodes self.now.core.routers) }
    {
        self.times.answers(alloc, self.core.routers())
    }

    /// Reports on standard error which routers did not answer, or know nothing that was asked for.
    /// It also reports if there was no space for all of the answers.
    pub fn tell<P: Eprint>(&self, rt: &P, knows_nothing: &str) {
        for router in self.core.routers() {
            if !router.answered {
                tell_no_answer(rt, router.node, knows_nothing);
            }
        }
        if self.core.is_truncated() {
            let _ = eprintln!(rt; "more entries were received than fit");
        }
    }
}
