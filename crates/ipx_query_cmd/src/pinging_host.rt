//! The host of a file that pings a listener over its socket.

ghost use Rattle.std.specs.Prelude.{◌≡◌, ◌≢◌, ◌↔◌, ◌∷◌, ◌++◌, [], ℕ, Err, IfErr, IfOk, IfSome, IsTrue, List, OnOk, map, true};
ghost use Rattle.std.specs.Io.KnownBytes.{Appends};
ghost use Rattle.ipx_carrier.specs.Traces.{v4_at};
ghost use Rattle.ipx_carrier.specs.Mapping.{node_at};
ghost use Rattle.ipx_carrier.specs.Turns.{peers_of};
ghost use Rattle.ipx_sockets.specs.AccessLists.{access_by};
ghost use Rattle.ipx_sockets.specs.PollEvents.{Watched};
ghost use Rattle.ipx_sockets.specs.Polling.{FailedToWait, FailsToWait, WaitsWell};
ghost use Rattle.ipx_sockets.specs.Senders.{udp_events, udp_fds};
ghost use Rattle.ipx_query.specs.PingEnds.{is_ping_over, new_ping};
ghost use Rattle.ipx_query_cmd.specs.Pausing.{IsBusy, MayPause, PausesAfter};
ghost use Rattle.ipx_query_cmd.specs.PingLines.{news_text, news_times, ping_end_text};
ghost use Rattle.ipx_query_cmd.specs.PingRuns.{IsPingTurn, PingTurn, PingsOn, lines_printed, ping_id, times_printed};
ghost use Rattle.ipx_query_cmd.specs.QueryTargets.{querier_address};
ghost use Rattle.ipx_query_cmd.specs.PingTargets.{guarded_pinger};

use crate::fault::AskFault;
use crate::ping_event::{PingEvent, keep_time, news_of, unanswered};
use crate::ping_lines::{news_to_text, totals_to_line};
use crate::ping_options::{PING_ID, access_list_of};
use crate::query_host::POLL_INTERVAL;
use crate::query_socket::QuerySocket;
use crate::query_target::querier_address;
use crate::stop_watch::StopWatch;
use ipx_carrier::{Clock as Moments, node_of};
use ipx_config::HostConfig;
use ipx_query::PingCore;
use ipx_sockets::{Poller, SteadyClock};
use ipx_wire::Address;
use std::alloc::Global;
use std::io::Write;
use std::net::Net;
use std::rt::Clock;

/// A host that pings, with the times of the answers in tenths of a millisecond.
pub struct PingingHost<'a, R: Clock> {
    pub core: PingCore,
    to: Address,
    times: Vec<u64>,
    own_socket: QuerySocket,
    clock: SteadyClock<'a, R>,
    poller: Poller,
    watch: StopWatch<'a, R>,
}

impl<'a, R: Clock> Drop for PingingHost<'a, R> {
    fn drop(self) {
        let PingingHost {
            core: _,
            to: _,
            times: _,
            own_socket: _,
            clock: _,
            poller: _,
            watch: _,
        } = self;
    }
}

/// Writes a whole text and flushes it, so that readers get it at once.
fn write_now<W: Write>(writer: &mut W, text: &str) -> Result<(), AskFault>
    ensures writes { OnOk result (Appends (W.contents writer.old) (W.contents writer.new) text.now) }
    ensures fault { IfErr result (λ f. f ≡ AskFault.Unwritten) }
{
    if writer.write_all(text.as_bytes()).is_err() {
        return Err(AskFault::Unwritten);
    }
    match writer.flush() {
        Ok(()) => Ok(()),
        Err(_) => Err(AskFault::Unwritten),
    }
}

/// Writes the line of a request's result, if there is one.
fn write_news<W: Write>(
    alloc: Global,
    to: Address,
    news: Option<PingEvent>,
    writer: &mut W,
) -> Result<(), AskFault>
    ensures writes { OnOk result
        (Appends (W.contents writer.old) (W.contents writer.new) (news_text to news)) }
    ensures fault { IfErr result (λ f. f ≢ AskFault.Wait) }
{
    let text = news_to_text(alloc, to, news)?;
    write_now(writer, &text)
}

impl<'a, R: Net + Clock> PingingHost<'a, R> {
    /// A host that is bound as its file says, and pings an address with `count` requests.
    pub fn open(
        rt: &'a R,
        alloc: Global,
        file: &HostConfig,
        to: Address,
        count: u16,
    ) -> Result<PingingHost<'a, R>, AskFault>
        ensures fresh { IfOk result (λ h.
            h.core ≡ new_ping (querier_address file.now) (node_at file.now.router) to ping_id count) }
        ensures to { IfOk result (λ h. h.to ≡ to) }
        ensures times { IfOk result (λ h. h.times.items ≡ []) }
        ensures udp_port { IfOk result (λ h.
            map (λ s. s.udp_port) h.own_socket.ports.device.device.sockets.items ≡ file.now.udp_port ∷ []) }
        ensures at { IfOk result (λ h. map (λ s. s.socket.at) h.own_socket.ports.device.device.sockets.items
            ≡ v4_at file.now.address file.now.udp_port ∷ []) }
        // The socket was asked nothing yet, and is marked.
        ensures unasked { IfOk result (λ h.
            udp_events h.own_socket.ports.device.device.sockets.items ≡ [] ∷ []) }
        ensures marks { IfOk result (λ h. h.own_socket.ports.device.device.marks ≡ true ∷ []) }
        ensures clock { IfOk result (λ h. h.clock.last ≡ 0) }
        // A broadcast goes to nobody.
        ensures peers { IfOk result (λ h. peers_of h.own_socket.ports.peers.items ≡ [] ∷ []) }
        // It sends only to the first node on the way, and accepts only those that may bring an
        // answer.
        ensures access_list { IfOk result (λ h.
            map access_by h.own_socket.ports.device.access_lists.items ≡ guarded_pinger file.now to ∷ []) }
        // It watches its one socket, and nothing else, and has not waited.
        ensures watches { IfOk result (λ h. h.poller.poll.trace.items
            ≡ map Watched (udp_fds h.own_socket.ports.device.device.sockets.items)) }
    {
        let clock = SteadyClock::new(rt)?;
        let access_list = access_list_of(alloc, file, to)?;
        let (own_socket, poller) = QuerySocket::open(rt, alloc, file, access_list)?;
        let own = querier_address(file);
        let router = node_of(file.router);
        Ok(PingingHost {
            core: PingCore::new(own, router, to, PING_ID, u32::from(count)),
            to,
            times: Vec::new(alloc),
            own_socket,
            clock,
            poller,
            watch: StopWatch::new(rt),
        })
    }

    /// Takes one turn. It returns whether there may be more to do at once, and the event of the
    /// turn.
    fn turn(&mut self, alloc: Global) -> Result<(bool, Option<PingEvent>), AskFault>
        ensures pings { IfOk result (λ r. (turn : PingTurn) × (r.1 ≡ turn.news)
            × IsPingTurn turn self.old.clock.last self.new.clock.last
            self.old.own_socket.ports self.new.own_socket.ports self.old.core self.new.core
            × (IsTrue r.0 ↔ IsBusy self.old.own_socket self.new.own_socket turn.turn)) }
        ensures to { self.new.to ≡ self.old.to }
        ensures times { self.new.times ≡ self.old.times }
        ensures poller { self.new.poller ≡ self.old.poller }
        ensures fault { IfErr result (λ f. f ≡ AskFault.OutOfMemory) }
    {
        let before = self.core;
        let active = self
            .own_socket
            .turn(alloc, &mut self.core, &mut self.clock)?;
        let news = news_of(&before, &self.core, self.watch.tenths());
        if self.core.sent() != before.sent() {
            self.watch.restart();
        }
        Ok((active, news))
    }

    /// Takes one turn, writes the line that is due, and waits if there is nothing to do. Once the
    /// ping is over, it returns the time in milliseconds.
    fn step<W: Write>(&mut self, alloc: Global, writer: &mut W) -> Result<Option<u64>, AskFault>
        // After a busy turn it does not wait, and after another only if the ping is not over.
        ensures pings { IfOk result (λ moment. (turn : PingTurn)
            × IsPingTurn turn self.old.clock.last self.new.clock.last
            self.old.own_socket.ports self.new.own_socket.ports self.old.core self.new.core
            × (self.new.times.items ≡ self.old.times.items ++ news_times turn.news)
            × Appends (W.contents writer.old) (W.contents writer.new) (news_text self.old.to turn.news)
            × PausesAfter (IsBusy self.old.own_socket self.new.own_socket turn.turn) moment
            self.old.poller self.new.poller) }
        ensures over { IfOk result (λ moment. IfSome moment (λ now.
            (now ≡ self.new.clock.last) × (is_ping_over self.new.core now ≡ true))) }
        ensures to { self.new.to ≡ self.old.to }
        // It waits at most once, whatever the result.
        ensures waits { MayPause self.old.poller self.new.poller }
        // It fails because it can't wait exactly if it waits, and that fails.
        ensures unwaited { (result ≡ Err AskFault.Wait)
            ↔ FailsToWait self.old.poller self.new.poller }
    {
        let (active, news) = self.turn(alloc)?;
        keep_time(&mut self.times, news)?;
        write_news(alloc, self.to, news, writer)?;
        let now = self.clock.now();
        if self.core.is_done(now) {
            return Ok(Some(now));
        }
        if active {
            return Ok(None);
        }
        match self.poller.wait(POLL_INTERVAL) {
            Ok(_) => Ok(None),
            Err(_) => Err(AskFault::Wait),
        }
    }

    /// Pings, turn by turn, until it is over, and writes each line as it comes. It returns that
    /// time in milliseconds. It fails if the clock does not move.
    pub fn ping<W: Write>(&mut self, alloc: Global, writer: &mut W) -> Result<u64, AskFault>
        ensures pings { OnOk result ((turns : List PingTurn)
            × PingsOn turns self.old.clock.last self.new.clock.last
            self.old.own_socket.ports self.new.own_socket.ports self.old.core self.new.core
            × (self.new.times.items ≡ self.old.times.items ++ times_printed turns)
            × Appends (W.contents writer.old) (W.contents writer.new) (lines_printed self.old.to turns)) }
        ensures over { IfOk result (λ now.
            (now ≡ self.new.clock.last) × (is_ping_over self.new.core now ≡ true)) }
        ensures to { self.new.to ≡ self.old.to }
        // It fails because it can't wait exactly if its last wait failed. No other wait fails, and
        // it watches nothing more.
        ensures unwaited { (result ≡ Err AskFault.Wait)
            ↔ FailedToWait self.old.poller self.new.poller }
        ensures waits { result ≢ Err AskFault.Wait → (count : ℕ)
            × WaitsWell count self.old.poller self.new.poller }
    {
        for _ in 0..u64::MAX {
            if let Some(now) = self.step(alloc, writer)? {
                return Ok(now);
            }
        }
        Err(AskFault::Clock)
    }

    /// Writes the last lines.
    pub fn conclude<W: Write>(&self, alloc: Global, writer: &mut W) -> Result<(), AskFault>
        ensures { OnOk result (Appends (W.contents writer.old) (W.contents writer.new)
            (ping_end_text self.now.to self.now.core self.now.times.items)) }
    {
        write_news(alloc, self.to, unanswered(&self.core), writer)?;
        let sent = self.core.sent();
        let answered = self.core.answered();
        let line = totals_to_line(alloc, sent, answered, &self.times)?;
        write_now(writer, &line)
    }
}
