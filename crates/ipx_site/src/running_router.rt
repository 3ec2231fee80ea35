//! A router with its sockets, and its work besides the turns of its run.

ghost use Rattle.std.specs.Prelude.{◌≡◌, ◌↔◌, ◌⊎◌, ◌<◌, ◌^◌, ℕ, Bool, List, IfOk, IsTrue, OnErr, OnOk, Some, is_err, is_ok, is_some, length, map, replicate, string_bytes, None};
ghost use Rattle.ipx_carrier.specs.ReadySet.{AreMarked, is_any_marked};
ghost use Rattle.ipx_carrier.specs.Turns.{peers_of};
ghost use Rattle.ipx_site.specs.ClientLog.{IsClientLookDue};
ghost use Rattle.ipx_site.specs.DropLog.{AreDropsLogged, no_drops_logged};
ghost use Rattle.ipx_sockets.specs.Moments.{IsTimeUntilDue, AreLoggedIfDue, HasPassed, IsReached, never_logged};
ghost use Rattle.ipx_site.specs.IdleTime.{IsDue, IsLineDue, IsToSend, deadlines, counts_to_log, happened, happened_in, look_after};
ghost use Rattle.ipx_site.specs.KnownFile.{TellsKnown};
ghost use Rattle.ipx_site.specs.MetricsFile.{IsMetricsFile};
ghost use Rattle.ipx_site.specs.NewRouters.{HasLoggedNobody, HasSeenNothing};
ghost use Rattle.ipx_sockets.specs.Polling.{WaitsOnce, numbers_come};
ghost use Rattle.ipx_sockets.specs.AccessLists.{access_by};
ghost use Rattle.ipx_site.specs.PortsView.{ways_in};
ghost use Rattle.ipx_site.specs.RouterMetrics.{AreMetrics, no_counts};
ghost use Rattle.ipx_site.specs.RouterRounds.{AsksAgain, IsRound, SleepsAfter};
ghost use Rattle.ipx_site.specs.WorkRefusals.{CountsFiles, DoesUnless, IsDoneIfDue, LooksAtClients, LooksAtKnown, Refusals, with_refusals};
ghost use Rattle.ipx_site.specs.SiteMarks.{AfterMarks, marks_in};
ghost use Rattle.ipx_site.specs.TunnelLog.{drop_counts};
ghost use Rattle.ipx_sockets.specs.Steady.{NeverGoesBack, StopsThere};

use crate::client_log::ClientLog;
use crate::clients_file::ClientsFile;
use crate::discovery::discovery_retry;
use crate::drop_log::DropLog;
use crate::frame_metrics::{ethernet_metrics, tell_encapsulations};
use crate::ipxnet_metrics::ipxnet_metrics;
use crate::known_text::known_to_text;
use crate::metrics::Metrics;
use crate::metrics_page::MetricsPage;
use crate::ready_ports::{is_any_marked, mark_ready};
use crate::route_change_log::RouteChangeLog;
use crate::router_counts::RouterCounts;
use crate::router_ports::UdpRouterPorts;
use crate::tunnel_metrics::tunnel_metrics;
use crate::warnings::Warnings;
use crate::written_files::{WriteFault, WrittenFile, write_whole, written};
use ipx_carrier::{Batch, Clock, run_batch};
use ipx_metrics::MeteredRouter;
use ipx_rate_limits::RateLimiter;
use ipx_sockets::{LONGEST, Poller, SteadyClock, WaitFault, end_of, is_over, sooner, time_to};
use ipx_source_checks::SourceChecked;
use ipx_static::{RestartDiscovery, WithStatics};
use log::Log;
use std::alloc::{AllocError, Global};
use std::rt::{Clock as SystemClock, Files};

/// How often the metrics are written, and expired entries are looked for, in milliseconds.
const PERIOD: u64 = LONGEST;

/// How soon it looks again after it heard a response, in milliseconds.
const CHANGE_POLL: u64 = 1000;

/// How long a router pauses after a fault, or while a port keeps failing, in milliseconds.
const BACKOFF: u64 = 100;

/// How many turns are taken before the other work, and before the ready ports are looked for again.
const BATCH_TURNS: u32 = 32;

/// A running router.
pub struct RunningRouter<'a, R: SystemClock> {
    core: SourceChecked<RateLimiter<WithStatics<MeteredRouter>>>,
    ports: UdpRouterPorts,
    clock: SteadyClock<'a, R>,
    ready: Poller,
    metrics_file: Option<String>,
    tables_file: Option<String>,
    totals: RouterCounts,
    route_changes: RouteChangeLog,
    client_log: ClientLog,
    clients_file: ClientsFile,
    warnings: Warnings,
    drops: DropLog,
    /// How often it repeated its requests.
    asked: usize,
    /// When it last looked at what it knows, and how many responses it had heard by then.
    looked: Option<u64>,
    responses: u64,
    /// When the metrics were last written.
    written: Option<u64>,
    // So a turn can always begin.
    ghost port_indices: { length ports.port_indices.items ≡ length core.core.core.core.router.ports },
}

impl<'a, R: SystemClock> Drop for RunningRouter<'a, R> {
    fn drop(self) {
        let RunningRouter {
            core: _,
            ports: _,
            clock: _,
            ready: _,
            metrics_file: _,
            tables_file: _,
            totals: _,
            route_changes: _,
            client_log: _,
            clients_file: _,
            warnings: _,
            drops: _,
            asked: _,
            looked: _,
            responses: _,
            written: _,
        } = self;
    }
}

/// The parts of a running router.
#[derive(Drop)]
pub struct Parts<'a, R: SystemClock> {
    pub core: SourceChecked<RateLimiter<WithStatics<MeteredRouter>>>,
    pub ports: UdpRouterPorts,
    pub clock: SteadyClock<'a, R>,
    pub ready: Poller,
    pub metrics_file: Option<String>,
    pub tables_file: Option<String>,
    pub clients_file: ClientsFile,
}

impl<'a, R: SystemClock> RunningRouter<'a, R> {
    ghost use Rattle.ipx_site.specs.RouterWork.{WorksInRound, notes_of};

    /// A router that begins to run. There must be a port index for each of its ports.
    pub(crate) fn new(alloc: Global, parts: Parts<'a, R>) -> RunningRouter<'a, R>
        requires { length parts.ports.port_indices.items ≡ length parts.core.core.core.core.router.ports }
        ensures core { result.core ≡ parts.entry.core }
        ensures ports { result.ports ≡ parts.entry.ports }
        ensures clock { result.clock ≡ parts.entry.clock }
        ensures ready { result.ready ≡ parts.entry.ready }
        ensures asked { result.asked ≡ 0 }
        ensures metrics_file { result.metrics_file ≡ parts.entry.metrics_file }
        ensures tables_file { result.tables_file ≡ parts.entry.tables_file }
        ensures clients_file { result.clients_file ≡ parts.entry.clients_file }
        // It has counted, looked at, logged and written nothing.
        ensures totals { result.totals ≡ no_counts }
        ensures looked { (result.looked ≡ None) × (result.responses ≡ 0) }
        ensures known { HasSeenNothing result.route_changes }
        ensures clients { HasLoggedNobody result.client_log }
        ensures warnings { result.warnings.causes ≡ replicate 19 never_logged }
        ensures drops { result.drops ≡ no_drops_logged }
        ensures written { result.written ≡ None }
    {
        RunningRouter {
            core: parts.core,
            ports: parts.ports,
            clock: parts.clock,
            ready: parts.ready,
            metrics_file: parts.metrics_file,
            tables_file: parts.tables_file,
            totals: RouterCounts::new(),
            route_changes: RouteChangeLog::new(alloc),
            client_log: ClientLog::new(alloc),
            clients_file: parts.clients_file,
            warnings: Warnings::new(),
            drops: DropLog::new(),
            asked: 0,
            looked: None,
            responses: 0,
            written: None,
        }
    }

    fn metrics(&self, now: u64) -> Metrics
        ensures happened { happened_in result ≡ happened self.now.totals self.now.core self.now.ports }
        ensures metrics { AreMetrics self.now.totals self.now.core self.now.ports self.now.route_changes now
            result }
    {
        self.totals
            .metrics(&self.core, &self.ports, &self.route_changes, now)
    }

    /// The text of its metrics file.
    fn metrics_text(&self, alloc: Global, now: u64) -> Result<String, AllocError>
        ensures { IfOk result (λ t. IsMetricsFile self.now.totals self.now.core self.now.ports
            self.now.route_changes now (string_bytes t)) }
    {
        let core = self.core.core().core().core();
        let ethernet = ethernet_metrics(alloc, &self.ports)?;
        let tunnels = tunnel_metrics(alloc, &self.ports)?;
        let ipxnet = ipxnet_metrics(alloc, &self.ports)?;
        let page = MetricsPage {
            totals: self.metrics(now),
            router: core.router(),
            now,
            counters: core.port_counters(),
            port_indices: self.ports.port_indices(),
            filtered: self.ports.device().port_counters(),
            ethernet: &ethernet,
            tunnels: &tunnels,
            ipxnet: &ipxnet,
        };
        page.text(alloc)
    }

    /// How long to wait for the next look: shorter if a response was heard since the last one.
    fn look_period(&self) -> u64
        ensures { result ≡ look_after self.now.core.core.core.core.outcomes.heard self.now.responses }
    {
        if self.core.core().core().core().outcomes().heard == self.responses {
            PERIOD
        } else {
            CHANGE_POLL
        }
    }

    /// Repeats its requests to the neighbours, if it is time.
    fn ask(&mut self, now: u64)
        ensures core { AsksAgain now self.old.asked self.new.asked self.old.core self.new.core }
        ensures ports { self.new.ports ≡ self.old.ports }
        ensures clock { self.new.clock ≡ self.old.clock }
        ensures ready { self.new.ready ≡ self.old.ready }
        ensures notes { notes_of self.new ≡ notes_of self.old }
    {
        if let Some(moment) = discovery_retry(self.asked) {
            if now >= moment {
                self.asked += 1;
                self.core.restart_discovery();
            }
        }
    }

    /// Logs clients that connected or are gone, if it is time. It returns whether memory was refused.
    fn look_at_clients<L: Log>(&mut self, rt: &L, alloc: Global, now: u64) -> bool
        ensures core { self.new.core ≡ self.old.core }
        ensures ports { self.new.ports ≡ self.old.ports }
        ensures clock { self.new.clock ≡ self.old.clock }
        ensures ready { self.new.ready ≡ self.old.ready }
        ensures asked { self.new.asked ≡ self.old.asked }
        ensures clients { LooksAtClients result self.old.ports now self.old.client_log
            self.new.client_log }
        ensures rest { notes_of self.new ≡ record (notes_of self.old) { client_log = self.new.client_log } }
    {
        self.client_log.tell(rt, alloc, &self.ports, now).is_err()
    }

    /// Logs what is newly known or lost, if it is time. It returns whether memory was refused.
    fn look<L: Log>(&mut self, rt: &L, alloc: Global, now: u64) -> bool
        ensures core { self.new.core ≡ self.old.core }
        ensures ports { self.new.ports ≡ self.old.ports }
        ensures clock { self.new.clock ≡ self.old.clock }
        ensures ready { self.new.ready ≡ self.old.ready }
        ensures asked { self.new.asked ≡ self.old.asked }
        ensures known { LooksAtKnown result self.old.core.core.core.core now self.old.looked
            self.new.looked self.old.responses self.new.responses self.old.route_changes
            self.new.route_changes }
        ensures rest { notes_of self.new ≡ record (notes_of self.old) {
          looked = self.new.looked;
          responses = self.new.responses;
          known = self.new.route_changes;
        } }
    {
        if !is_over(self.looked, self.look_period(), now) {
            return false;
        }
        self.looked = Some(now);
        self.responses = self.core.core().core().core().outcomes().heard;
        let router = self.core.core().core().core().router();
        self.route_changes.look(rt, alloc, router, now).is_err()
    }

    /// The text of its table file at `now`: what it knows.
    fn tables_text(&self, alloc: Global, now: u64) -> Result<String, AllocError>
        ensures { IfOk result (λ t. TellsKnown self.now.core.core.core.core.router now (string_bytes t)) }
    {
        known_to_text(alloc, self.core.core().core().core().router(), now)
    }

    /// Writes its table file, if it has one.
    fn write_tables<F: Files>(&self, rt: &F, alloc: Global, now: u64) -> Result<(), WriteFault>
        ensures { OnErr result (IsTrue (is_some self.now.tables_file)) }
    {
        let Some(path) = &self.tables_file else {
            return Ok(());
        };
        let Ok(text) = self.tables_text(alloc, now) else {
            return Err(WriteFault::OutOfMemory);
        };
        written(write_whole(rt, alloc, path.as_str(), text.as_str()))
    }

    /// Writes its metrics file, if it has one.
    fn write_metrics<F: Files>(&self, rt: &F, alloc: Global, now: u64) -> Result<(), WriteFault>
        ensures { OnErr result (IsTrue (is_some self.now.metrics_file)) }
    {
        let Some(path) = &self.metrics_file else {
            return Ok(());
        };
        let Ok(text) = self.metrics_text(alloc, now) else {
            return Err(WriteFault::OutOfMemory);
        };
        written(write_whole(rt, alloc, path.as_str(), text.as_str()))
    }

    /// Writes the table file and the metrics file, if it is time and it has them. The metrics tell
    /// of the table file too.
    fn write_files<F: Files>(&mut self, rt: &F, alloc: Global, now: u64)
        ensures core { self.new.core ≡ self.old.core }
        ensures ports { self.new.ports ≡ self.old.ports }
        ensures clock { self.new.clock ≡ self.old.clock }
        ensures ready { self.new.ready ≡ self.old.ready }
        ensures asked { self.new.asked ≡ self.old.asked }
        ensures totals { CountsFiles (is_some self.old.tables_file) (is_some self.old.metrics_file)
            (HasPassed 10000 self.old.written now) self.old.totals self.new.totals }
        ensures written { IsDoneIfDue 10000 now self.old.written self.new.written }
        ensures rest { notes_of self.new ≡ record (notes_of self.old) {
          totals = self.new.totals;
          written = self.new.written;
        } }
    {
        if !is_over(self.written, PERIOD, now) {
            return;
        }
        self.written = Some(now);
        let tables = self.write_tables(rt, alloc, now);
        self.totals.count_file(WrittenFile::Tables, tables);
        let metrics = self.write_metrics(rt, alloc, now);
        self.totals.count_file(WrittenFile::Metrics, metrics);
    }

    /// Looks at its clients and at what it knows, and writes its files, if it is time. It counts what
    /// was refused.
    fn look_and_write<S: Log + Files>(&mut self, rt: &S, alloc: Global, now: u64)
        ensures core { self.new.core ≡ self.old.core }
        ensures ports { self.new.ports ≡ self.old.ports }
        ensures clock { self.new.clock ≡ self.old.clock }
        ensures ready { self.new.ready ≡ self.old.ready }
        ensures asked { self.new.asked ≡ self.old.asked }
        // Each refusal is of something that was due, and is counted once.
        ensures totals { (refused : Refusals) × (self.new.totals ≡ with_refusals refused self.old.totals)
            × DoesUnless refused self.old.ports self.old.core now (notes_of self.old) (notes_of self.new) }
        ensures written { IsDoneIfDue 10000 now self.old.written self.new.written }
        ensures warnings { self.new.warnings ≡ self.old.warnings }
        ensures drops { self.new.drops ≡ self.old.drops }
    {
        let clients = self.look_at_clients(rt, alloc, now);
        self.totals.count_refusal(clients);
        let known = self.look(rt, alloc, now);
        self.totals.count_refusal(known);
        self.write_files(rt, alloc, now);
        let kept = self.clients_file.keep(rt, alloc, &self.ports, now);
        self.totals.count_file(WrittenFile::Secret, kept);
    }

    /// Does the work besides the turns.
    fn keep<S: Log + Files>(&mut self, rt: &S, alloc: Global, now: u64)
        ensures core { AsksAgain now self.old.asked self.new.asked self.old.core self.new.core }
        ensures ports { self.new.ports ≡ self.old.ports }
        ensures clock { self.new.clock ≡ self.old.clock }
        ensures ready { self.new.ready ≡ self.old.ready }
        // Each refusal is of something that was due, and is counted once.
        ensures totals { (refused : Refusals) × (self.new.totals ≡ with_refusals refused self.old.totals)
            × DoesUnless refused self.old.ports self.new.core now (notes_of self.old) (notes_of self.new) }
        // Each warning that is due is logged, and no other.
        ensures told { AreLoggedIfDue (counts_to_log (happened self.new.totals self.new.core
            self.new.ports)) now
            self.old.warnings.causes self.new.warnings.causes }
        // So are its drops.
        ensures drops { AreDropsLogged self.new.core.core.core.core.outcomes self.new.core.drops
            (drop_counts self.new.ports.ethernet.sockets.ethernet.items self.new.ports.port_indices.items)
            self.new.ports.ethernet.switches.items self.new.ports.port_indices.items now self.old.drops self.new.drops }
        // It notes this time for its files if that is due.
        ensures written { IsDoneIfDue 10000 now self.old.written self.new.written }
    {
        self.ask(now);
        self.look_and_write(rt, alloc, now);
        let metrics = self.metrics(now);
        if self.warnings.are_encapsulations_due(&metrics, now) {
            tell_encapsulations(rt, &self.ports);
        }
        self.warnings.tell(rt, &metrics, now);
        let core = self.core.core().core().core();
        let source_drops = self.core.drops();
        self.drops.tell(
            rt,
            &core.outcomes(),
            core.last(),
            source_drops,
            &self.ports,
            now,
        );
    }

    /// The time at which it sends what waits in its queues: 0 if anything waits, and None
    /// otherwise.
    fn sending_time(&self) -> Option<u64>
        ensures { (t : ℕ) → IsReached result t ↔ IsToSend self.now.core.core.core.core.queues }
    {
        if self.core.core().core().core().queued() > 0 {
            Some(0)
        } else {
            None
        }
    }

    /// The time at which it is to log a warning, or to look at its clients. It looks if there are more
    /// or fewer than it logged.
    fn next_line(&self, now: u64) -> Option<u64>
        ensures { (t : ℕ) → t < 2 ^ 64 → IsReached result t ↔ (IsLineDue self.now.warnings
            (happened self.now.totals self.now.core self.now.ports) t
            ⊎ IsClientLookDue self.now.client_log self.now.ports.servers.servers.items t) }
    {
        let warnings = self.warnings.next(&self.metrics(now));
        let clients = self.client_log.next(self.ports.servers().servers());
        sooner(warnings, clients)
    }

    /// How long there is nothing to do unless something comes, in milliseconds. Lines about drops are
    /// logged when it does something else, within ten seconds.
    fn time_until_due(&self, now: u64) -> u64
        ensures { IsTimeUntilDue (IsDue (deadlines self.now.asked self.now.looked self.now.responses
            self.now.written self.now.core self.now.warnings self.now.client_log
            (happened self.now.totals self.now.core self.now.ports)
            self.now.ports.servers.servers.items)) now result }
    {
        let telling = self.core.core().core().core().router().next_advertisement();
        let packets = sooner(discovery_retry(self.asked), telling);
        let words = self.core.core().core().next_refresh();
        let pings = self.ports.servers().next_pings();
        let look = end_of(self.looked, self.look_period());
        let metrics = sooner(end_of(self.written, PERIOD), self.next_line(now));
        let due = sooner(packets, sooner(words, sooner(pings, sooner(look, metrics))));
        time_to(sooner(self.sending_time(), due), now)
    }

    /// Does the work that is due, pings silent clients, and takes turns as long as there is something
    /// to receive or to send.
    fn round<S: Log + Files>(&mut self, rt: &S, alloc: Global) -> Batch
        // Before its turns it sends the pings that are due. In each turn its ports received what its
        // core heard, and sent what its core gave.
        ensures core { IsRound self.old.clock self.new.clock
            StopsThere NeverGoesBack self.old.ports self.new.ports
            self.old.asked self.new.asked self.old.core self.new.core
            self.new.ports.ethernet.moment result }
        // Before its turns it notes at that time what is due, as logged and written. Its totals are
        // those of before, with what was refused to this work. The batch is then added: what it did
        // not send, and the fault that ended it.
        ensures work { WorksInRound self.old.ports self.old.core self.new.ports.ethernet.moment
            self.old.asked self.new.asked result (notes_of self.old) (notes_of self.new) }
        ensures ready { self.new.ready ≡ self.old.ready }
        // Ipxnet servers send and receive at the same time as Ethernet ports.
        ensures moments { self.new.ports.servers.moment ≡ self.new.ports.ethernet.moment }
        // The ways packets are sent and the senders that are accepted are unchanged.
        ensures transmissions { ways_in self.new.ports ≡ ways_in self.old.ports }
        ensures peers { peers_of self.new.ports.datagrams.peers.items
            ≡ peers_of self.old.ports.datagrams.peers.items }
        ensures port_indices { self.new.ports.port_indices.items ≡ self.old.ports.port_indices.items }
        ensures access { map access_by self.new.ports.datagrams.device.access_lists.items
            ≡ map access_by self.old.ports.datagrams.device.access_lists.items }
    {
        let now = self.clock.stop();
        self.keep(rt, alloc, now);
        self.ports.set_time(now);
        self.ports.send_pings();
        let batch = run_batch(
            alloc,
            &mut self.core,
            &mut self.ports,
            &mut self.clock,
            BATCH_TURNS,
        );
        self.totals.add(batch);
        batch
    }

    /// How long it waits after a batch, in milliseconds. After a fault it pauses. It does not wait
    /// if there may be more to do. Otherwise it waits as long as there is nothing to do. If a port
    /// is still marked then, it keeps failing, and is tried again after a pause.
    fn rest(&mut self, batch: Batch) -> u64
        ensures rests { SleepsAfter (IsDue (deadlines self.old.asked self.old.looked self.old.responses
            self.old.written self.old.core self.old.warnings self.old.client_log
            (happened self.old.totals self.old.core self.old.ports)
            self.old.ports.servers.servers.items))
            (is_any_marked (marks_in self.old.ports))
            self.old.clock self.new.clock StopsThere result batch.fault batch.quiet }
        ensures core { self.new.core ≡ self.old.core }
        ensures ports { self.new.ports ≡ self.old.ports }
        ensures ready { self.new.ready ≡ self.old.ready }
        ensures totals { self.new.totals ≡ self.old.totals }
        ensures warnings { self.new.warnings ≡ self.old.warnings }
        ensures client_log { self.new.client_log ≡ self.old.client_log }
        ensures drops { self.new.drops ≡ self.old.drops }
        ensures asked { self.new.asked ≡ self.old.asked }
        ensures looked { (self.new.looked ≡ self.old.looked)
            × (self.new.responses ≡ self.old.responses) × (self.new.written ≡ self.old.written) }
        ensures notes { notes_of self.new ≡ notes_of self.old }
    {
        if batch.fault.is_some() {
            return BACKOFF;
        }
        if !batch.quiet {
            return 0;
        }
        let moment = self.clock.stop();
        let time_until_due = self.time_until_due(moment);
        if is_any_marked(&self.ports) {
            time_until_due.min(BACKOFF)
        } else {
            time_until_due
        }
    }

    /// Does the work that is due, takes turns as long as there is something to receive or to send,
    /// waits, and marks the ports where something came.
    pub(crate) fn step<S: Log + Files>(&mut self, rt: &S, alloc: Global) -> Result<(), WaitFault>
        // A round, which stops the clock before its turns, followed by one wait, as long as there
        // is nothing to do. Then the ports are marked of which the system reported an event in this
        // wait, and nothing else changes there.
        ensures core { (between : SteadyClock R) × (batch : Batch) × (time : ℕ)
            × AfterMarks (λ ended. IsRound self.old.clock between StopsThere NeverGoesBack
            self.old.ports ended self.old.asked self.new.asked self.old.core self.new.core
            self.new.ports.ethernet.moment batch
            × SleepsAfter (IsDue (deadlines self.new.asked self.new.looked self.new.responses
            self.new.written self.new.core self.new.warnings self.new.client_log
            (happened self.new.totals self.new.core self.new.ports)
            self.new.ports.servers.servers.items))
            (is_any_marked (marks_in ended))
            between self.new.clock StopsThere time batch.fault batch.quiet
            × OnOk result (AreMarked (numbers_come self.new.ready) (marks_in ended)
            (marks_in self.new.ports))) self.new.ports
            × WaitsOnce time self.old.ready self.new.ready
            × WorksInRound self.old.ports self.old.core self.new.ports.ethernet.moment
            self.old.asked self.new.asked batch (notes_of self.old) (notes_of self.new) }
        // It fails exactly if the wait did.
        ensures fault { is_err result ≡ self.new.ready.failed }
        ensures moments { self.new.ports.servers.moment ≡ self.new.ports.ethernet.moment }
        ensures transmissions { ways_in self.new.ports ≡ ways_in self.old.ports }
        ensures peers { peers_of self.new.ports.datagrams.peers.items
            ≡ peers_of self.old.ports.datagrams.peers.items }
        ensures port_indices { self.new.ports.port_indices.items ≡ self.old.ports.port_indices.items }
        ensures access { map access_by self.new.ports.datagrams.device.access_lists.items
            ≡ map access_by self.old.ports.datagrams.device.access_lists.items }
    {
        let batch = self.round(rt, alloc);
        let time = self.rest(batch);
        self.ready.wait(time)?;
        mark_ready(&mut self.ports, &self.ready);
        Ok(())
    }
}
