//! A host that asks routers, as a core.

ghost use Rattle.std.specs.Prelude.{◌≡◌, ◌<◌, ◌≤◌, ◌||◌, ℕ, IfErr, IfOk, IsOk, OnErr, OnOk, Some, length, map};
ghost use Rattle.ipx_tables.specs.Best.{NoneCounts};
ghost use Rattle.ipx_tables.specs.Listing.{IsListing};
ghost use Rattle.ipx_tables.specs.Route.{network_cmp, route_before};
ghost use Rattle.ipx_tables.specs.Service.{service_before, service_key_cmp};
ghost use Rattle.ipx_router.specs.Knowledge.{routes_in, services_in};
ghost use Rattle.ipx_query.specs.QueryAnswers.{BodyOutOfMemory, HearsBody, ask_heard, is_answer, is_at_hand, is_from_asked, is_to_querier};
ghost use Rattle.ipx_query.specs.QueryEnds.{ask_status, have_answered, have_ended, is_ask_over};
ghost use Rattle.ipx_query.specs.AskQueries.{GivesToPlace, ask_begun, rounds_by};
ghost use Rattle.ipx_query.specs.QueryView.{IsNewAsk, asked_for, unasked};
ghost use Rattle.ipx_query.specs.declared.question.TableQuery.TheVariants.{Networks, Services};
ghost use Rattle.ipx_carrier.specs.GivenPackets.{given_in};

use crate::answer::{hear_rip, hear_sap};
use crate::answer_heard::AnswerHeard;
use crate::queried_router::{QueriedRouter, due_place, has_asked, hear_router};
use crate::query::{LONGEST, query_into, rounds_after, socket_of};
use crate::question::TableQuery;
use ipx_carrier::Core;
use ipx_tables::{
    MAX_ROUTES, MAX_SERVICES, Offers, RouteMetric, RouteTable, ServiceKey, ServiceMetric,
    ServiceTable, Source, TableFault,
};
use ipx_wire::{Address, IpxHeader, Network, Node, OutOfMemory, decode};
use std::alloc::Global;
use std::marker::Model;

/// After this many milliseconds without an answer the query is over.
const QUIET: u64 = 200;

/// A host that asks routers of its own network what they know, over a device of one port.
///
/// Each router is asked at once, and again after one and after two seconds if it has not answered.
/// The query is over if each answer came to its end and 200 ms passed without one, or after four
/// seconds.
#[derive(Drop)]
pub struct QueryCore {
    own: Address,
    question: TableQuery,
    routers: Vec<QueriedRouter>,
    begun: Option<u64>,
    heard_at: u64,
    routes: RouteTable,
    services: ServiceTable,
    cut: bool,
}

impl Model for QueryCore {
    ghost use Rattle.ipx_tables.specs.Content.{IsTable};
    ghost use Rattle.ipx_tables.specs.Route.{network_cmp};
    ghost use Rattle.ipx_tables.specs.Service.{service_key_cmp};
    ghost use Rattle.ipx_query.specs.QueryView.{AskView};

    ghost Value = { AskView };

    ghost view = { λ c. record {
      own = c.own;
      question = c.question;
      routers = c.routers.items;
      begun = c.begun;
      heard_at = c.heard_at;
      routes = c.routes;
      services = c.services;
      cut = c.cut;
    } };

    ghost invariant = { λ c. IsTable network_cmp c.routes × IsTable service_key_cmp c.services };
}

/// The routers of these nodes, not asked yet.
fn queried_routers(alloc: Global, nodes: &[Node]) -> Result<Vec<QueriedRouter>, OutOfMemory>
    ensures { IfOk result (λ v. v.items ≡ map unasked nodes.now) }
{
    let routers = nodes
        .iter()
        .map(|node| QueriedRouter::new(*node))
        .collect::<Vec<QueriedRouter>>(alloc)?;
    Ok(routers)
}

/// Whether a network is 0, the local network, or the host's own.
fn is_here(own: Network, network: Network) -> bool
    ensures { result ≡ is_at_hand own network }
{
    network == Network::LOCAL || network == own
}

/// Notes that a table was full, if it was.
fn note_cut(cut: &mut bool, more: bool)
    ensures { cut.new ≡ (cut.old || more) }
{
    *cut |= more;
}

impl QueryCore {
    /// A host that has asked nothing yet. `own` is its network, node and socket. `nodes` are the
    /// nodes of the routers on its network, each named once.
    pub fn new(
        alloc: Global,
        own: Address,
        question: TableQuery,
        nodes: &[Node],
    ) -> Result<QueryCore, OutOfMemory>
        ensures { IfOk result (IsNewAsk own question nodes.now) }
    {
        let routers = queried_routers(alloc, nodes)?;
        Ok(QueryCore {
            own,
            question,
            routers,
            begun: None,
            heard_at: 0,
            routes: Offers::new(alloc, MAX_ROUTES.saturating_mul(nodes.len())),
            services: Offers::new(alloc, MAX_SERVICES.saturating_mul(nodes.len())),
            cut: false,
        })
    }

    /// The routers that are asked, in order, and the state of each.
    pub fn routers(&self) -> &[QueriedRouter]
        ensures { result.now ≡ self.now.routers }
    {
        &self.routers
    }

    /// Whether a table was full before all that was advertised was learned.
    pub fn is_truncated(&self) -> bool
        ensures { result ≡ self.now.cut }
    {
        self.cut
    }

    /// Whether it is over at a given time, in milliseconds.
    pub fn is_done(&self, now: u64) -> bool
        ensures { result ≡ is_ask_over self.now now }
    {
        match self.begun {
            None => false,
            Some(begun) => {
                let late = now.saturating_sub(begun) >= LONGEST;
                let quiet = now.saturating_sub(self.heard_at) >= QUIET;
                late || (self.have_ended() && quiet)
            }
        }
    }

    /// 0 if each router answered and no table was full, otherwise 1: the exit status of a program.
    pub fn status(&self) -> u8
        ensures { result ≡ ask_status self.now }
    {
        let answered = self.have_answered();
        if answered && !self.cut { 0 } else { 1 }
    }

    fn have_answered(&self) -> bool
        ensures { result ≡ have_answered self.now }
    {
        self.routers.iter().all(|router| router.answered)
    }

    fn have_ended(&self) -> bool
        ensures { result ≡ have_ended self.now }
    {
        self.routers.iter().all(|router| router.ended)
    }

    /// The best route to each network that the routers advertised, ordered by network, and which
    /// router advertised it. The best has the fewest ticks, then hops. Its only fault is
    /// `OutOfMemory`.
    pub fn networks(
        &self,
        alloc: Global,
        now: u64,
    ) -> Result<Vec<(Network, Source, RouteMetric)>, TableFault>
        ensures listed { IfOk result (λ v.
            IsListing network_cmp route_before (routes_in self.now.routes) now v.items) }
        ensures fault { IfErr result (λ e. e ≡ TableFault.OutOfMemory) }
        ensures no_memory_if_none { ((network : Network)
            → NoneCounts (routes_in self.now.routes) network now) → IsOk result }
    {
        self.routes.list(alloc, now)
    }

    /// The nearest offer of each service that the routers advertised, ordered by type and name, and
    /// which router advertised it. The nearest has the fewest hops, then the least address. Its
    /// only fault is `OutOfMemory`.
    pub fn services(
        &self,
        alloc: Global,
        now: u64,
    ) -> Result<Vec<(ServiceKey, Source, ServiceMetric)>, TableFault>
        ensures listed { IfOk result (λ v.
            IsListing service_key_cmp service_before (services_in self.now.services) now v.items) }
        ensures fault { IfErr result (λ e. e ≡ TableFault.OutOfMemory) }
        ensures no_memory_if_none { ((key : ServiceKey)
            → NoneCounts (services_in self.now.services) key now) → IsOk result }
    {
        self.services.list(alloc, now)
    }

    fn is_to_us(&self, to: Address) -> bool
        ensures { result ≡ is_to_querier self.now to }
    {
        let own = self.own;
        is_here(own.network, to.network) && to.node == own.node && to.socket == own.socket
    }

    fn is_from_router(&self, from: Address) -> bool
        ensures { result ≡ is_from_asked self.now from }
    {
        is_here(self.own.network, from.network)
            && has_asked(&self.routers, from.node)
            && from.socket == socket_of(self.question)
    }

    /// Whether a packet is to this host, from a router and a socket that were asked, and no router
    /// forwarded it.
    fn is_answer(&self, header: IpxHeader) -> bool
        ensures { result ≡ is_answer self.now header }
    {
        header.hops == 0 && self.is_to_us(header.to) && self.is_from_router(header.from)
    }

    /// Begins to ask, if it has not yet. Returns how many rounds have begun.
    fn begin(&mut self, now: u64) -> u8
        ensures begun { self.new ≡ ask_begun self.old now }
        ensures rounds { result ≡ rounds_by (asked_for self.old now) }
    {
        let begun = self.begun.unwrap_or(now);
        self.begun = Some(begun);
        rounds_after(now.saturating_sub(begun))
    }

    /// Asks the router at a position, which must exist, in a round.
    fn ask(&mut self, place: usize, rounds: u8, room: &mut [u8]) -> (usize, Node, usize)
        requires there { place < length self.old.routers }
        requires room { 1536 ≤ length room.old }
        ensures gives { GivesToPlace self.old rounds (Some place)
            (given_in room.new (Some result)) self.new }
        ensures port { result.0 ≡ 0 }
        ensures within { result.2 ≤ length room.old }
    {
        let router = self.routers[place];
        self.routers[place] = router.asked_in(rounds);
        let count = query_into(self.own, self.question, router.node, room);
        (0, router.node, count)
    }

    /// Notes that a node answered, if it did.
    fn note(&mut self, node: Node, now: u64, answer: Option<AnswerHeard>)
        ensures { self.new ≡ ask_heard node now answer self.old }
    {
        let Some(answer) = answer else {
            return;
        };
        hear_router(&mut self.routers, node, answer.ended);
        self.heard_at = now;
        note_cut(&mut self.cut, answer.cut);
    }

    fn hear_networks(
        &mut self,
        alloc: Global,
        node: Node,
        body: &[u8],
        now: u64,
    ) -> Result<(), OutOfMemory>
        ensures heard { OnOk result (HearsBody Networks self.old node body.now now self.new) }
        ensures refused { OnErr result
            (BodyOutOfMemory Networks self.old node body.now now self.new) }
    {
        match hear_rip(alloc, self.own, &mut self.routes, node, body, now) {
            Err(_) => Err(OutOfMemory),
            Ok(answer) => {
                self.note(node, now, answer);
                Ok(())
            }
        }
    }

    fn hear_services(
        &mut self,
        alloc: Global,
        node: Node,
        body: &[u8],
        now: u64,
    ) -> Result<(), OutOfMemory>
        ensures heard { (kind : ℕ) → OnOk result
            (HearsBody (Services kind) self.old node body.now now self.new) }
        ensures refused { (kind : ℕ) → OnErr result
            (BodyOutOfMemory (Services kind) self.old node body.now now self.new) }
    {
        match hear_sap(alloc, &mut self.services, node, body, now) {
            Err(_) => Err(OutOfMemory),
            Ok(answer) => {
                self.note(node, now, answer);
                Ok(())
            }
        }
    }

    /// Learns the body of a packet from a node, as an answer to the question.
    fn hear_body(
        &mut self,
        alloc: Global,
        node: Node,
        body: &[u8],
        now: u64,
    ) -> Result<(), OutOfMemory>
        ensures heard { OnOk result
            (HearsBody self.old.question self.old node body.now now self.new) }
        ensures refused { OnErr result
            (BodyOutOfMemory self.old.question self.old node body.now now self.new) }
    {
        match self.question {
            TableQuery::Networks => self.hear_networks(alloc, node, body, now),
            TableQuery::Services(_) => self.hear_services(alloc, node, body, now),
        }
    }
}

impl Core for QueryCore {
    ghost use Rattle.ipx_query.specs.QueryAnswers.{AskHears, QueryHearOutOfMemory};
    ghost use Rattle.ipx_query.specs.AskQueries.{AskGives};

    ghost port_count = { λ c. 1 };

    ghost hears = { λ old port bytes now new. AskHears old bytes now new };

    ghost gives = { AskGives };

    ghost hear_out_of_memory = { λ old port bytes now new. QueryHearOutOfMemory old bytes now new };

    ghost next_out_of_memory = { λ old now new. ⊥ };

    fn ports(&self) -> usize {
        1
    }

    fn hear(
        &mut self,
        alloc: Global,
        _port: usize,
        bytes: &[u8],
        now: u64,
    ) -> Result<(), OutOfMemory> {
        match decode(bytes) {
            Err(_) => return Ok(()),
            Ok(packet) => {
                if !self.is_answer(packet.header) {
                    return Ok(());
                }
                return self.hear_body(alloc, packet.header.from.node, packet.body, now);
            }
        }
    }

    fn next(
        &mut self,
        _alloc: Global,
        now: u64,
        room: &mut [u8],
    ) -> Result<Option<(usize, Node, usize)>, OutOfMemory> {
        let rounds = self.begin(now);
        match due_place(&self.routers, rounds) {
            None => Ok(None),
            Some(place) => Ok(Some(self.ask(place, rounds, room))),
        }
    }
}
