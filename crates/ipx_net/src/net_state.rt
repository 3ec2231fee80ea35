//! The state of a network: its hosts, routers and log, without the summaries of its ends.

ghost use Rattle.std.specs.Prelude.{◌≡◌, ◌≤◌, ◌+◌, ◌-◌, ◌↔◌, All, IfErr, IfOk, IsTrue, None, OnOk, false, length, take, true, unwrap_or, vec_capacity, vec_len};
ghost use Rattle.spx_theory.specs.Peers.{IsFresh};
ghost use Rattle.ipx_router.specs.declared.fault.NewFault.TheVariants as NewFaults;
ghost use Rattle.ipx_net.specs.AnswerView.{answer_view};
ghost use Rattle.ipx_net.specs.NetBeginnings.{ArePortsOwed, IsHostOwed, IsNewNet, first_refusal};
ghost use Rattle.ipx_net.specs.Begins.{BeginsAsRead};
ghost use Rattle.ipx_net.specs.Ends.{TellsLog};
ghost use Rattle.ipx_net.specs.LogEntries.{entry_notes};
ghost use Rattle.ipx_net.specs.NetEvents.{Happens, IsOwed, LeavesMarks};
ghost use Rattle.ipx_net.specs.NetFaults.{first_fault};
ghost use Rattle.ipx_net.specs.Parcels.{parcel_views};
ghost use Rattle.ipx_net.specs.Theorems.{Theorems};
ghost use Rattle.ipx_net.specs.EndSummaryChanges.{ChangesState, SameHostAndState, hosts_of, polled_host, reached_host, touched_by};
ghost use Rattle.ipx_net.specs.EventMemory.{EventNeedsMemory};
ghost use Rattle.ipx_net.specs.declared.fault.NetFault.TheVariants as NetFaults;

use crate::answer::Answer;
use crate::entry::Entry;
use crate::event::{Event, Member};
use crate::fault::NetFault;
use crate::faults::fault_of;
use crate::happening::happen;
use crate::host::Host;
use crate::indexed_log::IndexedLog;
use crate::making::{hosts_of, routers_of};
use crate::parcel::Parcel;
use crate::place::Place;
use crate::routers::RouterNow;
use crate::step_result::StepResult;
use crate::told::EndSummaries;
use ipx_net_hosts::Hosts;
use ipx_router::{NewFault, Port};
use spx_theory::{
    acknowledged_end_is_read, addresses_tell_peers, between_is_read, confirmed_is_read,
    end_taken_is_whole, ends_are_summarized, entries_tell_ends, hands_out_what_it_took,
    headline_of_log, links_send_in_order, made_once, no_pair_is_stuck, no_state_is_stuck,
    nothing_is_stuck_by_addresses, numbers_are_in_order, origins_are_read, pairs_take_steps,
    peerless_reads_nothing, peers_are_in_step, peers_are_read, peers_of_worlds_are_in_step,
    premises_are_read, routers_alter_only_hops, steps_are_deeds, units_are_cuts,
    units_are_sent_in_order,
};
use std::alloc::Global;
use std::marker::Model;

/// The number of entries in the log after which no more steps are taken.
const MAX_ENTRIES: usize = 1_000_000;

/// The hosts and routers of a network, the packets that were sent, and the log.
#[derive(Drop)]
pub struct NetState {
    hosts: Hosts,
    routers: Vec<RouterNow>,
    indexed_log: IndexedLog,
    moment: u64,
    spent: bool,
}

impl Model for NetState {
    ghost use Rattle.ipx_net_hosts.specs.Hosts.{world_of};
    ghost use Rattle.ipx_net.specs.NetReach.{IsKept};
    ghost use Rattle.ipx_net.specs.NetView.{NetView, net_of};

    ghost Value = { NetView };

    ghost view = { λ n. record {
      now = net_of n.hosts n.routers.items n.indexed_log.parcels n.indexed_log.log n.moment;
      spent = n.spent;
    } };

    ghost invariant = { λ n. IsKept (world_of n.hosts n.indexed_log.parcels n.indexed_log.log n.moment) n.spent };
}

/// The host that is polled, if it is one.
fn polled_host(member: Member) -> Option<usize>
    ensures { result ≡ polled_host member }
{
    match member {
        Member::Host(host) => Some(host),
        Member::Router(_) => None,
    }
}

/// The host at a place, if it is one.
fn reached_host(place: Place) -> Option<usize>
    ensures { result ≡ reached_host place }
{
    match place {
        Place::Host(host) => Some(host),
        Place::Port(_, _) => None,
    }
}

impl NetState {
    /// Makes a network of these hosts and routers, numbered from 0 in their order. Its time is 0.
    /// Nothing has happened in it: its routers know nothing, and its hosts have no connections.
    ///
    /// The caller must pass networks other than 0 and FFFFFFFF, of hosts and of ports, and 1 to 8,192
    /// buffers for a host that listens. It fails with the fault of the first router that is
    /// refused, or else if out of memory.
    pub fn new(
        alloc: Global,
        hosts: Vec<Host>,
        routers: Vec<Vec<Port>>,
    ) -> Result<NetState, NewFault>
        requires hosts { All IsHostOwed hosts.items }
        requires ports { All ArePortsOwed routers.items }
        ensures new { IfOk result (λ n. IsNewNet hosts.items routers.items n) }
        ensures sound { OnOk result (first_refusal routers.items ≡ None) }
        ensures fault { IfErr result
            (λ f. f ≡ unwrap_or (first_refusal routers.items) NewFaults.OutOfMemory) }
    {
        peers_of_worlds_are_in_step();
        let routers = routers_of(alloc, routers)?;
        let Ok(hosts) = hosts_of(alloc, &hosts) else {
            return Err(NewFault::OutOfMemory);
        };
        Ok(NetState {
            hosts,
            routers,
            indexed_log: IndexedLog::new(alloc),
            moment: 0,
            spent: false,
        })
    }

    /// The fault that is found before an event does anything, if there is one.
    pub fn first_fault(&self, event: &Event) -> Option<NetFault>
        ensures { result ≡ first_fault self.now event.now }
    {
        if self.spent {
            return Some(NetFault::Spent);
        }
        if self.indexed_log.log().len() >= MAX_ENTRIES {
            return Some(NetFault::Full);
        }
        fault_of(&self.hosts, &self.routers, &self.indexed_log, event)
    }

    /// Does an event for which no fault was found. If memory is refused, the network gives up. It
    /// reserves space for the summaries of the ends that the event makes.
    pub fn go_on(
        &mut self,
        told: &mut EndSummaries,
        alloc: Global,
        event: Event,
    ) -> Result<Answer, NetFault>
        requires owed { IsOwed event }
        requires sound { first_fault self.old event ≡ None }
        ensures ok { IfOk result (λ a. Happens event (answer_view a) self.old.now self.new.now) }
        ensures going { OnOk result (self.new.spent ≡ false) }
        ensures fault { IfErr result (λ f. f ≡ NetFaults.OutOfMemory) }
        ensures log { IfErr result (λ f. self.new.now.world.log ≡ self.old.now.world.log) }
        ensures parcels { IfErr result
            (λ f. self.new.now.world.parcels ≡ self.old.now.world.parcels) }
        ensures marks { IfErr result
            (λ f. LeavesMarks event self.old.now.world.ends self.new.now.world.ends) }
        ensures spent { IfErr result (λ f. self.new.spent ≡ true) }
        ensures memory { IfErr result (λ f. EventNeedsMemory self.old.now event) }
        ensures behind { OnOk result (take (length self.old.now.world.log) self.new.now.world.log
            ≡ self.old.now.world.log) }
        ensures told { told.new.infos.items ≡ told.old.infos.items }
        ensures room { OnOk result (vec_len told.new.infos
            + (length self.new.now.world.log - length self.old.now.world.log)
            ≤ vec_capacity told.new.infos) }
    {
        steps_are_deeds();
        let grown = happen(
            alloc,
            &mut self.hosts,
            &mut self.routers,
            &self.indexed_log,
            &mut self.moment,
            event,
        );
        let Ok(growth) = grown else {
            self.spent = true;
            return Err(NetFault::OutOfMemory);
        };
        let StepResult {
            parcels,
            entries,
            answer,
        } = growth;
        if told.reserve(&entries).is_err() {
            self.spent = true;
            return Err(NetFault::OutOfMemory);
        }
        if self.indexed_log.append(parcels, entries).is_err() {
            self.spent = true;
            return Err(NetFault::OutOfMemory);
        }
        Ok(answer)
    }

    /// The theorems of every network.
    pub fn holds(&self)
        ensures { Theorems self.now }
    {
        let _spent = &self.spent;
        routers_alter_only_hops();
        units_are_sent_in_order();
        headline_of_log();
        origins_are_read();
        peers_are_read();
        between_is_read();
        made_once();
        premises_are_read();
        peers_are_in_step();
        peerless_reads_nothing();
        addresses_tell_peers();
        pairs_take_steps();
        end_taken_is_whole();
        numbers_are_in_order();
        units_are_cuts();
        ends_are_summarized();
        entries_tell_ends();
        hands_out_what_it_took();
        confirmed_is_read();
        acknowledged_end_is_read();
        links_send_in_order();
        no_state_is_stuck();
        no_pair_is_stuck();
        nothing_is_stuck_by_addresses();
    }

    /// The log: what happened, from the start on.
    pub fn log(&self) -> &[Entry]
        ensures { entry_notes result.now ≡ self.now.now.world.log }
    {
        self.indexed_log.log()
    }

    /// The parcels, by their numbers from 0.
    pub fn parcels(&self) -> &[Parcel]
        ensures { parcel_views result.now ≡ self.now.now.world.parcels }
    {
        self.indexed_log.parcels()
    }

    /// Whether the messages that an end handed out are a prefix of those that were handed in at its
    /// peer.
    pub fn begins(&self, end: usize) -> bool
        ensures { IsTrue result ↔ BeginsAsRead self.now.now.world.log end }
    {
        self.indexed_log.begins(end)
    }

    /// Whether each packet that an end has read from its peer was sent fewer than 32,768 units of
    /// each of the two before.
    pub fn fresh(&self) -> bool
        ensures { IsTrue result ↔ IsFresh self.now.now.world.log }
    {
        self.indexed_log.fresh()
    }

    /// The host whose ends an event may change.
    pub fn touched(&self, event: &Event) -> Option<usize>
        ensures { result ≡ touched_by self.now.now.world event.now }
    {
        match event {
            Event::Dial { host, .. } => Some(*host),
            Event::Send { who, .. }
            | Event::Take { who }
            | Event::Close { who }
            | Event::Pace { who, .. }
            | Event::Again { who, .. }
            | Event::Release { who } => self.hosts.host_of(*who),
            Event::Poll { member } => polled_host(*member),
            Event::Deliver { place, .. } => reached_host(*place),
            Event::Tick { .. } | Event::Inject { .. } => None,
        }
    }

    /// Updates the ends of a host: each to its present state, or all to released.
    pub fn stand(&self, told: &mut EndSummaries, host: Option<usize>, gone: bool)
        requires { self.now.spent ≡ false }
        ensures { ChangesState (hosts_of self.now.now.world) host gone
            told.old.infos.items told.new.infos.items }
    {
        if let Some(host) = host {
            told.settle(&self.hosts, host, gone);
        }
    }

    /// Updates the summaries from the entries of the log from an index on.
    pub fn tell(&self, told: &mut EndSummaries, from: usize)
        requires range { from ≤ length self.now.now.world.log }
        requires room { vec_len told.old.infos + (length self.now.now.world.log - from)
            ≤ vec_capacity told.old.infos }
        requires before { TellsLog (take from self.now.now.world.log) told.old.infos.items }
        ensures log { TellsLog self.now.now.world.log told.new.infos.items }
        ensures same { SameHostAndState told.old.infos.items told.new.infos.items }
    {
        self.holds();
        told.read_from(self.indexed_log.log(), from);
        told.pair_from(&self.indexed_log, from);
    }
}
