//! Summaries of the ends of a network, kept as its log grows.

ghost use Rattle.std.specs.Prelude.{◌≡◌, ◌≢◌, ◌<◌, ◌≤◌, ◌+◌, ◌-◌, ◌^◌, ℕ, [], OnErr, OnOk, Some, length, set, slice_get, take, vec_capacity, vec_len};
ghost use Rattle.ipx_net_hosts.specs.Hosts.{FitTogether};
ghost use Rattle.ipx_net_hosts.specs.EndStates.{here_at, state_on_host};
ghost use Rattle.spx_theory.specs.EndsSummarized.{peer_of};
ghost use Rattle.spx_theory.specs.Scan.{scan};
ghost use Rattle.spx_theory.specs.World.{end_at};
ghost use Rattle.ipx_net.specs.Ends.{nobody, told_of};
ghost use Rattle.ipx_net.specs.LogEntries.{entry_note, entry_notes};
ghost use Rattle.ipx_net.specs.Theorems.{AreNumbered};
ghost use Rattle.ipx_net.specs.EndSummaryChanges.{AreCounted, HasHostAndState, OthersStay, StayAs, change, joins, logged, one_given, one_out, one_sent, made_peers, paired_by, settled, standing, state_by, stood, summaries_with, with_peer};

use crate::endinfo::EndInfo;
use crate::entry::Entry;
use crate::indexed_log::IndexedLog;
use ipx_net_hosts::Hosts;
use spx_link::State;
use spx_theory::peer_is_found;
use std::alloc::{AllocError, Global};

/// The summary of each end, by its number.
#[derive(Drop)]
pub struct EndSummaries {
    pub infos: Vec<EndInfo>,
}

/// The summary of an end of which nothing is known yet.
fn nobody() -> EndInfo
    ensures { result ≡ nobody }
{
    EndInfo {
        host: 0,
        state: None,
        given: 0,
        out: 0,
        next: 0,
        peer: None,
    }
}

/// The summary of an end, by its number.
fn told_of(infos: &[EndInfo], who: usize) -> EndInfo
    ensures { result ≡ told_of infos.now who }
{
    match infos.get(who) {
        Some(info) => *info,
        None => nobody(),
    }
}

/// Replaces the summary of an end, if there is one of that number.
fn put(infos: &mut [EndInfo], who: usize, info: EndInfo)
    ensures { infos.new ≡ set infos.old who info }
{
    if who < infos.len() {
        infos[who] = info;
    }
}

/// Counts one more message that was handed in at an end.
fn add_given(infos: &mut [EndInfo], who: usize)
    requires { (told_of infos.old who).given + 1 < 2 ^ 64 }
    ensures { infos.new ≡ change one_given who infos.old }
{
    let info = told_of(infos, who);
    put(
        infos,
        who,
        EndInfo {
            given: info.given + 1,
            ..info
        },
    );
}

/// Counts one more message that an end handed out.
fn add_out(infos: &mut [EndInfo], who: usize)
    requires { (told_of infos.old who).out + 1 < 2 ^ 64 }
    ensures { infos.new ≡ change one_out who infos.old }
{
    let info = told_of(infos, who);
    put(
        infos,
        who,
        EndInfo {
            out: info.out + 1,
            ..info
        },
    );
}

/// Counts one more unit that an end sent for the first time.
fn add_sent(infos: &mut [EndInfo], who: usize)
    ensures { infos.new ≡ change one_sent who infos.old }
{
    let info = told_of(infos, who);
    put(
        infos,
        who,
        EndInfo {
            next: info.next.wrapping_add(1),
            ..info
        },
    );
}

/// Sets the peer of an end.
fn set_peer(infos: &mut [EndInfo], who: usize, peer: Option<usize>)
    ensures { infos.new ≡ change (with_peer peer) who infos.old }
{
    let info = told_of(infos, who);
    put(infos, who, EndInfo { peer, ..info });
}

/// Sets the host of an end, and the state of its link.
fn set_host_and_state(infos: &mut [EndInfo], who: usize, host: usize, state: Option<State>)
    ensures { infos.new ≡ change (standing host state) who infos.old }
{
    let info = told_of(infos, who);
    put(
        infos,
        who,
        EndInfo {
            host,
            state,
            ..info
        },
    );
}

/// The end that an entry made by a request, or joined.
fn joining(entry: &Entry) -> Option<usize>
    ensures { result ≡ joins (entry_note entry.now) }
{
    match entry {
        Entry::Accepted { who, .. } | Entry::Joined { who, .. } => Some(*who),
        Entry::Opened { .. }
        | Entry::HandIn { .. }
        | Entry::HandOut { .. }
        | Entry::UnitTaken { .. }
        | Entry::EndAsked { .. }
        | Entry::Got { .. }
        | Entry::Released { .. }
        | Entry::Unit { .. }
        | Entry::Again { .. }
        | Entry::System { .. }
        | Entry::Told { .. }
        | Entry::Carried { .. }
        | Entry::Injected { .. } => None,
    }
}

impl EndSummaries {
    /// Without ends.
    pub fn new(alloc: Global) -> EndSummaries
        ensures { result.infos.items ≡ [] }
    {
        EndSummaries {
            infos: Vec::new(alloc),
        }
    }

    /// Reserves space for the ends that these entries make.
    pub fn reserve(&mut self, entries: &[Entry]) -> Result<(), AllocError>
        ensures same { self.new.infos.items ≡ self.old.infos.items }
        ensures room { OnOk result
            (vec_len self.new.infos + length entries.now ≤ vec_capacity self.new.infos) }
        ensures refused { OnErr result (0 < length entries.now) }
    {
        self.infos.reserve(entries.len())
    }

    /// Reads one more entry.
    fn read(&mut self, entry: &Entry)
        requires room { vec_len self.old.infos + 1 ≤ vec_capacity self.old.infos }
        requires few { (e : ℕ) → ((told_of self.old.infos.items e).given + 1 < 2 ^ 64)
            × ((told_of self.old.infos.items e).out + 1 < 2 ^ 64) }
        ensures told { self.new.infos.items
            ≡ summaries_with (entry_note entry.now) self.old.infos.items }
        ensures room { (more : ℕ)
            → vec_len self.old.infos + (more + 1) ≤ vec_capacity self.old.infos
            → vec_len self.new.infos + more ≤ vec_capacity self.new.infos }
    {
        match entry {
            Entry::Opened { .. } | Entry::Accepted { .. } => self.infos.push_reserved(nobody()),
            Entry::HandIn { who, .. } => add_given(&mut self.infos, *who),
            Entry::HandOut { who, .. } => add_out(&mut self.infos, *who),
            Entry::Unit { who, .. } => add_sent(&mut self.infos, *who),
            Entry::Joined { .. }
            | Entry::UnitTaken { .. }
            | Entry::EndAsked { .. }
            | Entry::Got { .. }
            | Entry::Released { .. }
            | Entry::Again { .. }
            | Entry::System { .. }
            | Entry::Told { .. }
            | Entry::Carried { .. }
            | Entry::Injected { .. } => {}
        }
    }

    /// Reads the entries of a log from an index on: new ends, messages handed in and out, and units
    /// sent.
    pub fn read_from(&mut self, log: &[Entry], from: usize)
        requires range { from ≤ length log.now }
        requires room { vec_len self.old.infos + (length log.now - from)
            ≤ vec_capacity self.old.infos }
        requires numbered { AreNumbered (entry_notes log.now) }
        requires counted { AreCounted (entry_notes (take from log.now)) self.old.infos.items }
        ensures counted { AreCounted (entry_notes log.now) self.new.infos.items }
        ensures same { StayAs self.old.infos.items self.new.infos.items }
    {
        for at in from..log.len() {
            self.read(&log[at]);
        }
    }

    /// Sets the peer of an end, or none, and this end as the peer of that one.
    fn pair(&mut self, who: usize, peer: Option<usize>)
        ensures { self.new.infos.items ≡ made_peers who peer self.old.infos.items }
    {
        set_peer(&mut self.infos, who, peer);
        if let Some(other) = peer {
            set_peer(&mut self.infos, other, Some(who));
        }
    }

    /// Sets the peer of the end that an entry made or joined.
    fn pair_by(&mut self, entry: &Entry, indexed_log: &IndexedLog)
        ensures { self.new.infos.items
            ≡ paired_by (joins (entry_note entry.now)) indexed_log.now.log self.old.infos.items }
    {
        if let Some(who) = joining(entry) {
            self.pair(who, indexed_log.peer(who));
        }
    }

    /// Sets the peers of the ends that the entries from an index on made or joined.
    pub fn pair_from(&mut self, indexed_log: &IndexedLog, from: usize)
        requires range { from ≤ length indexed_log.now.log }
        requires numbered { AreNumbered indexed_log.now.log }
        requires made { length self.old.infos.items ≡ length (scan indexed_log.now.log).roles }
        requires before { (e : ℕ) → (told_of self.old.infos.items e).peer
            ≡ peer_of (take from indexed_log.now.log) e }
        ensures peers { (e : ℕ) → (told_of self.new.infos.items e).peer ≡ peer_of indexed_log.now.log e }
        ensures alone { OthersStay self.old.infos.items self.new.infos.items }
        ensures count { length self.new.infos.items ≡ length self.old.infos.items }
    {
        peer_is_found();
        let log = indexed_log.log();
        for at in from..log.len() {
            self.pair_by(&log[at], indexed_log);
        }
    }

    /// Updates the end with an id of a host: to its present state, or to released.
    fn stand(&mut self, hosts: &Hosts, host: usize, id: u16, gone: bool)
        ensures { self.new.infos.items ≡ stood (end_at (here_at hosts.now host) id) host
            (state_by gone (state_on_host hosts.now host id)) self.old.infos.items }
    {
        if let Some(who) = hosts.known(host, id) {
            let state = if gone { None } else { hosts.state(host, id) };
            set_host_and_state(&mut self.infos, who, host, state);
        }
    }

    /// Updates the end of a link of a host, by its index: to its present state, or to released.
    fn update_end_at(&mut self, hosts: &Hosts, host: usize, place: usize, gone: bool)
        ensures { self.new.infos.items ≡ settled hosts.now host gone
            (slice_get (here_at hosts.now host) place) self.old.infos.items }
    {
        if let Some(id) = hosts.id(host, place) {
            self.stand(hosts, host, id, gone);
        }
    }

    /// Updates the ends of a host: each to its present state, or all to released.
    pub fn settle(&mut self, hosts: &Hosts, host: usize, gone: bool)
        requires { FitTogether hosts.now }
        ensures count { length self.new.infos.items ≡ length self.old.infos.items }
        ensures log { (who : ℕ) → logged (told_of self.new.infos.items who)
            ≡ logged (told_of self.old.infos.items who) }
        ensures here { (id who : ℕ) → end_at (here_at hosts.now host) id ≡ Some who
            → who < length self.old.infos.items
            → HasHostAndState host (state_by gone (state_on_host hosts.now host id))
            (told_of self.new.infos.items who) }
        ensures others { (who : ℕ) → ((id : ℕ) → end_at (here_at hosts.now host) id ≢ Some who)
            → told_of self.new.infos.items who ≡ told_of self.old.infos.items who }
    {
        for place in 0..hosts.links(host) {
            self.update_end_at(hosts, host, place, gone);
        }
    }
}
