//! The log of a network, and its parcels.

ghost use Rattle.std.specs.Prelude.{◌≡◌, ◌+◌, ◌++◌, ◌<◌, ◌≤◌, ◌↔◌, IsTrue, OnErr, OnOk, length, vec_capacity, vec_len};
ghost use Rattle.spx_theory.specs.EndsSummarized.{peer_of};
ghost use Rattle.spx_theory.specs.Peers.{IsFresh};
ghost use Rattle.ipx_net.specs.Begins.{BeginsAsRead};
ghost use Rattle.ipx_net.specs.IndexedLogView.{IndexedLogView, blank, written_on};
ghost use Rattle.ipx_net.specs.LogEntries.{entry_notes};
ghost use Rattle.ipx_net.specs.Parcels.{parcel_views};

use crate::entry::Entry;
use crate::handed::{is_beginning, is_silent};
use crate::log_index::LogIndex;
use crate::parcel::Parcel;
use ipx_wire::OutOfMemory;
use spx_theory::peer_is_found;
use std::alloc::Global;
use std::marker::Model;

/// What happened in a network, in order, and the parcels by their numbers.
#[derive(Drop)]
pub struct IndexedLog {
    parcels: Vec<Parcel>,
    entries: Vec<Entry>,
    scanned: LogIndex,
}

impl Model for IndexedLog {
    ghost use Rattle.std.specs.Prelude.{◌≡◌};
    ghost use Rattle.spx_theory.specs.Scan.{scan};
    ghost use Rattle.ipx_net.specs.IndexedLogView.{IndexedLogView};
    ghost use Rattle.ipx_net.specs.LogEntries.{entry_notes};
    ghost use Rattle.ipx_net.specs.Parcels.{parcel_views};
    ghost use Rattle.ipx_net.specs.Sights.{scan_of};

    ghost Value = { IndexedLogView };

    ghost view = { λ b.
        record { parcels = parcel_views b.parcels.items; log = entry_notes b.entries.items } };

    ghost invariant = { λ b. scan (entry_notes b.entries.items) ≡ scan_of b.scanned };
}

/// Appends items. There is space for them.
fn add_all<T: Drop>(items: &mut Vec<T>, more: Vec<T>)
    requires { vec_len items.old + vec_len more ≤ vec_capacity items.old }
    ensures { items.new.items ≡ items.old.items ++ more.items }
{
    let mut more = more;
    let _room = items.append(&mut more);
}

impl IndexedLog {
    /// An empty log. It allocates nothing.
    pub fn new(alloc: Global) -> IndexedLog
        ensures { result ≡ blank }
    {
        IndexedLog {
            parcels: Vec::new(alloc),
            entries: Vec::new(alloc),
            scanned: LogIndex::new(alloc),
        }
    }

    /// Appends parcels, and entries. If memory is refused, the log is as it was. If there is
    /// nothing to append, nothing is allocated.
    pub fn append(&mut self, parcels: Vec<Parcel>, entries: Vec<Entry>) -> Result<(), OutOfMemory>
        ensures ok { OnOk result (self.new
            ≡ written_on self.old (parcel_views parcels.items) (entry_notes entries.items)) }
        ensures unchanged { OnErr result (self.new ≡ self.old) }
        ensures refused { OnErr result (0 < length parcels.items + length entries.items) }
    {
        self.parcels.reserve(parcels.len())?;
        self.entries.reserve(entries.len())?;
        self.scanned.reserve(&entries)?;
        self.scanned.read_all(&entries);
        add_all(&mut self.entries, entries);
        add_all(&mut self.parcels, parcels);
        Ok(())
    }

    /// The log: what happened, from the start on.
    pub fn log(&self) -> &[Entry]
        ensures { entry_notes result.now ≡ self.now.log }
    {
        &self.entries
    }

    /// The parcels, by their numbers from 0.
    pub fn parcels(&self) -> &[Parcel]
        ensures { parcel_views result.now ≡ self.now.parcels }
    {
        &self.parcels
    }

    /// The peer of an end: one of the two dialled, and each was made or joined by a packet of the
    /// other. An end has at most one peer.
    pub fn peer(&self, end: usize) -> Option<usize>
        ensures { result ≡ peer_of self.now.log end }
    {
        self.scanned.peer(end)
    }

    /// Whether the messages that an end handed out are a prefix of those that were handed in at its
    /// peer. An end without a peer must have handed out none. It is false for a number of no end.
    pub fn begins(&self, end: usize) -> bool
        ensures { IsTrue result ↔ BeginsAsRead self.now.log end }
    {
        peer_is_found();
        if end >= self.scanned.roles.len() {
            return false;
        }
        match self.scanned.peer(end) {
            Some(peer) => is_beginning(&self.entries, end, peer),
            None => is_silent(&self.entries, end),
        }
    }

    /// Whether each packet that an end has read from its peer was sent fewer than 32,768 units of
    /// each of the two before.
    pub fn fresh(&self) -> bool
        ensures { IsTrue result ↔ IsFresh self.now.log }
    {
        self.scanned.are_recent()
    }
}
