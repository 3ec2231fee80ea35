//! The index of a log, kept entry by entry.

ghost use Rattle.std.specs.Prelude.{◌<◌, ◌≤◌, All, length};
ghost use Rattle.ipx_net.specs.Places.{AreListed};

use crate::entry::Entry;
use crate::parcel_origin::{Maker, ParcelOrigin, mark_at};
use crate::places::UnitPlaces;
use crate::reading::Reading;
use crate::role::{Role, join_role};
use std::alloc::{AllocError, Global};

/// The index of a log: of each parcel, of each unit in order (the end that first sent it), of each
/// packet that was read, and of each end.
#[derive(Drop)]
pub struct LogIndex {
    pub marks: Vec<ParcelOrigin>,
    pub sent: Vec<usize>,
    pub readings: Vec<Reading>,
    pub roles: Vec<Role>,
    /// The end that the last entry made or joined.
    pub newest: Option<usize>,
    /// The indices of the units of each end in `sent`.
    pub places: UnitPlaces,
    ghost listed: { AreListed places sent.items },
    ghost short: { All (λ m. m.passed ≤ length marks.items) marks.items },
}

impl LogIndex {
    ghost use Rattle.std.specs.Prelude.{◌≡◌, ◌+◌, ℕ, OnErr, OnOk};
    ghost use Rattle.spx_theory.specs.Note.{Accepted, Carried, Got, Joined, Opened, SendsUnit};
    ghost use Rattle.spx_theory.specs.Scan.{marked, seen, seen_all, unread};
    ghost use Rattle.ipx_net.specs.LogEntries.{entry_note, entry_notes};
    ghost use Rattle.ipx_net.specs.Sights.{HasSpace, maker_view, scan_of};

    /// Of an empty log.
    pub fn new(alloc: Global) -> LogIndex
        ensures { scan_of result ≡ unread }
    {
        LogIndex {
            marks: Vec::new(alloc),
            sent: Vec::new(alloc),
            readings: Vec::new(alloc),
            roles: Vec::new(alloc),
            newest: None,
            places: UnitPlaces::new(alloc),
        }
    }

    /// Reserves space for what these entries add.
    pub fn reserve(&mut self, entries: &[Entry]) -> Result<(), AllocError>
        ensures same { scan_of self.new ≡ scan_of self.old }
        ensures room { OnOk result (HasSpace (length entries.now) self.new) }
        ensures refused { OnErr result (0 < length entries.now) }
    {
        let more = entries.len();
        self.marks.reserve(more)?;
        self.sent.reserve(more)?;
        self.readings.reserve(more)?;
        self.roles.reserve(more)?;
        self.places.reserve(entries)
    }

    /// Adds a parcel that no router forwarded.
    fn add_mark(&mut self, maker: Maker)
        requires { HasSpace 1 self.old }
        ensures scan { scan_of self.new ≡ marked (maker_view maker) (scan_of self.old) }
        ensures room { (more : ℕ) → HasSpace (more + 1) self.old → HasSpace more self.new }
    {
        let mark = ParcelOrigin::made(self.marks.len(), maker, self.sent.len());
        self.marks.push_reserved(mark);
        self.newest = None;
    }

    /// Adds a unit that an end sends for the first time.
    fn add_unit(&mut self, who: usize)
        requires { HasSpace 1 self.old }
        ensures scan { (parcel : ℕ)
            → scan_of self.new ≡ seen (scan_of self.old) (SendsUnit who parcel) }
        ensures room { (more : ℕ) → HasSpace (more + 1) self.old → HasSpace more self.new }
    {
        self.places.add(who, self.sent.len());
        self.sent.push_reserved(who);
        let mark = ParcelOrigin::made(self.marks.len(), Maker::ByUnit(who), self.sent.len());
        self.marks.push_reserved(mark);
        self.newest = None;
    }

    /// Adds a parcel that a router forwards.
    fn carry(&mut self, from: usize)
        requires { HasSpace 1 self.old }
        ensures scan { (parcel : ℕ)
            → scan_of self.new ≡ seen (scan_of self.old) (Carried from parcel) }
        ensures room { (more : ℕ) → HasSpace (more + 1) self.old → HasSpace more self.new }
    {
        let mark = mark_at(&self.marks, from);
        self.marks.push_reserved(ParcelOrigin {
            passed: mark.passed + 1,
            ..mark
        });
        self.newest = None;
    }

    /// Adds a packet that an end reads.
    fn add_reading(&mut self, who: usize, parcel: usize)
        requires { HasSpace 1 self.old }
        ensures scan { scan_of self.new ≡ seen (scan_of self.old) (Got who parcel) }
        ensures room { (more : ℕ) → HasSpace (more + 1) self.old → HasSpace more self.new }
    {
        let mark = mark_at(&self.marks, parcel);
        let to = self.sent.len();
        self.readings.push_reserved(Reading {
            who,
            maker: mark.maker,
            from: mark.units,
            to,
            first: self.newest == Some(who),
        });
        self.newest = None;
    }

    /// Adds an end that its host opens.
    fn open(&mut self, buffers: u16)
        requires { HasSpace 1 self.old }
        ensures scan { (who host : ℕ)
            → scan_of self.new ≡ seen (scan_of self.old) (Opened who host buffers) }
        ensures room { (more : ℕ) → HasSpace (more + 1) self.old → HasSpace more self.new }
    {
        self.roles.push_reserved(Role::opened(buffers));
        self.places.open();
        self.newest = None;
    }

    /// Adds an end that a request makes.
    fn accept(&mut self, who: usize, parcel: usize, buffers: u16)
        requires { HasSpace 1 self.old }
        ensures scan { scan_of self.new ≡ seen (scan_of self.old) (Accepted who parcel buffers) }
        ensures room { (more : ℕ) → HasSpace (more + 1) self.old → HasSpace more self.new }
    {
        let mark = mark_at(&self.marks, parcel);
        self.roles
            .push_reserved(Role::accepted(buffers, mark.maker));
        self.places.open();
        self.newest = Some(who);
    }

    /// Joins an end, to which the reply to its request has arrived.
    fn join(&mut self, who: usize, parcel: usize)
        ensures scan { scan_of self.new ≡ seen (scan_of self.old) (Joined who parcel) }
        ensures room { (more : ℕ) → HasSpace (more + 1) self.old → HasSpace more self.new }
    {
        let mark = mark_at(&self.marks, parcel);
        join_role(&mut self.roles, who, mark.maker);
        self.newest = Some(who);
    }

    /// Reads one more entry.
    pub fn read(&mut self, entry: &Entry)
        requires { HasSpace 1 self.old }
        ensures scan { scan_of self.new ≡ seen (scan_of self.old) (entry_note entry.now) }
        ensures room { (more : ℕ) → HasSpace (more + 1) self.old → HasSpace more self.new }
    {
        match entry {
            Entry::Opened { buffers, .. } => self.open(*buffers),
            Entry::Accepted {
                who,
                parcel,
                buffers,
            } => self.accept(*who, *parcel, *buffers),
            Entry::Joined { who, parcel } => self.join(*who, *parcel),
            Entry::Got { who, parcel } => self.add_reading(*who, *parcel),
            Entry::Unit { who, .. } => self.add_unit(*who),
            Entry::Again { who, .. } => self.add_mark(Maker::ByUnit(*who)),
            Entry::System { who, .. } => self.add_mark(Maker::BySystem(*who)),
            Entry::Told { router, .. } => self.add_mark(Maker::ByRouter(*router)),
            Entry::Carried { from, .. } => self.carry(*from),
            Entry::Injected { .. } => self.add_mark(Maker::FromOutside),
            Entry::HandIn { .. }
            | Entry::HandOut { .. }
            | Entry::UnitTaken { .. }
            | Entry::EndAsked { .. }
            | Entry::Released { .. } => self.newest = None,
        }
    }

    /// Reads more entries, in order.
    pub fn read_all(&mut self, entries: &[Entry])
        requires { HasSpace (length entries.now) self.old }
        ensures { scan_of self.new ≡ seen_all (scan_of self.old) (entry_notes entries.now) }
    {
        for entry in entries {
            self.read(entry);
        }
    }
}
